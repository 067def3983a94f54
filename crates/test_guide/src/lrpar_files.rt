//! A tree by the files of an lrpar project, as a user writes it.
use crate::expectations::same;
use lrpar::build::TableOptions;
use lrpar::precedences::precedences_of_declarations;
use lrpar::yacc::{YaccFile, YaccKind};
use lrpar::{ParserData, RTParserBuilder};
use lrpar_lexer_lrlex::{StateLexer, rules_of_lrlex};
use std::alloc::Global;
use std::io::Write;
use std::test::Fail as Failed;

/// A grammar with actions and precedences.
const GRAMMAR: &str = "%start Expr
%left '+' '-'
%left '*'
%right '^'
%%
Expr -> Result<u64, ()>:
      Expr '+' Expr { Ok($1? + $3?) }
    | Expr '-' Expr { Ok($1? - $3?) }
    | Expr '*' Expr { Ok($1? * $3?) }
    | Expr '^' Expr { Ok($1?.pow($3?)) }
    | 'INT' { $lexer.span_str($1.unwrap().span()).parse() }
    ;
";

/// Rules with a start state for comments.
const RULES: &str = r#"%x COMMENT
%%
/\* <+COMMENT>;
<COMMENT>\*/ <-COMMENT>;
<COMMENT>.|\n ;
[0-9]+ "INT"
\+ "+"
- "-"
\* "*"
\^ "^"
[ \n] ;
"#;

// The checked table of a `.y` file.
fn table_of(alloc: Global, text: &str) -> Result<ParserData<u32>, Failed> {
    let file = YaccFile::<u32>::new_with_kind(alloc, YaccKind::Grmtools, text)?;
    let (grammar, text) = file.into_parts();
    let precedences = precedences_of_declarations(alloc, &grammar, &text.declarations)?;
    let options = TableOptions::new().precedences(&precedences);
    Ok(options.build(alloc, grammar)?)
}

// Writes the tree of an input by the rules of a `.l` file, if there is one.
fn show<W: Write>(
    alloc: Global,
    data: &ParserData<u32>,
    rules: &str,
    input: &str,
    out: &mut W,
) -> Result<(), Failed> {
    let rules = rules_of_lrlex(alloc, data.grm(), rules)?;
    let lexer = StateLexer::new(alloc, &rules, input)?;
    let (tree, _) = RTParserBuilder::new(data).parse_generictree(alloc, &lexer)?;
    if let Some(tree) = &tree {
        tree.write(alloc, data.grm(), input, out)?;
    }
    Ok(())
}

/// The tree of `1 - 2 - 3 * 4`.
const TREE: &str = "Expr
 Expr
  Expr
   INT 1
  - -
  Expr
   INT 2
 - -
 Expr
  Expr
   INT 3
  * *
  Expr
   INT 4
";

#[test]
fn tree_by_precedences(rt: HostRuntime) -> Result<(), Failed> {
    let data = table_of(rt.alloc(), GRAMMAR)?;
    let mut tree = Vec::new(rt.alloc());
    show(rt.alloc(), &data, RULES, "1 - 2 /* * */ - 3 * 4", &mut tree)?;
    same(&rt, &"a tree", &tree.as_slice(), &TREE.as_bytes());
    Ok(())
}
