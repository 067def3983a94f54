//! What the guide shows beside the example: a walk through a tree, and the tokens that may come next.
use crate::completed::are_completed;
use crate::example::{Failed, language, report};
use crate::expectations::same;
use lrpar::grammar::YaccGrammar;
use lrpar::parser::SyntaxKind;
use lrpar::{ParserData, RTParserBuilder, SyntaxTree};
use lrpar_lexer::{LexRule, RuleLexer};
use std::alloc::{AllocError, Global};
use std::process::Abort;
use std::test::Fail;

/// The names that a file sets, in order.
fn names<'a>(
    alloc: Global,
    grm: &YaccGrammar<u32>,
    tree: &SyntaxTree<u32>,
    input: &'a str,
) -> Result<Vec<&'a str>, AllocError> {
    let mut names = Vec::new(alloc);
    let Some(name) = grm.token_idx("NAME") else {
        return Ok(names);
    };
    for node in tree.nodes() {
        if node.kind() == SyntaxKind::Token(name) {
            let span = node.span();
            names.push(input.get(span.start()..span.end()).unwrap_or(""))?;
        }
    }
    Ok(names)
}

/// What may come after the text, a line each.
fn completions(
    alloc: Global,
    data: &ParserData<u32>,
    lexer: &RuleLexer<'_, '_>,
) -> Result<String, Failed> {
    let expected = RTParserBuilder::new(data).expected(alloc, lexer)?;
    let mut text = String::new(alloc);
    for token in &expected.tokens {
        text.push_str(data.grm().epp_of(*token))?;
        text.push('\n')?;
    }
    Ok(text)
}

#[test]
fn settings(rt: HostRuntime) -> Result<(), Fail> {
    let (data, rules) = language(rt.alloc())?;
    names_are_listed(&rt, rt.alloc(), &data, &rules);
    values_may_come_after_an_equals_sign(&rt, rt.alloc(), &data, &rules);
    settings_are_reported(&rt, rt.alloc(), &data, &rules);
    are_completed(&rt, rt.alloc(), &data, &rules)
}

fn names_are_listed(rt: &impl Abort, alloc: Global, data: &ParserData<u32>, rules: &[LexRule]) {
    let input = "width = 80; title = \"a\";";
    let lexer = RuleLexer::new(alloc, rules, input).expect(rt, "memory");
    let (tree, _) = RTParserBuilder::new(data)
        .parse_tree(alloc, &lexer)
        .expect(rt, "a parse");
    let tree = tree.expect(rt, "a tree");
    let names = names(alloc, data.grm(), &tree, input).expect(rt, "names");
    same(
        rt,
        &"names",
        &names.as_slice(),
        &["width", "title"].as_slice(),
    );
}

fn values_may_come_after_an_equals_sign(
    rt: &impl Abort,
    alloc: Global,
    data: &ParserData<u32>,
    rules: &[LexRule],
) {
    let lexer = RuleLexer::new(alloc, rules, "width =").expect(rt, "memory");
    let text = completions(alloc, data, &lexer).expect(rt, "tokens");
    same(rt, &"what may come", &text.as_str(), &"NUMBER\nTEXT\n");
}

// Texts, and the reports about them.
const REPORTS: [(&str, &str); 2] = [
    (
        "width = 80;\n",
        "File\n File\n Setting\n  NAME width\n  = =\n  Value\n   NUMBER 80\n  ; ;\n",
    ),
    (
        "width = 80",
        "Parsing error at line 1 column 11. No repair sequences found.\n",
    ),
];

fn settings_are_reported(
    rt: &impl Abort,
    alloc: Global,
    data: &ParserData<u32>,
    rules: &[LexRule],
) {
    for (input, expected) in REPORTS {
        let mut found = Vec::new(alloc);
        report(alloc, data, rules, input, &mut found).expect(rt, "a report");
        same(rt, &input, &found.as_slice(), &expected.as_bytes());
    }
}
