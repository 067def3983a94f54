//! The code of a grammar, and its spec.
use crate::actions::write_actions;
use crate::plan::{CodeFault, make_plan};
use crate::rows::{write_grammar, write_rows, write_tokens};
use crate::rules::{PlannedRule, plan_rules};
use crate::template::push_filled;
use crate::values::{write_makers, write_takers, write_typed, write_values};
use lrpar_grammar_typed::typed::{TypedGrammar, rule_index, word_at};
use sha1::Sha1;
use std::alloc::{AllocError, Global};

/// The code of a grammar: the file `src/syntax.rt` of the crate of this name. `text` is the text of the grammar.
///
/// `Err`: one label is that of two actions, two rules have one name in code, or an allocation failed.
pub fn rust_of(
    alloc: Global,
    name: &str,
    text: &str,
    grammar: &TypedGrammar,
) -> Result<String, CodeFault> {
    let plan = make_plan(alloc, text, grammar)?;
    let start = rule_index(grammar.start).and_then(|index| plan.rules.get(index));
    let Some(start) = start else {
        return Ok(String::new(alloc));
    };
    let life = life_of(grammar);
    let mut out = String::new(alloc);
    write_head(&mut out, name, text, grammar)?;
    write_grammar(&mut out, grammar)?;
    write_tokens(&mut out, alloc, grammar)?;
    write_actions(&mut out, alloc, &plan, life)?;
    write_values(&mut out, &plan.rules, life)?;
    write_rows(&mut out, alloc, grammar)?;
    write_typed(&mut out, &plan, start, life)?;
    write_makers(&mut out, alloc, &plan, life)?;
    write_takers(&mut out, alloc, &plan.rules, life)?;
    write_parse(&mut out, start, plan.rules.len(), life)?;
    Ok(out)
}

// The head of the spec.
const SPEC: &str = "\
-- The rules of values, and what holds of values: generated from a grammar.
use Rattle.std.specs.Prelude.{ℕ, IfSome}
use Rattle.std.specs.List.{All}
use Rattle.@name@.specs.declared.syntax.RuleValue.{RuleValue}
use Rattle.@name@.specs.declared.syntax.RuleValue.TheVariants.{";

/// The spec that the code of a grammar needs: the file `specs/Syntax.antt` of the crate of this name, which its `specs/Lib.antt` names.
/// `Err`: an allocation failed.
pub fn spec_of(alloc: Global, name: &str, grammar: &TypedGrammar) -> Result<String, AllocError> {
    let rules = plan_rules(alloc, grammar)?;
    let mut out = String::new(alloc);
    push_filled(&mut out, SPEC, &[("name", name)])?;
    let mut start = "";
    for rule in &rules {
        out.push_str(start)?;
        out.push_str(rule.camel.as_str())?;
        start = ", ";
    }
    out.push_str("}\n\n-- the rule of a value\nabbrev pub rule_of : RuleValue → ℕ\n")?;
    for rule in &rules {
        let words = [
            ("rule", rule.camel.as_str()),
            ("number", rule.number.as_str()),
        ];
        push_filled(&mut out, "rule_of (@rule@ v) = @number@\n", &words)?;
    }
    out.push_str(
        "
-- what holds of a value, by what actions show: of a list, what holds of its items, and of an option, what holds of what is there
abbrev pub HoldsOf : (RuleValue → Type 0) → RuleValue → Type 0
",
    )?;
    for rule in &rules {
        let fact = rule.fact.as_ref().map_or("Unit {0}", |fact| fact.as_str());
        let words = [("rule", rule.camel.as_str()), ("fact", fact)];
        push_filled(&mut out, "HoldsOf holds (@rule@ v) = @fact@\n", &words)?;
    }
    Ok(out)
}

// The lifetime of values, if they borrow from the text.
fn life_of(grammar: &TypedGrammar) -> &'static str {
    let borrows = grammar
        .rules
        .iter()
        .any(|rule| rule.value.as_str().contains("'text"));
    if borrows { "<'text>" } else { "" }
}

// The ghost imports.
const GHOSTS: &str = "
ghost use Rattle.std.specs.Prelude.{◌<◌, ◌≤◌, ◌↔◌, IfOk, IsTrue, length};
ghost use Rattle.lrpar_typed.specs.Rows.{AllHold, AreOfRow, AreRowsOf, IsOfRow, IsRuleNext, IsTaken, TakesRow};
ghost use Rattle.lrpar_typed.specs.TypedParse.{ValueHolds};
ghost use Rattle.@name@.specs.Syntax.{HoldsOf, rule_of};
ghost use Rattle.@name@.specs.declared.syntax.RuleValue.{RuleValue};
ghost use Rattle.@name@.specs.declared.syntax.TheConstants.{ROWS};

";

// Writes the head of the file.
fn write_head(
    out: &mut String,
    name: &str,
    text: &str,
    grammar: &TypedGrammar,
) -> Result<(), AllocError> {
    out.push_str(
        "\
//! The syntax of a language, generated from its grammar by `nimbleparse --rust`. To change it, edit the grammar and generate it again.
//!
//! SHA-1 of the grammar: ",
    )?;
    for byte in Sha1::digest(text.as_bytes()) {
        write!(out, "{byte:02x}")?;
    }
    push_filled(out, GHOSTS, &[("name", name)])?;
    for path in &grammar.uses {
        push_filled(out, "use @path@;\n", &[("path", word_at(text, *path))])?;
    }
    out.push_str(
        "\
use lrpar_lexer::{RuleLexer, Token, TokenTypes};
use lrpar_typed::{Lexeme, Recoverer, Typed};
use std::alloc::{AllocError, Global};

",
    )
}

// The table and the parse.
const PARSE: &str = "\
/// Whether the grammar of a table has these productions, no others, and this start rule.
pub(crate) fn has_syntax(checked: &lrpar_typed::ParserData<u32>) -> bool
    ensures { IsTrue result ↔ AreRowsOf ROWS @start@ checked.now.grammar }
{
    lrpar_typed::are_rows_of(&ROWS, @start@, checked.grm())
}

/// A table whose grammar has these productions.
#[derive(Drop)]
pub(crate) struct Table {
    pub(crate) checked: lrpar_typed::ParserData<u32>,
    ghost fits: { AreRowsOf ROWS @start@ checked.grammar },
}

impl Table {
    /// The table, if its grammar has these productions, no others, and this start rule.
    pub(crate) fn new(checked: lrpar_typed::ParserData<u32>) -> Option<Table> {
        if has_syntax(&checked) {
            Some(Table { checked })
        } else {
            None
        }
    }
}

/// The value of a text, if it has one, and its errors; or why there is neither.
pub(crate) type Parsed<ValueT, ErrorT> = Result<
    (
        Option<ValueT>,
        Vec<lrpar_typed::LexParseError<u32, TokenTypes<u32>>>,
    ),
    ErrorT,
>;

/// Parses a text to the value of `@name@`. What holds of values by the actions holds of it.
pub(crate) fn parse_@snake@<@borrow@R: Recoverer<u32, Token<u32>> + Drop, A: Actions@life@>(
    alloc: Global,
    parser: &lrpar_typed::RTParserBuilder<'_, u32, TokenTypes<u32>, R>,
    lexer: &RuleLexer<'_, @text@>,
    actions: &A,
) -> Parsed<@value@, A::Error>
    requires { AreRowsOf ROWS @start@ parser.now.checked.grammar }
    ensures { IfOk result (ValueHolds (λ v. HoldsOf (A.holds actions.now) (RuleValue.@rule@ v))) }
{
    let (value, errors) = lrpar_typed::parse_typed(parser, alloc, lexer, &Acting { actions })?;
    match value {
        Some(RuleValue::@rule@(value)) => Ok((Some(value), errors)),
        None => Ok((None, errors)),
@others@    }
}
";

// Writes the table and the parse.
fn write_parse<'x>(
    out: &mut String,
    start: &'x PlannedRule,
    rule_count: usize,
    life: &'x str,
) -> Result<(), AllocError> {
    let (borrow, text) = if life.is_empty() {
        ("", "'_")
    } else {
        ("'text, ", "'text")
    };
    let others = if rule_count > 1 {
        "        _ => unreachable!(),\n"
    } else {
        ""
    };
    push_filled(
        out,
        PARSE,
        &[
            ("start", start.number.as_str()),
            ("name", start.name.as_str()),
            ("rule", start.camel.as_str()),
            ("snake", start.snake.as_str()),
            ("value", start.value.as_str()),
            ("borrow", borrow),
            ("text", text),
            ("life", life),
            ("others", others),
        ],
    )
}
