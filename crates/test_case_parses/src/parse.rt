//! Cases `parse`: the results of the four calls by both tables, which have to be the same.
ghost use Rattle.std.specs.Prelude.{◌≡◌};

use crate::at_errors::push_expected_at_errors;
use crate::calls::{Answer, CALLS, Call, Parser, Places, answer_by};
use crate::clones::{push_clone_of_tree, push_clones_of_errors};
use crate::lexemes::{Given, ListLexer, given_of};
use crate::recoverer::recoverer_of;
use crate::shown::{CaseError, Tree, push_errors, push_places, push_tree};
use lrpar_grammar::grammar::YaccGrammar;
use lrpar_grammar::span::TIdx;
use lrpar_lexer::RuleLexer;
use lrpar_parse::RTParserBuilder;
use lrpar_parse::parser::{ParseFault, PpFault};
use lrpar_table::check::ParserData;
use std::alloc::Global;
use std::cell::RefCell;
use test_case_lines::cases::Case;
use test_case_lines::fault::Fault;
use test_case_lines::printed::Printed;
use test_case_tables::subject::{Subject, Tables};

/// The keys of the lines that say what is done.
pub const INPUTS: &[&str] = &[
    "lexemes",
    "shifts",
    "repairs",
    "recoverer",
    "or",
    "within",
    "costs",
    "avoid",
    "at-most",
    "list",
    "input",
    "print",
    "show",
    "hide",
];

// What comes of a parse.
#[derive(Drop)]
struct Parsed {
    // Its fault, or its errors.
    errors: Printed,
    // Its tree.
    tree: Printed,
    // Where the rules of the tree lie, if that is noted.
    places: Printed,
}

/// What comes of the case.
pub fn outcome(
    out: &mut Printed,
    alloc: Global,
    subject: Option<Subject<'_, '_, '_>>,
    case: Case<'_, '_>,
) -> Result<(), Fault> {
    let Some(Subject { case: _, tables }) = subject else {
        return Err(Fault::Line(case.number, "a grammar is wanted above"));
    };
    push_parsed(out, alloc, tables, case)
}

/// What comes of the lexemes of the case by these tables.
pub(crate) fn push_parsed(
    out: &mut Printed,
    alloc: Global,
    tables: &Tables,
    case: Case<'_, '_>,
) -> Result<(), Fault> {
    let given = given_of(alloc, tables.by_rows.grm(), case)?;
    let input = case.text(alloc, "input")?;
    by_lexemes(out, alloc, tables, case, &given, input.as_str())
}

// What comes of these lexemes.
fn by_lexemes<'a>(
    out: &mut Printed,
    alloc: Global,
    tables: &Tables,
    case: Case<'_, '_>,
    given: &'a [Given],
    input: &'a str,
) -> Result<(), Fault> {
    let lexer = ListLexer::new(alloc, given, input)?;
    let by_rows = parser_of(alloc, &tables.by_rows, case)?;
    let by_entries = parser_of(alloc, &tables.by_entries, case)?;
    by_parsers(out, alloc, case, &by_rows, &by_entries, &lexer, input);
    push_expected_at_errors(out, alloc, case, tables, &by_rows, &lexer);
    Ok(())
}

// The parser of the case by a table.
fn parser_of<'a>(
    alloc: Global,
    data: &'a ParserData<u32>,
    case: Case<'_, '_>,
) -> Result<Parser<'a>, Fault> {
    let recoverer = recoverer_of(alloc, data, case)?;
    let parser = RTParserBuilder::new(data).recoverer(recoverer);
    let Some((value, number)) = case.value("shifts") else {
        return Ok(parser);
    };
    match parser.shifts(value.parse().unwrap_or(0)) {
        Ok(parser) => Ok(parser),
        Err(_) => Err(Fault::Line(number, "a number of at least 1 is wanted")),
    }
}

// What comes of the parses by both parsers: that of the first parser by actions, and which other ones differ from it.
fn by_parsers(
    out: &mut Printed,
    alloc: Global,
    case: Case<'_, '_>,
    first: &Parser<'_>,
    second: &Parser<'_>,
    lexer: &ListLexer<'_>,
    input: &str,
) {
    let places = RefCell::new(Vec::new(alloc));
    let answer = answer_by(alloc, Call::ParseActions, first, lexer, &places);
    let expected = answered(alloc, case, first.grammar(), &answer, &places);
    out.append(&expected.errors);
    out.field("tree", expected.tree.so_far());
    push_noted(out, case, first.grammar(), &places);
    push_cloned(out, alloc, case, &answer);
    push_printed(out, alloc, case, first.grammar(), input, &answer);
    for call in CALLS {
        push_difference(out, alloc, case, &expected, call, first, lexer);
        push_difference(out, alloc, case, &expected, call, second, lexer);
    }
}

// What comes of an answer.
fn answered(
    alloc: Global,
    case: Case<'_, '_>,
    grm: &YaccGrammar<u32>,
    answer: &Answer,
    noted: &Places,
) -> Parsed {
    let (mut errors, mut tree) = (Printed::new(alloc), Printed::new(alloc));
    let mut places = Printed::new(alloc);
    match answer {
        Err(ParseFault::Memory) => errors.lack_memory(),
        Err(fault) => errors.line("fault ", fault),
        Ok((value, listed)) => {
            push_errors(&mut errors, grm, case.value("hide").is_none(), listed);
            if let Some(value) = value {
                push_tree(&mut tree, grm, value);
                if let Ok(noted) = noted.try_borrow() {
                    push_places(&mut places, grm, &noted);
                }
            }
        }
    }
    Parsed {
        errors,
        tree,
        places,
    }
}

// Adds where the rules lie, if the case asks.
fn push_noted(out: &mut Printed, case: Case<'_, '_>, grm: &YaccGrammar<u32>, places: &Places) {
    if case.value_or_nothing("show") == "places" {
        if let Ok(noted) = places.try_borrow() {
            push_places(out, grm, &noted);
        }
    }
}

// Adds what clones of the errors and of the tree are, if the case asks.
fn push_cloned(out: &mut Printed, alloc: Global, case: Case<'_, '_>, answer: &Answer) {
    if let ("clones", Ok((tree, errors))) = (case.value_or_nothing("show"), answer) {
        push_clones_of_errors(out, errors);
        if let Some(tree) = tree {
            push_clone_of_tree(out, alloc, tree);
        }
    }
}

// Adds the texts of the errors and of the tree, if the case asks.
fn push_printed<'a>(
    out: &mut Printed,
    alloc: Global,
    case: Case<'_, '_>,
    grm: &'a YaccGrammar<u32>,
    input: &'a str,
    answer: &Answer,
) {
    if let (Some((value, _)), Ok((tree, errors))) = (case.value("print"), answer) {
        let without = value.strip_prefix("all but ").unwrap_or("");
        push_texts(out, alloc, grm, without.trim_matches('\''), input, errors);
        if let Some(tree) = tree {
            push_tree_text(out, alloc, grm, input, tree);
        }
    }
}

// Adds the texts of errors, if all tokens but this one have a printed name.
fn push_texts<'a>(
    out: &mut Printed,
    alloc: Global,
    grm: &'a YaccGrammar<u32>,
    without: &str,
    input: &'a str,
    errors: &[CaseError],
) {
    let Ok(lexer) = RuleLexer::new(alloc, &[], input) else {
        return out.lack_memory();
    };
    for error in errors {
        push_error_text(out, alloc, grm, without, &lexer, input, error);
    }
}

// Adds the text of an error; or that there is none.
fn push_error_text<'a>(
    out: &mut Printed,
    alloc: Global,
    grm: &'a YaccGrammar<u32>,
    without: &str,
    lexer: &RuleLexer<'a, 'a>,
    input: &'a str,
    error: &CaseError,
)
    requires { lexer.now.input.now ≡ input.now }
{
    if !error.fits(input) {
        return out.text("unfit error\n");
    }
    match error.pp(alloc, lexer, |token| printed_name(grm, without, token)) {
        Ok(text) => out.lines("text", text.as_str()),
        Err(PpFault::Memory) => out.lack_memory(),
        Err(fault) => out.line("", &fault),
    }
}

// What is printed for a token, if it isn't the one without a printed name.
fn printed_name<'a>(grm: &'a YaccGrammar<u32>, without: &str, token: TIdx<u32>) -> Option<&'a str> {
    Some(grm.epp_of(token)).filter(|name| *name != without)
}

// Adds the text of a tree.
fn push_tree_text(
    out: &mut Printed,
    alloc: Global,
    grm: &YaccGrammar<u32>,
    input: &str,
    tree: &Tree,
) {
    if !tree.fits(grm, input) {
        return out.text("unfit tree\n");
    }
    match tree.pp(alloc, grm, input) {
        Ok(text) => out.field("text", text.as_str()),
        Err(_) => out.lack_memory(),
    }
}

// Adds a line if the parse by the call doesn't come to what is expected. A parse to errors alone has no tree, and only calls with actions
// or spans have places.
fn push_difference(
    out: &mut Printed,
    alloc: Global,
    case: Case<'_, '_>,
    expected: &Parsed,
    call: Call,
    parser: &Parser<'_>,
    lexer: &ListLexer<'_>,
) {
    let places = RefCell::new(Vec::new(alloc));
    let answer = answer_by(alloc, call, parser, lexer, &places);
    let found = answered(alloc, case, parser.grammar(), &answer, &places);
    let is_same_tree = out.agree(&found.tree, &expected.tree);
    let is_tree_right = is_same_tree || matches!(call, Call::ParseNoaction);
    let has_places = matches!(call, Call::ParseActions | Call::ParseTree);
    let are_places_right = !has_places || out.agree(&found.places, &expected.places);
    if !out.agree(&found.errors, &expected.errors) || !is_tree_right || !are_places_right {
        out.text("differs ");
        out.debug(&call);
        out.text("\n");
    }
}
