//! The command `calc`: sums and products, one a line.
ghost use Rattle.std.specs.Prelude.{◌≡◌};

use lrpar_grammar::grammar::YaccGrammar;
use lrpar_grammar::span::{Span, TIdx};
use lrpar_lexer::{RuleLexer, Token, TokenTypes};
use lrpar_parse_lexemes::lex_api::{Lexeme, NonStreamingLexer};
use lrpar_table::check::ParserData;
use program_files::fault::Fault;
use program_files::files::input_text;
use program_files::parsing::{TextError, TextParser, print_errors, print_line, text_parser_of};
use program_files::tables::data_of;
use std::alloc::Global;
use std::io::{Read, Write};

/// The grammar of sums and products.
const GRAMMAR: &str =
    "%start Expr %% Expr: Expr '+' Term | Term; Term: Term '*' Factor | Factor; Factor: '(' Expr ')' | 'INT';";

/// The rules of their lexer.
const LEXER: &str = "[0-9]+ 'INT'\n\\+ '+'\n\\* '*'\n\\( '('\n\\) ')'\n[\\t ]+ ;\n";

/// The value of a symbol: a sign, or a number, if it has one.
#[derive(Clone, Copy)]
enum Part {
    Sign(Sign),
    Number(Option<u64>),
}

/// A sign.
#[derive(Clone, Copy)]
enum Sign {
    Plus,
    Times,
    Bracket,
}

/// The value of a line, if it has one, and its errors.
type Parsed = (Option<Part>, Vec<TextError>);

/// What is found in a line.
#[derive(Clone, Copy)]
struct Found {
    number: Option<u64>,
    has_errors: bool,
}

/// Computes each line of the input that isn't white space alone, with the repairs of a text. Prints its errors and then its number
/// on `out`, or says on `err` that it has none. Returns whether each line has a number, and no error.
///
/// The input is read after the repairs are made, and before the first line is computed.
pub(crate) fn run_calc<I: Read + Drop, O: Write, E: Write>(
    alloc: Global,
    repairs: &str,
    shifts: Option<usize>,
    input: I,
    out: &mut O,
    err: &mut E,
) -> Result<bool, Fault> {
    let data = data_of(alloc, GRAMMAR)?;
    compute_input(alloc, &data, repairs, shifts, input, out, err)
}

// Computes the lines of the input by the table of sums and products.
fn compute_input<I: Read + Drop, O: Write, E: Write>(
    alloc: Global,
    data: &ParserData<u32>,
    repairs: &str,
    shifts: Option<usize>,
    input: I,
    out: &mut O,
    err: &mut E,
) -> Result<bool, Fault> {
    let text_parser = text_parser_of(alloc, data, LEXER, repairs, shifts)?;
    let text = input_text(alloc, input)?;
    compute_lines(alloc, &text_parser, text.as_str(), out, err)
}

// Computes the lines of a text.
fn compute_lines<O: Write, E: Write>(
    alloc: Global,
    text_parser: &TextParser<'_>,
    text: &str,
    out: &mut O,
    err: &mut E,
) -> Result<bool, Fault> {
    let mut all = true;
    for line in text.split_inclusive('\n') {
        all = compute_line(alloc, text_parser, without_end(line), out, err)? && all;
    }
    Ok(all)
}

// The line without its line feed, and without a carriage return directly before it.
fn without_end(line: &str) -> &str {
    match line.strip_suffix('\n') {
        Some(line) => line.strip_suffix('\r').unwrap_or(line),
        None => line,
    }
}

// Computes a line. A line of white space alone counts as clean.
fn compute_line<O: Write, E: Write>(
    alloc: Global,
    text_parser: &TextParser<'_>,
    line: &str,
    out: &mut O,
    err: &mut E,
) -> Result<bool, Fault> {
    if line.trim().is_empty() {
        return Ok(true);
    }
    let found = parse_line(alloc, text_parser, line, out)?;
    print_result(found.number, out, err)?;
    Ok(found.number.is_some() && !found.has_errors)
}

// Parses a line, prints its errors, and returns what is found in it.
fn parse_line<'a, O: Write>(
    alloc: Global,
    text_parser: &'a TextParser<'_>,
    line: &'a str,
    out: &mut O,
) -> Result<Found, Fault> {
    let lexer = RuleLexer::new(alloc, &text_parser.rules, line)?;
    let parsed = fold_line(alloc, text_parser, &lexer, line)?;
    print_line_errors(alloc, &text_parser.names, &lexer, line, &parsed, out)
}

// The value of a line, if it has one, and its errors.
fn fold_line(
    alloc: Global,
    text_parser: &TextParser<'_>,
    lexer: &RuleLexer<'_, '_>,
    line: &str,
) -> Result<Parsed, Fault> {
    let grm = text_parser.parser.grammar();
    Ok(
        text_parser.parser.parse_map(
            alloc,
            lexer,
            |lexeme| part_of(grm, line, lexeme),
            |_, parts| value_of(&parts),
        )?,
    )
}

// Prints the errors of a parsed line, and returns what is found in it.
fn print_line_errors<'a, L: NonStreamingLexer<'a, TokenTypes>, O: Write>(
    alloc: Global,
    names: &'a [&'a str],
    lexer: &L,
    line: &str,
    parsed: &Parsed,
    out: &mut O,
) -> Result<Found, Fault>
    requires { L.text lexer.now ≡ line.now }
{
    let (value, errors) = parsed;
    print_errors(alloc, names, lexer, line, errors, out)?;
    Ok(Found {
        number: match value {
            Some(part) => number_of(*part),
            None => None,
        },
        has_errors: !errors.is_empty(),
    })
}

// The value of a lexeme. It has no number if a repair made it, or if its number is too large.
fn part_of(grm: &YaccGrammar<u32>, line: &str, lexeme: Token<u32>) -> Part {
    match token_name(grm, lexeme.tok_id()) {
        "+" => Part::Sign(Sign::Plus),
        "*" => Part::Sign(Sign::Times),
        "INT" if lexeme.faulty() => Part::Number(None),
        "INT" => Part::Number(number_at(line, lexeme.span())),
        _ => Part::Sign(Sign::Bracket),
    }
}

// The number at a place of a line, if it isn't too large.
fn number_at(line: &str, span: Span) -> Option<u64> {
    line.get(span.start()..span.end())?.parse::<u64>().ok()
}

// The name of a token.
fn token_name(grm: &YaccGrammar<u32>, number: u32) -> &str {
    let token = TIdx(number);
    if usize::from(token) < grm.tokens_len() {
        grm.token_name(token).unwrap_or("")
    } else {
        ""
    }
}

// The value of a right side.
fn value_of(parts: &[Part]) -> Part {
    Part::Number(match parts {
        [part] => number_of(*part),
        [left, middle, right] => number_of_three(*left, *middle, *right),
        _ => None,
    })
}

// The number of a sum, of a product, or of what is in brackets.
fn number_of_three(left: Part, middle: Part, right: Part) -> Option<u64> {
    match middle {
        Part::Sign(Sign::Plus) => sum(number_of(left), number_of(right)),
        Part::Sign(Sign::Times) => product(number_of(left), number_of(right)),
        middle => number_of(middle),
    }
}

// The number of a part, if it has one.
fn number_of(part: Part) -> Option<u64> {
    match part {
        Part::Number(number) => number,
        Part::Sign(_) => None,
    }
}

// The sum of two numbers, if there are both and it fits.
fn sum(left: Option<u64>, right: Option<u64>) -> Option<u64> {
    left?.checked_add(right?)
}

// The product of two numbers, if there are both and it fits.
fn product(left: Option<u64>, right: Option<u64>) -> Option<u64> {
    left?.checked_mul(right?)
}

// Prints a line's number, or says that it has none.
fn print_result<O: Write, E: Write>(
    number: Option<u64>,
    out: &mut O,
    err: &mut E,
) -> Result<(), Fault> {
    match number {
        Some(number) => print_number(out, number),
        None => print_none(out, err),
    }
}

// Prints a line's number.
fn print_number<O: Write>(out: &mut O, number: u64) -> Result<(), Fault> {
    writeln!(out, "Result: {number}")?;
    Ok(())
}

// Says that a line has no number, after `out` is flushed. A failure of `err` is ignored.
fn print_none<O: Write, E: Write>(out: &mut O, err: &mut E) -> Result<(), Fault> {
    out.flush()?;
    let _ = print_line(err, "Unable to evaluate expression.");
    Ok(())
}
