//! Parses of texts by rules, and what is printed of them.
ghost use Rattle.std.specs.Prelude.{◌≡◌};

use crate::fault::Fault;
use crate::repairs::recoverer_of;
use lrpar_grammar::grammar::YaccGrammar;
use lrpar_grammar::span::TIdx;
use lrpar_lexer::{LexRule, Token, TokenTypes, rules_of};
use lrpar_parse::RTParserBuilder;
use lrpar_parse::parser::SyntaxTree;
use lrpar_parse_errors::errors::LexParseError;
use lrpar_parse_lexemes::lex_api::NonStreamingLexer;
use lrpar_parse_repair::repair::{FixedRecoverer, Recoverer};
use lrpar_table::check::ParserData;
use std::alloc::{AllocError, Global};
use std::io::Write;

/// A parser of the program.
pub type Parser<'a> = RTParserBuilder<'a, u32, TokenTypes, FixedRecoverer<u32>>;

/// An error of a parse.
pub type TextError = LexParseError<u32, TokenTypes>;

/// The tree of a text, if there is one, and the errors.
pub type Parsed<TreeT> = (Option<TreeT>, Vec<TextError>);

/// A parser of texts, with the rules of its lexer and what its messages print.
#[derive(Drop)]
pub struct TextParser<'a> {
    /// The rules of the lexer.
    pub rules: Vec<LexRule>,
    /// The parser, with its repairs.
    pub parser: Parser<'a>,
    /// What messages print for the tokens, in their order.
    pub names: Vec<&'a str>,
}

/// The parser of texts by this table, and by the texts of a lexer and of repairs.
pub fn text_parser_of<'a>(
    alloc: Global,
    data: &'a ParserData<u32>,
    lexer: &str,
    repairs: &str,
    shifts: Option<usize>,
) -> Result<TextParser<'a>, Fault> {
    let rules = rules_of(alloc, data.grm(), lexer)?;
    let parser = repairing_parser(alloc, data, repairs, shifts)?;
    let names = printed_names(alloc, data.grm())?;
    Ok(TextParser {
        rules,
        parser,
        names,
    })
}

// The parser by this table, with the repairs of a text.
fn repairing_parser<'a>(
    alloc: Global,
    data: &'a ParserData<u32>,
    repairs: &str,
    shifts: Option<usize>,
) -> Result<Parser<'a>, Fault> {
    let repairs = recoverer_of(alloc, data.grm(), repairs)?;
    parser_by(data, repairs, shifts)
}

/// The parser by this table, with these repairs; `shifts` lexemes have to follow a repair, if it is given.
pub fn parser_by(
    data: &ParserData<u32>,
    repairs: FixedRecoverer<u32>,
    shifts: Option<usize>,
) -> Result<Parser<'_>, Fault> {
    with_shifts(RTParserBuilder::new(data).recoverer(repairs), shifts)
}

/// The parser with this number of lexemes that have to follow a repair, if it is given. Returns [`Fault::ZeroShifts`] for 0.
pub fn with_shifts<'a, R: Recoverer<u32, Token<u32>> + Drop>(
    parser: RTParserBuilder<'a, u32, TokenTypes, R>,
    shifts: Option<usize>,
) -> Result<RTParserBuilder<'a, u32, TokenTypes, R>, Fault> {
    match shifts {
        Some(count) => match parser.shifts(count) {
            Ok(parser) => Ok(parser),
            Err(_) => Err(Fault::ZeroShifts),
        },
        None => Ok(parser),
    }
}

/// What messages print for the tokens of a grammar, in their order.
pub fn printed_names(alloc: Global, grm: &YaccGrammar<u32>) -> Result<Vec<&str>, AllocError> {
    let mut names = Vec::new(alloc);
    for token in grm.iter_tidxs() {
        names.push(grm.epp_of(token))?;
    }
    Ok(names)
}

/// Parses the lexer's text. Prints each error's text and a line feed, and then the tree's text, if there is a tree. Returns whether
/// there is a tree, and no error.
pub fn print_tree<'a, L: NonStreamingLexer<'a, TokenTypes>, O: Write>(
    alloc: Global,
    parser: &Parser<'_>,
    names: &'a [&'a str],
    lexer: &L,
    input: &str,
    out: &mut O,
) -> Result<bool, Fault>
    requires { L.text lexer.now ≡ input.now }
{
    let parsed = parse_text(alloc, parser, lexer)?;
    print_parsed(alloc, parser.grammar(), names, lexer, input, &parsed, out)
}

// The tree of the lexer's text, if there is one, and the errors.
fn parse_text<'a, L: NonStreamingLexer<'a, TokenTypes>>(
    alloc: Global,
    parser: &Parser<'_>,
    lexer: &L,
) -> Result<Parsed<SyntaxTree<u32>>, Fault> {
    Ok(parser.parse_tree(alloc, lexer)?)
}

// Prints the errors and the tree.
fn print_parsed<'a, L: NonStreamingLexer<'a, TokenTypes>, O: Write>(
    alloc: Global,
    grm: &YaccGrammar<u32>,
    names: &'a [&'a str],
    lexer: &L,
    input: &str,
    parsed: &Parsed<SyntaxTree<u32>>,
    out: &mut O,
) -> Result<bool, Fault>
    requires { L.text lexer.now ≡ input.now }
{
    let (tree, errors) = parsed;
    print_errors(alloc, names, lexer, input, errors, out)?;
    if let Some(tree) = tree {
        tree.write(alloc, grm, input, out)?;
    }
    Ok(tree.is_some() && errors.is_empty())
}

/// Prints each error's text and a line feed.
pub fn print_errors<'a, L: NonStreamingLexer<'a, TokenTypes>, O: Write>(
    alloc: Global,
    names: &'a [&'a str],
    lexer: &L,
    input: &str,
    errors: &[TextError],
    out: &mut O,
) -> Result<(), Fault>
    requires { L.text lexer.now ≡ input.now }
{
    for error in errors {
        let text = error_text(alloc, names, lexer, input, error)?;
        print_line(out, text.as_str())?;
    }
    Ok(())
}

/// Prints the text and a line feed.
pub fn print_line<O: Write>(out: &mut O, text: &str) -> Result<(), Fault> {
    writeln!(out, "{text}")?;
    Ok(())
}

/// The text of an error. Each token has a printed text, so the only failures are [`Fault::Misplaced`] and [`Fault::Memory`].
pub fn error_text<'a, L: NonStreamingLexer<'a, TokenTypes>>(
    alloc: Global,
    names: &'a [&'a str],
    lexer: &L,
    input: &str,
    error: &TextError,
) -> Result<String, Fault>
    requires { L.text lexer.now ≡ input.now }
{
    if !error.fits(input) {
        return Err(Fault::Misplaced);
    }
    match error.pp(alloc, lexer, |token| Some(name_at(names, token))) {
        Ok(text) => Ok(text),
        Err(_) => Err(Fault::Memory),
    }
}

// What messages print for a token: nothing, if it isn't one of the grammar.
fn name_at<'a>(names: &'a [&'a str], token: TIdx<u32>) -> &'a str {
    match names.get(usize::from(token)) {
        Some(name) => *name,
        None => "",
    }
}
