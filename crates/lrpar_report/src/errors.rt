//! Reports of errors of inputs.
ghost use Rattle.std.specs.Prelude.{◌≡◌, IfOk};
ghost use Rattle.lrpar_report.specs.FaultPlaces.{IsCharacterAt, ShowsCharacter, ShowsError};
ghost use Rattle.lrpar_report_lines.specs.Labels.{HasOneLabel};
ghost use Rattle.lrpar_report_lines.specs.declared.levels.Level.TheVariants.{Error};

use crate::choices::{push_choices, push_quoted};
use lrpar_grammar::grammar::YaccGrammar;
use lrpar_grammar::span::{Span, StorageIndex, TIdx};
use lrpar_parse_errors::errors::{LexParseError, ParseError};
use lrpar_parse_lexemes::lex_api::{LexError, Lexeme, LexerTypes};
use lrpar_report_lines::{Report, next_boundary, part_of};
use lrpar_table::check::ParserData;
use std::alloc::{AllocError, Global};

/// How many characters of an unexpected lexeme are shown at most.
const MOST_CHARACTERS: usize = 40;

/// The report of an error of a parse: that of [`lexing_report`] or of [`parse_report`]. `data` should be the table of the parse, and
/// `text` its input; else the report means nothing. `TextReports` of `lrpar_report_fixes` makes reports that offer fixes.
///
/// Takes time linear in the report, and in the part of the text that the error names. `Err`: out of memory.
pub fn error_report<StorageT: StorageIndex, LexerTypesT: LexerTypes<StorageT = StorageT>>(
    alloc: Global,
    data: &ParserData<StorageT>,
    text: &str,
    error: &LexParseError<StorageT, LexerTypesT>,
) -> Result<Report, AllocError>
    ensures level { IfOk result (λ report. report.level ≡ Error) }
    ensures spans { IfOk result (ShowsError LexerTypesT.LexErrorT.place (λ x. (LexerTypesT.LexemeT.parts x).span) text.now error.now) }
{
    match error {
        LexParseError::LexError(error) => lexing_report(alloc, text, error),
        LexParseError::ParseError(error) => parse_report(alloc, data, text, error),
    }
}

/// The report of a lexing error: `unexpected character 'C'`, at the character of the text at which the error starts. A character that
/// isn't a visible one of ASCII is named by its number, too, as `U+00A7`.
///
/// Takes constant time. `Err`: out of memory.
pub fn lexing_report<ErrorT: LexError>(
    alloc: Global,
    text: &str,
    error: &ErrorT,
) -> Result<Report, AllocError>
    ensures level { IfOk result (λ report. report.level ≡ Error) }
    ensures span { IfOk result (ShowsCharacter text.now (ErrorT.place error.now).start) }
{
    let span = character_at(text, error.span().start());
    let mut message = String::from_str(alloc, "unexpected ")?;
    push_character(&mut message, part_text(text, span))?;
    Report::error(alloc, message.as_str())?.label(span, "no rule of the lexer matches here")
}

// The place of the character at a byte, which is moved to the next boundary of characters. It is empty at the text's end.
fn character_at(text: &str, byte: usize) -> Span
    ensures { IsCharacterAt text.now byte result }
{
    let start = next_boundary(text, byte);
    Span::new(start, next_boundary(text, start + 1))
}

// Adds a character, and its number, if it isn't a visible one of ASCII; or that the input ends, if there is none.
fn push_character(out: &mut String, text: &str) -> Result<(), AllocError> {
    let Some(c) = text.chars().next() else {
        return out.push_str("end of input");
    };
    out.push_str("character ")?;
    push_quoted(out, text)?;
    if c.is_ascii_graphic() {
        return Ok(());
    }
    let number = u32::from(c);
    write!(out, " (U+{number:04X})")
}

/// The report of a parse error: that of [`unexpected_report`], with the tokens at which the state of the error has an action. `data`
/// should be the table of the parse, and `text` its input; else the report means nothing. It says nothing of repairs: `TextReports` of
/// `lrpar_report_fixes` makes reports that offer fixes.
///
/// Takes time linear in the report, and in the part of the text that the error names. `Err`: out of memory.
pub fn parse_report<LexemeT: Lexeme<StorageT>, StorageT: StorageIndex>(
    alloc: Global,
    data: &ParserData<StorageT>,
    text: &str,
    error: &ParseError<LexemeT, StorageT>,
) -> Result<Report, AllocError>
    ensures level { IfOk result (λ report. report.level ≡ Error) }
    ensures span { IfOk result (HasOneLabel (LexemeT.parts (error.now).lexeme).span) }
{
    let expected = error.expected(data);
    unexpected_report(alloc, data.grm(), text, error.lexeme(), expected)
}

/// The report of a lexeme of a text that can't be where it is, and of the tokens that can: `unexpected 'LEXEME', expected A, B or C`. The
/// end lexeme is named `end of input`. Of a lexeme at most 40 characters are named, and of the tokens at most twelve.
///
/// Takes time linear in the report, and in the part of the text that is the lexeme. `Err`: out of memory.
pub fn unexpected_report<LexemeT: Lexeme<StorageT>, StorageT: StorageIndex>(
    alloc: Global,
    grm: &YaccGrammar<StorageT>,
    text: &str,
    lexeme: &LexemeT,
    expected: &[TIdx<StorageT>],
) -> Result<Report, AllocError>
    ensures level { IfOk result (λ report. report.level ≡ Error) }
    ensures span { IfOk result (HasOneLabel (LexemeT.parts lexeme.now).span) }
{
    let is_end = lexeme.tok_id().to_index().saturating_add(1) >= grm.tokens_len();
    let mut message = String::from_str(alloc, "unexpected ")?;
    push_lexeme(&mut message, text, is_end, lexeme.span())?;
    push_expected(&mut message, grm, expected)?;
    Report::error(alloc, message.as_str())?.label(lexeme.span(), "")
}

// Adds the tokens that are expected, if there are any.
fn push_expected<StorageT: StorageIndex>(
    out: &mut String,
    grm: &YaccGrammar<StorageT>,
    expected: &[TIdx<StorageT>],
) -> Result<(), AllocError> {
    if expected.is_empty() {
        return Ok(());
    }
    out.push_str(", ")?;
    push_choices(out, grm, expected)
}

// Adds a lexeme: that it is the end, if it has the end token, and else its part of the text.
fn push_lexeme(out: &mut String, text: &str, is_end: bool, span: Span) -> Result<(), AllocError> {
    if !is_end {
        return push_shortened(out, part_text(text, span));
    }
    if text.is_empty() {
        out.push_str("end of input, as it is empty")
    } else if span.start() == 0 {
        out.push_str("end of input, as it has no token")
    } else {
        out.push_str("end of input")
    }
}

// Adds the text between quotes, or its first characters and dots.
fn push_shortened(out: &mut String, text: &str) -> Result<(), AllocError> {
    match text.char_indices().nth(MOST_CHARACTERS) {
        Some((end, _)) => {
            push_quoted(out, text.get(..end).unwrap_or(""))?;
            out.push_str(" ..")
        }
        None => push_quoted(out, text),
    }
}

// The part of the text at a span whose ends may be anywhere.
fn part_text(text: &str, span: Span) -> &str {
    let part = part_of(text, span);
    text.get(part.start()..part.end()).unwrap_or("")
}
