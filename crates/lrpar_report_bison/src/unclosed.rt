//! Reports of places at which no word begins: what isn't closed, and bytes with which nothing begins.
ghost use Rattle.std.specs.Prelude.{◌≡◌, ◌<◌, ◌+◌, ◌^◌, IfOk};
ghost use Rattle.lrpar_report.specs.FaultPlaces.{IsOne};
ghost use Rattle.lrpar_report_bison.specs.BisonPlaces.{IsOpening, opening_len};
ghost use Rattle.lrpar_report_lines.specs.Labels.{HasOneLabel, label_spans};
ghost use Rattle.lrpar_report_lines.specs.declared.levels.Level.TheVariants.{Error};

use crate::words::{labelled, part};
use lrpar_grammar_bison::words::Unread;
use lrpar_grammar_places::span::Span;
use lrpar_report::push_quoted;
use lrpar_report_lines::{Report, part_of};
use std::alloc::{AllocError, Global};

/// The report of a place at which reading is stuck, as this begins there.
pub(crate) fn unread_report(
    alloc: Global,
    text: &str,
    place: usize,
    what: Unread,
) -> Result<Report, AllocError>
    ensures level { IfOk result (λ report. report.level ≡ Error) }
    ensures span { IfOk result (λ report. IsOne (IsOpening text.now place what) (label_spans report)) }
{
    let span = opening(place, what);
    match what {
        Unread::Byte => unexpected_character(alloc, text, span),
        _ => labelled(alloc, unclosed(what), span, closed(what)),
    }
}

// The sign that begins here, or one byte.
fn opening(place: usize, what: Unread) -> Span
    ensures start { result.start ≡ place }
    ensures end { place + opening_len what < 2 ^ 64 → result.end ≡ place + opening_len what }
{
    Span::new(place, place.saturating_add(opening_len(what)))
}

// How many bytes the sign has that opens this.
fn opening_len(what: Unread) -> usize
    ensures { result ≡ opening_len what }
{
    match what {
        Unread::Comment | Unread::Prologue | Unread::Predicate => 2,
        _ => 1,
    }
}

// What is wrong with it.
fn unclosed(what: Unread) -> &'static str {
    match what {
        Unread::Comment => "comment without its '*/'",
        Unread::Character | Unread::Text => "quote that isn't closed",
        Unread::Code => "code without its '}'",
        Unread::Prologue => "prologue without its '%}'",
        Unread::Predicate => "predicate without its code",
        Unread::Tag => "type without its '>'",
        Unread::Label => "name in brackets without its ']'",
        Unread::Byte => "unexpected character",
    }
}

// What would be right.
fn closed(what: Unread) -> &'static str {
    match what {
        Unread::Comment => "it goes to the end of the file",
        Unread::Character | Unread::Text => "it has to be closed on the same line",
        Unread::Code | Unread::Prologue => "quotes and comments in it have to be closed, too",
        Unread::Predicate => "expected code in braces, with quotes and comments that are closed",
        Unread::Tag => "a type is between '<' and '>', and a '>' after a '-' doesn't close it",
        Unread::Label => "it has to be closed on the same line",
        Unread::Byte => "",
    }
}

// The report of a character with which no word begins.
fn unexpected_character(alloc: Global, text: &str, span: Span) -> Result<Report, AllocError>
    ensures level { IfOk result (λ report. report.level ≡ Error) }
    ensures span { IfOk result (HasOneLabel span) }
{
    let word = part(text, part_of(text, span));
    let mut message = String::from_str(alloc, "unexpected character ")?;
    push_character(&mut message, word)?;
    labelled(alloc, message.as_str(), span, character_label(word))
}

// Adds a character, and its number, if it isn't a visible one of ASCII.
fn push_character(out: &mut String, word: &str) -> Result<(), AllocError> {
    push_quoted(out, word)?;
    match word.chars().next() {
        Some(c) if !c.is_ascii_graphic() => {
            let number = u32::from(c);
            write!(out, " (U+{number:04X})")
        }
        _ => Ok(()),
    }
}

// What would be right in place of a character.
fn character_label(word: &str) -> &'static str {
    match word {
        "%" => "a directive is % and a name",
        "/" => "a comment begins with /* or //",
        "}" | "]" | ">" | ")" => "it closes nothing",
        _ => "no word begins with it",
    }
}
