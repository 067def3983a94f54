//! What a fix does, in words.
use crate::changes::Change;
use crate::subject::Subject;
use lrpar_grammar::span::{Span, StorageIndex, TIdx};
use lrpar_names::push_token;
use lrpar_report::{part_of, push_quoted};
use std::alloc::AllocError;

/// How many tokens are named at most.
const MOST_TOKENS: usize = 6;

/// How many characters of text that goes are shown at most.
const MOST_CHARACTERS: usize = 40;

/// Adds what a change does.
pub(crate) fn push_words<StorageT: StorageIndex>(
    out: &mut String,
    subject: Subject<'_, StorageT>,
    change: &Change<StorageT>,
) -> Result<(), AllocError> {
    match (change.deletes, change.tokens.is_empty()) {
        (false, _) => {
            out.push_str("insert ")?;
            push_tokens(out, subject, &change.tokens)
        }
        (true, true) => {
            out.push_str("delete ")?;
            push_part(out, subject, change)
        }
        (true, false) => {
            out.push_str("replace ")?;
            push_part(out, subject, change)?;
            out.push_str(" by ")?;
            push_tokens(out, subject, &change.tokens)
        }
    }
}

// Adds the tokens, with `and` before the last one.
pub(crate) fn push_tokens<StorageT: StorageIndex>(
    out: &mut String,
    subject: Subject<'_, StorageT>,
    tokens: &[TIdx<StorageT>],
) -> Result<(), AllocError> {
    let named = tokens.get(..MOST_TOKENS).unwrap_or(tokens);
    let more = tokens.len().saturating_sub(named.len());
    for (place, token) in named.iter().enumerate() {
        let left = named.len().saturating_sub(place).saturating_add(more);
        out.push_str(match (place, left) {
            (0, _) => "",
            (_, 1) => " and ",
            _ => ", ",
        })?;
        push_token(out, subject.grm(), &subject.wording.names, *token)?;
    }
    match more {
        0 => Ok(()),
        _ => write!(out, " and {more} more"),
    }
}

// Adds the text that goes; of a long one, or one of several lines, its first and its last lexeme.
fn push_part<StorageT: StorageIndex>(
    out: &mut String,
    subject: Subject<'_, StorageT>,
    change: &Change<StorageT>,
) -> Result<(), AllocError> {
    let text = subject.text;
    let whole = text_at(text, change.span());
    if change.first.end() >= change.last.end() || is_short(whole) {
        return push_shortened(out, whole);
    }
    out.push_str("all from ")?;
    push_shortened(out, text_at(text, change.first))?;
    out.push_str(" to ")?;
    push_shortened(out, text_at(text, change.last))?;
    push_line(out, subject, change)
}

// Adds the line of the last lexeme that goes, if the first one is in another line.
fn push_line<StorageT: StorageIndex>(
    out: &mut String,
    subject: Subject<'_, StorageT>,
    change: &Change<StorageT>,
) -> Result<(), AllocError> {
    let first = subject.lines.byte_to_line_num(change.first.start());
    let last = subject.lines.byte_to_line_num(change.last.start());
    match (first, last) {
        (Some(first), Some(last)) if first < last => write!(out, " in line {last}"),
        (_, _) => Ok(()),
    }
}

// Whether the text is on one line, and can be shown.
fn is_short(text: &str) -> bool {
    !text.as_bytes().contains(&b'\n') && text.char_indices().nth(MOST_CHARACTERS).is_none()
}

/// Adds the text between quotes, or its first characters and dots.
pub(crate) fn push_shortened(out: &mut String, text: &str) -> Result<(), AllocError> {
    match text.char_indices().nth(MOST_CHARACTERS) {
        Some((end, _)) => {
            push_quoted(out, text.get(..end).unwrap_or(""))?;
            out.push_str(" ..")
        }
        None => push_quoted(out, text),
    }
}

/// The part of the text at a span whose ends may be anywhere.
pub(crate) fn text_at(text: &str, span: Span) -> &str {
    let part = part_of(text, span);
    text.get(part.start()..part.end()).unwrap_or("")
}
