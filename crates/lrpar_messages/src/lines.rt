//! The lines of a catalogue.
use lrpar_grammar_places::span::Span;
use std::alloc::{AllocError, Global};

/// The lines of an entry of a catalogue: the one that shows how a run stops, and the message.
#[derive(Drop)]
pub(crate) struct Lines<'t> {
    pub(crate) head: &'t str,
    /// The place of the first line.
    pub(crate) span: Span,
    pub(crate) message: String,
}

/// The entries of the catalogue in a text: what comes after its first line `%%`. Adds the places of messages that belong to none to `strays`.
///
/// A line that begins with a blank belongs to the message of the entry above it; the lines of a message are joined by a space. Empty lines say
/// nothing, nor do those that begin with `//`.
pub(crate) fn read_entries<'t>(
    alloc: Global,
    text: &'t str,
    strays: &mut Vec<Span>,
) -> Result<Vec<Lines<'t>>, AllocError> {
    let mut entries = Vec::new(alloc);
    let mut is_begun = false;
    let mut start = 0usize;
    for line in text.split('\n') {
        let after = line.trim_start();
        let core = after.trim_end();
        let first = start.saturating_add(line.len().saturating_sub(after.len()));
        let span = Span::new(first, first.saturating_add(core.len()));
        if !is_begun {
            is_begun = core == "%%";
        } else if !core.is_empty() && !core.starts_with("//") {
            if after.len() < line.len() {
                push_message(&mut entries, core, span, strays)?;
            } else {
                entries.push(Lines {
                    head: core,
                    span,
                    message: String::new(alloc),
                })?;
            }
        }
        start = start.saturating_add(line.len()).saturating_add(1);
    }
    Ok(entries)
}

// Adds a line to the message of the last entry.
fn push_message<'t>(
    entries: &mut Vec<Lines<'t>>,
    line: &str,
    span: Span,
    strays: &mut Vec<Span>,
) -> Result<(), AllocError> {
    match entries.last_mut() {
        Some(entry) => {
            if !entry.message.is_empty() {
                entry.message.push(' ')?;
            }
            entry.message.push_str(line)
        }
        None => {
            strays.push(span)?;
            Ok(())
        }
    }
}

/// A word of a line: its name, from this byte of the line to that one, and whether that is in quotes.
#[derive(Clone, Copy)]
pub(crate) struct Word {
    pub(crate) from: usize,
    pub(crate) to: usize,
    pub(crate) is_quoted: bool,
}

/// The words of a line: in quotes, single or double, or between blanks. A quote that doesn't end is the last word: it goes on to the end of the
/// line, and is the second result.
pub(crate) fn words_of(alloc: Global, line: &str) -> Result<(Vec<Word>, Option<Word>), AllocError> {
    let mut words = Vec::new(alloc);
    // The word that is open, and the character that ends it: its quote, or a blank.
    let mut open = None;
    let mut end = ' ';
    for (at, c) in line.char_indices() {
        match open {
            Some(from) => {
                if c == end || (end == ' ' && is_blank(c)) {
                    words.push(Word {
                        from,
                        to: at,
                        is_quoted: end != ' ',
                    })?;
                    open = None;
                }
            }
            None => {
                if c == '\'' || c == '"' {
                    open = Some(at.saturating_add(1));
                    end = c;
                } else if !is_blank(c) {
                    open = Some(at);
                    end = ' ';
                }
            }
        }
    }
    let Some(from) = open else {
        return Ok((words, None));
    };
    let word = Word {
        from,
        to: line.len(),
        is_quoted: end != ' ',
    };
    words.push(word)?;
    let unended = if word.is_quoted { Some(word) } else { None };
    Ok((words, unended))
}

// Whether the character is a blank between words.
fn is_blank(c: char) -> bool {
    c == ' ' || c == '\t' || c == '\r'
}
