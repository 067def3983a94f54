//! What is around an error.
use crate::subject::Subject;
use crate::words::text_at;
use lrpar_grammar::span::{Span, StorageIndex, TIdx};
use std::alloc::{AllocError, Global};

/// How many lexemes before an error are looked at for brackets.
const MOST_LEXEMES: usize = 10_000;

/// The lexemes around an error.
pub(crate) struct Scene<'a, StorageT: StorageIndex> {
    pub(crate) subject: Subject<'a, StorageT>,
    /// The place of the error's lexeme among all.
    pub(crate) error: usize,
    /// How many lexemes of the text have each token.
    counts: Vec<usize>,
}

// Hand-written, so that code that drops a scene needs the proof of one call only.
impl<'a, StorageT: StorageIndex> Drop for Scene<'a, StorageT> {
    fn drop(self) {
        let Scene {
            subject: _,
            error: _,
            counts,
        } = self;
        drop(counts);
    }
}

impl<'a, StorageT: StorageIndex> Scene<'a, StorageT> {
    /// The scene of an error at a place. Takes time linear in the number of lexemes.
    pub(crate) fn new(
        alloc: Global,
        subject: Subject<'a, StorageT>,
        error: usize,
    ) -> Result<Self, AllocError> {
        let mut counts = vec![in alloc; 0usize; subject.grm().tokens_len()]?;
        for token in subject.lexemes.tokens() {
            if let Some(count) = counts.get_mut(usize::from(*token)) {
                *count = count.saturating_add(1);
            }
        }
        Ok(Scene {
            subject,
            error,
            counts,
        })
    }

    /// How many lexemes of the text have the token.
    pub(crate) fn count(&self, token: TIdx<StorageT>) -> usize {
        match self.counts.get(usize::from(token)) {
            Some(count) => *count,
            None => 0,
        }
    }

    /// The text of the lexeme at a place, or none.
    pub(crate) fn text(&self, place: usize) -> &'a str {
        match self.subject.lexemes.spans().get(place) {
            Some(span) => self.text_at(*span),
            None => "",
        }
    }

    /// The text of the lexeme before a place, or none.
    pub(crate) fn text_before(&self, place: usize) -> &'a str {
        match place.checked_sub(1) {
            Some(before) => self.text(before),
            None => "",
        }
    }

    /// The token of the lexeme at a place.
    pub(crate) fn token(&self, place: usize) -> Option<TIdx<StorageT>> {
        self.subject.lexemes.tokens().get(place).copied()
    }

    /// Whether a line ends between the lexeme before a place and the one there, or no lexeme comes there.
    pub(crate) fn is_at_line_end(&self, place: usize) -> bool {
        let spans = self.subject.lexemes.spans();
        let Some(last) = place.checked_sub(1) else {
            return false;
        };
        match (spans.get(last), spans.get(place)) {
            (Some(before), Some(after)) => {
                let gap = Span::new(before.end(), after.start().max(before.end()));
                self.text_at(gap).as_bytes().contains(&b'\n')
            }
            (Some(_), None) => true,
            (None, _) => false,
        }
    }

    /// The place of the bracket that is open before a place: the last opening one that isn't closed.
    pub(crate) fn open_bracket(&self, place: usize) -> Option<Span> {
        let mut closed = 0usize;
        let spans = self.subject.lexemes.spans().get(..place).unwrap_or(&[]);
        for span in spans.iter().rev().take(MOST_LEXEMES) {
            let text = self.text_at(*span);
            if is_closing(text) {
                closed = closed.saturating_add(1);
            } else if is_opening(text) {
                match closed {
                    0 => return Some(*span),
                    _ => closed = closed.saturating_sub(1),
                }
            }
        }
        None
    }

    /// The part of the text at a span.
    pub(crate) fn text_at(&self, span: Span) -> &'a str {
        text_at(self.subject.text, span)
    }
}

/// Whether the text is an opening bracket.
pub(crate) fn is_opening(text: &str) -> bool {
    matches!(text, "(" | "[" | "{")
}

/// Whether the text is a closing bracket.
pub(crate) fn is_closing(text: &str) -> bool {
    matches!(text, ")" | "]" | "}")
}

/// Whether the second text closes the bracket that is the first.
pub(crate) fn are_brackets(opening: &str, closing: &str) -> bool {
    matches!((opening, closing), ("(", ")") | ("[", "]") | ("{", "}"))
}

/// Whether the text is a word.
pub(crate) fn is_word(text: &str) -> bool {
    match text.chars().next() {
        Some(c) => c.is_alphabetic() || c == '_',
        None => false,
    }
}

/// Whether the text is made of signs: neither a word, nor a number, nor a quoted text.
pub(crate) fn is_sign(text: &str) -> bool {
    match text.chars().next() {
        Some(c) => !(c.is_alphanumeric() || matches!(c, '_' | '"' | '\'')),
        None => false,
    }
}
