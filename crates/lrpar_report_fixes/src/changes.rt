//! What a repair sequence changes in a text.
use crate::subject::Subject;
use lrpar_grammar::span::{Span, StorageIndex, TIdx};
use lrpar_parse_lexemes::ParseRepair;
use lrpar_parse_lexemes::lex_api::Lexeme;
use lrpar_parse_suggestions::{Change as Suggested, Suggestion};
use std::alloc::{AllocError, Global};

/// A part of a text that goes, and the tokens that come in its place.
pub(crate) struct Change<StorageT: StorageIndex> {
    /// The first lexeme that goes, or the place at which the tokens come, if none goes.
    pub(crate) first: Span,
    /// The last lexeme that goes, or the place at which the tokens come, if none goes.
    pub(crate) last: Span,
    /// Whether lexemes go.
    pub(crate) deletes: bool,
    /// The tokens that come.
    pub(crate) tokens: Vec<TIdx<StorageT>>,
}

// Hand-written, so that code that drops a change needs the proof of one call only.
impl<StorageT: StorageIndex> Drop for Change<StorageT> {
    fn drop(self) {
        let Change {
            first: _,
            last: _,
            deletes: _,
            tokens,
        } = self;
        drop(tokens);
    }
}

impl<StorageT: StorageIndex> Change<StorageT> {
    // No token comes at this byte, and nothing goes.
    fn at(alloc: Global, byte: usize) -> Self {
        Change {
            first: Span::new(byte, byte),
            last: Span::new(byte, byte),
            deletes: false,
            tokens: Vec::new(alloc),
        }
    }

    /// The part that goes.
    pub(crate) fn span(&self) -> Span {
        Span::new(self.first.start(), self.last.end().max(self.first.start()))
    }

    // The lexeme at this place goes, too.
    fn delete(&mut self, place: Span) {
        if !self.deletes {
            self.first = place;
        }
        self.last = place;
        self.deletes = true;
    }
}

/// What a suggestion changes.
pub(crate) fn changes_by<StorageT: StorageIndex>(
    alloc: Global,
    subject: Subject<'_, StorageT>,
    suggestion: &Suggestion<StorageT>,
) -> Result<Vec<Change<StorageT>>, AllocError> {
    let mut change = Change::at(alloc, subject.byte_before(suggestion.place));
    match suggestion.change {
        Suggested::Delete => change.delete(subject.span_at(suggestion.place)),
        Suggested::Insert(token) => change.tokens.push(token)?,
        Suggested::Replace(token) => {
            change.delete(subject.span_at(suggestion.place));
            change.tokens.push(token)?;
        }
    }
    let mut changes = Vec::with_capacity(alloc, 1)?;
    changes.push(change)?;
    Ok(changes)
}

/// What a repair sequence changes, in order. `before` is the byte at which the lexeme before the error ends. Steps between two shifts are one
/// change.
pub(crate) fn changes_of<LexemeT: Lexeme<StorageT>, StorageT: StorageIndex>(
    alloc: Global,
    before: usize,
    repairs: &Vec<ParseRepair<LexemeT, StorageT>>,
) -> Result<Vec<Change<StorageT>>, AllocError> {
    let mut changes = Vec::new(alloc);
    let mut at = before;
    let mut is_open = false;
    for step in repairs {
        if let ParseRepair::Shift(lexeme) = step {
            at = lexeme.span().end();
            is_open = false;
            continue;
        }
        if !is_open {
            changes.push(Change::at(alloc, at))?;
            is_open = true;
        }
        add_step(&mut changes, step)?;
    }
    Ok(changes)
}

// Adds a step to the last change.
fn add_step<LexemeT: Lexeme<StorageT>, StorageT: StorageIndex>(
    changes: &mut Vec<Change<StorageT>>,
    step: &ParseRepair<LexemeT, StorageT>,
) -> Result<(), AllocError> {
    let Some(change) = changes.last_mut() else {
        return Ok(());
    };
    match step {
        ParseRepair::Insert(token) => change.tokens.push(*token)?,
        ParseRepair::Delete(lexeme) => change.delete(lexeme.span()),
        ParseRepair::Shift(_) => {}
    }
    Ok(())
}
