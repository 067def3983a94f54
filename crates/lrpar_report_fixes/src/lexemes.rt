//! The lexemes of a text, as they are after the repairs of its first errors.
use lrpar_grammar::span::{Span, StorageIndex, TIdx};
use lrpar_parse_lexemes::ParseRepair;
use lrpar_parse_lexemes::lex_api::Lexeme;
use std::alloc::{AllocError, Global};

/// The tokens and the places of the lexemes of a text, in order. [`TextLexemes::repair`] changes them as a repair sequence does, so that they
/// are what a parse has fed and will feed. The place of a lexeme that was inserted is empty.
pub(crate) struct TextLexemes<StorageT: StorageIndex> {
    tokens: Vec<TIdx<StorageT>>,
    spans: Vec<Span>,
}

// Hand-written, so that code that drops lexemes needs the proof of one call only.
impl<StorageT: StorageIndex> Drop for TextLexemes<StorageT> {
    fn drop(self) {
        let TextLexemes { tokens, spans } = self;
        drop(tokens);
        drop(spans);
    }
}

impl<StorageT: StorageIndex> TextLexemes<StorageT> {
    /// No lexemes.
    pub(crate) fn new(alloc: Global) -> Self {
        TextLexemes {
            tokens: Vec::new(alloc),
            spans: Vec::new(alloc),
        }
    }

    /// Adds a lexeme with this token and place after the others.
    pub(crate) fn push(&mut self, token: TIdx<StorageT>, span: Span) -> Result<(), AllocError> {
        self.spans.reserve(1)?;
        self.tokens.push(token)?;
        self.spans.push(span)?;
        Ok(())
    }

    /// Their tokens.
    pub(crate) fn tokens(&self) -> &[TIdx<StorageT>] {
        &self.tokens
    }

    /// Their places.
    pub(crate) fn spans(&self) -> &[Span] {
        &self.spans
    }

    /// Where the lexeme of an error is among them: the first that isn't empty and starts at this byte or after it, and their number, if there
    /// is none. Takes time logarithmic in their number, and linear in that of the lexemes that were inserted there.
    pub(crate) fn first_from(&self, byte: usize) -> usize {
        let first = self.spans.partition_point(|span| span.start() < byte);
        let rest = self.spans.get(first..).unwrap_or(&[]);
        match rest.iter().position(|span| !span.is_empty()) {
            Some(more) => first.saturating_add(more),
            None => self.spans.len(),
        }
    }

    /// Makes the steps of a repair sequence at a place. Takes time linear in the number of lexemes. `Err`: out of memory; the lexemes are as
    /// they were.
    pub(crate) fn repair<LexemeT: Lexeme<StorageT>>(
        &mut self,
        alloc: Global,
        place: usize,
        repairs: &Vec<ParseRepair<LexemeT, StorageT>>,
    ) -> Result<(), AllocError> {
        let mut repaired = TextLexemes::new(alloc);
        repaired.push_part(self, 0, place)?;
        let mut at = place;
        for step in repairs {
            match step {
                ParseRepair::Insert(token) => {
                    let end = repaired.end();
                    repaired.push(*token, Span::new(end, end))?;
                }
                ParseRepair::Delete(_) => at = at.saturating_add(1),
                ParseRepair::Shift(_) => {
                    repaired.push_part(self, at, at.saturating_add(1))?;
                    at = at.saturating_add(1);
                }
            }
        }
        repaired.push_part(self, at, self.tokens.len())?;
        *self = repaired;
        Ok(())
    }

    // Adds the lexemes of others from one place up to another one.
    fn push_part(
        &mut self,
        others: &TextLexemes<StorageT>,
        from: usize,
        to: usize,
    ) -> Result<(), AllocError> {
        let tokens = others.tokens.get(from..to).unwrap_or(&[]);
        let spans = others.spans.get(from..to).unwrap_or(&[]);
        for (token, span) in tokens.iter().zip(spans) {
            self.push(*token, *span)?;
        }
        Ok(())
    }

    // The byte at which the last lexeme ends.
    fn end(&self) -> usize {
        match self.spans.last() {
            Some(span) => span.end(),
            None => 0,
        }
    }
}
