//! What the report of an error needs of its text.
use crate::lexemes::TextLexemes;
use crate::wording::Wording;
use lrpar_grammar::grammar::YaccGrammar;
use lrpar_grammar::span::{Span, StorageIndex, TIdx};
use lrpar_grammar_places::lines::NewlineCache;
use lrpar_table::check::ParserData;

/// A text in which an error is, and what is known of its tokens.
#[derive(Clone, Copy)]
pub(crate) struct Subject<'a, StorageT: StorageIndex> {
    pub(crate) data: &'a ParserData<StorageT>,
    pub(crate) wording: &'a Wording<StorageT>,
    pub(crate) text: &'a str,
    /// The lines of the text.
    pub(crate) lines: &'a NewlineCache,
    /// Its lexemes, after the repairs of the errors before.
    pub(crate) lexemes: &'a TextLexemes<StorageT>,
}

impl<'a, StorageT: StorageIndex> Subject<'a, StorageT> {
    /// The grammar.
    pub(crate) fn grm(&self) -> &'a YaccGrammar<StorageT> {
        self.data.grm()
    }

    /// The text of a token, if it always has the same one.
    pub(crate) fn token_text(&self, token: TIdx<StorageT>) -> Option<&'a str> {
        self.wording.texts.get(token)
    }

    /// The byte right after the lexeme before a place, or where the lexeme of that place starts, if it is the first.
    pub(crate) fn byte_before(&self, place: usize) -> usize {
        let spans = self.lexemes.spans();
        let before = match place.checked_sub(1) {
            Some(last) => spans.get(last),
            None => None,
        };
        match (before, spans.get(place)) {
            (Some(span), _) => span.end(),
            (None, Some(span)) => span.start(),
            (None, None) => 0,
        }
    }

    /// The part of the text that is the lexeme at a place among all, or the empty one at the end of the text.
    pub(crate) fn span_at(&self, place: usize) -> Span {
        match self.lexemes.spans().get(place) {
            Some(span) => *span,
            None => Span::new(self.text.len(), self.text.len()),
        }
    }
}
