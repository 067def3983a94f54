//! Changes of one lexeme, and what one brings.

use lrpar_grammar::span::TIdx;

/// A change of one lexeme of a text.
#[derive(Clone, Copy, Debug, PartialEq, Eq)]
pub enum Change<StorageT> {
    /// The lexeme is left out.
    Delete,
    /// A lexeme of this token comes before it.
    Insert(TIdx<StorageT>),
    /// A lexeme of this token takes its place.
    Replace(TIdx<StorageT>),
}

/// A change that helps at an error.
#[derive(Clone, Copy, Debug, PartialEq, Eq)]
pub struct Suggestion<StorageT> {
    /// The place of the lexeme that the change is about. It may be the place after the last lexeme, for an `Insert`.
    pub place: usize,
    /// The change.
    pub change: Change<StorageT>,
    /// How many places past the error a run then comes.
    pub reach: usize,
    /// Whether a run then comes to the end of the text, and accepts it.
    pub accepts: bool,
}
