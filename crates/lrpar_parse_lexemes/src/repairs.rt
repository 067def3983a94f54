//! The steps of a repair sequence, as an error lists it.
ghost use Rattle.std.specs.Prelude.{◌≡◌, ⊤};

use crate::lex_api::Lexeme;
use lrpar_grammar_places::span::{StorageIndex, TIdx};
use std::alloc::AllocError;

/// One step of a repair sequence.
#[derive(Debug, Drop, PartialEq, Eq, Hash)]
pub enum ParseRepair<LexemeT, StorageT> {
    /// Insert a lexeme of this token before the rest of the input.
    Insert(TIdx<StorageT>),
    /// Leave out the next lexeme of the input, which is this one.
    Delete(LexemeT),
    /// Keep the next lexeme of the input, which is this one.
    Shift(LexemeT),
}

impl<LexemeT: Lexeme<StorageT>, StorageT: StorageIndex> Clone for ParseRepair<LexemeT, StorageT> {
    ghost is_clone = { λ x y. y ≡ x };

    ghost is_infallible = { λ _. ⊤ };

    fn clone(&self) -> Result<Self, AllocError> {
        Ok(match self {
            ParseRepair::Insert(token) => ParseRepair::Insert(*token),
            ParseRepair::Delete(lexeme) => ParseRepair::Delete(*lexeme),
            ParseRepair::Shift(lexeme) => ParseRepair::Shift(*lexeme),
        })
    }
}
