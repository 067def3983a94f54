//! The steps of the sequences that a recoverer supplies.
ghost use Rattle.std.specs.Prelude.{◌≡◌, ⊤};

use lrpar_grammar::span::TIdx;
use std::alloc::AllocError;

/// One step of a repair sequence that a recoverer supplies. The steps are those of Diekmann and Tratt, *Don't Panic! Better, Fewer,
/// Syntax Errors for LR Parsers*.
#[derive(Debug, Drop, PartialEq, Eq, Hash)]
pub enum RepairStep<StorageT> {
    /// Insert a lexeme of this token before the rest of the input.
    Insert(TIdx<StorageT>),
    /// Leave out the next lexeme of the input.
    Delete,
    /// Keep the next lexeme of the input.
    Shift,
}

impl<StorageT: Copy> Clone for RepairStep<StorageT> {
    ghost is_clone = { λ x y. y ≡ x };

    ghost is_infallible = { λ _. ⊤ };

    fn clone(&self) -> Result<Self, AllocError> {
        Ok(*self)
    }
}

impl<StorageT: Copy> Copy for RepairStep<StorageT> {}
