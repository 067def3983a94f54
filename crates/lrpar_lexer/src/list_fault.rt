//! Why a list of lexemes isn't that of a text.
use std::alloc::{AllocError, AllocFailed};
use thiserror::Error;

/// Why a list of lexemes and errors isn't that of a text.
#[derive(Clone, Copy, Debug, PartialEq, Eq, Error)]
pub enum ListFault {
    /// The lexeme or error at this place of the list, counted from 0, starts or ends outside the text or inside a character. It is the
    /// first such one.
    #[error("lexeme {0} doesn't fit the text")]
    Misplaced(usize),
    /// An allocation failed.
    #[error("out of memory")]
    Memory,
}

impl From<AllocError> for ListFault {
    ghost use Rattle.std.specs.Prelude.{◌≡◌};
    ghost use Rattle.lrpar_lexer.specs.declared.list_fault.ListFault.TheVariants.{Memory};

    ghost from_gives = { λ _ fault. fault ≡ Memory };

    fn from(_: AllocError) -> ListFault {
        ListFault::Memory
    }
}

impl<T: Drop> From<AllocFailed<T>> for ListFault {
    ghost use Rattle.std.specs.Prelude.{◌≡◌};
    ghost use Rattle.lrpar_lexer.specs.declared.list_fault.ListFault.TheVariants.{Memory};

    ghost from_gives = { λ _ fault. fault ≡ Memory };

    fn from(_: AllocFailed<T>) -> ListFault {
        ListFault::Memory
    }
}
