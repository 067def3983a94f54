//! Why a parse returns no answer.
ghost use Rattle.std.specs.Prelude.{◌≡◌};
ghost use Rattle.lrpar_parse.specs.declared.fault.ParseFault.TheVariants.{Memory};

use std::alloc::{AllocError, AllocFailed};
use thiserror::Error;

/// Why a parse returns neither a value nor errors.
#[derive(Clone, Copy, Debug, PartialEq, Eq, Error)]
pub enum ParseFault {
    /// This lexeme, counted from 0, has the end token or a token that the grammar doesn't have.
    #[error("bad token at lexeme {0}")]
    BadToken(usize),
    /// This lexeme, counted from 0, starts before the start of the lexeme before it.
    #[error("start decreases at lexeme {0}")]
    StartsDecrease(usize),
    /// An allocation failed.
    #[error("out of memory")]
    Memory,
}

impl From<AllocError> for ParseFault {
    ghost from_gives = { λ _ fault. fault ≡ Memory };

    fn from(_: AllocError) -> ParseFault {
        ParseFault::Memory
    }
}

impl<T: Drop> From<AllocFailed<T>> for ParseFault {
    ghost from_gives = { λ _ fault. fault ≡ Memory };

    fn from(_: AllocFailed<T>) -> ParseFault {
        ParseFault::Memory
    }
}
