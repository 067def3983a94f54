//! Why the text of an error can't be made.
ghost use Rattle.std.specs.Prelude.{◌≡◌};
ghost use Rattle.lrpar_parse_lexemes.specs.declared.pp_fault.PpFault.TheVariants.{Memory};

use lrpar_grammar_places::span::{StorageIndex, TIdx};
use std::alloc::{AllocError, AllocFailed};
use std::error::Error;
use std::fmt;

/// Why the text of an error can't be made.
#[derive(Clone, Copy, Debug, PartialEq, Eq)]
pub enum PpFault<StorageT> {
    /// There is no text to print for this token, which a repair inserts. It is the first such token.
    NoPrintedName(TIdx<StorageT>),
    /// An allocation failed.
    Memory,
}

impl<StorageT: StorageIndex> fmt::Display for PpFault<StorageT> {
    ghost use Rattle.lrpar_parse_lexemes.specs.FaultText.{pp_fault_text};

    ghost output = { pp_fault_text StorageT.index };

    fn fmt<W: fmt::Write>(&self, f: &mut fmt::Formatter<W>) -> fmt::Result {
        match self {
            PpFault::NoPrintedName(tidx) => {
                let token = usize::from(*tidx);
                write!(f, "no printed name for token {token}")
            }
            PpFault::Memory => write!(f, "out of memory"),
        }
    }
}

impl<StorageT: StorageIndex> Error for PpFault<StorageT> {}

impl<StorageT> From<AllocError> for PpFault<StorageT> {
    ghost from_gives = { λ _ fault. fault ≡ Memory };

    fn from(_: AllocError) -> PpFault<StorageT> {
        PpFault::Memory
    }
}

impl<StorageT, T: Drop> From<AllocFailed<T>> for PpFault<StorageT> {
    ghost from_gives = { λ _ fault. fault ≡ Memory };

    fn from(_: AllocFailed<T>) -> PpFault<StorageT> {
        PpFault::Memory
    }
}
