//! Why declarations make no precedences.
ghost use Rattle.std.specs.Prelude.{◌≡◌};
ghost use Rattle.lrpar_table_levels.specs.declared.fault.PrecedenceFault.TheVariants.{Memory};

use std::alloc::{AllocError, AllocFailed};
use thiserror::Error;

/// Why declarations make no precedences.
#[derive(Clone, Copy, Debug, PartialEq, Eq, Error)]
pub enum PrecedenceFault {
    /// A token or a production isn't one of the grammar, or a production names a level that isn't there.
    #[error("bad index")]
    BadIndex,
    /// This token is in the levels twice.
    #[error("two precedences of token {0}")]
    TokenTwice(usize),
    /// This production names a level twice.
    #[error("two precedences of production {0}")]
    ProdTwice(usize),
    /// An allocation failed.
    #[error("out of memory")]
    Memory,
}

impl From<AllocError> for PrecedenceFault {
    ghost from_gives = { λ _ fault. fault ≡ Memory };

    fn from(_: AllocError) -> PrecedenceFault {
        PrecedenceFault::Memory
    }
}

impl<T: Drop> From<AllocFailed<T>> for PrecedenceFault {
    ghost from_gives = { λ _ fault. fault ≡ Memory };

    fn from(_: AllocFailed<T>) -> PrecedenceFault {
        PrecedenceFault::Memory
    }
}
