//! Why a table isn't built.
ghost use Rattle.std.specs.Prelude.{◌≡◌};
ghost use Rattle.lrpar_table_items.specs.declared.fault.BuildFault.TheVariants.{Memory};

use std::alloc::{AllocError, AllocFailed};
use thiserror::Error;

/// Why a table isn't built.
#[derive(Clone, Copy, Debug, PartialEq, Eq, Error)]
pub enum BuildFault {
    /// The canonical collection has more item sets than allowed.
    #[error("too many states")]
    TooManyStates,
    /// The items of this state call for accept and for a reduction at the end token.
    #[error("accept and reduce in state {0}")]
    AcceptReduceConflict(usize),
    /// The canonical collection has more item sets than the storage type has numbers.
    #[error("storage type too small")]
    StorageTooSmall,
    /// An allocation failed.
    #[error("out of memory")]
    Memory,
}

impl From<AllocError> for BuildFault {
    ghost from_gives = { λ _ fault. fault ≡ Memory };

    fn from(_: AllocError) -> BuildFault {
        BuildFault::Memory
    }
}

impl<T: Drop> From<AllocFailed<T>> for BuildFault {
    ghost from_gives = { λ _ fault. fault ≡ Memory };

    fn from(_: AllocFailed<T>) -> BuildFault {
        BuildFault::Memory
    }
}
