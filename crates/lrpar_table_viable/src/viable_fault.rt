//! Why a table isn't viable.
ghost use Rattle.std.specs.Prelude.{◌≡◌};
ghost use Rattle.lrpar_table_viable.specs.declared.viable_fault.ViableFault.TheVariants.{Memory};

use std::alloc::AllocError;
use thiserror::Error;

/// Why a table isn't known to be viable.
#[derive(Clone, Copy, Debug, PartialEq, Eq, Error)]
pub enum ViableFault {
    /// This state has no item.
    #[error("no item in state {0}")]
    Empty(usize),
    /// In this state, the core of this production with dot 0 isn't there for a reason: no core of the state adds it by closure, from
    /// the kernel cores on, or from the start.
    #[error("unjustified item of production {1} in state {0}")]
    Unjustified(usize, usize),
    /// An allocation failed.
    #[error("out of memory")]
    Memory,
}

impl From<AllocError> for ViableFault {
    ghost from_gives = { λ _ fault. fault ≡ Memory };

    fn from(_: AllocError) -> ViableFault {
        ViableFault::Memory
    }
}
