//! Why a table isn't complete.
ghost use Rattle.std.specs.Prelude.{◌≡◌};
ghost use Rattle.lrpar_table_conditions.specs.declared.completeness_fault.CompleteFault.TheVariants.{Memory};

use crate::completeness::CompletenessCondition;
use std::alloc::AllocError;
use thiserror::Error;

/// Why a table isn't known to be complete.
#[derive(Clone, Copy, Debug, PartialEq, Eq, Error)]
pub enum CompleteFault {
    /// This condition fails at this state.
    #[error("condition {0} at state {1}")]
    Condition(CompletenessCondition, usize),
    /// An allocation failed.
    #[error("out of memory")]
    Memory,
}

impl From<AllocError> for CompleteFault {
    ghost from_gives = { λ _ fault. fault ≡ Memory };

    fn from(_: AllocError) -> CompleteFault {
        CompleteFault::Memory
    }
}
