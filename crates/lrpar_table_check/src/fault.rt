//! Why a table is refused by the check.
ghost use Rattle.std.specs.Prelude.{◌≡◌};
ghost use Rattle.lrpar_table_check.specs.declared.fault.CheckFault.TheVariants.{Memory};

use lrpar_table_rows::condition::SafetyCondition;
use std::alloc::AllocError;
use thiserror::Error;

/// Why a table isn't one to parse by.
#[derive(Clone, Copy, Debug, PartialEq, Eq, Error)]
pub enum CheckFault {
    /// Graph and table don't fit each other or the grammar: their numbers of states, tokens or rules differ, there is
    /// no state, or an item or a reduction names what the grammar doesn't have.
    #[error("shape")]
    Shape,
    /// This condition fails at this state.
    #[error("condition {0} at state {1}")]
    Safety(SafetyCondition, usize),
    /// At this state and this token a chain makes more reductions than the cap.
    #[error("chain too long at state {0}, token {1}")]
    ChainTooLong(usize, usize),
    /// Out of memory: an allocation failed.
    #[error("out of memory")]
    Memory,
}

impl From<AllocError> for CheckFault {
    ghost from_gives = { λ _ fault. fault ≡ Memory };

    fn from(_: AllocError) -> CheckFault {
        CheckFault::Memory
    }
}
