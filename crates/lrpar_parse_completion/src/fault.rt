//! Why there is no completion of a table's stacks.
ghost use Rattle.std.specs.Prelude.{◌≡◌};
ghost use Rattle.lrpar_parse_completion.specs.declared.fault.NoCompletion.TheVariants.{Memory};

use lrpar_grammar::span::{RIdx, StorageIndex};
use lrpar_table_check::check::CompletenessCondition;
use std::alloc::AllocError;
use thiserror::Error;

/// Why no `Completion` is made.
#[derive(Clone, Copy, Debug, PartialEq, Eq, Error)]
pub enum NoCompletion<StorageT: StorageIndex> {
    /// This rule is reachable, and derives no text. It is the first such rule, by its number.
    #[error("rule {} derives no text", usize::from(*.0))]
    Unproductive(RIdx<StorageT>),
    /// The table isn't complete: this condition fails at this state. So the grammar is ambiguous, or the table isn't one of all its texts.
    #[error("the table isn't complete: condition {0} fails at state {1}")]
    Incomplete(CompletenessCondition, usize),
    /// An allocation failed.
    #[error("out of memory")]
    Memory,
}

impl<StorageT: StorageIndex> From<AllocError> for NoCompletion<StorageT> {
    ghost from_gives = { λ _ fault. fault ≡ Memory };

    fn from(_: AllocError) -> NoCompletion<StorageT> {
        NoCompletion::Memory
    }
}
