//! Why there are no counterexamples.
ghost use Rattle.std.specs.Prelude.{◌≡◌};

use lrpar_grammar::span::{RIdx, StorageIndex};
use std::alloc::AllocError;
use thiserror::Error;

/// Why there are no counterexamples.
#[derive(Clone, Copy, Debug, PartialEq, Eq, Error)]
pub enum ExampleFault<StorageT: StorageIndex> {
    /// The grammar reaches this rule from its start, and the rule derives no text. No such rule has a smaller number.
    #[error("rule {at} derives no text", at = .0.0.to_index())]
    Unproductive(RIdx<StorageT>),
    /// An allocation failed.
    #[error("out of memory")]
    Memory,
}

impl<StorageT: StorageIndex> From<AllocError> for ExampleFault<StorageT> {
    ghost use Rattle.lrpar_conflict_derivations.specs.declared.fault.ExampleFault.TheVariants.{Memory};

    ghost from_gives = { λ _ fault. fault ≡ Memory };

    fn from(_: AllocError) -> ExampleFault<StorageT> {
        ExampleFault::Memory
    }
}
