//! Why a table's stacks can't all be completed, or why that isn't known.
ghost use Rattle.std.specs.Prelude.{◌≡◌};
ghost use Rattle.lrpar_table_pops.specs.declared.fault.Incompletable.TheVariants.{Memory};

use lrpar_grammar::span::{StIdx, StorageIndex};
use std::alloc::{AllocError, AllocFailed};
use thiserror::Error;

/// Why `check_completable` doesn't pass a table.
#[derive(Debug, Drop, Error)]
pub enum Incompletable<StorageT: StorageIndex> {
    /// No tokens complete this stack of the table, bottom first.
    #[error("no tokens complete a stack of {} states", .0.len())]
    Stuck(Vec<StIdx<StorageT>>),
    /// There are more stacks to tell apart than the limit. That says nothing of the table.
    #[error("more stacks to tell apart than the limit")]
    TooMany,
    /// An allocation failed.
    #[error("out of memory")]
    Memory,
}

impl<StorageT: StorageIndex> From<AllocError> for Incompletable<StorageT> {
    ghost from_gives = { λ _ fault. fault ≡ Memory };

    fn from(_: AllocError) -> Incompletable<StorageT> {
        Incompletable::Memory
    }
}

impl<StorageT: StorageIndex, T: Drop> From<AllocFailed<T>> for Incompletable<StorageT> {
    ghost from_gives = { λ _ fault. fault ≡ Memory };

    fn from(_: AllocFailed<T>) -> Incompletable<StorageT> {
        Incompletable::Memory
    }
}
