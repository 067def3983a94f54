//! Conflicts of a shift and a reduction that precedences resolved when a table was built.
ghost use Rattle.std.specs.Prelude.{◌≡◌, ◌==◌, [], length};
ghost use Rattle.lrpar_table_rows.specs.PlainConflicts.{AreResolved, resolved_of};

use lrpar_grammar::span::{PIdx, StIdx, StorageIndex, TIdx};
pub use lrpar_table_precedence::precedence::Resolution;
use std::alloc::Global;
use std::marker::Model;

/// A resolved conflict: the token, the production, the state, and whether the state shifts the token, reduces by the production or
/// reports an error.
pub type ResolvedConflict<StorageT> = (TIdx<StorageT>, PIdx<StorageT>, StIdx<StorageT>, Resolution);

/// The conflicts of a shift and a reduction that precedences resolved when a table was built, and how each was resolved.
#[derive(Debug)]
pub struct Resolved<StorageT: StorageIndex> {
    conflicts: Vec<ResolvedConflict<StorageT>>,
}

// With its own `Drop`, a function that drops one proves one call.
impl<StorageT: StorageIndex> Drop for Resolved<StorageT> {
    fn drop(self) {
        let Resolved { conflicts } = self;
        drop(conflicts);
    }
}

impl<StorageT: StorageIndex> Model for Resolved<StorageT> {
    ghost use Rattle.std.specs.Prelude.{List, map};
    ghost use Rattle.lrpar_table_rows.specs.Table.{ResolvedOf};
    ghost use Rattle.lrpar_table_rows.specs.PlainConflicts.{resolved_conflict_of};

    ghost Value = { List ResolvedOf };

    ghost view = { λ r. map (resolved_conflict_of StorageT.index) r.conflicts.items };
}

impl<StorageT: StorageIndex> Resolved<StorageT> {
    /// The resolved conflicts of this list. The numbers aren't checked.
    pub fn new(conflicts: Vec<ResolvedConflict<StorageT>>) -> Self
        ensures { AreResolved StorageT.index conflicts result }
    {
        Resolved { conflicts }
    }

    /// No resolved conflicts. It takes no memory.
    pub fn none(alloc: Global) -> Self
        ensures { result ≡ [] }
    {
        Resolved {
            conflicts: Vec::new(alloc),
        }
    }

    /// The resolved conflicts, in the order in which they were given.
    pub fn as_slice(&self) -> &[ResolvedConflict<StorageT>]
        ensures { resolved_of StorageT.index result.now ≡ self.now }
    {
        &self.conflicts
    }

    /// The number of resolved conflicts.
    pub fn len(&self) -> usize
        ensures { result ≡ length self.now }
    {
        self.conflicts.len()
    }

    /// Whether no conflict was resolved.
    pub fn is_empty(&self) -> bool
        ensures { result ≡ (length self.now == 0) }
    {
        self.conflicts.is_empty()
    }
}
