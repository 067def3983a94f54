//! The LR(1) items of one state: its LR(0) cores, each with the run of its lookaheads.
ghost use Rattle.std.specs.Prelude.{◌≡◌, ◌↔◌, IsTrue, IfOk};
ghost use Rattle.lrpar_table_rows.specs.PlainItems.{AreCoresOf};
ghost use Rattle.lrpar_table_rows.specs.Runs.{ArePaired, RunsAscend, TokensAscend, run_items, set_of_runs};
ghost use Rattle.lrpar_table_rows.specs.StoredItems.{AreCoresIn, AreKernelCoresIn, AreLookaheadsIn, CoresAscend, HasCoreIn, HasItemIn, HasItemsOf, HasItemsOfRows, ItemsAscend};

use crate::ascending::Ascending;
use crate::item_iter::Items;
use crate::runs::{begun_of, cores_of, cores_of_rows, runs_of, runs_of_rows};
use lrpar_grammar::span::{PIdx, StorageIndex, TIdx};
use std::alloc::{AllocError, Global};
use std::marker::Model;

/// An LR(1) item: its production, how many of its symbols are before the dot, and its lookahead.
pub type Item<StorageT> = (PIdx<StorageT>, usize, TIdx<StorageT>);

/// The LR(0) core of an item: its production, and how many of its symbols are before the dot.
pub type Core<StorageT> = (PIdx<StorageT>, usize);

/// The items of a core: its production, how many of its symbols are before the dot, and the items' lookaheads.
pub type CoreRow<StorageT> = (PIdx<StorageT>, usize, Vec<TIdx<StorageT>>);

/// The items of a state. Each of their cores is stored once, with the run of its lookaheads; and once more if its dot isn't at
/// the start.
#[derive(Debug, Drop)]
pub struct ItemSet<StorageT: StorageIndex> {
    cores: Ascending<Core<StorageT>>,
    runs: Vec<Ascending<TIdx<StorageT>>>,
    begun: Ascending<Core<StorageT>>,
}

impl<StorageT: StorageIndex> Model for ItemSet<StorageT> {
    ghost use Rattle.std.specs.Prelude.{List, map};
    ghost use Rattle.lrpar_table_rows.specs.Graph.{ItemOf};
    ghost use Rattle.lrpar_table_rows.specs.PlainItems.{item_of};
    ghost use Rattle.lrpar_table_rows.specs.Runs.{IsSet, run_items};

    ghost Value = { List ItemOf };

    ghost view = { λ set. map (item_of StorageT.index) (run_items set.cores set.runs.items) };

    ghost invariant = { λ set. IsSet StorageT.index set.cores set.runs.items set.begun };
}

impl<StorageT: StorageIndex> ItemSet<StorageT> {
    /// The set of the items of these rows, each a core with lookaheads: rows, and the lookaheads of a row, in any order, repeated
    /// or not. A row without lookaheads has no items. What is out of range of any grammar is kept as it is.
    pub fn from_rows(alloc: Global, rows: &[CoreRow<StorageT>]) -> Result<Self, AllocError>
        ensures same { IfOk result (HasItemsOfRows StorageT.index rows.now) }
    {
        let cores = cores_of_rows(alloc, rows)?;
        let runs = runs_of_rows(alloc, &cores, rows)?;
        ItemSet::from_parts(alloc, cores, runs)
    }

    /// The set of the row's items. The row is sorted in place; memory is allocated for the cores and their runs.
    pub(crate) fn from_row(alloc: Global, row: Vec<Item<StorageT>>) -> Result<Self, AllocError>
        ensures same { IfOk result (HasItemsOf StorageT.index row) }
    {
        let items = Ascending::from_vec(row);
        let cores = cores_of(alloc, items.as_slice())?;
        let runs = runs_of(alloc, &cores, items.as_slice())?;
        ItemSet::from_parts(alloc, cores, runs)
    }

    // The set of these cores with these runs.
    fn from_parts(
        alloc: Global,
        cores: Ascending<Core<StorageT>>,
        runs: Vec<Ascending<TIdx<StorageT>>>,
    ) -> Result<Self, AllocError>
        requires paired { ArePaired cores runs }
        requires cores { AreCoresOf (run_items cores runs.items) cores }
        requires sorted { RunsAscend StorageT.index runs }
        ensures { IfOk result (λ set. set ≡ set_of_runs StorageT.index cores runs.items) }
    {
        let begun = begun_of(alloc, cores.as_slice())?;
        Ok(ItemSet { cores, runs, begun })
    }

    /// Whether the item is in the set: a binary search for its core, and one for its lookahead.
    pub(crate) fn has_item(&self, prod: PIdx<StorageT>, dot: usize, token: TIdx<StorageT>) -> bool
        ensures found { IsTrue result ↔ HasItemIn StorageT.index self.now prod dot token }
    {
        match self.cores.position(&(prod, dot)) {
            Some(place) => self.runs[place].contains(&token),
            None => false,
        }
    }

    /// Whether an item of the set has the core: a binary search.
    pub(crate) fn has_core(&self, prod: PIdx<StorageT>, dot: usize) -> bool
        ensures found { IsTrue result ↔ HasCoreIn StorageT.index self.now prod dot }
    {
        self.cores.contains(&(prod, dot))
    }

    /// The lookaheads of the items with the core, ascending, each once.
    pub(crate) fn lookaheads(&self, prod: PIdx<StorageT>, dot: usize) -> &[TIdx<StorageT>]
        ensures all { AreLookaheadsIn StorageT.index self.now prod dot result.now }
        ensures ascending { TokensAscend StorageT.index result.now }
    {
        match self.cores.position(&(prod, dot)) {
            Some(place) => self.runs[place].as_slice(),
            None => &[],
        }
    }

    /// The items, ascending, each once.
    pub(crate) fn items(&self) -> Items<'_, StorageT>
        ensures all { result ≡ self.now }
        ensures ascending { ItemsAscend self.now }
    {
        Items::new(self.cores.as_slice(), &self.runs)
    }

    /// The cores, ascending, each once.
    pub(crate) fn cores(&self) -> &[Core<StorageT>]
        ensures all { AreCoresIn StorageT.index self.now result.now }
        ensures ascending { CoresAscend StorageT.index result.now }
    {
        self.cores.as_slice()
    }

    /// The cores of the kernel items, whose dot isn't at the start, ascending, each once.
    pub(crate) fn begun(&self) -> &[Core<StorageT>]
        ensures all { AreKernelCoresIn StorageT.index self.now result.now }
        ensures ascending { CoresAscend StorageT.index result.now }
    {
        self.begun.as_slice()
    }
}
