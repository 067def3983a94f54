//! State graphs: the sets of LR(1) items of the states of an LR automaton.
ghost use Rattle.std.specs.Prelude.{◌≡◌, ◌<◌, ◌≤◌, ◌↔◌, IsTrue, IfErr, IfOk, IsErrOf, length};
ghost use Rattle.lrpar_table_rows.specs.Graph.{graph_len};
ghost use Rattle.lrpar_table_rows.specs.Runs.{TokensAscend};
ghost use Rattle.lrpar_table_rows.specs.StoredItems.{AreCoresAt, AreItemsAt, AreKernelCoresAt, AreLookaheadsAt, CoresAscend, HasCoreAt, HasItemAt, HaveItemsOf, IsMadeOf, ItemsAscendAt};
ghost use Rattle.lrpar_table_rows.specs.declared.fault.TableFault.TheVariants.{BadIndex};

use crate::fault::TableFault;
pub use crate::item_iter::Items;
pub use crate::items::{Core, CoreRow, Item, ItemSet};
use crate::numbers::can_number;
use lrpar_grammar::span::{PIdx, StIdx, StorageIndex, TIdx};
use std::alloc::{AllocError, Global};
use std::marker::Model;

/// The item sets of the states of an LR automaton. Nothing is known of them: they may fit a table or not.
#[derive(Debug)]
pub struct StateGraph<StorageT: StorageIndex> {
    sets: Vec<ItemSet<StorageT>>,
}

// With its own `Drop`, a function that drops one proves one call.
impl<StorageT: StorageIndex> Drop for StateGraph<StorageT> {
    fn drop(self) {
        let StateGraph { sets } = self;
        drop(sets);
    }
}

impl<StorageT: StorageIndex> Model for StateGraph<StorageT> {
    ghost use Rattle.std.specs.Prelude.{◌≤◌, length};
    ghost use Rattle.lrpar_table_rows.specs.Graph.{Graph};

    ghost Value = { Graph };

    ghost view = { λ graph. graph.sets.items };

    ghost invariant = { λ graph. length graph.sets.items ≤ StorageT.limit };
}

impl<StorageT: StorageIndex> StateGraph<StorageT> {
    /// The graph of these rows: for each state, by its number, its LR(1) items as production, dot and lookahead, in any order,
    /// repeated or not. An item that is out of range of any grammar is kept as it is.
    ///
    /// It returns `BadIndex` exactly if there are more states than `StorageT` has numbers, before any allocation, and
    /// `Memory` if an allocation fails. The rows are moved in and sorted in place, in O(n log n) for n items. Besides them
    /// the graph stores each core once, with the run of its lookaheads, and once more if its dot isn't at the start. After an `Err` the
    /// rows are dropped.
    pub fn from_rows(
        alloc: Global,
        rows: Vec<Vec<(PIdx<StorageT>, usize, TIdx<StorageT>)>>,
    ) -> Result<Self, TableFault>
        ensures states { IfOk result (λ graph. graph_len graph ≡ length rows.items) }
        ensures items { IfOk result (IsMadeOf StorageT.index rows) }
        ensures refused { IsErrOf result BadIndex ↔ (StorageT.limit < length rows.items) }
    {
        if can_number::<StorageT>(rows.len()) {
            Ok(StateGraph {
                sets: item_sets(alloc, rows)?,
            })
        } else {
            Err(TableFault::BadIndex)
        }
    }

    /// The graph of these sets: for each state, by its number, its items. It returns `BadIndex` if there are more states than
    /// `StorageT` has numbers. No memory is allocated.
    pub fn from_sets(sets: Vec<ItemSet<StorageT>>) -> Result<Self, TableFault>
        ensures made { IfOk result (λ graph. graph ≡ sets.items) }
        ensures refused { IfErr result (λ fault. fault ≡ BadIndex) }
        ensures exact { IsErrOf result BadIndex ↔ (StorageT.limit < length sets.items) }
    {
        if can_number::<StorageT>(sets.len()) {
            Ok(StateGraph { sets })
        } else {
            Err(TableFault::BadIndex)
        }
    }

    /// The number of states.
    pub fn states_len(&self) -> usize
        ensures states { result ≡ graph_len self.now }
        ensures fits { result ≤ StorageT.limit }
    {
        self.sets.len()
    }

    /// Whether state `s` has the LR(1) item of production `p` with `dot` symbols before the dot and lookahead `t`. A state
    /// out of range has none. It is a binary search for the core, and one for the lookahead, in O(log n) for the state's n items.
    pub fn has_item(
        &self,
        s: StIdx<StorageT>,
        p: PIdx<StorageT>,
        dot: usize,
        t: TIdx<StorageT>,
    ) -> bool
        ensures found { IsTrue result ↔ HasItemAt StorageT.index self.now s p dot t }
    {
        match self.sets.get(usize::from(s)) {
            Some(set) => set.has_item(p, dot, t),
            None => false,
        }
    }

    /// Whether state `s` has the LR(0) core of production `p` with `dot` symbols before the dot: an item with some lookahead.
    /// A state out of range has none. It is a binary search, in O(log n) for the state's n cores.
    pub fn has_core(&self, s: StIdx<StorageT>, p: PIdx<StorageT>, dot: usize) -> bool
        ensures found { IsTrue result ↔ HasCoreAt StorageT.index self.now s p dot }
    {
        match self.sets.get(usize::from(s)) {
            Some(set) => set.has_core(p, dot),
            None => false,
        }
    }

    /// The LR(1) items of state `s`, ascending, each once.
    pub fn items(&self, s: StIdx<StorageT>) -> Items<'_, StorageT>
        requires { StorageT.index s.0 < graph_len self.now }
        ensures all { AreItemsAt StorageT.index self.now s result }
        ensures ascending { ItemsAscendAt StorageT.index self.now s }
    {
        self.sets[usize::from(s)].items()
    }

    /// The lookaheads of the LR(1) items of state `s` with the LR(0) core of production `p` with `dot` symbols before the dot,
    /// ascending, each once. A state out of range has none. It is a binary search for the core.
    pub fn lookaheads(&self, s: StIdx<StorageT>, p: PIdx<StorageT>, dot: usize) -> &[TIdx<StorageT>]
        ensures all { AreLookaheadsAt StorageT.index self.now s p dot result.now }
        ensures ascending { TokensAscend StorageT.index result.now }
    {
        match self.sets.get(usize::from(s)) {
            Some(set) => set.lookaheads(p, dot),
            None => &[],
        }
    }

    /// The LR(0) cores of the items of state `s`, ascending, each once.
    pub fn cores(&self, s: StIdx<StorageT>) -> &[Core<StorageT>]
        requires { StorageT.index s.0 < graph_len self.now }
        ensures all { AreCoresAt StorageT.index self.now s result.now }
        ensures ascending { CoresAscend StorageT.index result.now }
    {
        self.sets[usize::from(s)].cores()
    }

    /// The cores of the kernel items of state `s`, ascending, each once: those whose dot isn't at the start of the production. The
    /// start production's core with dot 0 isn't among them.
    pub fn begun_cores(&self, s: StIdx<StorageT>) -> &[Core<StorageT>]
        requires { StorageT.index s.0 < graph_len self.now }
        ensures all { AreKernelCoresAt StorageT.index self.now s result.now }
        ensures ascending { CoresAscend StorageT.index result.now }
    {
        self.sets[usize::from(s)].begun()
    }
}

/// The item set of each row.
fn item_sets<StorageT: StorageIndex>(
    alloc: Global,
    rows: Vec<Vec<Item<StorageT>>>,
) -> Result<Vec<ItemSet<StorageT>>, AllocError>
    ensures { IfOk result (HaveItemsOf StorageT.index rows) }
{
    let mut sets = Vec::with_capacity(alloc, rows.len())?;
    for row in rows {
        sets.push(ItemSet::from_row(alloc, row)?)?;
    }
    Ok(sets)
}
