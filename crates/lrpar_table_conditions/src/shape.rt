//! S1: the shape of a table, and the items of its states.
ghost use Rattle.std.specs.Prelude.{◌<◌, ◌↔◌, IsTrue};
ghost use Rattle.lrpar_table_rows.specs.Graph.{graph_len};
ghost use Rattle.lrpar_table_rows.specs.PlainRows.{plain_action};
ghost use Rattle.lrpar_table_rows.specs.Safe.{IsItem};
ghost use Rattle.lrpar_table_conditions.specs.Entrywise.{IsInRange};
ghost use Rattle.lrpar_table_conditions.specs.Checked.{IsShaped, IsStateOf, ItemsAreInRange, ItemsAreInRangeAt, ItemsAreInRangeOf, ReductionsAreInRange, ReductionsAreInRangeAt};

use crate::checkable::Checkable;
use lrpar_grammar::span::{PIdx, StIdx, StorageIndex, TIdx};
use lrpar_table_rows::table::Action;

impl<'a, StorageT: StorageIndex> Checkable<'a, StorageT> {
    /// S1: the shape.
    pub fn has_shape(&self) -> bool
        ensures { IsTrue result ↔ IsShaped self.now }
    {
        self.sgraph.states_len() == self.stable.states_len()
            && self.stable.tokens_len() == self.grm.tokens_len()
            && self.stable.rules_len() == self.grm.rules_len()
            && self.reduces_are_in_range()
            && self.items_are_in_range()
    }

    // Whether each reduction is by a production of the grammar.
    fn reduces_are_in_range(&self) -> bool
        ensures { IsTrue result ↔ ReductionsAreInRange self.now }
    {
        for s in 0..self.stable.states_len() {
            let state = StIdx(StorageT::from_index(s).unwrap());
            if !self.reduces_of_are_in_range(state) {
                return false;
            }
        }
        true
    }

    // Whether each reduction of the state is by a production of the grammar.
    fn reduces_of_are_in_range(&self, s: StIdx<StorageT>) -> bool
        requires { IsStateOf StorageT.index self.now s }
        ensures { IsTrue result ↔ ReductionsAreInRangeAt StorageT.index self.now s }
    {
        let (tokens, actions) = self.stable.actions_of(s);
        for (place, _) in tokens.iter().enumerate() {
            if !self.is_in_range(actions[place]) {
                return false;
            }
        }
        true
    }

    // Whether the action, if it is a reduction, is by a production of the grammar.
    fn is_in_range(&self, action: Action<StorageT>) -> bool
        ensures { IsTrue result ↔ IsInRange self.now.grm.now (plain_action StorageT.index action) }
    {
        match action {
            Action::Reduce(pidx) => usize::from(pidx) < self.grm.prods_len(),
            Action::Shift(_) | Action::Accept | Action::Error => true,
        }
    }

    // Whether each item is of the grammar.
    fn items_are_in_range(&self) -> bool
        ensures { IsTrue result ↔ ItemsAreInRange self.now }
    {
        for s in 0..self.sgraph.states_len() {
            let state = StIdx(StorageT::from_index(s).unwrap());
            if !self.items_of_are_in_range(state) {
                return false;
            }
        }
        true
    }

    // Whether each item of the state is of the grammar.
    fn items_of_are_in_range(&self, s: StIdx<StorageT>) -> bool
        requires { StorageT.index s.0 < graph_len self.now.sgraph.now }
        ensures { IsTrue result ↔ ItemsAreInRangeAt StorageT.index self.now s }
    {
        for (pidx, dot) in self.sgraph.cores(s) {
            if !self.items_with_are_in_range(s, *pidx, *dot) {
                return false;
            }
        }
        true
    }

    // Whether each item of the state with the core is of the grammar.
    fn items_with_are_in_range(&self, s: StIdx<StorageT>, pidx: PIdx<StorageT>, dot: usize) -> bool
        ensures { IsTrue result ↔ ItemsAreInRangeOf StorageT.index self.now s pidx dot }
    {
        self.sgraph
            .lookaheads(s, pidx, dot)
            .iter()
            .all(|tidx| self.is_item(pidx, dot, *tidx))
    }

    // Whether the production, the dot and the token make an item of the grammar.
    fn is_item(&self, pidx: PIdx<StorageT>, dot: usize, tidx: TIdx<StorageT>) -> bool
        ensures { IsTrue result ↔ IsItem self.now.grm.now (StorageT.index pidx.0) dot (StorageT.index tidx.0) }
    {
        usize::from(pidx) < self.grm.prods_len()
            && dot <= self.grm.prod(pidx).len()
            && usize::from(tidx) < self.grm.tokens_len()
    }
}
