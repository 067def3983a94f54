//! The transitions into each state of a table.

use crate::context::next_by;
use crate::priority_queue::{NONE, head};
use lrpar_grammar::span::{StIdx, StorageIndex, Symbol};
use lrpar_table_rows::table::StateTable;
use lrpar_table_sentences::access_strings::Step;
use std::alloc::{AllocError, Global};

/// A step to a state, and the number of a further one to the same state.
#[derive(Clone, Copy)]
pub(crate) struct Predecessor<StorageT> {
    pub(crate) step: Step<StorageT>,
    pub(crate) next: usize,
}

/// The steps to each state.
pub(crate) struct Predecessors<StorageT: StorageIndex> {
    heads: Vec<usize>,
    predecessors: Vec<Predecessor<StorageT>>,
}

// A drop of its own, so that code that drops one elsewhere proves one call.
impl<StorageT: StorageIndex> Drop for Predecessors<StorageT> {
    fn drop(self) {
        let Predecessors {
            heads,
            predecessors,
        } = self;
        drop(heads);
        drop(predecessors);
    }
}

impl<StorageT: StorageIndex> Predecessors<StorageT> {
    /// Those of the table.
    pub(crate) fn new(alloc: Global, table: &StateTable<StorageT>) -> Result<Self, AllocError> {
        let states = table.states_len();
        let mut heads = Vec::with_capacity(alloc, states)?;
        for _ in 0..states {
            heads.push(NONE)?;
        }
        let mut made = Predecessors {
            heads,
            predecessors: Vec::new(alloc),
        };
        for number in 0..states {
            if let Some(state) = StorageT::from_index(number) {
                made.push_from(table, StIdx(state))?;
            }
        }
        Ok(made)
    }

    /// The number of the first step to the state, or none.
    pub(crate) fn first(&self, state: StIdx<StorageT>) -> usize {
        head(&self.heads, usize::from(state))
    }

    /// How many steps there are.
    pub(crate) fn len(&self) -> usize {
        self.predecessors.len()
    }

    /// The step of the number, if there is one.
    pub(crate) fn get(&self, number: usize) -> Option<Predecessor<StorageT>> {
        if number < self.predecessors.len() {
            Some(self.predecessors[number])
        } else {
            None
        }
    }

    // Adds the steps from the state.
    fn push_from(
        &mut self,
        table: &StateTable<StorageT>,
        from: StIdx<StorageT>,
    ) -> Result<(), AllocError> {
        if usize::from(from) >= table.states_len() {
            return Ok(());
        }
        for token in table.actions_of(from).0 {
            self.push_by(table, from, Symbol::Token(*token))?;
        }
        for rule in table.gotos_of(from).0 {
            self.push_by(table, from, Symbol::Rule(*rule))?;
        }
        Ok(())
    }

    // Adds the step by the symbol, if it leads to a state.
    fn push_by(
        &mut self,
        table: &StateTable<StorageT>,
        from: StIdx<StorageT>,
        symbol: Symbol<StorageT>,
    ) -> Result<(), AllocError> {
        let Some(to) = next_by(table, from, symbol) else {
            return Ok(());
        };
        let number = usize::from(to);
        if number < self.heads.len() {
            let next = self.heads[number];
            self.heads[number] = self.predecessors.len();
            self.predecessors.push(Predecessor {
                step: Step { from, symbol },
                next,
            })?;
        }
        Ok(())
    }
}
