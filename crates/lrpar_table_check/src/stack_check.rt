//! Stacks of states: whether a list of states is one of the table.
ghost use Rattle.std.specs.Prelude.{◌↔◌, IsTrue};
ghost use Rattle.lrpar_table_check.specs.CheckedStacks.{FormStack};

use crate::check::ParserData;
use lrpar_grammar::span::{StIdx, StorageIndex};
use lrpar_table_stacks::stack_check::is_stack_of;

impl<StorageT: StorageIndex> ParserData<StorageT> {
    /// Whether these states, bottom first, are a stack of the table: the start state is at the bottom, and a shift or a goto
    /// leads from each state to the one above it. A list with a state out of range is none, nor is the empty one.
    ///
    /// Allocates nothing. Reads at most the entries of each state but the top.
    pub fn is_stack(&self, stack: &[StIdx<StorageT>]) -> bool
        ensures { IsTrue result ↔ FormStack StorageT.index self.now stack.now }
    {
        is_stack_of(self.stable(), stack)
    }
}
