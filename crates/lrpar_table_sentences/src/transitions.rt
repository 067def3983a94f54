//! Transitions of a table, and what is kept of each state: the last one of its access string.

use lrpar_grammar::span::{StIdx, StorageIndex, Symbol};

/// A step from a state to another one: the state that it goes from, and the symbol that it goes by.
#[derive(Clone, Copy, Debug, PartialEq, Eq, Hash)]
pub struct Step<StorageT> {
    /// The state that it goes from.
    pub from: StIdx<StorageT>,
    /// The symbol that it goes by.
    pub symbol: Symbol<StorageT>,
}

/// What is kept of a state that has an access string: the least number of tokens, and the last step, if it has one.
#[derive(Clone, Copy, Debug, PartialEq, Eq)]
pub(crate) struct Access<StorageT> {
    pub(crate) len: usize,
    pub(crate) last: Option<Step<StorageT>>,
}

/// A step with the state that it leads to, and the length of its symbol.
#[derive(Clone, Copy, Debug, PartialEq, Eq)]
pub(crate) struct Edge<StorageT> {
    pub(crate) step: Step<StorageT>,
    pub(crate) next: StIdx<StorageT>,
    pub(crate) len: usize,
}
