//! The rows that a table is made of: full rows, or sparse rows, which have only the entries that are stored.
use crate::conflicts::Conflicts;
use lrpar_grammar::span::{PIdx, RIdx, StIdx, StorageIndex, TIdx};

/// What a parser does in a state, with a token as lookahead.
#[derive(Clone, Copy, Debug, PartialEq, Eq, Hash)]
pub enum Action<StorageT> {
    /// Shifts the token and goes to the state.
    Shift(StIdx<StorageT>),
    /// Replaces the symbols of the production by its rule.
    Reduce(PIdx<StorageT>),
    /// Accepts the input.
    Accept,
    /// Reports an error.
    Error,
}

/// The parts of a table, not checked yet: for each state, by its number, a row with an action for each token, and a row
/// with an optional state for each rule.
#[derive(Debug, Drop)]
pub struct TableRows<StorageT: StorageIndex> {
    /// The state in which a parser starts.
    pub start: StIdx<StorageT>,
    /// The number of tokens, with the end token.
    pub tokens: usize,
    /// The number of rules, with the start rule `^` of the augmented grammar.
    pub rules: usize,
    /// The action of each state at each token.
    pub actions: Vec<Vec<Action<StorageT>>>,
    /// The goto of each state by each rule.
    pub gotos: Vec<Vec<Option<StIdx<StorageT>>>>,
    /// The conflicts that were met when the rows were made, if they were kept.
    pub conflicts: Option<Conflicts<StorageT>>,
}

/// The parts of a table, not checked yet, with only the entries that are stored: for each state, by its number, a list of
/// tokens with their actions, and a list of rules with the states to go to.
#[derive(Debug, Drop)]
pub struct SparseRows<StorageT: StorageIndex> {
    /// The state in which a parser starts.
    pub start: StIdx<StorageT>,
    /// The number of states.
    pub states: usize,
    /// The number of tokens, with the end token.
    pub tokens: usize,
    /// The number of rules, with the start rule `^` of the augmented grammar.
    pub rules: usize,
    /// The actions of each state but errors, with their tokens, tokens ascending.
    pub actions: Vec<Vec<(TIdx<StorageT>, Action<StorageT>)>>,
    /// The gotos of each state, with their rules, rules ascending.
    pub gotos: Vec<Vec<(RIdx<StorageT>, StIdx<StorageT>)>>,
    /// The conflicts that were met when the rows were made, if they were kept.
    pub conflicts: Option<Conflicts<StorageT>>,
}
