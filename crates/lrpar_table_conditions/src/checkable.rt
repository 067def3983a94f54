//! The parts that are checked for safety.

use lrpar_grammar::grammar::YaccGrammar;
use lrpar_grammar::span::StorageIndex;
use lrpar_table_rows::table::{StateGraph, StateTable};

/// A grammar, item sets and a table. Its methods test whether they are safe: the shape first, and then each condition at each state.
#[derive(Drop)]
pub struct Checkable<'a, StorageT: StorageIndex> {
    pub grm: &'a YaccGrammar<StorageT>,
    pub sgraph: &'a StateGraph<StorageT>,
    pub stable: &'a StateTable<StorageT>,
}
