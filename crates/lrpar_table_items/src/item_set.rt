//! The states that are built.
use crate::cores::CoreItems;
use lrpar_grammar::span::{RIdx, StIdx, TIdx};

/// A state: its item set, by cores, and its transitions, one for each symbol after the dot of an item: by rules, ascending, and
/// by tokens, ascending.
#[derive(Drop)]
pub struct State<StorageT> {
    pub items: Vec<CoreItems<StorageT>>,
    pub gotos: Vec<(RIdx<StorageT>, StIdx<StorageT>)>,
    pub shifts: Vec<(TIdx<StorageT>, StIdx<StorageT>)>,
}
