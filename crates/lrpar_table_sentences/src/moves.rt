//! Moves of a bottom-up parser.

use lrpar_grammar::span::{PIdx, TIdx};

/// A move by which a bottom-up parser reads. The moves of a tree, from left to right, are the tree as a flat list: a token is
/// taken, and a node is made of the last trees, one for each symbol of its production.
#[derive(Clone, Copy, Debug, PartialEq, Eq, Hash)]
pub enum Move<StorageT> {
    /// Takes a token.
    Take(TIdx<StorageT>),
    /// Makes the node of a production.
    Make(PIdx<StorageT>),
}
