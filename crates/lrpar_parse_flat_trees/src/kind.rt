//! What a node of a tree is of.
use lrpar_grammar::span::{PIdx, TIdx};

/// What a node of a tree is of: a lexeme's token, or a production.
#[derive(Clone, Copy, Debug, PartialEq, Eq)]
pub enum SyntaxKind<StorageT> {
    /// The node is a lexeme of this token.
    Token(TIdx<StorageT>),
    /// The node is one of this production, and its children are of the production's symbols.
    Production(PIdx<StorageT>),
}
