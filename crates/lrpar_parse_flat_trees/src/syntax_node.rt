//! A node of a tree, with its children.
ghost use Rattle.std.specs.Prelude.{◌≡◌};
ghost use Rattle.lrpar_grammar_places.specs.Span.{nowhere};
ghost use Rattle.lrpar_parse_flat_trees.specs.Flat.{nodes_in};
ghost use Rattle.lrpar_parse_flat_trees.specs.Kinds.{IsKindOf};
ghost use Rattle.lrpar_parse_flat_trees.specs.Located.{IsOwnNode, is_faulty_tree, span_at};

use crate::kind::SyntaxKind;
use crate::packed::Packed;
use crate::syntax_tree::SyntaxTree;
use lrpar_grammar::span::{Span, StorageIndex};
use std::marker::Model;

/// A node of a tree: a lexeme, or a production with its children.
#[derive(Drop)]
pub struct SyntaxNode<'t, StorageT: StorageIndex> {
    // The nodes up to this one, which is the last.
    pub(crate) nodes: &'t [Packed<StorageT>],
}

impl<'t, StorageT: StorageIndex> Model for SyntaxNode<'t, StorageT> {
    ghost use Rattle.std.specs.Prelude.{◌<◌, length};
    ghost use Rattle.lrpar_parse_flat_trees.specs.Flat.{AreFlat, trees_of};
    ghost use Rattle.lrpar_parse_flat_trees.specs.Located.{Located, last_of, located_code};

    ghost Value = { Located };

    ghost coded = { located_code };

    ghost view = { λ n. last_of n.nodes.now };

    ghost invariant = { λ n. AreFlat n.nodes.now × (0 < length (trees_of n.nodes.now)) };
}

impl<'t, StorageT: StorageIndex> SyntaxNode<'t, StorageT> {
    /// The node itself.
    pub(crate) fn own(&self) -> &'t Packed<StorageT>
        ensures { IsOwnNode self.now result.now }
    {
        &self.nodes[self.nodes.len() - 1]
    }

    /// What the node is of.
    pub fn kind(&self) -> SyntaxKind<StorageT>
        ensures { IsKindOf StorageT.index self.now.tree result }
    {
        self.own().kind()
    }

    /// Whether the node is a lexeme that a repair made.
    pub fn is_faulty(&self) -> bool
        ensures { result ≡ is_faulty_tree self.now.tree }
    {
        self.own().is_faulty()
    }

    /// The span of the node, in bytes: from the start of its first child to the end of its last one. A production without symbols has the
    /// span before it, or 0..0.
    pub fn span(&self) -> Span
        ensures { result ≡ span_at self.now }
    {
        self.own().span()
    }

    /// How many nodes the tree of this node has, with this one.
    pub fn len(&self) -> usize
        ensures { result ≡ nodes_in self.now.tree }
    {
        self.own().count()
    }
}

impl<StorageT: StorageIndex> SyntaxTree<StorageT> {
    /// The node over all others.
    pub fn root(&self) -> SyntaxNode<'_, StorageT>
        ensures { result ≡ record { before = nowhere; tree = self.now } }
    {
        SyntaxNode { nodes: &self.nodes }
    }
}
