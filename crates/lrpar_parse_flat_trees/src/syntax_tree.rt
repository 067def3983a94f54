//! The tree of a parse, in one list.
ghost use Rattle.std.specs.Prelude.{◌≡◌, ◌∷◌, [], length};
ghost use Rattle.lrpar_parse_flat_trees.specs.Flat.{flat, trees_of};
ghost use Rattle.lrpar_grammar.specs.Tree.{Tree};
ghost use Rattle.lrpar_grammar_places.specs.Facts.{LexemeFacts};
ghost use Rattle.lrpar_grammar_places.specs.Span.{nowhere};

use crate::growing::Growing;
use crate::packed::Packed;
use lrpar_grammar::span::StorageIndex;
use std::marker::Model;

/// The tree of a parse: its lexemes, and the productions over them. All nodes are in one list, each after its children, with 16 bytes each
/// if the storage type has 32 bits.
#[derive(Drop)]
pub struct SyntaxTree<StorageT: StorageIndex> {
    pub(crate) nodes: Vec<Packed<StorageT>>,
}

impl<StorageT: StorageIndex> Model for SyntaxTree<StorageT> {
    ghost use Rattle.lrpar_grammar.specs.Tree.{Tree};
    ghost use Rattle.lrpar_grammar_places.specs.Facts.{LexemeFacts};
    ghost use Rattle.lrpar_parse_flat_trees.specs.Flat.{IsFlatTree, tree_of};
    ghost use Rattle.lrpar_parse_flat_trees.specs.TreeCode.{tree_code};

    ghost Value = { Tree LexemeFacts };

    ghost coded = { tree_code };

    ghost view = { λ t. tree_of t.nodes.items };

    ghost invariant = { λ t. IsFlatTree t.nodes.items };
}

impl<StorageT: StorageIndex> SyntaxTree<StorageT> {
    /// How many nodes it has: lexemes and productions.
    pub fn len(&self) -> usize
        ensures { result ≡ length (flat nowhere self.now) }
    {
        self.nodes.len()
    }
}

impl<StorageT: StorageIndex> Growing<StorageT> {
    /// The tree, if there is one only.
    pub fn into_tree(self) -> SyntaxTree<StorageT>
        requires { (e : Tree LexemeFacts) × (trees_of self ≡ e ∷ []) }
        ensures { trees_of self ≡ result ∷ [] }
    {
        let Growing { nodes } = self;
        SyntaxTree { nodes }
    }
}
