//! All nodes of a tree.
ghost use Rattle.std.specs.Prelude.{◌≡◌};
ghost use Rattle.std.specs.Iterator.{YieldsFirstBy, item_count};
ghost use Rattle.lrpar_grammar_places.specs.Span.{nowhere};
ghost use Rattle.lrpar_parse_flat_trees.specs.Located.{walk};

use crate::packed::Packed;
use crate::syntax_node::SyntaxNode;
use crate::syntax_tree::SyntaxTree;
use lrpar_grammar::span::StorageIndex;
use std::marker::Model;

/// The nodes of a tree, each after its children, which come from left to right: the order in which a parser reduces.
#[derive(Drop)]
pub struct Nodes<'t, StorageT: StorageIndex> {
    nodes: &'t [Packed<StorageT>],
    // How many nodes have come.
    count: usize,
}

impl<'t, StorageT: StorageIndex> Model for Nodes<'t, StorageT> {
    ghost use Rattle.std.specs.Prelude.{◌≤◌, List, drop, length};
    ghost use Rattle.std.specs.Coded.{coded_list};
    ghost use Rattle.lrpar_grammar_places.specs.Span.{nowhere};
    ghost use Rattle.lrpar_parse_flat_trees.specs.Flat.{AreFlat, trees_of};
    ghost use Rattle.lrpar_parse_flat_trees.specs.Located.{Located, located_code, walk_list};

    ghost Value = { List Located };

    ghost coded = { coded_list located_code };

    ghost view = { λ s. drop s.count (walk_list nowhere (trees_of s.nodes.now)) };

    ghost invariant = { λ s. AreFlat s.nodes.now };
}

impl<'t, StorageT: StorageIndex> Iterator for Nodes<'t, StorageT> {
    type Item = SyntaxNode<'t, StorageT>;

    ghost next_gives = { YieldsFirstBy (λ n. n) (λ s. s) };

    ghost remaining = { item_count (λ s. s) };

    fn next(&mut self) -> Option<SyntaxNode<'t, StorageT>> {
        if self.count >= self.nodes.len() {
            return None;
        }
        self.count += 1;
        Some(SyntaxNode {
            nodes: &self.nodes[..self.count],
        })
    }
}

impl<StorageT: StorageIndex> SyntaxTree<StorageT> {
    /// All nodes, each after its children, which come from left to right. So a value for each node can be made without recursion.
    pub fn nodes(&self) -> Nodes<'_, StorageT>
        ensures { result ≡ walk nowhere self.now }
    {
        Nodes {
            nodes: &self.nodes,
            count: 0,
        }
    }
}
