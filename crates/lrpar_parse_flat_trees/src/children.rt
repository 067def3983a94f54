//! The children of a node.
ghost use Rattle.std.specs.Prelude.{◌≡◌, ◌≤◌, length};
ghost use Rattle.std.specs.Iterator.{YieldsFirstBy, item_count};
ghost use Rattle.lrpar_parse_flat_trees.specs.Children.{AreLeft, CanCount};
ghost use Rattle.lrpar_parse_flat_trees.specs.Flat.{AreFlat};
ghost use Rattle.lrpar_parse_flat_trees.specs.Located.{children_of};

use crate::growing::{below, below_last};
use crate::packed::Packed;
use crate::syntax_node::SyntaxNode;
use lrpar_grammar::span::StorageIndex;
use std::marker::Model;

/// The children of a node, from left to right. Each is found from the last one on, so all of them take time quadratic in their number,
/// which is at most that of a production's symbols.
#[derive(Drop)]
pub struct Children<'t, StorageT: StorageIndex> {
    // The nodes up to the last child.
    nodes: &'t [Packed<StorageT>],
    // How many children are still to come.
    left: usize,
}

impl<'t, StorageT: StorageIndex> Model for Children<'t, StorageT> {
    ghost use Rattle.std.specs.Prelude.{◌≤◌, List, length};
    ghost use Rattle.std.specs.Coded.{coded_list};
    ghost use Rattle.lrpar_parse_run.specs.RunStack.{on_top};
    ghost use Rattle.lrpar_grammar_places.specs.Span.{nowhere};
    ghost use Rattle.lrpar_parse_flat_trees.specs.Flat.{AreFlat, trees_of};
    ghost use Rattle.lrpar_parse_flat_trees.specs.Located.{Located, located_code, side_by_side};

    ghost Value = { List Located };

    ghost coded = { coded_list located_code };

    ghost view = { λ s. on_top s.left (side_by_side nowhere (trees_of s.nodes.now)) };

    ghost invariant = { λ s. AreFlat s.nodes.now × (s.left ≤ length (trees_of s.nodes.now)) };
}

impl<'t, StorageT: StorageIndex> Iterator for Children<'t, StorageT> {
    type Item = SyntaxNode<'t, StorageT>;

    ghost next_gives = { YieldsFirstBy (λ n. n) (λ s. s) };

    ghost remaining = { item_count (λ s. s) };

    fn next(&mut self) -> Option<SyntaxNode<'t, StorageT>> {
        if self.left == 0 {
            return None;
        }
        self.left -= 1;
        let nodes = below(self.nodes, self.left);
        Some(SyntaxNode { nodes })
    }
}

impl<'t, StorageT: StorageIndex> SyntaxNode<'t, StorageT> {
    /// The children of the node, from left to right: one for each symbol of its production, and none of a lexeme.
    pub fn children(&self) -> Children<'t, StorageT>
        ensures { result ≡ children_of self.now }
    {
        let first = self.nodes.len() - self.own().count();
        let nodes = &self.nodes[..self.nodes.len() - 1];
        let left = count_above(nodes, first);
        Children { nodes, left }
    }
}

// How many trees there are from the node at `first` on.
fn count_above<StorageT: StorageIndex>(nodes: &[Packed<StorageT>], first: usize) -> usize
    requires flat { AreFlat nodes.now }
    requires first { CanCount first nodes.now }
    ensures { AreLeft first nodes.now result }
{
    let mut rest = nodes;
    let mut count = 0;
    'trees: while rest.len() > first {
        rest = below_last(rest);
        count += 1;
    }
    count
}
