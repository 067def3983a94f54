//! Equality of trees.
ghost use Rattle.std.specs.Prelude.{◌≡◌, [], length};
ghost use Rattle.lrpar_parse_trees.specs.Walks.{nodes_eq};

use crate::node::Node;
use crate::node::bounded::{CALLS, have_fewer_nodes};

impl<LexemeT: PartialEq, StorageT: PartialEq> PartialEq for Node<LexemeT, StorageT> {
    ghost use Rattle.lrpar_parse_trees.specs.Walks.{node_eq};
    ghost use Rattle.lrpar_parse_trees.specs.WalkLaws.{node_per};

    ghost eq = { node_eq LexemeT.PartialEq.eq StorageT.PartialEq.eq };

    ghost laws = { node_per LexemeT.PartialEq.laws StorageT.PartialEq.laws };

    // A list of the trees that are left to compare is allocated as the tree's own lists are.
    fn eq(&self, other: &Self) -> bool {
        if !self.is_like(other) {
            return false;
        }
        match self {
            Node::Term { lexeme: _ } => true,
            Node::Nonterm { ridx: _, nodes } => {
                let mut left = Vec::new(*nodes.allocator());
                are_equal(&mut left, nodes, other.children())
            }
        }
    }
}

impl<LexemeT: Eq, StorageT: Eq> Eq for Node<LexemeT, StorageT> {
    ghost use Rattle.lrpar_parse_trees.specs.WalkLaws.{node_equiv};

    ghost laws = { node_equiv LexemeT.Eq.laws StorageT.Eq.laws };
}

impl<LexemeT, StorageT> Node<LexemeT, StorageT> {
    ghost use Rattle.lrpar_parse_trees.specs.Visits.{visit_eq};
    ghost use Rattle.lrpar_parse_trees.specs.Walks.{visit};

    // Whether the nodes have equal lexemes, or equal rules and the same number of children.
    fn is_like(&self, other: &Self) -> bool
    where
        LexemeT: PartialEq,
        StorageT: PartialEq,
        ensures like { result ≡ visit_eq LexemeT.PartialEq.eq StorageT.PartialEq.eq (visit self.now) (visit other.now) }
    {
        match (self, other) {
            (Node::Term { lexeme }, Node::Term { lexeme: other }) => lexeme == other,
            (
                Node::Nonterm { ridx, nodes },
                Node::Nonterm {
                    ridx: other_ridx,
                    nodes: others,
                },
            ) => ridx == other_ridx && nodes.len() == others.len(),
            _ => false,
        }
    }
}

// Two lists of the same length, which are left to compare.
#[derive(Drop)]
struct Pair<'a, LexemeT, StorageT> {
    nodes: &'a [Node<LexemeT, StorageT>],
    others: &'a [Node<LexemeT, StorageT>],
}

// Whether two lists of the same length have equal trees, one by one. `left` holds the trees that are left, an entry for each level.
// If it can't grow, the trees below a node are compared without it.
fn are_equal<'a, LexemeT: PartialEq, StorageT: PartialEq>(
    left: &mut Vec<Pair<'a, LexemeT, StorageT>>,
    mut nodes: &'a [Node<LexemeT, StorageT>],
    mut others: &'a [Node<LexemeT, StorageT>],
) -> bool
    requires none { left.old.items ≡ [] }
    requires even { length nodes.now ≡ length others.now }
    ensures { result ≡ nodes_eq LexemeT.PartialEq.eq StorageT.PartialEq.eq nodes.entry.now others.entry.now }
{
    loop {
        match (nodes.split_first(), others.split_first()) {
            (Some((node, rest)), Some((other, other_rest))) => {
                if !node.is_like(other) {
                    return false;
                }
                let after = Pair {
                    nodes: rest,
                    others: other_rest,
                };
                match left.push(after) {
                    Ok(()) => {
                        nodes = node.children();
                        others = other.children();
                    }
                    Err(_) => {
                        if !equal_by_calls(node.children(), other.children(), CALLS) {
                            return false;
                        }
                        nodes = rest;
                        others = other_rest;
                    }
                }
            }
            (None, None) => match left.pop() {
                Some(pair) => {
                    nodes = pair.nodes;
                    others = pair.others;
                }
                None => return true,
            },
            _ => return false,
        }
    }
}

// Compares the trees without a list of those that are left. After a node, the trees below it and those beside it are left: a recursive call compares the ones, and the
// loop goes on with the others. Down to the depth `calls` a call takes the trees below the node; deeper, it takes those that have
// fewer nodes.
fn equal_by_calls<'a, LexemeT: PartialEq, StorageT: PartialEq>(
    mut nodes: &'a [Node<LexemeT, StorageT>],
    mut others: &'a [Node<LexemeT, StorageT>],
    calls: usize,
) -> bool
    requires even { length nodes.now ≡ length others.now }
    ensures { result ≡ nodes_eq LexemeT.PartialEq.eq StorageT.PartialEq.eq nodes.entry.now others.entry.now }
{
    while let (Some((node, rest)), Some((other, other_rest))) = (
        nodes.split_first(),
        others.split_first(),
    ) {
        if !node.is_like(other) {
            return false;
        }
        let below = node.children();
        let other_below = other.children();
        if calls > 0 || have_fewer_nodes(below, rest) {
            if !equal_by_calls(below, other_below, calls.saturating_sub(1)) {
                return false;
            }
            nodes = rest;
            others = other_rest;
        } else {
            if !equal_by_calls(rest, other_rest, 0) {
                return false;
            }
            nodes = below;
            others = other_below;
        }
    }
    true
}
