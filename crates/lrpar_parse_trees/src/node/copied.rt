//! Clones of trees.
ghost use Rattle.std.specs.Prelude.{◌≡◌, [], IfOk};
ghost use Rattle.lrpar_parse_trees.specs.Walks.{IsNodeOver, walk};

use crate::node::Node;
use lrpar_grammar::span::RIdx;
use std::alloc::{AllocError, Global};

impl<LexemeT: Copy, StorageT: Copy> Node<LexemeT, StorageT> {
    /// A clone of the tree. Takes an allocation for each rule with children, and a list with an entry for each level. `Err`: out of
    /// memory.
    pub fn clone(&self, alloc: Global) -> Result<Self, AllocError>
        ensures equal { IfOk result (λ node. walk node ≡ walk self.now) }
    {
        match self {
            Node::Term { lexeme } => Ok(Node::Term { lexeme: *lexeme }),
            Node::Nonterm { ridx, nodes } => {
                let mut below = Vec::new(alloc);
                copy_nodes(alloc, &mut below, *ridx, nodes)
            }
        }
    }
}

// A rule that is being cloned: the clones of its trees that are made, and the trees that are left.
#[derive(Drop)]
struct Growing<'a, LexemeT, StorageT> {
    ridx: RIdx<StorageT>,
    made: Vec<Node<LexemeT, StorageT>>,
    left: &'a [Node<LexemeT, StorageT>],
}

// The node of the rule over clones of these trees. `below` holds the rules around the current tree, an entry for each level.
fn copy_nodes<'a, LexemeT: Copy, StorageT: Copy>(
    alloc: Global,
    below: &mut Vec<Growing<'a, LexemeT, StorageT>>,
    mut ridx: RIdx<StorageT>,
    nodes: &'a [Node<LexemeT, StorageT>],
) -> Result<Node<LexemeT, StorageT>, AllocError>
    requires { below.old.items ≡ [] }
    ensures { IfOk result (IsNodeOver ridx nodes.entry.now) }
{
    let mut made = Vec::with_capacity(alloc, nodes.len())?;
    let mut left = nodes;
    loop {
        match left.split_first() {
            Some((node, rest)) => match node {
                Node::Term { lexeme } => {
                    made.push(Node::Term { lexeme: *lexeme })?;
                    left = rest;
                }
                Node::Nonterm { ridx: rule, nodes } => {
                    below.push(Growing {
                        ridx,
                        made,
                        left: rest,
                    })?;
                    ridx = *rule;
                    made = Vec::with_capacity(alloc, nodes.len())?;
                    left = nodes;
                }
            },
            None => {
                let node = Node::Nonterm { ridx, nodes: made };
                let Some(parent) = below.pop() else {
                    return Ok(node);
                };
                ridx = parent.ridx;
                made = parent.made;
                left = parent.left;
                made.push(node)?;
            }
        }
    }
}
