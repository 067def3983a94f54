//! Parse trees: lexemes, and rules over trees.
pub(crate) mod bounded;
mod copied;
mod equal;
mod shown;

ghost use Rattle.lrpar_parse_trees.specs.Kept.{IsKeptUnlessEmpty};

use lrpar_grammar::span::RIdx;
use std::mem;

/// A parse tree: a lexeme, or a rule over the trees of its symbols.
///
/// A tree can be as deep as memory allows. `clone`, `==`, `fits`, `Debug` and dropping take time linear in the nodes, and their stack
/// doesn't grow with the depth. Dropping takes no memory. The others keep a list with an entry for each level. If they run out of
/// memory, `clone` and `Debug` return an error, and `==` and `fits` go on without the list: their stack stays bounded, but a deep tree
/// with many branches takes them longer.
///
/// `Debug` writes the text that a derived `Debug` writes: on one line, or on many lines for `{:#?}`.
///
/// The type implements `Drop`, so match on a node by reference. `mem::replace` takes the trees out of a node.
pub enum Node<LexemeT, StorageT> {
    /// A leaf: a lexeme.
    Term {
        /// The lexeme.
        lexeme: LexemeT,
    },
    /// A rule over the trees of its symbols.
    Nonterm {
        /// The rule.
        ridx: RIdx<StorageT>,
        /// The trees, from left to right.
        nodes: Vec<Node<LexemeT, StorageT>>,
    },
}

impl<LexemeT: Drop, StorageT: Drop> Drop for Node<LexemeT, StorageT> {
    // `left` holds the trees that are left to drop. If the next tree has children while there are such trees, these go into a node
    // in the place of its first child, its children are then those that are left, and that child is the next tree.
    fn drop(mut self) {
        let mut left = None;
        loop {
            match self {
                Node::Term { lexeme } => drop(lexeme),
                Node::Nonterm { ridx, mut nodes } => {
                    if nodes.is_empty() {
                        nodes.destroy_empty();
                    } else {
                        match left {
                            None => left = Some(nodes),
                            Some(others) => {
                                self = mem::replace(
                                    &mut nodes[0],
                                    Node::Nonterm {
                                        ridx,
                                        nodes: others,
                                    },
                                );
                                left = Some(nodes);
                                continue;
                            }
                        }
                    }
                }
            }
            let Some(mut nodes) = left else {
                return;
            };
            let Some(node) = nodes.pop() else {
                nodes.destroy_empty();
                return;
            };
            self = node;
            left = unless_empty(nodes);
        }
    }
}

// The list, if it has items.
fn unless_empty<T>(items: Vec<T>) -> Option<Vec<T>>
    ensures { IsKeptUnlessEmpty items result }
{
    if items.is_empty() {
        items.destroy_empty();
        None
    } else {
        Some(items)
    }
}
