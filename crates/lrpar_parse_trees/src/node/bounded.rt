//! Which of two lists of trees has fewer nodes. Walks over trees that have no memory for a list recurse into that one, so that their
//! stack stays bounded.
ghost use Rattle.std.specs.Prelude.{◌≤◌, IfSome};

use crate::node::Node;

/// How deep a walk without a list recurses before it compares the numbers of nodes.
pub(crate) const CALLS: usize = 500;

// Whether the first trees have fewer nodes than the others. Takes no memory, and recurses no deeper than a number of nodes can be
// halved.
pub(crate) fn have_fewer_nodes<LexemeT, StorageT>(
    nodes: &[Node<LexemeT, StorageT>],
    others: &[Node<LexemeT, StorageT>],
) -> bool {
    matches!(
        fewer_of(nodes, others, usize::MAX),
        Some(Fewer {
            are_first: true,
            len: _,
        })
    )
}

// The list with fewer nodes: whether it is the first one, and how many nodes it has.
#[derive(Clone, Copy)]
struct Fewer {
    are_first: bool,
    len: usize,
}

// The list with fewer nodes; `None`, if both have more nodes than the limit. Both are counted with a budget that doubles, so that
// the time depends on the smaller number.
#[cycle(count)]
fn fewer_of<LexemeT, StorageT>(
    nodes: &[Node<LexemeT, StorageT>],
    others: &[Node<LexemeT, StorageT>],
    limit: usize,
) -> Option<Fewer>
    ensures { IfSome result (λ fewer. fewer.len ≤ limit) }
{
    let mut budget = limit.min(1);
    loop {
        let first = count(nodes, budget);
        if let Some(len) = count(others, first.unwrap_or(budget)) {
            return Some(Fewer {
                are_first: false,
                len,
            });
        }
        if let Some(len) = first {
            return Some(Fewer {
                are_first: true,
                len,
            });
        }
        if budget == limit {
            return None;
        }
        budget = limit.min(budget.saturating_mul(2));
    }
}

// How many nodes the trees have; `None`, if there are more than the budget. After a node, the trees below it and those beside it are
// left: a recursive call counts those with fewer nodes, with at most half of the budget that is left.
#[cycle(count)]
fn count<LexemeT, StorageT>(mut nodes: &[Node<LexemeT, StorageT>], budget: usize) -> Option<usize>
    ensures { IfSome result (λ len. len ≤ budget) }
{
    let mut left = budget;
    while let Some((node, rest)) = nodes.split_first() {
        left = left.checked_sub(1)?;
        let below = node.children();
        let fewer = fewer_of(below, rest, left / 2)?;
        left -= fewer.len;
        nodes = if fewer.are_first { rest } else { below };
    }
    Some(budget - left)
}
