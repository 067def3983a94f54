//! The trees of a run, side by side, as their nodes grow.
ghost use Rattle.std.specs.Prelude.{◌≡◌, ◌<◌, ◌≤◌, ℕ, [], OnOk, length};
ghost use Rattle.lrpar_parse_flat_trees.specs.Flat.{AreFlat, trees_of};
ghost use Rattle.lrpar_parse_flat_trees.specs.Growing.{AreBelow, IsClosed, IsLeafAdded, IsSpanAfter, TreesRise};

use crate::packed::Packed;
use lrpar_grammar::span::{Span, StorageIndex};
use std::alloc::{AllocError, Global};
use std::marker::Model;

/// Trees side by side, as a list of their nodes.
#[derive(Drop)]
pub struct Growing<StorageT: StorageIndex> {
    pub(crate) nodes: Vec<Packed<StorageT>>,
}

impl<StorageT: StorageIndex> Model for Growing<StorageT> {
    ghost use Rattle.std.specs.Prelude.{List};
    ghost use Rattle.lrpar_parse_flat_trees.specs.Flat.{AreFlat, FlatNode};

    ghost Value = { List FlatNode };

    ghost view = { λ g. g.nodes.items };

    ghost invariant = { λ g. AreFlat g.nodes.items };
}

impl<StorageT: StorageIndex> Growing<StorageT> {
    /// No tree.
    pub fn new(alloc: Global) -> Self
        ensures { result ≡ [] }
    {
        Growing {
            nodes: Vec::new(alloc),
        }
    }

    /// Adds a lexeme. `Err`: out of memory, or its end doesn't fit into 32 bits.
    pub fn push_leaf(
        &mut self,
        token: StorageT,
        span: Span,
        is_faulty: bool,
    ) -> Result<(), AllocError>
        ensures { OnOk result (IsLeafAdded (record { token = StorageT.index token; span = span; faulty = is_faulty }) (trees_of self.old) (trees_of self.new)) }
    {
        let node = Packed::leaf(token, span, is_faulty)?;
        self.nodes.push(node)?;
        Ok(())
    }

    /// Makes the last `count` trees the children of a node of the production. `Err`: out of memory, or a number doesn't fit into 32 bits.
    pub fn close(&mut self, prod: StorageT, count: usize) -> Result<(), AllocError>
        requires deep { count ≤ length (trees_of self.old) }
        requires rise { (high : ℕ) × TreesRise (trees_of self.old) high }
        ensures { OnOk result (IsClosed (StorageT.index prod) count (trees_of self.old) (trees_of self.new)) }
    {
        let rest = below(&self.nodes, count);
        let span = span_after(&self.nodes, rest, count);
        let node = Packed::branch(prod, self.nodes.len() - rest.len(), span)?;
        self.nodes.push(node)?;
        Ok(())
    }
}

// The span of a node over the last `count` trees, after the nodes of the others.
fn span_after<StorageT: StorageIndex>(
    nodes: &[Packed<StorageT>],
    rest: &[Packed<StorageT>],
    count: usize,
) -> Span
    requires flat { AreFlat nodes.now }
    requires below { AreBelow count nodes.now rest.now }
    requires rise { (high : ℕ) × TreesRise (trees_of nodes.now) high }
    ensures { IsSpanAfter count nodes.now result }
{
    if rest.len() < nodes.len() {
        let last = &nodes[nodes.len() - 1];
        return Span::new(nodes[rest.len()].span().start(), last.span().end());
    }
    match rest.last() {
        Some(last) => last.span(),
        None => Span::new(0, 0),
    }
}

/// The nodes but for those of the last `count` trees.
pub(crate) fn below<StorageT: StorageIndex>(
    nodes: &[Packed<StorageT>],
    count: usize,
) -> &[Packed<StorageT>]
    requires flat { AreFlat nodes.now }
    requires deep { count ≤ length (trees_of nodes.now) }
    ensures { AreBelow count nodes.now result.now }
{
    let mut rest = nodes;
    for _i in 0..count {
        rest = below_last(rest);
    }
    rest
}

/// The nodes but for those of the last tree.
pub(crate) fn below_last<StorageT: StorageIndex>(nodes: &[Packed<StorageT>]) -> &[Packed<StorageT>]
    requires flat { AreFlat nodes.now }
    requires some { 0 < length (trees_of nodes.now) }
    ensures { AreBelow 1 nodes.now result.now }
{
    let count = nodes[nodes.len() - 1].count();
    &nodes[..nodes.len() - count]
}
