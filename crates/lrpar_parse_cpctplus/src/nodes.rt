//! The nodes of a graph by numbers: the links from each in the order of their steps, and from where links lead to it.
ghost use Rattle.std.specs.Prelude.{◌≡◌, [], IfOk, map};
ghost use Rattle.lrpar_parse_repair.specs.PlainSteps.{plain_step};
ghost use Rattle.lrpar_parse_cpctplus.specs.LinkView.{AreInRows, AreInStepOrder, AreRows, AreWithin, plain_link, step_rank};

use crate::link::Link;
use lrpar_grammar::span::StorageIndex;
use lrpar_parse_repair::repair::RepairStep;
use std::alloc::{AllocError, Global};

/// The links between nodes. The last node is the end of all repairs.
pub(crate) struct Nodes<'a, StorageT: StorageIndex> {
    pub(crate) avoided: &'a [bool],
    pub(crate) end: usize,
    /// By node: the links from it, in the order of their steps.
    out: Vec<Vec<Link<StorageT>>>,
    /// By node: the nodes from which links lead to it.
    into: Vec<Vec<usize>>,
}

impl<StorageT: StorageIndex> Drop for Nodes<'_, StorageT> {
    fn drop(self) {
        let Nodes {
            avoided: _,
            end: _,
            out,
            into,
        } = self;
        drop(out);
        drop(into);
    }
}

impl<'a, StorageT: StorageIndex> Nodes<'a, StorageT> {
    ghost use Rattle.lrpar_parse_cpctplus.specs.NodesView.{AreNodesOf, links_of, sources_of};

    /// The nodes up to the end, and these links between them.
    pub(crate) fn new(
        alloc: Global,
        avoided: &'a [bool],
        end: usize,
        links: Vec<Link<StorageT>>,
    ) -> Result<Self, AllocError>
        requires within { AreWithin end links.items }
        ensures { IfOk result (AreNodesOf StorageT.index avoided.now end links.items) }
    {
        let links = by_steps(links)?;
        let (out, into) = in_rows(alloc, end, &links)?;
        Ok(Nodes {
            avoided,
            end,
            out,
            into,
        })
    }

    /// The links from the node, in the order of their steps.
    pub(crate) fn links_from(&self, node: usize) -> &[Link<StorageT>]
        ensures { map (plain_link StorageT.index) result.now ≡ links_of StorageT.index self.now node }
    {
        match self.out.get(node) {
            Some(links) => links.as_slice(),
            None => &[],
        }
    }

    /// From where links lead to the node.
    pub(crate) fn nodes_into(&self, node: usize) -> &[usize]
        ensures { result.now ≡ sources_of StorageT.index self.now node }
    {
        match self.into.get(node) {
            Some(nodes) => nodes.as_slice(),
            None => &[],
        }
    }
}

// The links in the order of their steps.
fn by_steps<StorageT: StorageIndex>(
    mut links: Vec<Link<StorageT>>,
) -> Result<Vec<Link<StorageT>>, AllocError>
    ensures { IfOk result (λ sorted. AreInStepOrder StorageT.index links.items sorted.items) }
{
    links.sort_by(|one, other| rank_of(one.step).cmp(&rank_of(other.step)))?;
    Ok(links)
}

// The place of a step in the order: Inserts by their tokens, then Delete, and Shift as the last.
fn rank_of<StorageT: StorageIndex>(step: RepairStep<StorageT>) -> (u8, usize)
    ensures { result ≡ step_rank (plain_step StorageT.index step) }
{
    match step {
        RepairStep::Insert(token) => (0, usize::from(token)),
        RepairStep::Delete => (1, 0),
        RepairStep::Shift => (2, 0),
    }
}

// By node up to the end: the links from it; and from where links lead to it.
fn in_rows<StorageT: StorageIndex>(
    alloc: Global,
    end: usize,
    links: &[Link<StorageT>],
) -> Result<(Vec<Vec<Link<StorageT>>>, Vec<Vec<usize>>), AllocError>
    requires within { AreWithin end links.now }
    ensures { IfOk result (λ rows. AreInRows end links.now rows.0.items rows.1.items) }
{
    let mut out = empty_rows(alloc, end)?;
    let mut into = empty_rows(alloc, end)?;
    for link in links {
        let outgoing = &mut out[link.from];
        outgoing.push(*link)?;
        let incoming = &mut into[link.to];
        incoming.push(link.from)?;
    }
    Ok((out, into))
}

// One empty row for each number up to the end.
fn empty_rows<T: Copy>(alloc: Global, end: usize) -> Result<Vec<Vec<T>>, AllocError>
    ensures { IfOk result (λ rows. AreRows end (λ _. []) rows.items) }
{
    let mut rows = Vec::new(alloc);
    for _ in 0..end {
        rows.push(Vec::new(alloc))?;
    }
    rows.push(Vec::new(alloc))?;
    Ok(rows)
}
