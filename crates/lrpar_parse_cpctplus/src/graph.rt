//! The configurations to which sequences lead from an error point, by their distances, and the links between them.
ghost use Rattle.std.specs.Prelude.{◌≡◌, ◌<◌, ◌^◌, length, slice_get, IfOk, OnOk, Some};
ghost use Rattle.lrpar_parse_cpctplus.specs.Levels.{first_of};

use crate::link::Link;
use indexmap::IndexSet;
use lrpar_grammar::span::StorageIndex;
use lrpar_parse_repair::repair::RepairStep;
use std::alloc::{AllocError, Global};

/// A configuration: the number of a stack, and a place among the lexemes.
#[derive(Clone, Copy, PartialEq, Eq, Hash)]
pub(crate) struct Configuration {
    pub(crate) stack: usize,
    pub(crate) place: usize,
}

/// Configurations by numbers, those of lesser distance first, and the links between them.
pub(crate) struct Graph<StorageT: StorageIndex> {
    configurations: IndexSet<Configuration>,
    /// By distances: the number of the first configuration that is as far, or of the first one that is further.
    firsts: Vec<usize>,
    links: Vec<Link<StorageT>>,
}

impl<StorageT: StorageIndex> Drop for Graph<StorageT> {
    fn drop(self) {
        let Graph {
            configurations,
            firsts,
            links,
        } = self;
        drop(configurations);
        drop(firsts);
        drop(links);
    }
}

impl<StorageT: StorageIndex> Graph<StorageT> {
    ghost use Rattle.lrpar_parse_cpctplus.specs.GraphView.{BeginsLevel, IsLinkedBy, IsRootAlone};

    /// The configuration of the error point, which has the distance 0.
    pub(crate) fn new(alloc: Global, root: Configuration) -> Result<Self, AllocError>
        ensures { IfOk result (IsRootAlone root) }
    {
        let mut graph = Graph {
            configurations: IndexSet::new(alloc),
            firsts: Vec::new(alloc),
            links: Vec::new(alloc),
        };
        let (_number, _is_new) = graph.configurations.insert_full(root)?;
        graph.firsts.push(0)?;
        Ok(graph)
    }

    /// How many configurations there are.
    pub(crate) fn len(&self) -> usize
        ensures len { result ≡ length self.now.configurations.keys }
        ensures small { result < 2 ^ 63 }
    {
        self.configurations.len()
    }

    /// The configuration with this number.
    pub(crate) fn at(&self, number: usize) -> Configuration
        requires { number < length self.now.configurations.keys }
        ensures { slice_get self.now.configurations.keys number ≡ Some result }
    {
        self.configurations.as_slice()[number]
    }

    /// How many distances there are: each configuration has one that is less.
    pub(crate) fn levels(&self) -> usize
        ensures levels { result ≡ length self.now.firsts.items }
        ensures small { result < 2 ^ 63 }
    {
        self.firsts.len()
    }

    /// The number of the first configuration that is at least as far.
    pub(crate) fn first(&self, distance: usize) -> usize
        ensures { result ≡ first_of self.now.firsts.items (length self.now.configurations.keys) distance }
    {
        match self.firsts.get(distance) {
            Some(first) => *first,
            None => self.len(),
        }
    }

    /// The links alone.
    pub(crate) fn into_links(self) -> Vec<Link<StorageT>>
        ensures { result ≡ self.links }
    {
        let Graph {
            configurations,
            firsts,
            links,
        } = self;
        drop(configurations);
        drop(firsts);
        links
    }

    /// From now on configurations have a distance greater by one.
    pub(crate) fn begin_level(&mut self) -> Result<(), AllocError>
        ensures firsts { OnOk result (BeginsLevel self.old self.new) }
        ensures configurations { self.new.configurations ≡ self.old.configurations }
        ensures links { self.new.links ≡ self.old.links }
    {
        let len = self.len();
        self.firsts.push(len)?;
        Ok(())
    }

    /// Notes that a step leads from one configuration to another, which gets a number if it has none. The link is kept if that number
    /// isn't below `first`.
    pub(crate) fn link(
        &mut self,
        first: usize,
        from: usize,
        step: RepairStep<StorageT>,
        reached: Configuration,
    ) -> Result<(), AllocError>
        ensures linked { OnOk result (IsLinkedBy StorageT.index first from step reached self.old self.new) }
        ensures firsts { self.new.firsts ≡ self.old.firsts }
    {
        let (to, _is_new) = self.configurations.insert_full(reached)?;
        if to >= first {
            self.links.push(Link { from, step, to })?;
        }
        Ok(())
    }
}
