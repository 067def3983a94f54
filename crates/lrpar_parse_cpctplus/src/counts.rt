//! How many rests of repairs begin at the nodes of a graph, by their numbers of steps.
ghost use Rattle.std.specs.Prelude.{◌∷◌, [], IfOk, OnOk};
ghost use Rattle.lrpar_parse_cpctplus.specs.Counted.{IsLayer};

use crate::form::{Class, Form};
use crate::layer::{Counts, Layer, Numbers};
use crate::nodes::Nodes;
use lrpar_grammar::span::StorageIndex;
use std::alloc::{AllocError, Global};

impl<'a, StorageT: StorageIndex> Nodes<'a, StorageT> {
    ghost use Rattle.lrpar_parse_cpctplus.specs.NodesView.{AddsSources, AddsSourcesOf, AreAllLayers, AreNextCounts, AreNextNumbers, IsNextLayer, IsNextNumber, LeadBack, rests_of};

    /// One layer for each number of steps, as long as any rest has so many; but none of more steps than there are nodes before the end.
    pub(crate) fn layers(&self, alloc: Global) -> Result<Vec<Layer>, AllocError>
        requires back { LeadBack StorageT.index self.now }
        ensures { IfOk result (λ layers. AreAllLayers StorageT.index self.now layers.items) }
    {
        let mut layers = Vec::new(alloc);
        let mut layer = self.first_layer(alloc)?;
        'steps: while layers.len() <= self.end && !layer.nodes.is_empty() {
            let next = self.next_layer(alloc, &layer)?;
            layers.push(layer)?;
            layer = next;
        }
        Ok(layers)
    }

    // The rests without steps: there is one at the end.
    fn first_layer(&self, alloc: Global) -> Result<Layer, AllocError>
        ensures { IfOk result (IsLayer (rests_of StorageT.index self.now 0)) }
    {
        let numbers = Numbers {
            clean: 1,
            avoided: 0,
            any: 1,
        };
        let counts = Counts {
            after_delete: numbers,
            after_other: numbers,
        };
        let mut layer = Layer::new(alloc);
        layer.add(self.end, counts)?;
        Ok(layer)
    }

    // The rests of one step more than those of the layer.
    fn next_layer(&self, alloc: Global, layer: &Layer) -> Result<Layer, AllocError>
        requires back { LeadBack StorageT.index self.now }
        ensures { IfOk result (IsNextLayer StorageT.index self.now layer.now) }
    {
        let mut next = Layer::new(alloc);
        for node in &layer.nodes {
            self.add_sources(layer, *node, &mut next)?;
        }
        Ok(next)
    }

    // Adds the nodes from which links lead to the node.
    fn add_sources(&self, layer: &Layer, node: usize, next: &mut Layer) -> Result<(), AllocError>
        ensures { OnOk result (AddsSourcesOf StorageT.index self.now layer.now node next.old next.new) }
    {
        let sources = self.nodes_into(node);
        for source in sources {
            self.add_source(layer, *source, next)?;
        }
        Ok(())
    }

    // Adds a node, if it isn't there.
    fn add_source(&self, layer: &Layer, source: usize, next: &mut Layer) -> Result<(), AllocError>
        ensures { OnOk result (AddsSources StorageT.index self.now layer.now (source ∷ []) next.old next.new) }
    {
        if next.has(source) {
            return Ok(());
        }
        next.add(source, self.counts_at(layer, source))
    }

    // How many rests begin at the node, of one step more than those of the layer.
    fn counts_at(&self, layer: &Layer, node: usize) -> Counts
        ensures { AreNextCounts StorageT.index self.now layer.now node result }
    {
        Counts {
            after_delete: self.numbers_at(layer, node, true),
            after_other: self.numbers_at(layer, node, false),
        }
    }

    // The numbers of the paths from the node after a Delete, or after another step.
    fn numbers_at(&self, layer: &Layer, node: usize, deleted: bool) -> Numbers
        ensures { AreNextNumbers StorageT.index self.now layer.now node deleted result }
    {
        Numbers {
            clean: self.pulled(layer, node, Form::new(Class::Clean, deleted)),
            avoided: self.pulled(layer, node, Form::new(Class::Avoided, deleted)),
            any: self.pulled(layer, node, Form::new(Class::Any, deleted)),
        }
    }

    // The number of the node's paths of one form: those after each of the links from the node.
    fn pulled(&self, layer: &Layer, node: usize, form: Form) -> usize
        ensures { IsNextNumber StorageT.index self.now layer.now node form result }
    {
        let links = self.links_from(node);
        let mut sum: usize = 0;
        for link in links {
            let after = form.after(self.avoided, link.step);
            sum = sum.saturating_add(layer.count(link.to, after));
        }
        sum
    }
}
