//! How many rests of repairs begin at nodes, of one number of steps.
ghost use Rattle.std.specs.Prelude.{◌≡◌, ℕ, None, OnOk, nat_eq};
ghost use Rattle.std.specs.HashMap.{get};
ghost use Rattle.lrpar_parse_cpctplus.specs.Counted.{AddsNode, count_in, count_of, has_node, number_of};

use crate::form::{Class, Form};
use std::alloc::{AllocError, Global};
use std::collections::HashMap;

/// How many rests of repairs there are, by their classes.
#[derive(Clone, Copy)]
pub(crate) struct Numbers {
    pub(crate) clean: usize,
    pub(crate) avoided: usize,
    pub(crate) any: usize,
}

impl Numbers {
    /// How many there are of a class.
    pub(crate) fn of(self, class: Class) -> usize
        ensures { result ≡ number_of self class }
    {
        match class {
            Class::Clean => self.clean,
            Class::Avoided => self.avoided,
            Class::Any => self.any,
            Class::Nothing => 0,
        }
    }
}

/// How many there are after a Delete, and after another step or none.
#[derive(Clone, Copy)]
pub(crate) struct Counts {
    pub(crate) after_delete: Numbers,
    pub(crate) after_other: Numbers,
}

impl Counts {
    /// How many there are of a form.
    pub(crate) fn of(self, form: Form) -> usize
        ensures { result ≡ count_of self form }
    {
        if form.deleted {
            self.after_delete.of(form.class)
        } else {
            self.after_other.of(form.class)
        }
    }
}

/// The nodes at which rests of one number of steps begin, and how many.
pub(crate) struct Layer {
    pub(crate) nodes: Vec<usize>,
    counts: HashMap<usize, Counts>,
}

impl Drop for Layer {
    fn drop(self) {
        let Layer { nodes, counts } = self;
        drop(nodes);
        drop(counts);
    }
}

impl Layer {
    /// A layer without nodes.
    pub(crate) fn new(alloc: Global) -> Self
        ensures { (u : ℕ) → get nat_eq result.counts u ≡ None }
    {
        Layer {
            nodes: Vec::new(alloc),
            counts: HashMap::new(alloc),
        }
    }

    /// Whether it has the node.
    pub(crate) fn has(&self, node: usize) -> bool
        ensures { result ≡ has_node self.now node }
    {
        self.counts.contains_key(&node)
    }

    /// How many rests of a form begin at the node.
    pub(crate) fn count(&self, node: usize, form: Form) -> usize
        ensures { result ≡ count_in self.now form node }
    {
        match self.counts.get(&node) {
            Some(counts) => counts.of(form),
            None => 0,
        }
    }

    /// Adds a node.
    pub(crate) fn add(&mut self, node: usize, counts: Counts) -> Result<(), AllocError>
        ensures { OnOk result (AddsNode node counts self.old self.new) }
    {
        self.counts.insert(node, counts)?;
        self.nodes.push(node)?;
        Ok(())
    }
}
