//! The search over configurations of two derivations, those whose texts may be shortest first.
ghost use Rattle.std.specs.Prelude.{◌≡◌, ◌≤◌, ◌↔◌, IfOk, IsTrue};
ghost use Rattle.lrpar_conflict_derivations.specs.Queue.{KeepsItems};
ghost use Rattle.lrpar_conflict_derivations.specs.Search.{EndsTurn, IsNewSearch, IsOver, LooksFirst, tried_in};

use crate::access_paths::AccessPaths;
use crate::configurations::{Configurations, Conflict};
use crate::context::Context;
use crate::priority_queue::PriorityQueue;
use lrpar_grammar::span::StorageIndex;
use std::alloc::{AllocError, Global};

/// The result of one turn of the search.
pub(crate) enum Turn {
    Found(usize),
    Further,
    Over,
}

/// The search.
pub(crate) struct Search<StorageT: StorageIndex> {
    pub(crate) configurations: Configurations<StorageT>,
    paths: AccessPaths<StorageT>,
    queue: PriorityQueue,
}

// A drop of its own, so that code that drops one elsewhere proves one call.
impl<StorageT: StorageIndex> Drop for Search<StorageT> {
    fn drop(self) {
        let Search {
            configurations,
            paths,
            queue,
        } = self;
        drop(configurations);
        drop(paths);
        drop(queue);
    }
}

impl<StorageT: StorageIndex> Search<StorageT> {
    /// Nothing was tried yet.
    pub(crate) fn new(
        alloc: Global,
        context: &Context<'_, StorageT>,
        conflict: &Conflict<StorageT>,
    ) -> Result<Self, AllocError>
        ensures { IfOk result (IsNewSearch StorageT.index conflict.now.state) }
    {
        Ok(Search {
            configurations: Configurations::new(alloc, context)?,
            paths: AccessPaths::new(alloc, context, conflict.state)?,
            queue: PriorityQueue::new(alloc)?,
        })
    }

    /// Tries what may have the shortest text: a configuration, or an access path on which one can start.
    pub(crate) fn turn(
        &mut self,
        context: &Context<'_, StorageT>,
        conflict: &Conflict<StorageT>,
    ) -> Result<Turn, AllocError>
        ensures { IfOk result (EndsTurn StorageT.index self.old self.new) }
    {
        if self.is_path_first() {
            if let Some((level, len)) = self.paths.turn(context, &mut self.configurations.stacks)? {
                self.configurations.start(context, conflict, level, len)?;
                add_new(&self.configurations, &mut self.queue)?;
            }
            return Ok(Turn::Further);
        }
        let Some(number) = self.queue.pop() else {
            return Ok(Turn::Over);
        };
        if self.configurations.extend(context, conflict, number)? {
            return Ok(Turn::Found(number));
        }
        add_new(&self.configurations, &mut self.queue)?;
        Ok(Turn::Further)
    }

    /// How many ends of access paths and configurations were tried.
    pub(crate) fn tried(&self) -> usize
        requires { tried_in self.now ≤ usize.MAX }
        ensures { result ≡ tried_in self.now }
    {
        self.paths.queue.popped() + self.queue.popped()
    }

    /// Whether nothing is left to try.
    pub(crate) fn is_over(&self) -> bool
        ensures { IsTrue result ↔ IsOver self.now }
    {
        self.paths.queue.is_empty() && self.queue.is_empty()
    }

    // Whether an access path comes before each configuration.
    #[tactic(auto, using(crate::proofs::SearchLemmas::looks_first))]
    fn is_path_first(&self) -> bool
        ensures { LooksFirst self.now result }
    {
        match self.paths.queue.least() {
            None => false,
            Some(path) => match self.queue.least() {
                None => true,
                Some(configuration) => {
                    path.saturating_add(self.configurations.ahead) < configuration
                }
            },
        }
    }
}

// Adds the configurations that aren't in the queue yet.
fn add_new<StorageT: StorageIndex>(
    configurations: &Configurations<StorageT>,
    queue: &mut PriorityQueue,
) -> Result<(), AllocError>
    ensures { KeepsItems queue.old queue.new }
{
    for number in queue.len()..configurations.len() {
        queue.add(configurations.key(number))?;
    }
    Ok(())
}
