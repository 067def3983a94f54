//! The access paths of a state, those with the shortest access strings first.
ghost use Rattle.std.specs.Prelude.{IfOk};
ghost use Rattle.lrpar_conflict_derivations.specs.Queue.{HasOne, KeepsItems};

use crate::context::Context;
use crate::priority_queue::{NONE, PriorityQueue};
use crate::stacks::Stacks;
use lrpar_grammar::span::{StIdx, StorageIndex, Symbol};
use lrpar_table_sentences::access_strings::Step;
use std::alloc::{AllocError, Global};

// The end of an access path: a state, the symbol by which the path goes on from it, the number of the end that this symbol leads to, and
// the length of the end's text.
#[derive(Clone, Copy)]
struct End<StorageT> {
    state: StIdx<StorageT>,
    symbol: Symbol<StorageT>,
    toward: usize,
    len: usize,
}

/// The ends of access paths to a state that were looked at. Those whose access strings may be shortest come first.
pub(crate) struct AccessPaths<StorageT: StorageIndex> {
    ends: Vec<End<StorageT>>,
    pub(crate) queue: PriorityQueue,
}

// A drop of its own, so that code that drops one elsewhere proves one call.
impl<StorageT: StorageIndex> Drop for AccessPaths<StorageT> {
    fn drop(self) {
        let AccessPaths { ends, queue } = self;
        drop(ends);
        drop(queue);
    }
}

impl<StorageT: StorageIndex> AccessPaths<StorageT> {
    ghost use Rattle.lrpar_conflict_derivations.specs.Search.{KeepsStart, StartsAt, TriesEnd};

    /// The state itself.
    pub(crate) fn new(
        alloc: Global,
        context: &Context<'_, StorageT>,
        state: StIdx<StorageT>,
    ) -> Result<Self, AllocError>
        ensures start { IfOk result (StartsAt StorageT.index (StorageT.index state.0)) }
        ensures queued { IfOk result (λ paths. HasOne paths.queue) }
    {
        let mut queue = PriorityQueue::new(alloc)?;
        queue.add(context.len_to(state))?;
        let mut ends = Vec::new(alloc);
        ends.push(End {
            state,
            symbol: Symbol::Rule(context.grm.start_rule_idx()),
            toward: NONE,
            len: 0,
        })?;
        Ok(AccessPaths { ends, queue })
    }

    /// Looks at one more end. If it is a whole access path, this is the level at its top, with the length of its text.
    pub(crate) fn turn(
        &mut self,
        context: &Context<'_, StorageT>,
        stacks: &mut Stacks<StorageT>,
    ) -> Result<Option<(usize, usize)>, AllocError>
        ensures tried { IfOk result (λ _. TriesEnd self.old self.new) }
        ensures start { KeepsStart StorageT.index self.old self.new }
    {
        let Some(number) = self.queue.pop() else {
            return Ok(None);
        };
        let Some(end) = self.get(number) else {
            return Ok(None);
        };
        if usize::from(end.state) == usize::from(context.table.start_state()) {
            let level = self.walk(context, stacks, number)?;
            return Ok(Some((level, end.len)));
        }
        self.extend(context, number, end)?;
        Ok(None)
    }

    // The end with this number, if there is one.
    fn get(&self, number: usize) -> Option<End<StorageT>> {
        if number < self.ends.len() {
            Some(self.ends[number])
        } else {
            None
        }
    }

    // Adds the ends that are longer by one step.
    fn extend(
        &mut self,
        context: &Context<'_, StorageT>,
        toward: usize,
        end: End<StorageT>,
    ) -> Result<(), AllocError>
        ensures kept { KeepsItems self.old.queue self.new.queue }
        ensures start { KeepsStart StorageT.index self.old self.new }
    {
        let mut number = context.predecessors.first(end.state);
        for _ in 0..context.predecessors.len() {
            let Some(predecessor) = context.predecessors.get(number) else {
                return Ok(());
            };
            self.add(context, toward, end.len, predecessor.step)?;
            number = predecessor.next;
        }
        Ok(())
    }

    // Adds the end that is longer by this step, if its state has an access string. A symbol without tokens counts as one, so that no path
    // goes round a cycle for free.
    #[tactic(auto, using(crate::proofs::SearchLemmas::start_pushed))]
    fn add(
        &mut self,
        context: &Context<'_, StorageT>,
        toward: usize,
        len: usize,
        step: Step<StorageT>,
    ) -> Result<(), AllocError>
        ensures kept { KeepsItems self.old.queue self.new.queue }
        ensures start { KeepsStart StorageT.index self.old self.new }
    {
        let Step { from, symbol } = step;
        let len = len.saturating_add(context.len_of(symbol).max(1));
        let key = context.len_to(from).saturating_add(len);
        if key != NONE {
            self.ends.push(End {
                state: from,
                symbol,
                toward,
                len,
            })?;
            self.queue.add(key)?;
        }
        Ok(())
    }

    // The level at the top of the access path.
    fn walk(
        &self,
        context: &Context<'_, StorageT>,
        stacks: &mut Stacks<StorageT>,
        number: usize,
    ) -> Result<usize, AllocError> {
        let mut number = number;
        let mut level = 0;
        for _ in 0..self.ends.len() {
            let Some(end) = self.get(number) else {
                return Ok(level);
            };
            let Some(next) = self.get(end.toward) else {
                return Ok(level);
            };
            level = stacks.push(context, level, end.symbol, next.state)?;
            number = end.toward;
        }
        Ok(level)
    }
}
