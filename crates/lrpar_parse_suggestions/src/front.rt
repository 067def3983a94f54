//! The front of a text: the tokens before the error, and the stacks before the places that are tried.
ghost use Rattle.std.specs.Prelude.{◌≡◌, ◌+◌, IfOk, OnOk};
ghost use Rattle.lrpar_table_shared_stacks.specs.SharedStacks.{current_stack};

use crate::trial::Trials;
use lrpar_grammar::span::StorageIndex;
use lrpar_table_shared_stacks::shared_stacks::SharedStacks;
use std::alloc::{AllocError, Global};

/// How many places before the error are tried, beside its own.
const PLACES_BEFORE: usize = 2;

impl<'a, StorageT: StorageIndex> Trials<'a, StorageT> {
    ghost use Rattle.lrpar_parse_suggestions.specs.TrialView.{AreNumberedBefore, AreNumbersOf, FeedsBefore, HasStack, IsAtStart, IsWithinText, first_place_of};

    /// The stack of the start, which is the current one.
    pub(crate) fn start_stacks(&self, alloc: Global) -> Result<SharedStacks<StorageT>, AllocError>
        ensures { IfOk result (IsAtStart self.now) }
    {
        let mut start = Vec::new(alloc);
        start.push(self.data.stable().start_state())?;
        let stacks = SharedStacks::new(alloc, &start)?;
        Ok(stacks)
    }

    /// Feeds the tokens before the error, as far as they can be fed; returns the numbers of the stacks at the places that are tried.
    pub(crate) fn number_stacks(
        &self,
        alloc: Global,
        stacks: &mut SharedStacks<StorageT>,
    ) -> Result<Vec<usize>, AllocError>
        requires within { IsWithinText self.now }
        requires start { IsAtStart self.now stacks.old }
        ensures numbers { IfOk result (λ numbers. AreNumbersOf StorageT.index self.now stacks.new numbers.items) }
    {
        let mut numbers = Vec::new(alloc);
        'places: for at in 0..self.place {
            self.add_number(stacks, at, &mut numbers)?;
            if !self.feed(stacks, self.tokens[at])? {
                return Ok(numbers);
            }
        }
        self.add_number(stacks, self.place, &mut numbers)?;
        Ok(numbers)
    }

    // Adds the number of the current stack, which is the one at the place, if changes are tried there.
    fn add_number(
        &self,
        stacks: &mut SharedStacks<StorageT>,
        place: usize,
        numbers: &mut Vec<usize>,
    ) -> Result<(), AllocError>
        requires stack { HasStack self.now stacks.old }
        requires fed { FeedsBefore StorageT.index self.now place (current_stack stacks.old) }
        requires numbered { AreNumberedBefore StorageT.index self.now stacks.old place numbers.old.items }
        ensures numbered { OnOk result (AreNumberedBefore StorageT.index self.now stacks.new (place + 1) numbers.new.items) }
        ensures current { current_stack stacks.new ≡ current_stack stacks.old }
    {
        if place < self.first_place() {
            return Ok(());
        }
        let number = stacks.number()?;
        numbers.push(number)?;
        Ok(())
    }

    /// The first place that is tried.
    pub(crate) fn first_place(&self) -> usize
        ensures { result ≡ first_place_of self.now }
    {
        self.place.saturating_sub(PLACES_BEFORE)
    }
}
