//! What a stack of states does at a token: its reductions, and the shift after them.
ghost use Rattle.std.specs.Prelude.{IfOk, OnOk};
ghost use Rattle.lrpar_table_check.specs.CheckedStacks.{FailsToFeed, FailsToFeedList, FailsToFeedOver, FailsToSettle, FailsToSettleList, FailsToSettleOver, FeedsStack, HasStack, IsListFed, IsListSettled, IsOverlayFed, IsOverlaySettled, IsStackOf, IsTokenOf, IsTopAction, SettlesStack, SuitsTable};
ghost use Rattle.lrpar_table_stacks.specs.Overlay.{overlaid};

use crate::check::ParserData;
use lrpar_grammar::span::{StIdx, StorageIndex, TIdx};
use lrpar_table_rows::table::Action;
use lrpar_table_stacks::overlay::Overlay;
use lrpar_table_stacks::reduction::{Step, take_step};
use lrpar_table_stacks::state_stack::{Settled, ShiftStack, StateStack};
use std::alloc::AllocError;

impl<StorageT: StorageIndex> ParserData<StorageT> {
    /// Makes all reductions of a stack of any kind under the token, and returns how many these were, and the action of the state
    /// then on top. Internal: `settle` and `settle_over` are this.
    ///
    /// At most the cap for each state of the stack, each with one action and one goto.
    pub fn settle_on<S: StateStack<StorageT>>(
        &self,
        stack: &mut S,
        t: TIdx<StorageT>,
    ) -> Result<Settled<StorageT>, AllocError>
        requires suits { SuitsTable S.suits self.now stack.old }
        requires stack { IsStackOf self.now (S.states stack.old) }
        requires token { IsTokenOf StorageT.index self.now t }

        // All reductions were made, on the states and on the rest; their number is given and bounded.
        ensures settled { SettlesStack StorageT.index S.StateStack self.now t stack.old stack.new result }
        ensures action { IfOk result (IsTopAction StorageT.index self.now.table t (S.states stack.new)) }
        ensures suits { OnOk result (SuitsTable S.suits self.now stack.new) }

        // Some first reductions were made, and an allocation failed in the next one.
        ensures short_of_memory { FailsToSettle StorageT.index S.StateStack self.now t stack.old stack.new result }

        // It is a stack in either case.
        ensures stack { IsStackOf self.now (S.states stack.new) }
    {
        let (grm, table) = (self.grm(), self.stable());
        // At most the cap for each state of the stack: the number of reductions fits.
        let (_lemma, _second_lemma) = (self.cap(), stack.height());
        let mut count = 0;
        'reductions: loop {
            let (step, action) = take_step(grm, table, stack, t)?;
            match step {
                Step::Reduced => count += 1,
                Step::LeavesNone | Step::Stays => return Ok(Settled {
                    reductions: count,
                    action,
                }),
            }
        }
    }

    /// Makes all reductions of the stack, bottom first, under the token, and returns how many these were.
    ///
    /// At most the cap for each state of the stack. Only a reduction of no symbols allocates, on a list that is full; after an
    /// `Err`, the stack is what the reductions before that one give.
    pub fn settle(
        &self,
        stack: &mut Vec<StIdx<StorageT>>,
        t: TIdx<StorageT>,
    ) -> Result<u128, AllocError>
        requires stack { HasStack StorageT.index self.now stack.old }
        requires token { IsTokenOf StorageT.index self.now t }

        // All reductions were made; their number is given and bounded.
        ensures settled { IfOk result (IsListSettled StorageT.index self.now t stack.old stack.new) }

        // Some first reductions were made, and the list is full for the next one.
        ensures short_of_memory { FailsToSettleList StorageT.index self.now t stack.old stack.new result }

        // It is a stack in either case.
        ensures stack { HasStack StorageT.index self.now stack.new }
    {
        Ok(self.settle_on(stack, t)?.reductions)
    }

    /// As `settle`, over an overlay, whose base stays as it is.
    ///
    /// Only a reduction that makes the tail longer allocates, if the tail is full or the stack has 2^64 - 1 states. After an
    /// `Err`, `kept` is that of the reductions that were made.
    pub fn settle_over(
        &self,
        stack: &mut Overlay<'_, StorageT>,
        t: TIdx<StorageT>,
    ) -> Result<u128, AllocError>
        requires stack { IsStackOf self.now (overlaid stack.old) }
        requires token { IsTokenOf StorageT.index self.now t }

        // All reductions were made; their number is given and bounded.
        ensures settled { IfOk result (IsOverlaySettled StorageT.index self.now t stack.old stack.new) }

        // Some first reductions were made, and the tail is full for the next one.
        ensures short_of_memory { FailsToSettleOver StorageT.index self.now t stack.old stack.new result }

        // It is a stack in either case.
        ensures stack { IsStackOf self.now (overlaid stack.new) }
    {
        Ok(self.settle_on(stack, t)?.reductions)
    }

    /// Makes all reductions of a stack of any kind under the token, and then shifts the token, if the top state does; returns
    /// whether it did. Internal: `feed` and `feed_over` are this.
    pub fn feed_on<S: ShiftStack<StorageT>>(
        &self,
        stack: &mut S,
        t: TIdx<StorageT>,
    ) -> Result<bool, AllocError>
        requires suits { SuitsTable S.suits self.now stack.old }
        requires stack { IsStackOf self.now (S.states stack.old) }
        requires token { IsTokenOf StorageT.index self.now t }

        // The token was shifted after all reductions, or the top doesn't shift it.
        ensures fed { FeedsStack StorageT.index S.states S.reduces S.shifts self.now t stack.old stack.new result }

        // An allocation failed in a reduction, or in the shift after all of them.
        ensures short_of_memory { FailsToFeed StorageT.index S.states S.reduces S.fails S.shift_fails self.now t stack.old stack.new result }

        // It is a stack in each case.
        ensures stack { IsStackOf self.now (S.states stack.new) }
    {
        // Checked: a shift of the table leads to a stack.
        let _lemma = self.stable();
        let action = self.settle_on(stack, t)?.action;
        match action {
            Action::Shift(next) => {
                stack.shift(next)?;
                Ok(true)
            }
            Action::Reduce(_) | Action::Accept | Action::Error => Ok(false),
        }
    }

    /// Makes all reductions of the stack, bottom first, under the token, and then shifts the token, if the top state does;
    /// returns whether it did.
    ///
    /// If it didn't, the reductions stay made. A reduction of no symbols and the shift allocate, on a list that is full; after an
    /// `Err`, the stack is what the reductions before that give.
    pub fn feed(
        &self,
        stack: &mut Vec<StIdx<StorageT>>,
        t: TIdx<StorageT>,
    ) -> Result<bool, AllocError>
        requires stack { HasStack StorageT.index self.now stack.old }
        requires token { IsTokenOf StorageT.index self.now t }

        // The token was shifted after all reductions, or the top doesn't shift it.
        ensures fed { IfOk result (IsListFed StorageT.index self.now t stack.old stack.new) }

        // The list is full for the next reduction, or for the shift after all of them.
        ensures short_of_memory { FailsToFeedList StorageT.index self.now t stack.old stack.new result }

        // It is a stack in each case.
        ensures stack { HasStack StorageT.index self.now stack.new }
    {
        self.feed_on(stack, t)
    }

    /// As `feed`, over an overlay, whose base stays as it is.
    ///
    /// Only a reduction that makes the tail longer and the shift allocate, if the tail is full or the stack has 2^64 - 1 states.
    /// After an `Err`, `kept` is that of the reductions that were made.
    pub fn feed_over(
        &self,
        stack: &mut Overlay<'_, StorageT>,
        t: TIdx<StorageT>,
    ) -> Result<bool, AllocError>
        requires stack { IsStackOf self.now (overlaid stack.old) }
        requires token { IsTokenOf StorageT.index self.now t }

        // The token was shifted after all reductions, or the top doesn't shift it.
        ensures fed { IfOk result (IsOverlayFed StorageT.index self.now t stack.old stack.new) }

        // The tail is full for the next reduction, or for the shift after all of them.
        ensures short_of_memory { FailsToFeedOver StorageT.index self.now t stack.old stack.new result }

        // It is a stack in each case.
        ensures stack { IsStackOf self.now (overlaid stack.new) }
    {
        self.feed_on(stack, t)
    }
}
