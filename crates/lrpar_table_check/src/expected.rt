//! What may come next at a stack: the tokens that can be fed there, and the end token, if it accepts.
ghost use Rattle.std.specs.Prelude.{◌≡◌, IfOk, OnOk, OnErr};
ghost use Rattle.lrpar_table_check.specs.CheckedStacks.{AreExpectedOn, AreExpectedOver, FailsToList, FailsToListOver, FailsToSettleOver, FailsToTry, FormStack, IsStackOf, IsTokenOf, IsWhetherExpected, IsWhetherExpectedOn};
ghost use Rattle.lrpar_table_stacks.specs.Overlay.{overlaid};

use crate::check::ParserData;
use lrpar_grammar::span::{StIdx, StorageIndex, TIdx};
use lrpar_table_rows::table::Action;
use lrpar_table_stacks::overlay::Overlay;
use lrpar_table_stacks::probe::Probe;
use std::alloc::{AllocError, Global};

impl<StorageT: StorageIndex> ParserData<StorageT> {
    /// The tokens that may come next at the stack, bottom first, ascending: those other than the end token that `feed` shifts
    /// there, and the end token if the stack, settled under it, accepts. The list stays as it is.
    ///
    /// It makes one settle for each token at which the top state's action isn't an error. It allocates only for the result, and
    /// for the states that reductions put over the stack.
    pub fn expected(
        &self,
        alloc: Global,
        stack: &[StIdx<StorageT>],
    ) -> Result<Vec<TIdx<StorageT>>, AllocError>
        requires stack { FormStack StorageT.index self.now stack.now }

        // Exactly these tokens may come next.
        ensures expected { IfOk result (AreExpectedOn StorageT.index self.now stack.now) }

        // Some token may come next, and is listed; or a reduction under some token is due, for which there is no room.
        ensures short_of_memory { OnErr result (FailsToList StorageT.index self.now stack.now) }
    {
        let overlay = Overlay::new(alloc, stack);
        self.expected_over(alloc, &overlay)
    }

    /// As `expected`, at the stack that the overlay represents, which stays as it is: nothing of it is copied.
    pub fn expected_over(
        &self,
        alloc: Global,
        overlay: &Overlay<'_, StorageT>,
    ) -> Result<Vec<TIdx<StorageT>>, AllocError>
        requires stack { IsStackOf self.now (overlaid overlay.now) }

        // Exactly these tokens may come next.
        ensures expected { IfOk result (AreExpectedOver StorageT.index self.now overlay.now) }

        // Some token may come next, and is listed; or a reduction under some token is due, for which there is no room.
        ensures short_of_memory { OnErr result (FailsToListOver self.now overlay.now) }
    {
        let (tokens, _) = self.stable().actions_of(overlay.top());
        let mut probe = Probe::new(alloc, overlay);
        let mut expected = Vec::new(alloc);
        for token in tokens {
            probe.set_back();
            if self.try_token(&mut probe, *token)? {
                expected.push(*token)?;
            }
        }
        Ok(expected)
    }

    /// Whether the token may come next at the stack, which stays as it is. Internal: a run that must not lose its stack asks this
    /// before it feeds.
    pub fn is_expected(
        &self,
        alloc: Global,
        stack: &[StIdx<StorageT>],
        t: TIdx<StorageT>,
    ) -> Result<bool, AllocError>
        requires stack { FormStack StorageT.index self.now stack.now }
        requires token { IsTokenOf StorageT.index self.now t }
        ensures expected { IfOk result (IsWhetherExpectedOn StorageT.index self.now stack.now t) }

        // A reduction is due, for which there is no room.
        ensures short_of_memory { OnErr result (FailsToTry StorageT.index self.now stack.now t) }
    {
        let overlay = Overlay::new(alloc, stack);
        self.try_token(&mut Probe::new(alloc, &overlay), t)
    }

    // Makes all reductions of the states under the token, and returns whether it may come next.
    fn try_token(
        &self,
        states: &mut Probe<'_, '_, StorageT>,
        t: TIdx<StorageT>,
    ) -> Result<bool, AllocError>
        requires stack { IsStackOf self.now (overlaid states.old) }
        requires token { IsTokenOf StorageT.index self.now t }
        ensures expected { IfOk result (IsWhetherExpected StorageT.index self.now (overlaid states.old) t) }
        ensures base { OnOk result (states.new.base ≡ states.old.base) }
        ensures short_of_memory { FailsToSettleOver StorageT.index self.now t states.old states.new result }
    {
        // Checked: the table shifts no end token, and accepts only at that one.
        let _lemma = self.stable();
        match self.settle_on(states, t)?.action {
            Action::Shift(_) | Action::Accept => Ok(true),
            Action::Reduce(_) | Action::Error => Ok(false),
        }
    }
}
