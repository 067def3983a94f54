//! The replay of a repair sequence on the stacks of a run.
ghost use Rattle.std.specs.Prelude.{IfOk, OnOk, [], ◌∷◌};
ghost use Rattle.lrpar_parse_run.specs.Running.{CanFeed, CanReplayBy, CanStepBy, HasReplayed, IsFed, IsReady, IsRunAt, NeverSticksOver};

use crate::building::Build;
use crate::run::Run;
use crate::run_stack::Stack;
use lrpar_grammar::span::StorageIndex;
use lrpar_parse_lexemes::lex_api::Lexeme;
use lrpar_parse_lexemes::places::start_of;
use lrpar_parse_repair::repair_step::RepairStep;
use std::alloc::{AllocError, Global};

impl<'a, StorageT: StorageIndex, LexemeT: Lexeme<StorageT>, B: Build<StorageT, LexemeT>> Run<
    'a,
    StorageT,
    LexemeT,
    B,
> {
    /// Replays the steps from the place on. They must work. Returns the place after them. An inserted lexeme is faulty, and empty
    /// where the next lexeme starts. `Err`: out of memory.
    pub fn replay(
        &self,
        alloc: Global,
        lexemes: &[LexemeT],
        stack: &mut Stack<StorageT, B::Entries>,
        place: usize,
        steps: &[RepairStep<StorageT>],
    ) -> Result<usize, AllocError>
        requires there { IsRunAt StorageT.index LexemeT.parts B.builds self.now lexemes.now stack.old place }
        requires runs { NeverSticksOver self.now.checked.now }
        requires works { CanReplayBy StorageT.index LexemeT.parts self.now lexemes.now stack.old.states place steps.now }
        ensures { IfOk result (HasReplayed StorageT.index LexemeT.parts B.builds self.now lexemes.now stack.old place steps.now stack.new) }
    {
        let mut at = place;
        for step in steps {
            at = self.step(alloc, lexemes, stack, at, *step)?;
        }
        Ok(at)
    }

    // Replays one step from the place on. It must work. Returns the place after it.
    fn step(
        &self,
        alloc: Global,
        lexemes: &[LexemeT],
        stack: &mut Stack<StorageT, B::Entries>,
        place: usize,
        step: RepairStep<StorageT>,
    ) -> Result<usize, AllocError>
        requires there { IsRunAt StorageT.index LexemeT.parts B.builds self.now lexemes.now stack.old place }
        requires runs { NeverSticksOver self.now.checked.now }
        requires works { CanStepBy StorageT.index LexemeT.parts self.now lexemes.now stack.old.states place step }
        ensures { IfOk result (HasReplayed StorageT.index LexemeT.parts B.builds self.now lexemes.now stack.old place (step ∷ []) stack.new) }
    {
        match step {
            RepairStep::Insert(token) => {
                let lexeme = LexemeT::new_faulty(token.0, start_of(lexemes, place), 0);
                self.feed(alloc, stack, lexeme)?;
                Ok(place)
            }
            RepairStep::Delete => Ok(place + 1),
            RepairStep::Shift => {
                self.feed(alloc, stack, lexemes[place])?;
                Ok(place + 1)
            }
        }
    }

    // Shifts the lexeme. Its token must be one that can be fed.
    fn feed(
        &self,
        alloc: Global,
        stack: &mut Stack<StorageT, B::Entries>,
        lexeme: LexemeT,
    ) -> Result<(), AllocError>
        requires ready { IsReady B.builds self.now stack.old }
        requires runs { NeverSticksOver self.now.checked.now }
        requires feeds { CanFeed StorageT.index LexemeT.parts self.now lexeme stack.old.states }
        ensures { OnOk result (IsFed StorageT.index LexemeT.parts B.builds self.now lexeme stack.old stack.new) }
    {
        // A checked table has the grammar's tokens.
        let _lemma = self.checked.stable();
        if !self.feed_lexeme(alloc, stack, lexeme)? {
            unreachable!()
        }
        Ok(())
    }
}
