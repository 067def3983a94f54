//! The run: shifts and reductions over valid lexemes, by a checked table.
ghost use Rattle.std.specs.Prelude.{◌≡◌, ◌<◌, IfOk};

use crate::building::Build;
use crate::reducing::Reducing;
use crate::run_stack::Stack;
use lrpar_grammar::span::{StorageIndex, TIdx};
use lrpar_parse_lexemes::lex_api::Lexeme;
use lrpar_table_check::check::ParserData;
use lrpar_table_rows::table::Action;
use std::alloc::{AllocError, Global};
use std::marker::PhantomData;

/// The checked table of a run, and what the run builds.
#[derive(Drop)]
pub struct Run<'a, StorageT: StorageIndex, LexemeT, B> {
    pub checked: &'a ParserData<StorageT>,
    pub build: &'a B,
    lexemes: PhantomData<LexemeT>,
}

impl<'a, StorageT: StorageIndex, LexemeT: Lexeme<StorageT>, B: Build<StorageT, LexemeT>> Run<
    'a,
    StorageT,
    LexemeT,
    B,
> {
    ghost use Rattle.lrpar_parse_run.specs.Running.{CanTake, HasSettled, IsReady, IsTaken, IsTokenOf, NeverSticksOver};

    pub fn new(checked: &'a ParserData<StorageT>, build: &'a B) -> Self
        ensures checked { result.checked.now ≡ checked.now }
        ensures build { result.build.now ≡ build.now }
    {
        Run {
            checked,
            build,
            lexemes: PhantomData,
        }
    }

    /// Makes all reductions at the lexeme's token, and shifts the lexeme if the table then has a shift. Returns whether it did.
    /// `Err`: out of memory.
    pub fn feed_lexeme(
        &self,
        alloc: Global,
        stack: &mut Stack<StorageT, B::Entries>,
        lexeme: LexemeT,
    ) -> Result<bool, AllocError>
        requires ready { IsReady B.builds self.now stack.old }
        requires runs { NeverSticksOver self.now.checked.now }
        requires lexeme { CanTake StorageT.index LexemeT.parts self.now lexeme }
        ensures { IfOk result (IsTaken StorageT.index LexemeT.parts B.builds self.now lexeme stack.old stack.new) }
    {
        match self.settle(alloc, stack, TIdx(lexeme.tok_id()))? {
            Action::Shift(state) => {
                stack.shift(self.build, state, lexeme)?;
                Ok(true)
            }
            Action::Error => Ok(false),
            Action::Reduce(_) | Action::Accept => unreachable!(),
        }
    }

    /// Makes all reductions at the token, and returns the action of the state that is then on top. `Err`: out of memory.
    pub fn settle(
        &self,
        alloc: Global,
        stack: &mut Stack<StorageT, B::Entries>,
        token: TIdx<StorageT>,
    ) -> Result<Action<StorageT>, AllocError>
        requires ready { IsReady B.builds self.now stack.old }
        requires token { IsTokenOf StorageT.index self.now token }
        ensures { IfOk result (HasSettled B.builds self.now StorageT.index token stack.old stack.new) }
    {
        let stable = self.checked.stable();
        // The table has entries for these numbers of tokens and rules only, so that a path is a stack.
        let (_lemma, _second_lemma) = (stable.tokens_len(), stable.rules_len());
        let mut reducing = Reducing::new(alloc, self.checked.grm(), self.build, stack);
        Ok(self.checked.settle_on(&mut reducing, token)?.action)
    }
}
