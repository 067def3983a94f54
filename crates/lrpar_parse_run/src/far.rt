//! How far a run goes from a place, without repairs.
ghost use Rattle.std.specs.Prelude.{IfOk};
ghost use Rattle.lrpar_parse_run.specs.Running.{HasGoneFar, IsRunAt};

use crate::building::Build;
use crate::run::Run;
use crate::run_stack::Stack;
use lrpar_grammar::span::StorageIndex;
use lrpar_parse_lexemes::lex_api::Lexeme;
use lrpar_table_rows::table::Action;
use std::alloc::{AllocError, Global};

impl<'a, StorageT: StorageIndex, LexemeT: Lexeme<StorageT>, B: Build<StorageT, LexemeT>> Run<
    'a,
    StorageT,
    LexemeT,
    B,
> {
    /// Runs from the place as far as it can. Returns the place of the error point; `None`, if the run accepts. `Err`: out of
    /// memory.
    pub fn run_far(
        &self,
        alloc: Global,
        lexemes: &[LexemeT],
        stack: &mut Stack<StorageT, B::Entries>,
        place: usize,
    ) -> Result<Option<usize>, AllocError>
        requires { IsRunAt StorageT.index LexemeT.parts B.builds self.now lexemes.now stack.old place }
        ensures { IfOk result (HasGoneFar StorageT.index LexemeT.parts B.builds self.now lexemes.now stack.old place stack.new) }
    {
        // A checked table never sticks.
        let _lemma = self.checked.stable();
        for at in place..lexemes.len() {
            if !self.feed_lexeme(alloc, stack, lexemes[at])? {
                return Ok(Some(at));
            }
        }
        let end = self.checked.grm().eof_token_idx();
        match self.settle(alloc, stack, end)? {
            Action::Accept => Ok(None),
            Action::Error => Ok(Some(lexemes.len())),
            Action::Reduce(_) | Action::Shift(_) => unreachable!(),
        }
    }
}
