//! The whole run of a parse with repairs. At each error point the recoverer is called once, and the first of its sequences that
//! works is replayed; then the run goes on.
ghost use Rattle.std.specs.Prelude.{◌<◌, ◌≤◌, IfOk, length};
ghost use Rattle.lrpar_grammar.specs.Sentence.{IsValidList};
ghost use Rattle.lrpar_parse_lexemes.specs.Views.{known};
ghost use Rattle.lrpar_parse_run.specs.Moves.{RiseIn};

use crate::building::Build;
use crate::run::Run;
use crate::run_stack::Stack;
use lrpar_grammar::grammar::YaccGrammar;
use lrpar_grammar::span::StorageIndex;
use lrpar_parse_errors::errors::{LexParseError, ParseError};
use lrpar_parse_lexemes::lex_api::{Lexeme, LexerTypes};
use lrpar_parse_lexemes::places::end_lexeme;
use lrpar_parse_repair::engine::Engine;
use lrpar_parse_repair::listed_repairs::listed_repairs;
use lrpar_parse_repair::repair::{Recoverer, RecoveryPoint};
use lrpar_parse_repair::repair_step::RepairStep;
use std::alloc::{AllocError, Global};

/// What a whole run needs: the table and the builder, the lexemes, the recoverer, and how many lexemes must follow a repair.
#[derive(Drop)]
pub struct WholeRun<
    'a,
    StorageT: StorageIndex,
    LexerTypesT: LexerTypes<StorageT = StorageT>,
    B,
    R,
> {
    pub run: Run<'a, StorageT, LexerTypesT::LexemeT, B>,
    pub lexemes: &'a [LexerTypesT::LexemeT],
    pub recoverer: &'a R,
    pub shifts: usize,
}

impl<
    'a,
    StorageT: StorageIndex,
    LexerTypesT: LexerTypes<StorageT = StorageT>,
    B: Build<StorageT, LexerTypesT::LexemeT>,
    R: Recoverer<StorageT, LexerTypesT::LexemeT>,
> WholeRun<'a, StorageT, LexerTypesT, B, R> {
    ghost use Rattle.lrpar_parse_run.specs.WholeRunView.{CanBegin, HasStopped, IsAnswerOf, IsErrorAt, IsStopOf, ListsAt, RecordsAt, Resumes};

    /// Runs from the first lexeme until the table accepts, or until an error point at which no sequence works. Returns the entry of
    /// the whole, if the table accepts, and the errors. `Err`: out of memory.
    ///
    /// The run ends: each later error point is further by at least the number of lexemes that must follow a repair.
    pub fn over(
        &self,
        alloc: Global,
    ) -> Result<(Option<B::Entry>, Vec<LexParseError<StorageT, LexerTypesT>>), AllocError>
        requires { CanBegin StorageT.index LexerTypesT.LexemeT.parts B.builds self.now }
        ensures { IfOk result (IsAnswerOf StorageT.index LexerTypesT.LexemeT.parts R.allows B.builds self.now) }
    {
        starts_rise::<StorageT, LexerTypesT::LexemeT>(self.run.checked.grm(), self.lexemes);
        let stable = self.run.checked.stable();
        let mut stack = Stack::new(alloc, stable.start_state())?;
        let mut errors = Vec::new(alloc);
        let mut place = 0;
        'stops: loop {
            let Some(stop) = self.run.run_far(alloc, self.lexemes, &mut stack, place)? else {
                return Ok((Some(stack.into_entry()), errors));
            };
            let Some(next) = self.resume(alloc, &mut stack, stop, &mut errors)? else {
                return Ok((None, errors));
            };
            place = next;
        }
    }

    // Adds the error of the error point, and replays the first sequence that works there. Returns the place after it; `None`, if
    // no sequence works.
    fn resume(
        &self,
        alloc: Global,
        stack: &mut Stack<StorageT, B::Entries>,
        stop: usize,
        errors: &mut Vec<LexParseError<StorageT, LexerTypesT>>,
    ) -> Result<Option<usize>, AllocError>
        requires { HasStopped StorageT.index LexerTypesT.LexemeT.parts B.builds self.now stack.old stop }
        ensures { IfOk result (Resumes StorageT.index LexerTypesT.LexemeT.parts R.allows B.builds self.now
            stack.old stop errors.old.items stack.new errors.new.items) }
    {
        // The table has entries for these numbers of tokens and rules only, so that a path is a stack.
        let stable = self.run.checked.stable();
        let (_lemma, _second_lemma) = (stable.tokens_len(), stable.rules_len());
        let listed = self.record_error(alloc, stack, stop, errors)?;
        let Some(first) = listed.first() else {
            return Ok(None);
        };
        let next = self.run.replay(alloc, self.lexemes, stack, stop, first)?;
        Ok(Some(next))
    }

    // Adds the error of the error point, and returns the sequences that it lists.
    fn record_error(
        &self,
        alloc: Global,
        stack: &Stack<StorageT, B::Entries>,
        place: usize,
        errors: &mut Vec<LexParseError<StorageT, LexerTypesT>>,
    ) -> Result<Vec<Vec<RepairStep<StorageT>>>, AllocError>
        requires stop { IsStopOf StorageT.index LexerTypesT.LexemeT.parts self.now stack.now.states place }
        requires some { 0 < length stack.now.states }
        ensures { IfOk result (RecordsAt StorageT.index LexerTypesT.LexemeT.parts R.allows self.now
            stack.now.states place errors.old.items errors.new.items) }
    {
        let listed = self.listed(alloc, stack, place)?;
        errors.push(self.error(alloc, stack, place, &listed)?)?;
        Ok(listed)
    }

    // Calls the recoverer once, and returns those of its sequences that work at the error point.
    fn listed(
        &self,
        alloc: Global,
        stack: &Stack<StorageT, B::Entries>,
        place: usize,
    ) -> Result<Vec<Vec<RepairStep<StorageT>>>, AllocError>
        requires { IsStopOf StorageT.index LexerTypesT.LexemeT.parts self.now stack.now.states place }
        ensures { IfOk result (ListsAt StorageT.index LexerTypesT.LexemeT.parts R.allows self.now stack.now.states place) }
    {
        // The table is a checked one.
        let _lemma = self.run.checked.stable();
        let states = stack.states();
        let point = RecoveryPoint::new(self.run.checked, self.shifts, self.lexemes, place, states);
        let answer = self.recoverer.recover(alloc, &point)?;
        Engine::new(self.run.checked, self.lexemes, self.shifts).listed(
            alloc, states, place, answer,
        )
    }

    // The error of the error point, which lists these sequences.
    fn error(
        &self,
        alloc: Global,
        stack: &Stack<StorageT, B::Entries>,
        place: usize,
        listed: &[Vec<RepairStep<StorageT>>],
    ) -> Result<LexParseError<StorageT, LexerTypesT>, AllocError>
        requires some { 0 < length stack.now.states }
        requires within { place ≤ length self.now.lexemes.now }
        ensures { IfOk result (IsErrorAt StorageT.index LexerTypesT.LexemeT.parts R.allows self.now stack.now.states place listed.now) }
    {
        let repairs = listed_repairs(alloc, &self.lexemes[place..], listed)?;
        let lexeme = match self.lexemes.get(place) {
            Some(lexeme) => *lexeme,
            None => end_lexeme(self.run.checked.grm().eof_token_idx(), self.lexemes),
        };
        Ok(LexParseError::ParseError(ParseError::new(stack.top(), lexeme, repairs)))
    }
}

// The starts of the lexemes of a valid list don't decrease, and the last one ends no earlier than it starts.
fn starts_rise<StorageT: StorageIndex, LexemeT: Lexeme<StorageT>>(
    grm: &YaccGrammar<StorageT>,
    lexemes: &[LexemeT],
)
    requires { IsValidList grm.now (known StorageT.index LexemeT.parts lexemes.now) }
    ensures { RiseIn StorageT.index LexemeT.parts lexemes.now }
{
    if let Some(last) = lexemes.last() {
        let _lemma = last.span().start();
    }
}
