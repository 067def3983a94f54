//! The engine of repair sequences: what their steps make of a stack of any kind, and whether a parse can go on from one.
ghost use Rattle.std.specs.Prelude.{◌≡◌, ◌≤◌, ◌+◌, ◌↔◌, length, OnOk, IsTrue};
ghost use Rattle.lrpar_table_rows.specs.PlainRows.{plain_action};
ghost use Rattle.lrpar_table_rows.specs.Table.{Accepts};
ghost use Rattle.lrpar_table_stacks.specs.Stack.{states_of};

use crate::repair_step::RepairStep;
use lrpar_grammar::span::{StIdx, StorageIndex, TIdx};
use lrpar_parse_lexemes::lex_api::Lexeme;
use lrpar_table_check::check::{Overlay, ParserData};
use lrpar_table_rows::table::Action;
use lrpar_table_stacks::state_stack::ShiftStack;
use std::alloc::{AllocError, Global};

/// What the steps of sequences need: the checked table and the lexemes of a parse, and how many lexemes must follow a repair.
///
/// The methods take a stack of any kind that has no conditions beside its states: an overlay, for instance. Each of them changes the stack
/// by reductions and shifts alone, also if it returns `None` or `false`, and by no more reductions than the tokens that it feeds may cost.
#[derive(Drop)]
pub struct Engine<'a, StorageT: StorageIndex, LexemeT> {
    /// The grammar with its checked table.
    pub checked: &'a ParserData<StorageT>,
    /// All lexemes of the parse.
    pub lexemes: &'a [LexemeT],
    /// How many lexemes must follow a repair.
    pub shifts: usize,
}

impl<'a, StorageT: StorageIndex, LexemeT: Lexeme<StorageT>> Engine<'a, StorageT, LexemeT> {
    ghost use Rattle.lrpar_parse_repair.specs.EngineView.{FeedsToken, HasStack, HasStates, HasToken, HasTokens, Inserts, IsMovedFor, IsTestOf, ListsWorking, Shifts, SuitsAll, TakesStep, TellsAccepts, TellsGoesOn, TellsSome, TellsWorks, TestsAnswer};

    /// The engine of these. Takes no memory.
    pub fn new(checked: &'a ParserData<StorageT>, lexemes: &'a [LexemeT], shifts: usize) -> Self
        ensures checked { result.checked.now ≡ checked.now }
        ensures lexemes { result.lexemes.now ≡ lexemes.now }
        ensures shifts { result.shifts ≡ shifts }
    {
        Engine {
            checked,
            lexemes,
            shifts,
        }
    }

    /// The sequences of the answer that work from the stack at the place, in order, each as often as in the answer. `Err`: out of
    /// memory.
    ///
    /// The stack is not copied: the sequences are tested one after the other over the same borrowed list.
    pub fn listed(
        &self,
        alloc: Global,
        stack: &[StIdx<StorageT>],
        place: usize,
        answer: Vec<Vec<RepairStep<StorageT>>>,
    ) -> Result<Vec<Vec<RepairStep<StorageT>>>, AllocError>
        requires tokens { HasTokens StorageT.index LexemeT.parts self.now }
        requires stack { HasStack StorageT.index self.now stack.now }
        requires within { place ≤ length self.now.lexemes.now }
        ensures listed { ListsWorking StorageT.index LexemeT.parts self.now (states_of StorageT.index stack.now) place answer result }
    {
        let mut states = Overlay::new(alloc, stack);
        self.retain_working(alloc, &mut states, place, answer)
    }

    // The sequences of the answer that work from the borrowed states at the place. Each is tested once.
    fn retain_working(
        &self,
        alloc: Global,
        states: &mut Overlay<'_, StorageT>,
        place: usize,
        answer: Vec<Vec<RepairStep<StorageT>>>,
    ) -> Result<Vec<Vec<RepairStep<StorageT>>>, AllocError>
        requires tokens { HasTokens StorageT.index LexemeT.parts self.now }
        requires stack { HasStates self.now states.old.base }
        requires within { place ≤ length self.now.lexemes.now }
        ensures listed { ListsWorking StorageT.index LexemeT.parts self.now states.old.base place answer result }

        // The tests make at most as many reductions as the sequences may cost.
        ensures bounded { OnOk result (TestsAnswer StorageT.index self.now answer.items states.old states.new) }
    {
        let mut listed = Vec::new(alloc);
        for steps in answer {
            let works = self.works_from_base(states, place, &steps)?;
            if !works {
                continue;
            }
            listed.push(steps)?;
        }
        Ok(listed)
    }

    /// Whether some sequence of the answer works from the stack at the place. They are tested in order, up to the first one that works.
    /// `Err`: out of memory.
    pub fn some_works(
        &self,
        alloc: Global,
        stack: &[StIdx<StorageT>],
        place: usize,
        answer: &[Vec<RepairStep<StorageT>>],
    ) -> Result<bool, AllocError>
        requires tokens { HasTokens StorageT.index LexemeT.parts self.now }
        requires stack { HasStack StorageT.index self.now stack.now }
        requires within { place ≤ length self.now.lexemes.now }
        ensures works { TellsSome StorageT.index LexemeT.parts self.now (states_of StorageT.index stack.now) place answer.now result }
    {
        let mut states = Overlay::new(alloc, stack);
        self.has_working(&mut states, place, answer)
    }

    // Whether some sequence of the answer works from the borrowed states at the place. Each is tested at most once.
    fn has_working(
        &self,
        states: &mut Overlay<'_, StorageT>,
        place: usize,
        answer: &[Vec<RepairStep<StorageT>>],
    ) -> Result<bool, AllocError>
        requires tokens { HasTokens StorageT.index LexemeT.parts self.now }
        requires stack { HasStates self.now states.old.base }
        requires within { place ≤ length self.now.lexemes.now }
        ensures works { TellsSome StorageT.index LexemeT.parts self.now states.old.base place answer.now result }

        // The tests make at most as many reductions as the sequences may cost.
        ensures bounded { OnOk result (TestsAnswer StorageT.index self.now answer.now states.old states.new) }
    {
        for steps in answer {
            if self.works_from_base(states, place, steps)? {
                return Ok(true);
            }
        }
        Ok(false)
    }

    // Whether the sequence works from the borrowed states at the place. What an earlier test made of the overlay is undone.
    fn works_from_base(
        &self,
        states: &mut Overlay<'_, StorageT>,
        place: usize,
        steps: &[RepairStep<StorageT>],
    ) -> Result<bool, AllocError>
        requires tokens { HasTokens StorageT.index LexemeT.parts self.now }
        requires stack { HasStates self.now states.old.base }
        requires within { place ≤ length self.now.lexemes.now }
        ensures works { TellsWorks StorageT.index LexemeT.parts self.now states.old.base place steps.now result }

        // The test makes at most as many reductions as the sequence may cost.
        ensures tested { OnOk result (IsTestOf self.now steps.now states.old states.new) }
    {
        states.set_back();
        self.works(states, place, steps)
    }

    /// Whether the sequence works from the stack at the place. `Err`: out of memory.
    pub fn works<S: ShiftStack<StorageT>>(
        &self,
        stack: &mut S,
        place: usize,
        steps: &[RepairStep<StorageT>],
    ) -> Result<bool, AllocError>
        requires tokens { HasTokens StorageT.index LexemeT.parts self.now }
        requires suits { SuitsAll S.suits self.now }
        requires stack { HasStates self.now (S.states stack.old) }
        requires within { place ≤ length self.now.lexemes.now }
        ensures works { TellsWorks StorageT.index LexemeT.parts self.now (S.states stack.old) place steps.now result }
        ensures stack { HasStates self.now (S.states stack.new) }
        ensures moved { OnOk result (IsMovedFor self.now S.states S.reduces S.shifts (length steps.now + self.now.shifts) stack.old stack.new) }
    {
        let mut at = place;
        for step in steps {
            match self.try_step(stack, at, *step)? {
                None => return Ok(false),
                Some(next) => at = next,
            }
        }
        self.can_go_on(stack, at)
    }

    /// Whether the number of lexemes that must follow a repair can be fed in turn; or, if fewer are left, whether all of these can,
    /// and the stack then accepts. `Err`: out of memory.
    pub fn can_go_on<S: ShiftStack<StorageT>>(
        &self,
        stack: &mut S,
        place: usize,
    ) -> Result<bool, AllocError>
        requires tokens { HasTokens StorageT.index LexemeT.parts self.now }
        requires suits { SuitsAll S.suits self.now }
        requires stack { HasStates self.now (S.states stack.old) }
        requires within { place ≤ length self.now.lexemes.now }
        ensures goes_on { TellsGoesOn StorageT.index LexemeT.parts self.now (S.states stack.old) place result }
        ensures stack { HasStates self.now (S.states stack.new) }
        ensures moved { OnOk result (IsMovedFor self.now S.states S.reduces S.shifts self.now.shifts stack.old stack.new) }
    {
        let mut at = place;
        'lexemes: for _ in 0..self.shifts {
            if at == self.lexemes.len() {
                return self.try_accept(stack);
            }
            match self.shift(stack, at)? {
                None => return Ok(false),
                Some(next) => at = next,
            }
        }
        Ok(true)
    }

    /// Takes the step from the stack at the place. Returns the place after it; `None`, if it can't be taken. `Err`: out of memory.
    pub fn try_step<S: ShiftStack<StorageT>>(
        &self,
        stack: &mut S,
        place: usize,
        step: RepairStep<StorageT>,
    ) -> Result<Option<usize>, AllocError>
        requires tokens { HasTokens StorageT.index LexemeT.parts self.now }
        requires suits { SuitsAll S.suits self.now }
        requires stack { HasStates self.now (S.states stack.old) }
        ensures taken { TakesStep StorageT.index LexemeT.parts S.states self.now place step stack.old stack.new result }
        ensures stack { HasStates self.now (S.states stack.new) }
        ensures moved { OnOk result (IsMovedFor self.now S.states S.reduces S.shifts 1 stack.old stack.new) }
    {
        match step {
            RepairStep::Insert(token) => self.insert(stack, place, token),
            RepairStep::Delete => {
                if place < self.lexemes.len() {
                    Ok(Some(place + 1))
                } else {
                    Ok(None)
                }
            }
            RepairStep::Shift => self.shift(stack, place),
        }
    }

    // Feeds the token, if it is one of the grammar other than the end token. The place stays.
    fn insert<S: ShiftStack<StorageT>>(
        &self,
        stack: &mut S,
        place: usize,
        token: TIdx<StorageT>,
    ) -> Result<Option<usize>, AllocError>
        requires suits { SuitsAll S.suits self.now }
        requires stack { HasStates self.now (S.states stack.old) }
        ensures taken { Inserts StorageT.index LexemeT.parts S.states self.now place token stack.old stack.new result }
        ensures stack { HasStates self.now (S.states stack.new) }
        ensures moved { OnOk result (IsMovedFor self.now S.states S.reduces S.shifts 1 stack.old stack.new) }
    {
        let end = self.checked.grm().eof_token_idx();
        if usize::from(token) >= usize::from(end) {
            return Ok(None);
        }
        let fed = self.feed(stack, token)?;
        Ok(fed.then_some(place))
    }

    /// Feeds the token of the lexeme at the place, if there is one. Returns the next place; `None`, if it can't be fed. `Err`: out of
    /// memory.
    pub fn shift<S: ShiftStack<StorageT>>(
        &self,
        stack: &mut S,
        place: usize,
    ) -> Result<Option<usize>, AllocError>
        requires tokens { HasTokens StorageT.index LexemeT.parts self.now }
        requires suits { SuitsAll S.suits self.now }
        requires stack { HasStates self.now (S.states stack.old) }
        ensures taken { Shifts StorageT.index LexemeT.parts S.states self.now place stack.old stack.new result }
        ensures stack { HasStates self.now (S.states stack.new) }
        ensures moved { OnOk result (IsMovedFor self.now S.states S.reduces S.shifts 1 stack.old stack.new) }
    {
        let Some(lexeme) = self.lexemes.get(place) else {
            return Ok(None);
        };
        let fed = self.feed(stack, TIdx(lexeme.tok_id()))?;
        Ok(fed.then_some(place + 1))
    }

    // Feeds the token, which must be the grammar's. Returns whether it was fed.
    fn feed<S: ShiftStack<StorageT>>(
        &self,
        stack: &mut S,
        token: TIdx<StorageT>,
    ) -> Result<bool, AllocError>
        requires token { HasToken StorageT.index self.now token }
        requires suits { SuitsAll S.suits self.now }
        requires stack { HasStates self.now (S.states stack.old) }
        ensures fed { FeedsToken StorageT.index self.now token (S.states stack.old) (S.states stack.new) result }
        ensures stack { HasStates self.now (S.states stack.new) }
        ensures moved { OnOk result (IsMovedFor self.now S.states S.reduces S.shifts 1 stack.old stack.new) }
    {
        // A checked table has the grammar's tokens.
        let _lemma = self.checked.stable();
        self.checked.feed_on(stack, token)
    }

    /// Makes all reductions at the end token, and returns whether the stack then accepts. `Err`: out of memory.
    pub fn try_accept<S: ShiftStack<StorageT>>(&self, stack: &mut S) -> Result<bool, AllocError>
        requires suits { SuitsAll S.suits self.now }
        requires stack { HasStates self.now (S.states stack.old) }
        ensures accepts { TellsAccepts self.now (S.states stack.old) result }
        ensures stack { HasStates self.now (S.states stack.new) }
        ensures moved { OnOk result (IsMovedFor self.now S.states S.reduces S.shifts 1 stack.old stack.new) }
    {
        // A checked table has the grammar's end token.
        let _lemma = self.checked.stable();
        let end = self.checked.grm().eof_token_idx();
        let settled = self.checked.settle_on(stack, end)?;
        Ok(is_accept(settled.action))
    }
}

// Whether the action is to accept.
fn is_accept<StorageT: StorageIndex>(action: Action<StorageT>) -> bool
    ensures { IsTrue result ↔ (plain_action StorageT.index action ≡ Accepts) }
{
    match action {
        Action::Accept => true,
        Action::Shift(_) | Action::Reduce(_) | Action::Error => false,
    }
}
