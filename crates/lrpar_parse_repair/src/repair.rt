//! Recoverers: what a parse passes to one at an error point, the trait of recoverers, and two simple ones.
ghost use Rattle.std.specs.Prelude.{◌≡◌, [], List, IfOk, IsOk};
ghost use Rattle.lrpar_table_stacks.specs.Stack.{states_of};
ghost use Rattle.lrpar_parse_repair.specs.Sequences.{PlainStep};
ghost use Rattle.lrpar_parse_repair.specs.AlwaysRepairs.{in_turn};
ghost use Rattle.lrpar_parse_repair.specs.Asked.{Asked, IsStopBy, StopsAt, asked_of};
ghost use Rattle.lrpar_parse_repair.specs.Supplied.{GivesSequences, IsAllowed, Supplies};

use crate::or::Or;
pub use crate::repair_step::RepairStep;
use lrpar_grammar::span::{StIdx, StorageIndex};
use lrpar_parse_lexemes::lex_api::Lexeme;
use lrpar_table_check::check::ParserData;
use std::alloc::{AllocError, Global};
use std::marker::Model;

/// An error point: where a parse found no action. It has the checked table, the number of lexemes that must follow a repair, the lexemes
/// of the parse, the place of the one that has no action, and the stack. All but the numbers are borrowed.
///
/// A parse makes one at each error, and passes it to the recoverer. The clause `stop` of each call says what holds for it.
#[derive(Debug, Drop)]
pub struct RecoveryPoint<'a, StorageT: StorageIndex, LexemeT: Lexeme<StorageT>> {
    data: &'a ParserData<StorageT>,
    shifts: usize,
    lexemes: &'a [LexemeT],
    place: usize,
    stack: &'a [StIdx<StorageT>],
}

impl<'a, StorageT: StorageIndex, LexemeT: Lexeme<StorageT>> Model
    for RecoveryPoint<'a, StorageT, LexemeT> {
    ghost use Rattle.lrpar_table_stacks.specs.Stack.{states_of};
    ghost use Rattle.lrpar_parse_lexemes.specs.Views.{token_by};
    ghost use Rattle.lrpar_parse_repair.specs.Asked.{Asked, IsStop};

    ghost Value = { Asked LexemeT };

    ghost view = { λ p. record {
      checked = p.data.now;
      shifts = p.shifts;
      lexemes = p.lexemes.now;
      place = p.place;
      stack = states_of StorageT.index p.stack.now;
    } };

    ghost invariant = { λ p. IsStop (token_by StorageT.index LexemeT.parts) (record {
      checked = p.data.now;
      shifts = p.shifts;
      lexemes = p.lexemes.now;
      place = p.place;
      stack = states_of StorageT.index p.stack.now;
    }) };
}

impl<'a, StorageT: StorageIndex, LexemeT: Lexeme<StorageT>> RecoveryPoint<'a, StorageT, LexemeT> {
    /// Makes the error point of these. The state on top must have no action at the token of the place. Takes no memory.
    pub fn new(
        checked: &'a ParserData<StorageT>,
        shifts: usize,
        lexemes: &'a [LexemeT],
        place: usize,
        stack: &'a [StIdx<StorageT>],
    ) -> Self
        requires stop { StopsAt StorageT.index LexemeT.parts checked.now shifts lexemes.now place stack.now }
        ensures { result ≡ asked_of StorageT.index checked.now shifts lexemes.now place stack.now }
    {
        RecoveryPoint {
            data: checked,
            shifts,
            lexemes,
            place,
            stack,
        }
    }

    /// The grammar with its checked table.
    pub fn data(&self) -> &'a ParserData<StorageT>
        ensures data { result.now ≡ self.now.checked }
        ensures stop { IsStopBy StorageT.index LexemeT.parts self.now }
    {
        self.data
    }

    /// How many lexemes must follow a repair: at least one.
    pub fn shifts(&self) -> usize
        ensures shifts { result ≡ self.now.shifts }
        ensures stop { IsStopBy StorageT.index LexemeT.parts self.now }
    {
        self.shifts
    }

    /// All lexemes of the parse, also those before the error. Each has a token of the grammar other than the end token.
    pub fn lexemes(&self) -> &'a [LexemeT]
        ensures lexemes { result.now ≡ self.now.lexemes }
        ensures stop { IsStopBy StorageT.index LexemeT.parts self.now }
    {
        self.lexemes
    }

    /// The place of the lexeme that has no action, counted from 0. At the end of the input it is the number of lexemes.
    pub fn place(&self) -> usize
        ensures place { result ≡ self.now.place }
        ensures stop { IsStopBy StorageT.index LexemeT.parts self.now }
    {
        self.place
    }

    /// The states of the parse, bottom first, after all reductions at that lexeme's token (at the end token, at the end of the input).
    /// They are a stack of the table, and the state on top has no action at that token.
    pub fn stack(&self) -> &'a [StIdx<StorageT>]
        ensures stack { states_of StorageT.index result.now ≡ self.now.stack }
        ensures stop { IsStopBy StorageT.index LexemeT.parts self.now }
    {
        self.stack
    }
}

/// A recoverer: it supplies repair sequences at an error point.
pub trait Recoverer<StorageT: StorageIndex, LexemeT: Lexeme<StorageT>> {
    /// The answers that `recover` may give at an error point.
    ghost allows: { Self → Asked LexemeT → List (List PlainStep) → Type 0 };

    /// Repair sequences for the error point. The parse tests each of them. Its error lists those that work, in the order of the
    /// answer, and the parse replays the first of these and goes on. So an answer may have any sequences, also ones that don't
    /// work, and may be another one the next time. `Err`: out of memory.
    fn recover(
        &self,
        alloc: Global,
        point: &RecoveryPoint<'_, StorageT, LexemeT>,
    ) -> Result<Vec<Vec<RepairStep<StorageT>>>, AllocError>
        ensures allowed { IfOk result (IsAllowed StorageT.index (allows self.now point.now)) };

    /// This recoverer, and the second one for the error points at which none of its sequences works. Takes no memory.
    final fn or<B: Recoverer<StorageT, LexemeT>>(self, second: B) -> Or<Self, B, StorageT, LexemeT>
    where
        Self: Sized,
        ensures { result ≡ in_turn self second }
    {
        Or::new(self, second)
    }
}

/// The recoverer that supplies no sequence. So a parse ends at its first error. It never fails.
#[derive(Clone, Copy, Debug, Drop, PartialEq, Eq, Hash)]
pub struct NoRecovery;

impl<StorageT: StorageIndex, LexemeT: Lexeme<StorageT>> Recoverer<StorageT, LexemeT>
    for NoRecovery {
    ghost allows = { λ _ _ answer. answer ≡ [] };

    fn recover(
        &self,
        alloc: Global,
        _point: &RecoveryPoint<'_, StorageT, LexemeT>,
    ) -> Result<Vec<Vec<RepairStep<StorageT>>>, AllocError>
        ensures allowed { GivesSequences StorageT.index [] result }
        ensures ok { IsOk result }
    {
        Ok(Vec::new(alloc))
    }
}

/// The recoverer that supplies the same sequences at each error. It fails if it can't clone them.
#[derive(Debug)]
pub struct FixedRecoverer<StorageT: StorageIndex> {
    sequences: Vec<Vec<RepairStep<StorageT>>>,
}

// An `impl Drop` of its own, so that a function that drops a value proves one call only.
impl<StorageT: StorageIndex> Drop for FixedRecoverer<StorageT> {
    fn drop(self) {
        let FixedRecoverer { sequences } = self;
        drop(sequences);
    }
}

impl<StorageT: StorageIndex> Model for FixedRecoverer<StorageT> {
    ghost use Rattle.std.specs.Prelude.{List};
    ghost use Rattle.lrpar_parse_repair.specs.PlainSteps.{plain_sequences};
    ghost use Rattle.lrpar_parse_repair.specs.Sequences.{PlainStep};

    ghost Value = { List (List PlainStep) };

    ghost view = { λ r. plain_sequences StorageT.index r.sequences.items };
}

impl<StorageT: StorageIndex> FixedRecoverer<StorageT> {
    /// The recoverer that supplies these sequences. Takes no memory.
    pub fn new(sequences: Vec<Vec<RepairStep<StorageT>>>) -> Self
        ensures { Supplies StorageT.index sequences result }
    {
        FixedRecoverer { sequences }
    }
}

impl<StorageT: StorageIndex, LexemeT: Lexeme<StorageT>> Recoverer<StorageT, LexemeT>
    for FixedRecoverer<StorageT> {
    ghost allows = { λ recoverer _ answer. answer ≡ recoverer };

    fn recover(
        &self,
        _alloc: Global,
        _point: &RecoveryPoint<'_, StorageT, LexemeT>,
    ) -> Result<Vec<Vec<RepairStep<StorageT>>>, AllocError>
        ensures allowed { GivesSequences StorageT.index self.now result }
    {
        self.sequences.clone()
    }
}
