//! The stacks of a run: the states, and an entry for each state but the lowest.
ghost use Rattle.std.specs.Prelude.{◌≡◌, ◌<◌, [], ◌∷◌, length, OnErr, OnOk, IfOk};
ghost use Rattle.lrpar_parse_lexemes.specs.Views.{token_by};
ghost use Rattle.lrpar_table_stacks.specs.Stack.{states_of};
ghost use Rattle.lrpar_parse_run.specs.Productions.{CanReduceBy};
ghost use Rattle.lrpar_parse_run.specs.Reducing.{IsReducedBy, reduced_by};
ghost use Rattle.lrpar_parse_run.specs.RunStack.{HasBegun, IsPushed, IsStateAt, IsTopState, KeepsStates};

use crate::building::Build;
use crate::entries::Entries;
use lrpar_grammar::grammar::YaccGrammar;
use lrpar_grammar::span::{StIdx, StorageIndex};
use lrpar_parse_lexemes::lex_api::Lexeme;
use lrpar_table_stacks::state_stack::{Reduction, StateStack};
use std::alloc::{AllocError, Global};
use std::marker::Model;

/// The stacks. Each state but the lowest has the entry of the symbol that led to it.
#[derive(Drop)]
pub struct Stack<StorageT: StorageIndex, E: Entries> {
    states: Vec<StIdx<StorageT>>,
    entries: E,
}

impl<StorageT: StorageIndex, E: Entries> Model for Stack<StorageT, E> {
    ghost use Rattle.lrpar_table_stacks.specs.Stack.{states_of};
    ghost use Rattle.lrpar_parse_run.specs.RunStack.{Stacked};

    ghost Value = { Stacked E.Entry };

    ghost view = { λ s. record { states = states_of StorageT.index s.states.items; entries = E.as_list s.entries } };
}

impl<StorageT: StorageIndex, E: Entries> Stack<StorageT, E> {
    /// The stack with one state and no entry. `Err`: out of memory.
    pub fn new(alloc: Global, start: StIdx<StorageT>) -> Result<Self, AllocError>
        ensures { IfOk result (HasBegun StorageT.index start) }
    {
        let mut states = Vec::new(alloc);
        states.push(start)?;
        Ok(Stack {
            states,
            entries: E::none(alloc),
        })
    }

    /// How many states there are.
    pub fn height(&self) -> usize
        ensures { result ≡ length self.now.states }
    {
        self.states.len()
    }

    /// The states, bottom first.
    pub fn states(&self) -> &[StIdx<StorageT>]
        ensures { states_of StorageT.index result.now ≡ self.now.states }
    {
        &self.states
    }

    /// The top state.
    pub fn top(&self) -> StIdx<StorageT>
        requires { 0 < length self.now.states }
        ensures { IsTopState StorageT.index self.now result }
    {
        self.states[self.states.len() - 1]
    }

    /// The state at this height, counted from 0.
    pub fn state_at(&self, at: usize) -> StIdx<StorageT>
        requires { at < length self.now.states }
        ensures { IsStateAt StorageT.index self.now at result }
    {
        self.states[at]
    }

    /// Pushes a state, with the entry of the lexeme that led to it. `Err`: out of memory.
    pub fn shift<LexemeT: Lexeme<StorageT>, B: Build<StorageT, LexemeT, Entries = E>>(
        &mut self,
        build: &B,
        state: StIdx<StorageT>,
        lexeme: LexemeT,
    ) -> Result<(), AllocError>
        ensures { OnOk result (IsPushed (B.builds build.now) (StorageT.index state.0)
            (token_by StorageT.index LexemeT.parts lexeme) lexeme self.old self.new) }
    {
        self.states.push(state)?;
        build.shift(lexeme, &mut self.entries)
    }

    /// Replaces the entries of the production's symbols by the entry that is built of them, and reduces the states. After an
    /// `Err`, which means out of memory, the states are unchanged, and some of the entries may be gone.
    pub fn reduce<LexemeT: Lexeme<StorageT>, B: Build<StorageT, LexemeT, Entries = E>>(
        &mut self,
        alloc: Global,
        build: &B,
        grm: &YaccGrammar<StorageT>,
        by: Reduction<StorageT>,
    ) -> Result<(), AllocError>
        requires can { CanReduceBy StorageT.index grm.now by.prod (B.builds build.now) by.symbols self.old.entries }
        requires deep { by.symbols < length self.old.states }
        ensures states { OnOk result (self.new.states ≡ reduced_by StorageT.index by self.old.states) }
        ensures entries { OnOk result (IsReducedBy StorageT.index (B.builds build.now) grm.now by self.old.entries self.new.entries) }
        ensures unchanged { OnErr result (KeepsStates self.old self.new) }
    {
        build.reduce(alloc, grm, &by.prod, by.symbols, &mut self.entries)?;
        self.states.reduce(by)
    }

    /// The entry of a stack that has one only.
    pub fn into_entry(self) -> E::Entry
        requires { (e : E.Entry) × (self.entries ≡ e ∷ []) }
        ensures { self.entries ≡ result ∷ [] }
    {
        let Stack { states: _, entries } = self;
        entries.into_entry()
    }
}
