//! The exits of all states: in which controls a run can leave each.
ghost use Rattle.std.specs.Prelude.{◌≡◌, ◌≤◌, ℕ, IfSome, None, Some, [], slice_index_or};
ghost use Rattle.std.specs.Bool.{OnFalse};
ghost use Rattle.lrpar_table_pops.specs.Growth.{GrowsBy, SomeHasLookahead};
ghost use Rattle.lrpar_table_pops.specs.StoredAll.{AreSameStored, StoresAll};
ghost use Rattle.lrpar_table_pops.specs.Exits.{AddsOnly, HasExit};
ghost use Rattle.lrpar_table_pops.specs.StoredSteps.{AddsExitsAt, AddsExitsOf};
ghost use Rattle.lrpar_table_pops.specs.StoredPops.{AddsOnlyAt, any_of, at_of};
ghost use Rattle.lrpar_table_pops.specs.Room.{HasNoMoreRoom, LosesRoom, LosesRoomAt};

use crate::exits::Exits;
use crate::found::Found;
use lrpar_grammar::grammar::YaccGrammar;
use lrpar_grammar::span::{StIdx, StorageIndex, TIdx};
use lrpar_table_rows::table::{Action, StateTable};
use std::alloc::{AllocError, Global};
use std::marker::Model;

/// The exits of a state: at any lookahead; and, if gotos lead to the state, at each token that it shifts, or at which it reduces by a
/// production without symbols.
#[derive(Drop)]
pub(crate) struct StateExits {
    pub(crate) any: Exits,
    pub(crate) at: Vec<Exits>,
}

/// The exits of each state of a table.
#[derive(Drop)]
pub(crate) struct Pops {
    pub(crate) states: Vec<StateExits>,
}

impl Model for Pops {
    ghost use Rattle.std.specs.Prelude.{List};
    ghost use Rattle.lrpar_table_pops.specs.declared.pops.StateExits.{StateExits};

    ghost Value = { List StateExits };

    ghost view = { λ pops. pops.states.items };
}

impl StateExits {
    ghost use Rattle.lrpar_table_pops.specs.StoredPops.{room_at};

    // Adds these exits, at any lookahead. Returns whether any was new.
    fn unite_any(&mut self, exits: &Exits) -> bool
        ensures any { AddsOnly (HasExit exits.now) self.old.any self.new.any }
        ensures all { GrowsBy (SomeHasLookahead exits.now) self.old.any self.new.any }
        ensures same { OnFalse result (self.new.any ≡ self.old.any) }
        ensures at { self.new.at ≡ self.old.at }
        ensures less { LosesRoomAt self.old self.new result }
        ensures no_more { room_at self.new ≤ room_at self.old }
    {
        self.any.unite_all(exits)
    }

    // Adds these exits at the token, if they are kept there. Returns whether any was new.
    fn unite_at(&mut self, token: usize, exits: &Exits) -> bool
        ensures any { self.new.any ≡ self.old.any }
        ensures at { AddsOnlyAt token (HasExit exits.now) self.old.at.items self.new.at.items }
        ensures all { (t : ℕ) → GrowsBy (λ w u. (t ≡ token) × SomeHasLookahead exits.now w u) (slice_index_or self.old.at.items t []) (slice_index_or self.new.at.items t []) }
        ensures same { OnFalse result (self.new.at.items ≡ self.old.at.items) }
        ensures less { LosesRoomAt self.old self.new result }
        ensures no_more { room_at self.new ≤ room_at self.old }
    {
        if token >= self.at.len() {
            return false;
        }
        self.at[token].unite_all(exits)
    }
}

impl Pops {
    /// The exits of the state at any lookahead.
    pub(crate) fn any<StorageT: StorageIndex>(&self, state: StIdx<StorageT>) -> Option<&Exits>
        ensures exits { IfSome result (λ exits. exits.now ≡ any_of self.now (StorageT.index state.0)) }
        ensures none { result ≡ None → any_of self.now (StorageT.index state.0) ≡ [] }
    {
        match self.states.get(usize::from(state)) {
            Some(state) => Some(&state.any),
            None => None,
        }
    }

    /// The exits of the state at the token, if they are kept.
    pub(crate) fn at<StorageT: StorageIndex>(
        &self,
        state: StIdx<StorageT>,
        token: usize,
    ) -> Option<&Exits>
        ensures exits { IfSome result (λ exits. exits.now ≡ at_of self.now (StorageT.index state.0) token) }
        ensures none { result ≡ None → at_of self.now (StorageT.index state.0) token ≡ [] }
    {
        match self.states.get(usize::from(state)) {
            Some(state) => state.at.get(token),
            None => None,
        }
    }

    /// Whether exits of the state at the token are kept.
    pub(crate) fn keeps<StorageT: StorageIndex>(
        &self,
        state: StIdx<StorageT>,
        token: TIdx<StorageT>,
    ) -> bool
        ensures { OnFalse result (at_of self.now (StorageT.index state.0) (StorageT.index token.0) ≡ []) }
    {
        match self.at(state, usize::from(token)) {
            Some(exits) => exits.len() > 0,
            None => false,
        }
    }

    /// Adds these exits of the state, at any lookahead. Returns whether any was new.
    pub(crate) fn unite_any(&mut self, state: usize, exits: &Exits) -> bool
        ensures stays { AddsExitsOf state exits.now self.old self.new }
        ensures all { StoresAll state None exits.now self.old self.new }
        ensures same { OnFalse result (AreSameStored self.old self.new) }
        ensures less { LosesRoom self.old self.new result }
        ensures no_more { HasNoMoreRoom self.old self.new }
    {
        if state >= self.states.len() {
            return false;
        }
        self.states[state].unite_any(exits)
    }

    /// Adds these exits of the state at the token, if they are kept there. Returns whether any was new.
    pub(crate) fn unite_at(&mut self, state: usize, token: usize, exits: &Exits) -> bool
        ensures stays { AddsExitsAt state token exits.now self.old self.new }
        ensures all { StoresAll state (Some token) exits.now self.old self.new }
        ensures same { OnFalse result (AreSameStored self.old self.new) }
        ensures less { LosesRoom self.old self.new result }
        ensures no_more { HasNoMoreRoom self.old self.new }
    {
        if state >= self.states.len() {
            return false;
        }
        self.states[state].unite_at(token, exits)
    }
}
