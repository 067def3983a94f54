//! The exits of a state: in which controls a run can leave it.
ghost use Rattle.std.specs.Prelude.{◌≡◌, ◌<◌, Contains, IfOk, IfSome, IsTrue, ℕ, None, Some, length, slice_get};
ghost use Rattle.std.specs.Bool.{OnFalse, OnTrue};
ghost use Rattle.lrpar_table_pops.specs.Pops.{Control};
ghost use Rattle.lrpar_table_pops.specs.Exits.{AddsOnly, AreTokensAt, HasExit, HasNoExit, HaveAllExits, HaveExitInCommon, LeavesIn, control_of};
ghost use Rattle.lrpar_grammar.specs.Tokens.{has};
ghost use Rattle.lrpar_table_pops.specs.declared.exits.Way.{Way};
ghost use Rattle.lrpar_table_pops.specs.Growth.{AreLookaheadsOf, GrowsBy, HasLookahead, HasWay, IsFirstOf, KeepsWays, SomeHasLookahead, ways_of};
ghost use Rattle.lrpar_table_pops.specs.Automaton.{AreExitsIn, HasItemsOf};
ghost use Rattle.lrpar_table_pops.specs.Room.{GainsLookahead};

use crate::automaton::Automaton;
use crate::sets::{insert, unite};
use lrpar_grammar::span::{StIdx, StorageIndex};
use lrpar_grammar::token_set::TokenSet;
use std::alloc::{AllocError, Global};
use std::marker::Model;

/// What a run does next, but for its lookahead, when it has left a state.
#[derive(Clone, Copy, Debug, PartialEq, Eq)]
pub(crate) enum Way {
    /// It reduces by the production, and drops this number of states first.
    Reduction { prod: usize, left: usize },
    /// It has accepted.
    Acceptance,
}

/// A way in which a run can leave a state, and the lookaheads with which it can.
#[derive(Drop)]
pub(crate) struct Exit {
    pub(crate) way: Way,
    pub(crate) tokens: TokenSet,
}

/// The exits of a state: one for each of its kernel cores, and one for a run that has accepted.
#[derive(Drop)]
pub(crate) struct Exits {
    exits: Vec<Exit>,
}

impl Model for Exits {
    ghost use Rattle.std.specs.Prelude.{List};
    ghost use Rattle.lrpar_table_pops.specs.declared.exits.Exit.{Exit};

    ghost Value = { List Exit };

    ghost view = { λ exits. exits.exits.items };
}

impl Exits {
    /// None.
    pub(crate) fn none(alloc: Global) -> Self
        ensures { HasNoExit result }
    {
        Exits {
            exits: Vec::new(alloc),
        }
    }

    /// The exits of the state, as yet without lookaheads.
    pub(crate) fn new<StorageT: StorageIndex>(
        alloc: Global,
        checked: &Automaton<'_, StorageT>,
        state: StIdx<StorageT>,
    ) -> Result<Self, AllocError>
        requires { HasItemsOf StorageT.index checked.now state }
        ensures none { IfOk result HasNoExit }
        ensures places { IfOk result (AreExitsIn StorageT.index checked.now state) }
    {
        let len = checked.grm().tokens_len();
        let mut exits = Vec::new(alloc);
        'cores: for (prod, dot) in checked.sgraph().begun_cores(state) {
            if *dot > 0 {
                let (prod, left) = (usize::from(*prod), *dot - 1);
                let tokens = TokenSet::new(alloc, len)?;
                let way = Way::Reduction { prod, left };
                exits.push(Exit { way, tokens })?;
            }
        }
        let tokens = TokenSet::new(alloc, len)?;
        let way = Way::Acceptance;
        exits.push(Exit { way, tokens })?;
        Ok(Exits { exits })
    }

    /// Removes all lookaheads.
    pub(crate) fn clear(&mut self)
        ensures none { HasNoExit self.new }
        ensures places { KeepsWays self.old self.new }
    {
        clear_all(&mut self.exits);
    }

    /// How many there are.
    pub(crate) fn len(&self) -> usize
        ensures { result ≡ length self.now }
    {
        self.exits.len()
    }

    /// The exit at this place.
    pub(crate) fn get(&self, place: usize) -> &Exit
        requires { place < length self.now }
        ensures member { Contains self.now result.now }
        ensures at { slice_get self.now place ≡ Some result.now }
    {
        &self.exits[place]
    }

    // The place of the exit this way, if the state has it.
    fn index_of(&self, way: Way) -> Option<usize>
        ensures place { IfSome result (IsFirstOf self.now way) }
        ensures none { result ≡ None → ¬ (HasWay self.now way) }
    {
        for place in 0..self.exits.len() {
            if self.exits[place].way == way {
                return Some(place);
            }
        }
        None
    }

    /// The lookaheads of the exit this way, if the state has it.
    pub(crate) fn tokens_at(&self, way: Way) -> Option<&TokenSet>
        ensures tokens { IfSome result (λ tokens. AreTokensAt self.now way tokens.now) }
        ensures all { IfSome result (λ tokens. AreLookaheadsOf self.now way tokens.now) }
        ensures none { result ≡ None → ¬ (HasWay self.now way) }
    {
        for exit in &self.exits {
            if exit.way == way {
                return Some(&exit.tokens);
            }
        }
        None
    }

    /// Adds the lookaheads to the exit this way, if the state has it. Returns whether any was new.
    pub(crate) fn unite(&mut self, way: Way, tokens: &TokenSet) -> bool
        ensures adds { AddsOnly (LeavesIn way tokens.now) self.old self.new }
        ensures all { GrowsBy (λ w t. (w ≡ way) × IsTrue (has tokens.now t)) self.old self.new }
        ensures ways { ways_of self.new ≡ ways_of self.old }
        ensures grown { GainsLookahead self.old self.new result }
        ensures same { OnFalse result (self.new ≡ self.old) }
    {
        match self.index_of(way) {
            Some(place) => unite(&mut self.exits[place].tokens, tokens),
            None => false,
        }
    }

    /// Adds the lookahead to the exit this way, if the state has it.
    pub(crate) fn insert(&mut self, way: Way, token: usize)
        ensures adds { AddsOnly (λ r. control_of way token ≡ r) self.old self.new }
        ensures all { GrowsBy (λ w t. (w ≡ way) × (t ≡ token)) self.old self.new }
    {
        if let Some(place) = self.index_of(way) {
            insert(&mut self.exits[place].tokens, token);
        }
    }

    /// Adds the others. Returns whether any lookahead was new.
    pub(crate) fn unite_all(&mut self, others: &Exits) -> bool
        ensures adds { AddsOnly (HasExit others.now) self.old self.new }
        ensures all { GrowsBy (SomeHasLookahead others.now) self.old self.new }
        ensures grown { GainsLookahead self.old self.new result }
        ensures same { OnFalse result (self.new ≡ self.old) }
    {
        let mut grown = false;
        for place in 0..others.len() {
            let other = others.get(place);
            if self.unite(other.way, &other.tokens) {
                grown = true;
            }
        }
        grown
    }

    /// Whether they have an exit in common.
    pub(crate) fn meet(&self, others: &Exits) -> bool
        ensures common { OnTrue result (HaveExitInCommon self.now others.now) }
        ensures all { (way : Way) (t : ℕ) → SomeHasLookahead self.now way t → HasLookahead others.now way t → IsTrue result }
    {
        for place in 0..self.len() {
            if others.meets(self.get(place)) {
                return true;
            }
        }
        false
    }

    // Whether they have this exit with one of its lookaheads.
    fn meets(&self, other: &Exit) -> bool
        ensures common { OnTrue result ((r : Control) × HasExit self.now r × LeavesIn other.now.way other.now.tokens r) }
        ensures all { (t : ℕ) → HasLookahead self.now other.now.way t → IsTrue (has other.now.tokens t) → IsTrue result }
    {
        match self.tokens_at(other.way) {
            Some(tokens) => tokens.has_common(&other.tokens),
            None => false,
        }
    }

    /// Whether they have all exits of the others.
    pub(crate) fn cover(&self, others: &Exits) -> bool
        ensures { OnTrue result (HaveAllExits self.now others.now) }
    {
        for place in 0..others.len() {
            if !self.covers(others.get(place)) {
                return false;
            }
        }
        true
    }

    // Whether they have this exit with all its lookaheads.
    fn covers(&self, other: &Exit) -> bool
        ensures { OnTrue result ((r : Control) → LeavesIn other.now.way other.now.tokens r → HasExit self.now r) }
    {
        match self.tokens_at(other.way) {
            Some(tokens) => tokens.covers(&other.tokens),
            None => false,
        }
    }
}

// Removes all lookaheads of these exits.
fn clear_all(exits: &mut Vec<Exit>)
    ensures none { HasNoExit exits.new.items }
    ensures places { KeepsWays exits.old.items exits.new.items }
{
    for place in 0..exits.len() {
        exits[place].tokens.clear();
    }
}
