//! The stacks that a search over a table tells apart: by their tops, and by the exits from which a run goes on to accept.
ghost use Rattle.std.specs.Prelude.{◌≡◌, ◌<◌, ◌++◌, ◌∷◌, [], IfOk, OnOk, length};
ghost use Rattle.std.specs.Bool.{OnFalse, OnTrue};
ghost use Rattle.std.specs.Prelude.{reverse};
ghost use Rattle.lrpar_table_stacks.specs.Stack.{IsStack, states_of};
ghost use Rattle.lrpar_table_pops.specs.Searched.{CanComplete, HasNoneGood};
ghost use Rattle.lrpar_table_pops.specs.StoredPops.{any_of};
ghost use Rattle.lrpar_table_pops.specs.Automaton.{HaveRoomIn, IsPartWith};
ghost use Rattle.lrpar_table_pops.specs.Search.{AddsAt, CompletesBy, GoesOnAt, GoesTo, HasAllGood, HasReductionsAt, HasStacks, Meets, MeetsShift, ShiftsAt};

use crate::automaton::Automaton;
use crate::exits::Exits;
use crate::good::{good_above, good_at_start, set_good_reductions};
use crate::pops::Pops;
use lrpar_grammar::span::{StIdx, StorageIndex};
use lrpar_grammar::token_set::TokenSet;
use lrpar_table_rows::table::{Action, StateTable};
use std::alloc::{AllocError, Global};

/// A stack: the place of the stack below its top, its top, and the top's good exits.
#[derive(Drop)]
pub(crate) struct Stack<StorageT: StorageIndex> {
    pub(crate) below: usize,
    pub(crate) top: StIdx<StorageT>,
    pub(crate) good: Exits,
}

/// The stacks found so far, and the places of those with each top.
#[derive(Drop)]
pub(crate) struct Searched<StorageT: StorageIndex> {
    pub(crate) stacks: Vec<Stack<StorageT>>,
    by_top: Vec<Vec<usize>>,
}

impl<StorageT: StorageIndex> Searched<StorageT> {
    ghost use Rattle.lrpar_table_pops.specs.Searched.{HasNoneGoodAt, IsCovered, IsTopFirst};

    /// The start state alone.
    pub(crate) fn new(alloc: Global, checked: &Automaton<'_, StorageT>) -> Result<Self, AllocError>
        ensures stacks { IfOk result (HasStacks StorageT.index checked.now) }
        ensures all_good { IfOk result (HasAllGood StorageT.index checked.now) }
    {
        let stable = checked.stable();
        let mut by_top = Vec::new(alloc);
        'states: for _ in 0..stable.states_len() {
            by_top.push(Vec::new(alloc))?;
        }
        let stacks = Vec::new(alloc);
        let mut searched = Searched { stacks, by_top };
        let good = good_at_start(alloc, checked)?;
        searched.push(0, stable.start_state(), good)?;
        Ok(searched)
    }

    /// How many there are.
    pub(crate) fn len(&self) -> usize
        ensures { result ≡ length self.now.stacks.items }
    {
        self.stacks.len()
    }

    // Adds a stack.
    fn push(&mut self, below: usize, top: StIdx<StorageT>, good: Exits) -> Result<(), AllocError>
        ensures { OnOk result (self.new.stacks.items ≡ self.old.stacks.items ++ (record { below = below; top = top; good = good }) ∷ []) }
    {
        let place = self.stacks.len();
        if let Some(places) = self.by_top.get_mut(usize::from(top)) {
            places.push(place)?;
        }
        self.stacks.push(Stack { below, top, good })?;
        Ok(())
    }

    /// Whether the stack at the place can be completed: a run can leave its top by a good exit.
    pub(crate) fn can_complete(&self, place: usize, pops: &Pops) -> bool
        ensures completes { OnTrue result (CompletesBy StorageT.index pops.now self.now place) }
        ensures none { OnFalse result (HasNoneGoodAt StorageT.index (any_of pops.now) self.now.stacks.items place) }
    {
        match self.stacks.get(place) {
            Some(stack) => can_complete(stack, pops),
            None => false,
        }
    }

    /// Goes on from the stack at the place: adds a stack for each state that a shift or a goto leads to from its top, unless a known one will
    /// do.
    pub(crate) fn add_above(
        &mut self,
        alloc: Global,
        checked: &Automaton<'_, StorageT>,
        part: &StateTable<StorageT>,
        pops: &Pops,
        place: usize,
        reduced: &mut Vec<TokenSet>,
    ) -> Result<(), AllocError>
        requires part { IsPartWith checked.now part.now pops.now }
        requires room { HaveRoomIn checked.now reduced.old }
        requires stacks { HasStacks StorageT.index checked.now self.old }
        requires place { place < length self.old.stacks.items }
        ensures gone_on { OnOk result (GoesOnAt StorageT.index checked.now part.now pops.now place self.old self.new) }
        ensures room { HaveRoomIn checked.now reduced.new }
    {
        let stack = &self.stacks[place];
        let top = stack.top;
        set_good_reductions(checked, part, pops, top, &stack.good, reduced);
        let reduced = reduced.as_slice();
        let (_, actions) = checked.stable().actions_of(top);
        let (_, nexts) = checked.stable().gotos_of(top);
        'shifts: for action in actions {
            self.add_shift(alloc, checked, place, reduced, *action)?;
        }
        'gotos: for next in nexts {
            self.add(alloc, checked, place, reduced, *next)?;
        }
        Ok(())
    }

    // Adds the state of the action, if that is a shift, on top of the stack at the place.
    fn add_shift(
        &mut self,
        alloc: Global,
        checked: &Automaton<'_, StorageT>,
        place: usize,
        reduced: &[TokenSet],
        action: Action<StorageT>,
    ) -> Result<(), AllocError>
        requires stacks { HasStacks StorageT.index checked.now self.old }
        requires place { place < length self.old.stacks.items }
        requires reduced { HasReductionsAt StorageT.index checked.now self.old place reduced.now }
        requires joined { ShiftsAt StorageT.index checked.now self.old place action }
        ensures added { OnOk result (AddsAt StorageT.index checked.now place reduced.now self.old self.new) }
        ensures met { OnOk result (MeetsShift StorageT.index checked.now self.new place action) }
    {
        match action {
            Action::Shift(next) => self.add(alloc, checked, place, reduced, next),
            Action::Reduce(_) | Action::Accept | Action::Error => Ok(()),
        }
    }

    // Adds the state on top of the stack at the place, unless a known stack will do.
    fn add(
        &mut self,
        alloc: Global,
        checked: &Automaton<'_, StorageT>,
        place: usize,
        reduced: &[TokenSet],
        next: StIdx<StorageT>,
    ) -> Result<(), AllocError>
        requires stacks { HasStacks StorageT.index checked.now self.old }
        requires place { place < length self.old.stacks.items }
        requires reduced { HasReductionsAt StorageT.index checked.now self.old place reduced.now }
        requires joined { GoesTo StorageT.index checked.now self.old place next }
        ensures added { OnOk result (AddsAt StorageT.index checked.now place reduced.now self.old self.new) }
        ensures met { OnOk result (Meets StorageT.index checked.now self.new place next) }
    {
        // The proof needs that the table is safe, and that shifts and gotos lead to its states.
        let _lemma = checked.stable();
        let good = good_above(alloc, checked, &self.stacks[place].good, reduced, next)?;
        if self.is_covered(next, &good) {
            return Ok(());
        }
        self.push(place, next, good)?;
        Ok(())
    }

    // Whether a known stack with this top will do: it has no good exits but these.
    fn is_covered(&self, top: StIdx<StorageT>, good: &Exits) -> bool
        ensures { OnTrue result (IsCovered StorageT.index self.now.stacks.items (StorageT.index top.0) good.now) }
    {
        match self.by_top.get(usize::from(top)) {
            Some(places) => self.is_covered_at(places, top, good),
            None => false,
        }
    }

    // Whether one of the stacks at these places will do.
    fn is_covered_at(&self, places: &[usize], top: StIdx<StorageT>, good: &Exits) -> bool
        ensures { OnTrue result (IsCovered StorageT.index self.now.stacks.items (StorageT.index top.0) good.now) }
    {
        for place in places {
            if self.covers(*place, top, good) {
                return true;
            }
        }
        false
    }

    // Whether the stack at the place will do.
    fn covers(&self, place: usize, top: StIdx<StorageT>, good: &Exits) -> bool
        ensures { OnTrue result (IsCovered StorageT.index self.now.stacks.items (StorageT.index top.0) good.now) }
    {
        match self.stacks.get(place) {
            Some(stack) => usize::from(stack.top) == usize::from(top) && good.cover(&stack.good),
            None => false,
        }
    }

    /// The states of the stack at the place, bottom first.
    pub(crate) fn states(
        &self,
        alloc: Global,
        checked: &Automaton<'_, StorageT>,
        place: usize,
    ) -> Result<Vec<StIdx<StorageT>>, AllocError>
        requires stacks { HasStacks StorageT.index checked.now self.now }
        requires place { place < length self.now.stacks.items }
        ensures stack { IfOk result (λ states. IsStack checked.now.table (states_of StorageT.index states.items)) }
        ensures whole { IfOk result (λ states. IsTopFirst StorageT.index self.now.stacks.items place (reverse (states_of StorageT.index states.items))) }
    {
        let mut states = Vec::new(alloc);
        let mut at = place;
        'below: while at > 0 {
            let stack = &self.stacks[at];
            states.push(stack.top)?;
            at = stack.below;
        }
        states.push(self.stacks[0].top)?;
        states.reverse();
        Ok(states)
    }
}

// Whether a run can leave the stack's top by a good exit.
fn can_complete<StorageT: StorageIndex>(stack: &Stack<StorageT>, pops: &Pops) -> bool
    ensures can { OnTrue result (CanComplete StorageT.index (any_of pops.now) stack.now) }
    ensures none { OnFalse result (HasNoneGood StorageT.index (any_of pops.now) stack.now) }
{
    match pops.any(stack.top) {
        Some(any) => any.meet(&stack.good),
        None => false,
    }
}
