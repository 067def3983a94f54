//! Whether a table is complete: the conditions, each tested at one state.
ghost use Rattle.std.specs.Prelude.{◌≡◌, ◌↔◌, IfErr, IsTrue, OnOk};
ghost use Rattle.lrpar_grammar.specs.Grammar.{IsWellFormed};
ghost use Rattle.lrpar_table_rows.specs.Safe.{HasShape};
ghost use Rattle.lrpar_table_conditions.specs.Complete.{IsComplete, IsCompleteFault};
ghost use Rattle.lrpar_table_conditions.specs.declared.completeness_fault.CompleteFault.TheVariants.{Memory};
ghost use Rattle.lrpar_table_conditions.specs.Tested.{ClosesItems, ClosesItemsBy, CoreHolds, HasCoreIn, HasRoomIn, IsCompleteIn, IsFirstFaultIn, IsFirstIncomplete, IsReadyWith, IsStateIn, IsTestable, ItemsHold, StartsRight};

mod cores;
mod sets;

use crate::completeness::CompletenessCondition;
use crate::completeness_fault::CompleteFault;
use lrpar_grammar::grammar::YaccGrammar;
use lrpar_grammar::span::{PIdx, StIdx, StorageIndex};
use lrpar_grammar::token_set::TokenSet;
use lrpar_table_first::first::first_sets;
use lrpar_table_rows::table::{StateGraph, StateTable};
use sets::WorkSets;
use std::alloc::Global;

/// Checks that a table is complete: that each condition holds in each state.
///
/// The fault is the first of the conditions C1 to C5 that fails, at the lowest state at which it fails. It is `Memory` if an
/// allocation fails, for sets of tokens: one for each rule and each production, and four more.
pub fn check_complete<StorageT: StorageIndex>(
    alloc: Global,
    grm: &YaccGrammar<StorageT>,
    sgraph: &StateGraph<StorageT>,
    stable: &StateTable<StorageT>,
) -> Result<(), CompleteFault>
    requires formed { IsWellFormed grm.now }
    requires shape { HasShape grm.now sgraph.now stable.now }
    ensures complete { OnOk result (IsComplete grm.now sgraph.now stable.now) }
    ensures fault { IfErr result (IsCompleteFault grm.now sgraph.now stable.now) }
    ensures exact { IsComplete grm.now sgraph.now stable.now → IfErr result (λ fault. fault ≡ Memory) }
{
    let firsts = first_sets(alloc, grm)?;
    let mut sets = WorkSets::new(alloc, grm.prods_len(), grm.tokens_len() + 1)?;
    let checked = Completeness::new(grm, sgraph, stable, &firsts);
    match checked.find_first_fault(&mut sets) {
        None => Ok(()),
        Some((condition, state)) => Err(CompleteFault::Condition(condition, state)),
    }
}

/// The parts that are checked, with the FIRST set of each rule.
#[derive(Drop)]
pub(crate) struct Completeness<'a, StorageT: StorageIndex> {
    grm: &'a YaccGrammar<StorageT>,
    sgraph: &'a StateGraph<StorageT>,
    stable: &'a StateTable<StorageT>,
    firsts: &'a [TokenSet],
}

impl<'a, StorageT: StorageIndex> Completeness<'a, StorageT> {
    pub(crate) fn new(
        grm: &'a YaccGrammar<StorageT>,
        sgraph: &'a StateGraph<StorageT>,
        stable: &'a StateTable<StorageT>,
        firsts: &'a [TokenSet],
    ) -> Self
        ensures grammar { result.grm.now ≡ grm.now }
        ensures graph { result.sgraph.now ≡ sgraph.now }
        ensures table { result.stable.now ≡ stable.now }
        ensures firsts { result.firsts.now ≡ firsts.now }
    {
        Completeness {
            grm,
            sgraph,
            stable,
            firsts,
        }
    }

    /// The first condition that fails, and the lowest state at which it fails. `sets` is scratch space.
    pub(crate) fn find_first_fault(
        &self,
        sets: &mut WorkSets,
    ) -> Option<(CompletenessCondition, usize)>
        requires known { IsTestable self.now }
        requires ready { IsReadyWith self.now sets.old }
        ensures { IsFirstFaultIn self.now result }
    {
        for condition in CompletenessCondition::ALL {
            if let Some(state) = self.find_incomplete(condition, sets) {
                return Some((condition, state));
            }
        }
        None
    }

    // The lowest state at which the condition fails.
    fn find_incomplete(
        &self,
        condition: CompletenessCondition,
        sets: &mut WorkSets,
    ) -> Option<usize>
        requires known { IsTestable self.now }
        requires ready { IsReadyWith self.now sets.old }
        ensures ready { IsReadyWith self.now sets.new }
        ensures found { IsFirstIncomplete self.now condition result }
    {
        for s in 0..self.stable.states_len() {
            let state = StIdx(StorageT::from_index(s).unwrap());
            if !self.is_complete_at(condition, state, sets) {
                return Some(s);
            }
        }
        None
    }

    // Whether the condition holds at the state.
    fn is_complete_at(
        &self,
        condition: CompletenessCondition,
        s: StIdx<StorageT>,
        sets: &mut WorkSets,
    ) -> bool
        requires known { IsTestable self.now }
        requires state { IsStateIn StorageT.index self.now s }
        requires ready { IsReadyWith self.now sets.old }
        ensures ready { IsReadyWith self.now sets.new }
        ensures test { IsTrue result ↔ IsCompleteIn StorageT.index self.now condition s }
    {
        match condition {
            CompletenessCondition::C1 => self.has_start_item(s),
            CompletenessCondition::C2 => self.closes_items(s, sets),
            _ => self.items_hold(condition, s),
        }
    }

    // C1: if the state is the start state, it has the start item `^: . S {end}`.
    fn has_start_item(&self, s: StIdx<StorageT>) -> bool
        ensures { IsTrue result ↔ StartsRight StorageT.index self.now s }
    {
        usize::from(s) != usize::from(self.stable.start_state())
            || self
                .sgraph
                .has_item(s, self.grm.start_prod(), 0, self.grm.eof_token_idx())
    }

    // C2, closure: for each item of the state. The sets of items with dot 0 are empty before and after, so a state costs time for its
    // own items alone.
    fn closes_items(&self, s: StIdx<StorageT>, sets: &mut WorkSets) -> bool
        requires known { IsTestable self.now }
        requires state { IsStateIn StorageT.index self.now s }
        requires ready { IsReadyWith self.now sets.old }
        ensures ready { IsReadyWith self.now sets.new }
        ensures test { IsTrue result ↔ ClosesItems StorageT.index self.now s }
    {
        self.put_starts(s, &mut sets.starts);
        let closed = self.closes_each(s, sets);
        self.clear_starts(s, &mut sets.starts);
        closed
    }

    // C2, closure: for each item of the state. The items with dot 0 are in `starts`, as the lookaheads of each production. The items of
    // one core are tested together.
    fn closes_each(&self, s: StIdx<StorageT>, sets: &mut WorkSets) -> bool
        requires known { IsTestable self.now }
        requires state { IsStateIn StorageT.index self.now s }
        requires room { HasRoomIn self.now sets.old }
        ensures room { HasRoomIn self.now sets.new }
        ensures kept { sets.new.starts.items ≡ sets.old.starts.items }
        ensures test { IsTrue result ↔ ClosesItemsBy StorageT.index self.now s sets.old.starts.items }
    {
        for (pidx, dot) in self.sgraph.cores(s) {
            if !self.closes_core(s, *pidx, *dot, sets) {
                return false;
            }
        }
        true
    }

    // C3, C4 and C5: for each item of the state.
    fn items_hold(&self, condition: CompletenessCondition, s: StIdx<StorageT>) -> bool
        requires known { IsTestable self.now }
        requires state { IsStateIn StorageT.index self.now s }
        ensures { IsTrue result ↔ ItemsHold StorageT.index self.now condition s }
    {
        for (pidx, dot) in self.sgraph.cores(s) {
            if !self.core_holds(condition, s, *pidx, *dot) {
                return false;
            }
        }
        true
    }

    // Whether the condition holds for the items with this core.
    fn core_holds(
        &self,
        condition: CompletenessCondition,
        s: StIdx<StorageT>,
        pidx: PIdx<StorageT>,
        dot: usize,
    ) -> bool
        requires known { IsTestable self.now }
        requires state { IsStateIn StorageT.index self.now s }
        requires core { HasCoreIn StorageT.index self.now s pidx dot }
        ensures { IsTrue result ↔ CoreHolds StorageT.index self.now condition s pidx dot }
    {
        match condition {
            CompletenessCondition::C1 | CompletenessCondition::C2 => true,
            CompletenessCondition::C3 => self.shifts_core(s, pidx, dot),
            CompletenessCondition::C4 => self.carries_core(s, pidx, dot),
            CompletenessCondition::C5 => self.ends_core(s, pidx, dot),
        }
    }
}
