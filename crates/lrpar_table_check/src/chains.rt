//! The loop check: whether each chain of reductions under one token is short, and how short.
ghost use Rattle.std.specs.Prelude.{◌≡◌, ◌<◌, ◌≤◌, ◌↔◌, ℕ, IsTrue, IfErr, IfOk, OnOk};
ghost use Rattle.lrpar_table_check.specs.Checked.{IsChainFault};
ghost use Rattle.lrpar_table_check.specs.LeastCap.{IsLeastAt, IsLeastCap};
ghost use Rattle.lrpar_table_stacks.specs.Chain.{AreChainsShort};
ghost use Rattle.lrpar_table_rows.specs.PlainRows.{plain_action};
ghost use Rattle.lrpar_table_stacks.specs.ReductionStep.{FitsGrammar};
ghost use Rattle.lrpar_table_rows.specs.Table.{IsClosed, ReduceBy};

use crate::fault::CheckFault;
use crate::longest::Counts;
use lrpar_grammar::grammar::YaccGrammar;
use lrpar_grammar::span::{StIdx, StorageIndex, TIdx};
use lrpar_table_rows::table::{Action, StateTable};
use lrpar_table_stacks::reduction::{Step, take_step};
use std::alloc::{AllocError, Global};

/// The chains of a table, and the cap that none of them may exceed.
#[derive(Drop)]
pub(crate) struct Chains<'a, StorageT: StorageIndex> {
    pub(crate) grm: &'a YaccGrammar<StorageT>,
    pub(crate) stable: &'a StateTable<StorageT>,
    pub(crate) cap: u16,
}

impl<'a, StorageT: StorageIndex> Chains<'a, StorageT> {
    ghost use Rattle.lrpar_table_check.specs.Chains.{AreSomeStates, HaveRoom, IsAbove, IsFirstOfState, IsFirstTooLong, IsSound, IsState, IsTooLong, Makes, MakesFrom};

    fn new(grm: &'a YaccGrammar<StorageT>, stable: &'a StateTable<StorageT>, cap: u16) -> Self
        ensures grammar { result.grm.now ≡ grm.now }
        ensures table { result.stable.now ≡ stable.now }
        ensures cap { result.cap ≡ cap }
    {
        Chains { grm, stable, cap }
    }

    /// The least cap with which the table passes, which is at most that of the check; otherwise the first state, and the first
    /// token there, at which a chain is too long.
    ///
    /// A chain of a state begins with the state alone, or with the state and one of its gotos above it. Chains are looked at only
    /// at those tokens at which the topmost of these states stores a reduction, and `find_longest_at` counts their reductions: for most
    /// of them by one look. All states share the lists that this needs.
    ///
    /// If a chain is too long, the chains of its state are made again, step by step, to find the first token: at none after a token
    /// at which an earlier one was too long.
    fn least(&self, alloc: Global) -> Result<u16, CheckFault>
        requires { IsSound self.now }
        ensures least { IfOk result (IsLeastCap self.now.grm.now self.now.stable.now) }
        ensures short { OnOk result (AreChainsShort self.now.grm.now self.now.stable.now self.now.cap) }
        ensures fault { IfErr result (IsChainFault self.now.grm.now self.now.stable.now self.now.cap) }
    {
        let mut counts = Counts::new(alloc, self.stable)?;
        let mut least = 0;
        for s in 0..self.stable.states_len() {
            let state = StIdx(StorageT::from_index(s).unwrap());
            least = self.find_least_at(&mut counts, state, least)?;
        }
        Ok(least)
    }

    // The least cap from this one on that no chain of the state exceeds.
    fn find_least_at(
        &self,
        counts: &mut Counts<StorageT>,
        s: StIdx<StorageT>,
        from: u16,
    ) -> Result<u16, CheckFault>
        requires sound { IsSound self.now }
        requires state { IsState StorageT.index self.now s }
        requires from { from ≤ self.now.cap }
        requires room { HaveRoom self.now counts.old }
        ensures least { IfOk result (IsLeastAt self.now.grm.now self.now.stable.now (StorageT.index s.0) from) }
        ensures room { OnOk result (HaveRoom self.now counts.new) }
        ensures within { IfOk result (λ cap. cap ≤ self.now.cap) }
        ensures fault { IfErr result (IsChainFault self.now.grm.now self.now.stable.now self.now.cap) }
    {
        if let Some(longest) = self.find_longest_at(counts, s, from)? {
            return Ok(longest);
        }
        match self.find_long_at(&mut counts.states, s)? {
            Some(t) => Err(CheckFault::ChainTooLong(usize::from(s), t)),
            None => unreachable!(),
        }
    }

    // The first token at which a chain of the state is too long.
    fn find_long_at(
        &self,
        states: &mut Vec<StIdx<StorageT>>,
        s: StIdx<StorageT>,
    ) -> Result<Option<usize>, AllocError>
        requires sound { IsSound self.now }
        requires state { IsState StorageT.index self.now s }
        ensures { IfOk result (IsFirstOfState StorageT.index self.now s) }
    {
        let tokens = self.stable.tokens_len();
        let mut end = self.find_long_until(states, s, None, tokens)?;
        let (rules, nexts) = self.stable.gotos_of(s);
        for (place, _) in rules.iter().enumerate() {
            end = self.find_long_until(states, s, Some(nexts[place]), end)?;
        }
        if end < tokens {
            Ok(Some(end))
        } else {
            Ok(None)
        }
    }

    // The first token below `end` at which the chain that begins with the state, and with `above` on it, is too long; or `end`.
    fn find_long_until(
        &self,
        states: &mut Vec<StIdx<StorageT>>,
        s: StIdx<StorageT>,
        above: Option<StIdx<StorageT>>,
        end: usize,
    ) -> Result<usize, AllocError>
        requires sound { IsSound self.now }
        requires state { IsState StorageT.index self.now s }
        requires above { IsAbove StorageT.index self.now above }
        ensures { IfOk result (IsFirstTooLong StorageT.index self.now s above end) }
    {
        let top = above.unwrap_or(s);
        let (tokens, actions) = self.stable.actions_of(top);
        for (place, token) in tokens.iter().enumerate() {
            let t = usize::from(*token);
            let action = actions[place];
            if t >= end {
                return Ok(end);
            }
            if is_reduction(action) && self.is_long_from(states, s, above, *token)? {
                return Ok(t);
            }
        }
        Ok(end)
    }

    // Whether the chain that begins with the state, and with `above` on it, is too long at the token.
    fn is_long_from(
        &self,
        states: &mut Vec<StIdx<StorageT>>,
        s: StIdx<StorageT>,
        above: Option<StIdx<StorageT>>,
        t: TIdx<StorageT>,
    ) -> Result<bool, AllocError>
        requires sound { IsSound self.now }
        requires state { IsState StorageT.index self.now s }
        requires above { IsAbove StorageT.index self.now above }
        requires token { StorageT.index t.0 < self.now.stable.now.tokens }
        ensures { IfOk result (λ long. IsTrue long ↔ IsTooLong StorageT.index self.now s above t) }
    {
        match self.count_reductions_from(states, s, above, t)? {
            Some(_) => Ok(false),
            None => Ok(true),
        }
    }

    // How many reductions the chain that begins with the state, and with `above` on it, makes at the token; `None` if they are
    // more than the cap.
    pub(crate) fn count_reductions_from(
        &self,
        states: &mut Vec<StIdx<StorageT>>,
        s: StIdx<StorageT>,
        above: Option<StIdx<StorageT>>,
        t: TIdx<StorageT>,
    ) -> Result<Option<u16>, AllocError>
        requires sound { IsSound self.now }
        requires state { IsState StorageT.index self.now s }
        requires above { IsAbove StorageT.index self.now above }
        requires token { StorageT.index t.0 < self.now.stable.now.tokens }
        ensures { IfOk result (Makes StorageT.index self.now s above t) }
    {
        states.clear();
        states.push(s)?;
        if let Some(next) = above {
            states.push(next)?;
        }
        self.count_reductions(states, t)
    }

    // How many reductions the chain from these states makes at the token; `None` if they are more than the cap. It is made on the
    // list itself.
    fn count_reductions(
        &self,
        states: &mut Vec<StIdx<StorageT>>,
        t: TIdx<StorageT>,
    ) -> Result<Option<u16>, AllocError>
        requires sound { IsSound self.now }
        requires token { StorageT.index t.0 < self.now.stable.now.tokens }
        requires states { AreSomeStates StorageT.index self.now states.old.items }
        ensures { IfOk result (MakesFrom StorageT.index self.now t states.old.items) }
    {
        for made in 0..self.cap {
            let (step, _action) = take_step(self.grm, self.stable, states, t)?;
            match step {
                Step::Reduced => {}
                Step::LeavesNone => return Ok(Some(made + 1)),
                Step::Stays => return Ok(Some(made)),
            }
        }
        let (step, _action) = take_step(self.grm, self.stable, states, t)?;
        match step {
            Step::Reduced | Step::LeavesNone => Ok(None),
            Step::Stays => Ok(Some(self.cap)),
        }
    }
}

// Whether the action is a reduction.
fn is_reduction<StorageT: StorageIndex>(action: Action<StorageT>) -> bool
    ensures { IsTrue result ↔ ((p : ℕ) × (plain_action StorageT.index action ≡ ReduceBy p)) }
{
    match action {
        Action::Reduce(_) => true,
        Action::Shift(_) | Action::Accept | Action::Error => false,
    }
}

/// The least cap with which a safe table passes, if it is at most this one; otherwise the first chain that makes more reductions
/// than this one, or `Memory` if an allocation failed, for the lists on which the chains are counted.
pub(crate) fn least_cap<StorageT: StorageIndex>(
    alloc: Global,
    grm: &YaccGrammar<StorageT>,
    stable: &StateTable<StorageT>,
    cap: u16,
) -> Result<u16, CheckFault>
    requires fits { FitsGrammar grm.now stable.now }
    requires closed { IsClosed stable.now }
    ensures least { IfOk result (IsLeastCap grm.now stable.now) }
    ensures short { OnOk result (AreChainsShort grm.now stable.now cap) }
    ensures fault { IfErr result (IsChainFault grm.now stable.now cap) }
{
    Chains::new(grm, stable, cap).least(alloc)
}
