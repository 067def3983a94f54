//! Which states of two tables the same paths of symbols lead to.
ghost use Rattle.std.specs.Prelude.{◌≡◌, ◌<◌, ◌↔◌, IfOk, IsTrue, OnOk, length};
ghost use Rattle.lrpar_table_rows.specs.Table.{states_len};
ghost use Rattle.lrpar_conflict_examples.specs.Pairs.{AddsAll, AddsOne, AppendsGotoPair, AppendsShiftPair, AreBelow, AreNextPairs, HasAllPairs, HasEmptyRows, HasSomePair, has_pair, rows_in};

use lrpar_grammar::span::{RIdx, StIdx, StorageIndex, TIdx};
use lrpar_table_rows::table::{Action, StateTable};
use std::alloc::{AllocError, Global};

// The states of two tables that paths of the same shifts and gotos from both starts lead to.
pub(crate) struct Pairs {
    // For each state of the first table those of the second.
    rows: Vec<Vec<usize>>,
    // The pairs, in the order in which they were found.
    found: Vec<(usize, usize)>,
}

// A drop of its own: code that drops one then has one call to prove.
impl Drop for Pairs {
    fn drop(self) {
        let Pairs { rows, found } = self;
        drop(rows);
        drop(found);
    }
}

impl Pairs {
    // The pairs of both tables. There are at most as many as states of one table times states of the other, and each round follows one.
    pub(crate) fn new<StorageT: StorageIndex>(
        alloc: Global,
        one: &StateTable<StorageT>,
        other: &StateTable<StorageT>,
    ) -> Result<Self, AllocError>
        ensures { IfOk result (HasAllPairs one.now other.now) }
    {
        // The proof needs that both tables are closed.
        let _lemma = other.states_len();
        let rows = empty_rows(alloc, one.states_len())?;
        let mut pairs = Pairs {
            rows,
            found: Vec::new(alloc),
        };
        pairs.add(
            usize::from(one.start_state()),
            usize::from(other.start_state()),
        )?;
        let mut place = 0;
        'places: while place < pairs.found.len() {
            let (state, paired) = pairs.found[place];
            let nexts = next_pairs(alloc, one, other, state, paired)?;
            pairs.add_all(&nexts)?;
            place += 1;
        }
        Ok(pairs)
    }

    // Whether the same path leads to both states.
    pub(crate) fn are_paired(&self, state: usize, other: usize) -> bool
        ensures { result ≡ has_pair (rows_in self.now) state other }
    {
        match self.rows.get(state) {
            Some(row) => row.contains(&other),
            None => false,
        }
    }

    // Whether a path leads to this state of the second table, and to one of the first.
    pub(crate) fn is_paired(&self, other: usize) -> bool
        ensures { IsTrue result ↔ HasSomePair (rows_in self.now) other }
    {
        for state in 0..self.rows.len() {
            if self.are_paired(state, other) {
                return true;
            }
        }
        false
    }

    // Adds pairs, each unless it is there.
    fn add_all(&mut self, pairs: &[(usize, usize)]) -> Result<(), AllocError>
        requires { AreBelow (length self.old.rows.items) pairs.now }
        ensures len { OnOk result (length self.new.rows.items ≡ length self.old.rows.items) }
        ensures added { OnOk result (AddsAll pairs.now self.old self.new) }
    {
        for pair in pairs {
            self.add(pair.0, pair.1)?;
        }
        Ok(())
    }

    // Adds a pair, unless it is there.
    fn add(&mut self, state: usize, other: usize) -> Result<(), AllocError>
        requires { state < length self.old.rows.items }
        ensures len { OnOk result (length self.new.rows.items ≡ length self.old.rows.items) }
        ensures added { OnOk result (AddsOne state other self.old self.new) }
    {
        if self.rows[state].contains(&other) {
            return Ok(());
        }
        self.rows[state].push(other)?;
        self.found.push((state, other))?;
        Ok(())
    }
}

// `len` empty rows.
fn empty_rows(alloc: Global, len: usize) -> Result<Vec<Vec<usize>>, AllocError>
    ensures { IfOk result (HasEmptyRows len) }
{
    let mut rows = Vec::with_capacity(alloc, len)?;
    for _ in 0..len {
        rows.push(Vec::new(alloc))?;
    }
    Ok(rows)
}

// The pairs to which one step of both tables leads from this one.
fn next_pairs<StorageT: StorageIndex>(
    alloc: Global,
    one: &StateTable<StorageT>,
    other: &StateTable<StorageT>,
    state: usize,
    paired: usize,
) -> Result<Vec<(usize, usize)>, AllocError>
    requires state { state < states_len one.now }
    requires paired { paired < states_len other.now }
    ensures { IfOk result (AreNextPairs one.now other.now state paired) }
{
    // The proof needs that the states have numbers of the storage type.
    let _lemma = (one.states_len(), other.states_len());
    let here = state_of(state);
    let there = state_of(paired);
    let mut pairs = Vec::new(alloc);
    let (tokens, actions) = one.actions_of(here);
    'shifts: for (place, token) in tokens.iter().enumerate() {
        push_shift(&mut pairs, other, there, *token, actions[place])?;
    }
    let (rules, states) = one.gotos_of(here);
    'gotos: for (place, rule) in rules.iter().enumerate() {
        push_goto(&mut pairs, other, there, *rule, states[place])?;
    }
    Ok(pairs)
}

// The state with this number.
fn state_of<StorageT: StorageIndex>(number: usize) -> StIdx<StorageT>
    requires { number < StorageT.limit }
    ensures { StorageT.index result.0 ≡ number }
{
    StIdx(StorageT::from_index(number).unwrap())
}

// Appends the pair to which actions at a token lead, if both are shifts.
fn push_shift<StorageT: StorageIndex>(
    pairs: &mut Vec<(usize, usize)>,
    other: &StateTable<StorageT>,
    paired: StIdx<StorageT>,
    token: TIdx<StorageT>,
    action: Action<StorageT>,
) -> Result<(), AllocError>
    requires { StorageT.index paired.0 < states_len other.now }
    ensures { OnOk result (AppendsShiftPair StorageT.index other.now paired token action pairs.old pairs.new) }
{
    if usize::from(token) >= other.tokens_len() {
        return Ok(());
    }
    let (Action::Shift(next), Action::Shift(beside)) = (action, other.action(paired, token)) else {
        return Ok(());
    };
    pairs.push((usize::from(next), usize::from(beside)))?;
    Ok(())
}

// Appends the pair to which gotos by a rule lead, if the other state has one.
fn push_goto<StorageT: StorageIndex>(
    pairs: &mut Vec<(usize, usize)>,
    other: &StateTable<StorageT>,
    paired: StIdx<StorageT>,
    rule: RIdx<StorageT>,
    next: StIdx<StorageT>,
) -> Result<(), AllocError>
    requires { StorageT.index paired.0 < states_len other.now }
    ensures { OnOk result (AppendsGotoPair StorageT.index other.now paired rule next pairs.old pairs.new) }
{
    if usize::from(rule) >= other.rules_len() {
        return Ok(());
    }
    if let Some(beside) = other.goto(paired, rule) {
        pairs.push((usize::from(next), usize::from(beside)))?;
    }
    Ok(())
}
