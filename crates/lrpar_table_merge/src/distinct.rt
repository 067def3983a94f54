//! Merged states of which no two have the same items.
ghost use Rattle.std.specs.Prelude.{◌≡◌, ◌<◌, ◌≤◌, IfErr, IfNone, IfOk, IfSome, length};
ghost use Rattle.lrpar_grammar.specs.Grammar.{IsWellFormed};
ghost use Rattle.lrpar_table_items.specs.StoredStates.{HasAtMost};
ghost use Rattle.lrpar_table_items.specs.Working.{AreSets};
ghost use Rattle.lrpar_table_merge.specs.StoredKernels.{AreDistinctKernels, AreTwins, HaveCores, IsNewAt, IsTwinOf};
ghost use Rattle.lrpar_table_merge.specs.StoredStates.{AreStatesOf, HaveCoresOf, HaveKernels};

use crate::held::{HeldFault, Transitions};
use crate::merge::MergedState;
use crate::merged_states::make_merged_states;
use crate::propagate::propagate;
use crate::reached::{keep_marked, marked_kernels, reached};
use lrpar_grammar::grammar::YaccGrammar;
use lrpar_grammar::span::StorageIndex;
use lrpar_table_items::cores::{CoreItems, are_same};
use lrpar_table_items::item_set::State;
use lrpar_table_items::sets::Sets;
use std::alloc::{AllocError, Global};

/// The states to which transitions lead, with the lookaheads worked out anew from the start. Merging can leave two states with the same
/// items, if kernels grow late: then the transitions to the later one lead to the earlier one, and all is worked out again.
///
/// It returns `Misfit` if transitions and kernels don't fit, as `propagate` and `make_merged_states` say, and `Memory` if an allocation fails.
pub(crate) fn make_distinct_states<StorageT: StorageIndex>(
    alloc: Global,
    grm: &YaccGrammar<StorageT>,
    sets: &mut Sets,
    states: Vec<MergedState<StorageT>>,
) -> Result<Vec<State<StorageT>>, HeldFault>
    requires well_formed { IsWellFormed grm.now }
    requires sets { AreSets grm.now sets.old }
    requires kernels { HaveKernels StorageT.index grm.now states.items }
    requires fit { length states.items ≤ StorageT.limit }
    ensures made { IfOk result (AreStatesOf StorageT.index grm.now) }
    ensures len { IfOk result (HasAtMost (length states.items)) }
{
    let rounds = states.len();
    let (mut kernels, mut all) = split_states(alloc, states)?;
    // Each round leaves out a state.
    for _ in 0..rounds {
        let marks = reached(alloc, &all)?;
        kernels = marked_kernels(alloc, &kernels, &marks)?;
        keep_marked(alloc, &mut all, &marks)?;
        propagate(alloc, grm, sets, &all, &mut kernels)?;
        match find_twins(&kernels) {
            None => return make_merged_states(alloc, grm, sets, &all, &kernels),
            Some((first, second)) => redirect(&mut all, second, first),
        }
    }
    Err(HeldFault::Misfit)
}

// The kernels of the states, and their transitions.
fn split_states<StorageT: StorageIndex>(
    alloc: Global,
    states: Vec<MergedState<StorageT>>,
) -> Result<(Vec<Vec<CoreItems<StorageT>>>, Vec<Transitions>), AllocError>
    ensures cores { IfOk result (λ parts. HaveCoresOf StorageT.index states.items parts.0.items) }
    ensures len { IfOk result (λ parts. length parts.0.items ≡ length states.items) }
{
    let mut kernels = Vec::with_capacity(alloc, states.len())?;
    let mut all = Vec::with_capacity(alloc, states.len())?;
    for state in states {
        let (kernel, transitions) = state.into_parts();
        kernels.push(kernel)?;
        all.push(transitions)?;
    }
    Ok((kernels, all))
}

// Two kernels with the same cores and the same lookaheads, if there are any, the earlier one first.
fn find_twins<StorageT: StorageIndex>(
    kernels: &[Vec<CoreItems<StorageT>>],
) -> Option<(usize, usize)>
    ensures twins { IfSome result (AreTwins StorageT.index kernels.now) }
    ensures none { IfNone result (AreDistinctKernels StorageT.index kernels.now) }
{
    for number in 0..kernels.len() {
        if let Some(earlier) = find_twin(kernels, number) {
            return Some((earlier, number));
        }
    }
    None
}

// The first of the kernels before the one with this number that is the same.
fn find_twin<StorageT: StorageIndex>(
    kernels: &[Vec<CoreItems<StorageT>>],
    number: usize,
) -> Option<usize>
    requires { number < length kernels.now }
    ensures twin { IfSome result (IsTwinOf StorageT.index kernels.now number) }
    ensures none { IfNone result (IsNewAt StorageT.index kernels.now number) }
{
    for earlier in 0..number {
        if are_same(&kernels[earlier], &kernels[number]) {
            return Some(earlier);
        }
    }
    None
}

// Makes the transitions to a state lead to another one.
fn redirect(all: &mut Vec<Transitions>, from: usize, to: usize) {
    for number in 0..all.len() {
        redirect_row(&mut all[number].rules, from, to);
        redirect_row(&mut all[number].tokens, from, to);
    }
}

// Makes the entries of the row that lead to one state lead to another one.
fn redirect_row(row: &mut Vec<Option<usize>>, from: usize, to: usize) {
    for place in 0..row.len() {
        if let Some(next) = row[place] {
            if next == from {
                row[place] = Some(to);
            }
        }
    }
}
