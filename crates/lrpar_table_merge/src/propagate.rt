//! The items that states hold, propagated from the start along transitions until nothing grows.
ghost use Rattle.std.specs.Prelude.{◌≡◌, ◌<◌, ◌↔◌, IfErr, IfOk, IsTrue, OnOk, length};
ghost use Rattle.lrpar_grammar.specs.Grammar.{IsWellFormed};
ghost use Rattle.lrpar_table_items.specs.Working.{AreSets};
ghost use Rattle.lrpar_table_merge.specs.Held.{transitions_at};
ghost use Rattle.lrpar_table_merge.specs.MergedStates.{all_transitions};
ghost use Rattle.lrpar_table_merge.specs.Passing.{BeginsAtStart, EndsRound, HasGoneOn, HasPassedOn, HavePropagated, IsPropagationFault, IsStartFault, IsStuckFault, IsStuckFaultAt, IsUnderWay};
ghost use Rattle.lrpar_table_merge.specs.StoredKernels.{AreWithoutItems, HaveAnItem, HaveCores, StayAlike};

use crate::clear::clear_kernels;
use crate::expansions::expand;
use crate::held::{HeldFault, Transitions, pass_to};
use crate::pass::pass_all;
use lrpar_grammar::grammar::YaccGrammar;
use lrpar_grammar::span::StorageIndex;
use lrpar_table_items::cores::CoreItems;
use lrpar_table_items::sets::Sets;
use lrpar_table_items::states::start_kernel;
use std::alloc::Global;

/// Sets the lookaheads of the kernels to those that the states hold: propagated from the start item along the transitions, and nothing
/// else. The cores of the kernels stay. `sets` can be used again.
///
/// It returns `Misfit` if a state holds an item with a symbol after the dot by which no transition goes, or if one goes by it to no state
/// or to a state with other LR(0) cores than those of the advanced items; also, if the kernel of state 0 has any core but the start
/// item's. It returns `Memory` if an allocation fails. After an `Err` the lookaheads may be any.
///
/// It takes rounds over the states, until no kernel grows: at most one for each token that a core gets as a lookahead, and one more. A
/// round looks at those states alone whose kernels have grown, and makes the closure of each.
pub(crate) fn propagate<StorageT: StorageIndex>(
    alloc: Global,
    grm: &YaccGrammar<StorageT>,
    sets: &mut Sets,
    all: &[Transitions],
    kernels: &mut [Vec<CoreItems<StorageT>>],
) -> Result<(), HeldFault>
    requires well_formed { IsWellFormed grm.now }
    requires sets { AreSets grm.now sets.old }
    requires cores { HaveCores StorageT.index grm.now kernels.old }
    ensures sets { AreSets grm.now sets.new }
    ensures len { length kernels.new ≡ length kernels.old }
    ensures some { OnOk result (0 < length kernels.new) }
    ensures held { OnOk result (HavePropagated StorageT.index grm.now all.now kernels.old kernels.new) }
    ensures fault { IfErr result (IsPropagationFault StorageT.index grm.now all.now kernels.old) }
{
    clear_kernels(kernels);
    let mut waits = begin(alloc, grm, kernels)?;
    pass_rounds(alloc, grm, sets, all, kernels, &mut waits)
}

// Passes the start item to the kernel of state 0. Returns which states wait: state 0 alone.
fn begin<StorageT: StorageIndex>(
    alloc: Global,
    grm: &YaccGrammar<StorageT>,
    kernels: &mut [Vec<CoreItems<StorageT>>],
) -> Result<Vec<bool>, HeldFault>
    requires cores { HaveCores StorageT.index grm.now kernels.old }
    requires none { AreWithoutItems StorageT.index kernels.old }
    ensures some { OnOk result (0 < length kernels.new) }
    ensures waits { IfOk result (λ waits. length waits.items ≡ length kernels.new) }
    ensures alike { OnOk result (StayAlike StorageT.index kernels.old kernels.new) }
    ensures begun { IfOk result (BeginsAtStart StorageT.index grm.now kernels.new) }
    ensures misfit { IfErr result (IsStartFault StorageT.index grm.now kernels.old) }
{
    let start = start_kernel(alloc, grm)?;
    let _grown = pass_to(kernels, 0, &start)?;
    let mut waits = vec![in alloc; false; kernels.len()]?;
    waits[0] = true;
    Ok(waits)
}

// Passes on the items of the states that wait, until none waits.
fn pass_rounds<StorageT: StorageIndex>(
    alloc: Global,
    grm: &YaccGrammar<StorageT>,
    sets: &mut Sets,
    all: &[Transitions],
    kernels: &mut [Vec<CoreItems<StorageT>>],
    waits: &mut [bool],
) -> Result<(), HeldFault>
    requires well_formed { IsWellFormed grm.now }
    requires sets { AreSets grm.now sets.old }
    requires waits { length waits.old ≡ length kernels.old }
    requires propagated { IsUnderWay StorageT.index grm.now all.now kernels.old waits.old }
    ensures sets { AreSets grm.now sets.new }
    ensures held { OnOk result (HavePropagated StorageT.index grm.now all.now kernels.old kernels.new) }
    ensures stuck { IfErr result (IsStuckFault StorageT.index grm.now all.now kernels.old) }
{
    'rounds: while pass_round(alloc, grm, sets, all, kernels, waits)? {}
    Ok(())
}

// Passes on the items of each state that waits, ascending. Returns whether any kernel grew.
fn pass_round<StorageT: StorageIndex>(
    alloc: Global,
    grm: &YaccGrammar<StorageT>,
    sets: &mut Sets,
    all: &[Transitions],
    kernels: &mut [Vec<CoreItems<StorageT>>],
    waits: &mut [bool],
) -> Result<bool, HeldFault>
    requires well_formed { IsWellFormed grm.now }
    requires sets { AreSets grm.now sets.old }
    requires waits { length waits.old ≡ length kernels.old }
    requires propagated { IsUnderWay StorageT.index grm.now all.now kernels.old waits.old }
    ensures sets { AreSets grm.now sets.new }
    ensures propagated { OnOk result (HasGoneOn StorageT.index grm.now all.now kernels.old kernels.new waits.new) }
    ensures round { IfOk result (EndsRound StorageT.index kernels.old kernels.new waits.new) }
    ensures stuck { IfErr result (IsStuckFault StorageT.index grm.now all.now kernels.old) }
{
    let mut grown = false;
    for state in 0..kernels.len() {
        let more = pass_waiting(alloc, grm, sets, all, state, kernels, waits)?;
        grown = grown || more;
    }
    Ok(grown)
}

// If the state waits, passes its items on along its transitions, and marks each state that grew as waiting. So it doesn't wait any more,
// unless its own kernel grows. Returns whether any kernel grew. A state without an item passes nothing on.
fn pass_waiting<StorageT: StorageIndex>(
    alloc: Global,
    grm: &YaccGrammar<StorageT>,
    sets: &mut Sets,
    all: &[Transitions],
    state: usize,
    kernels: &mut [Vec<CoreItems<StorageT>>],
    waits: &mut [bool],
) -> Result<bool, HeldFault>
    requires well_formed { IsWellFormed grm.now }
    requires sets { AreSets grm.now sets.old }
    requires waits { length waits.old ≡ length kernels.old }
    requires state { state < length kernels.old }
    requires propagated { IsUnderWay StorageT.index grm.now all.now kernels.old waits.old }
    ensures sets { AreSets grm.now sets.new }
    ensures passed { IfOk result (HasPassedOn StorageT.index grm.now all.now state kernels.old waits.old kernels.new waits.new) }
    ensures stuck { IfErr result (IsStuckFaultAt StorageT.index grm.now all.now kernels.old state) }
{
    if !waits[state] {
        return Ok(false);
    }
    waits[state] = false;
    let kernel: &[CoreItems<StorageT>] = &kernels[state];
    if !has_items(kernel) {
        return Ok(false);
    }
    let successors = expand(alloc, grm, sets, kernel)?;
    let by_rules = pass_all(kernels, waits, rules_from(all, state), &successors.rules)?;
    let by_tokens = pass_all(kernels, waits, tokens_from(all, state), &successors.tokens)?;
    Ok(by_rules | by_tokens)
}

// Whether the cores have any item.
fn has_items<StorageT: StorageIndex>(cores: &[CoreItems<StorageT>]) -> bool
    ensures { IsTrue result ↔ HaveAnItem StorageT.index cores.now }
{
    for core in cores {
        if core.tokens.has_any() {
            return true;
        }
    }
    false
}

// The transitions of the state by rules; none, if there are no transitions of this state.
fn rules_from(all: &[Transitions], state: usize) -> &[Option<usize>]
    ensures { result.now ≡ (transitions_at (all_transitions all.now) state).rules }
{
    match all.get(state) {
        Some(transitions) => &transitions.rules,
        None => &[],
    }
}

// The transitions of the state by tokens; none, if there are no transitions of this state.
fn tokens_from(all: &[Transitions], state: usize) -> &[Option<usize>]
    ensures { result.now ≡ (transitions_at (all_transitions all.now) state).tokens }
{
    match all.get(state) {
        Some(transitions) => &transitions.tokens,
        None => &[],
    }
}
