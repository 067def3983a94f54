//! The states of merged item sets, from their kernels and transitions.
ghost use Rattle.std.specs.Prelude.{◌≡◌, ◌<◌, ◌≤◌, ◌↔◌, IfErr, IfOk, IsTrue, None, length, slice_index_or};
ghost use Rattle.lrpar_grammar.specs.Grammar.{IsWellFormed};
ghost use Rattle.lrpar_table_items.specs.Working.{AreSets, AreSuccessors};
ghost use Rattle.lrpar_table_merge.specs.Expansions.{ExpandsKernel};
ghost use Rattle.lrpar_table_merge.specs.Passing.{AreKernelsHeld};
ghost use Rattle.lrpar_table_merge.specs.StoredKernels.{AreDistinctKernels, AreKernelsIfFilled, AreOneTo, HaveAnItem, IsKernelIfFilled, IsKernelOf};
ghost use Rattle.lrpar_table_merge.specs.StoredStates.{AreStatesOf, FitsGoto, HasGivenGotos, HasGivenShifts, HasGivenSteps, IsGivenNext, IsMisfitAt, IsStateAt};

use crate::compatible::have_same_cores;
use crate::expansions::expand;
use crate::held::{HeldFault, Transitions};
use lrpar_grammar::grammar::YaccGrammar;
use lrpar_grammar::span::{Numbered, RIdx, StIdx, StorageIndex, TIdx};
use lrpar_table_items::cores::CoreItems;
use lrpar_table_items::item_set::State;
use lrpar_table_items::sets::Sets;
use lrpar_table_items::successors::Successors;
use std::alloc::Global;

/// The states of the kernels, whose items are those that the states hold by the transitions: each state with the closure of its kernel, and
/// with its transitions.
///
/// It returns `Misfit` if a kernel has no item; if a transition is missing where an item has the symbol after its dot; and if a transition
/// is there where no item has it, or leads to state 0, to no state, or to a state with other LR(0) cores. It returns `Memory` if an
/// allocation fails. After an `Err` no state is left, and `sets` can be used again. For each state it takes a closure, and time
/// proportional to the number of rules and tokens.
pub(crate) fn make_merged_states<StorageT: StorageIndex>(
    alloc: Global,
    grm: &YaccGrammar<StorageT>,
    sets: &mut Sets,
    all: &[Transitions],
    kernels: &[Vec<CoreItems<StorageT>>],
) -> Result<Vec<State<StorageT>>, HeldFault>
    requires well_formed { IsWellFormed grm.now }
    requires sets { AreSets grm.now sets.old }
    requires count { AreOneTo StorageT.limit kernels.now }
    requires held { AreKernelsHeld StorageT.index grm.now all.now kernels.now }
    requires distinct { AreDistinctKernels StorageT.index kernels.now }
    ensures sets { AreSets grm.now sets.new }
    ensures made { IfOk result (AreStatesOf StorageT.index grm.now) }
    ensures len { IfOk result (λ states. length states.items ≡ length kernels.now) }
{
    let mut states = Vec::new(alloc);
    for number in 0..kernels.len() {
        let state = make_merged_state(alloc, grm, sets, all, kernels, number)?;
        states.push(state)?;
    }
    Ok(states)
}

// The state of the kernel with this number.
fn make_merged_state<StorageT: StorageIndex>(
    alloc: Global,
    grm: &YaccGrammar<StorageT>,
    sets: &mut Sets,
    all: &[Transitions],
    kernels: &[Vec<CoreItems<StorageT>>],
    number: usize,
) -> Result<State<StorageT>, HeldFault>
    requires well_formed { IsWellFormed grm.now }
    requires sets { AreSets grm.now sets.old }
    requires number { number < length kernels.now }
    requires fit { length kernels.now ≤ StorageT.limit }
    requires kernels { AreKernelsIfFilled StorageT.index grm.now kernels.now }
    ensures sets { AreSets grm.now sets.new }
    ensures state { IfOk result (IsStateAt StorageT.index grm.now kernels.now all.now number) }
{
    let successors = expand_filled(alloc, grm, sets, &kernels[number])?;
    let none = Transitions {
        rules: Vec::new(alloc),
        tokens: Vec::new(alloc),
    };
    let transitions = all.get(number).unwrap_or(&none);
    let (gotos, shifts) = all_steps(alloc, grm, kernels, &successors, transitions)?;
    Ok(State {
        items: successors.items,
        gotos,
        shifts,
    })
}

// The item set of the kernel, if it has an item.
fn expand_filled<StorageT: StorageIndex>(
    alloc: Global,
    grm: &YaccGrammar<StorageT>,
    sets: &mut Sets,
    kernel: &[CoreItems<StorageT>],
) -> Result<Successors<StorageT>, HeldFault>
    requires well_formed { IsWellFormed grm.now }
    requires sets { AreSets grm.now sets.old }
    requires kernel { IsKernelIfFilled StorageT.index grm.now kernel.now }
    ensures sets { AreSets grm.now sets.new }
    ensures is_kernel { IfOk result (λ _. IsKernelOf StorageT.index grm.now kernel.now) }
    ensures expanded { IfOk result (ExpandsKernel StorageT.index grm.now kernel.now) }
{
    if !has_item(kernel) {
        return Err(HeldFault::Misfit);
    }
    let successors = expand(alloc, grm, sets, kernel)?;
    Ok(successors)
}

// Whether the first core has a lookahead. Then the cores have an item.
fn has_item<StorageT: StorageIndex>(kernel: &[CoreItems<StorageT>]) -> bool
    ensures { IsTrue result → HaveAnItem StorageT.index kernel.now }
{
    !kernel.is_empty() && kernel[0].tokens.has_any()
}

// The transitions of the item set by rules, and those by tokens.
fn all_steps<StorageT: StorageIndex>(
    alloc: Global,
    grm: &YaccGrammar<StorageT>,
    kernels: &[Vec<CoreItems<StorageT>>],
    successors: &Successors<StorageT>,
    transitions: &Transitions,
) -> Result<
    (
        Vec<(RIdx<StorageT>, StIdx<StorageT>)>,
        Vec<(TIdx<StorageT>, StIdx<StorageT>)>,
    ),
    HeldFault,
>
    requires successors { AreSuccessors StorageT.index grm.now successors.now }
    requires fit { length kernels.now ≤ StorageT.limit }
    ensures gotos { IfOk result (HasGivenGotos StorageT.index grm.now kernels.now successors.now transitions.now) }
    ensures shifts { IfOk result (HasGivenShifts StorageT.index grm.now kernels.now successors.now transitions.now) }
{
    let gotos = steps::<StorageT, RIdx<StorageT>>(
        alloc,
        kernels,
        &successors.rules,
        &transitions.rules,
        grm.rules_len(),
    )?;
    let shifts = steps::<StorageT, TIdx<StorageT>>(
        alloc,
        kernels,
        &successors.tokens,
        &transitions.tokens,
        grm.tokens_len(),
    )?;
    Ok((gotos, shifts))
}

// The transitions by the symbols of one kind, ascending: `reached` are the kernels of the gotos, and `row` has the next states.
fn steps<StorageT: StorageIndex, SymbolT: Numbered<StorageT>>(
    alloc: Global,
    kernels: &[Vec<CoreItems<StorageT>>],
    reached: &[Vec<CoreItems<StorageT>>],
    row: &[Option<usize>],
    len: usize,
) -> Result<Vec<(SymbolT, StIdx<StorageT>)>, HeldFault>
    requires len { length reached.now ≡ len }
    requires symbols { len ≤ StorageT.limit }
    requires fit { length kernels.now ≤ StorageT.limit }
    ensures { IfOk result (HasGivenSteps StorageT.index SymbolT.number kernels.now reached.now row.now len) }
{
    let mut rows = Vec::new(alloc);
    for number in 0..len {
        let symbol = SymbolT::numbered(StorageT::from_index(number).unwrap());
        let next = step(kernels, &reached[number], entry_at(row, number))?;
        match next {
            None => {}
            Some(state) => rows.push((symbol, state))?,
        }
    }
    Ok(rows)
}

// The entry of the row; past its end, none.
fn entry_at(row: &[Option<usize>], number: usize) -> Option<usize>
    ensures { result ≡ slice_index_or row.now number None }
{
    if number < row.len() {
        row[number]
    } else {
        None
    }
}

// The given next state, if it fits the kernel of the goto.
fn step<StorageT: StorageIndex>(
    kernels: &[Vec<CoreItems<StorageT>>],
    next: &[CoreItems<StorageT>],
    given: Option<usize>,
) -> Result<Option<StIdx<StorageT>>, HeldFault>
    requires fit { length kernels.now ≤ StorageT.limit }
    ensures state { IfOk result (IsGivenNext StorageT.index given) }
    ensures fits { IfOk result (λ _. FitsGoto StorageT.index kernels.now next.now given) }
    ensures misfit { IfErr result (IsMisfitAt StorageT.index kernels.now next.now given) }
{
    if !fits_next(kernels, next, given) {
        return Err(HeldFault::Misfit);
    }
    match given {
        None => Ok(None),
        Some(state) => Ok(Some(StIdx(StorageT::from_index(state).unwrap()))),
    }
}

// Whether the next state fits the kernel of the goto.
fn fits_next<StorageT: StorageIndex>(
    kernels: &[Vec<CoreItems<StorageT>>],
    next: &[CoreItems<StorageT>],
    given: Option<usize>,
) -> bool
    ensures { IsTrue result ↔ FitsGoto StorageT.index kernels.now next.now given }
{
    match given {
        None => next.is_empty(),
        Some(state) => {
            if next.is_empty() || state == 0 || state >= kernels.len() {
                return false;
            }
            have_same_cores(&kernels[state], next)
        }
    }
}
