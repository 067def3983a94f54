//! The states of a grammar: the canonical collection of LR(1) item sets.
ghost use Rattle.std.specs.Prelude.{◌≡◌, ◌<◌, ◌≤◌, ℕ, IfErr, IfOk, OnOk, length};
ghost use Rattle.lrpar_grammar.specs.Grammar.{Grammar, GrammarSymbol, IsWellFormed, Nonterminal, Terminal, rules_len, tokens_len};
ghost use Rattle.lrpar_table_first.specs.FirstRows.{IsSymbolBelow};
ghost use Rattle.lrpar_table_items.specs.Kernels.{AreKernels};
ghost use Rattle.lrpar_table_items.specs.Numbers.{AreNumbered, IsFaultOfStates};
ghost use Rattle.lrpar_table_items.specs.States.{AreKernelsBy};
ghost use Rattle.lrpar_table_items.specs.StoredCores.{IsKernelOf, IsStartKernel};
ghost use Rattle.lrpar_table_items.specs.StoredStates.{AreAllSteps, AreNumberedOn, AreStartKernels, AreStatesOf, AreStepsBy, HasAtMost, IsReachedSet, IsSetAt, IsStartCoreOf, IsStateAt, IsStepFaultOf, StepsTo};
ghost use Rattle.lrpar_table_items.specs.Working.{AreSets};

use crate::closure::close_kernel;
use crate::cores::CoreItems;
use crate::fault::BuildFault;
use crate::kernels::Kernels;
use crate::item_set::State;
use crate::numbers::number;
use crate::sets::Sets;
use crate::successors::Successors;
use lrpar_grammar::grammar::YaccGrammar;
use lrpar_grammar::span::{Numbered, RIdx, StIdx, StorageIndex, TIdx};
use lrpar_grammar::token_set::TokenSet;
use std::alloc::{AllocError, Global};

/// The canonical collection of the grammar, with at most `max_states` states: each item set that gotos reach from the start, once,
/// with its transitions.
///
/// It returns `TooManyStates` if there are more than `max_states`, `StorageTooSmall` if there are more than `StorageT` has numbers,
/// and `Memory` if an allocation fails. After an `Err` nothing is left.
pub fn states<StorageT: StorageIndex>(
    alloc: Global,
    grm: &YaccGrammar<StorageT>,
    max_states: usize,
) -> Result<Vec<State<StorageT>>, BuildFault>
    ensures states { IfOk result (AreStatesOf StorageT.index grm.now) }
    ensures within { IfOk result (HasAtMost max_states) }
    ensures fits { IfOk result (HasAtMost StorageT.limit) }
    ensures fault { IfErr result (IsFaultOfStates grm.now max_states StorageT.limit) }
{
    let mut sets = Sets::new(alloc, grm)?;
    let mut kernels = start_kernels(alloc, grm, max_states)?;
    make_states(alloc, grm, max_states, &mut sets, &mut kernels)
}

// The states of these kernels, and of all kernels to which these lead.
fn make_states<StorageT: StorageIndex>(
    alloc: Global,
    grm: &YaccGrammar<StorageT>,
    max_states: usize,
    sets: &mut Sets,
    kernels: &mut Kernels<StorageT>,
) -> Result<Vec<State<StorageT>>, BuildFault>
    requires well_formed { IsWellFormed grm.now }
    requires sets { AreSets grm.now sets.old }
    requires kernels { AreStartKernels grm.now max_states StorageT.limit kernels.old }
    ensures states { IfOk result (AreStatesOf StorageT.index grm.now) }
    ensures within { IfOk result (HasAtMost max_states) }
    ensures fits { IfOk result (HasAtMost StorageT.limit) }
    ensures fault { IfErr result (IsFaultOfStates grm.now max_states StorageT.limit) }
{
    let mut states = Vec::new(alloc);
    'states: while states.len() < kernels.len() {
        let state = expand(alloc, grm, max_states, sets, states.len(), kernels)?;
        states.push(state)?;
    }
    Ok(states)
}

// The kernel of the start state, with its number.
fn start_kernels<StorageT: StorageIndex>(
    alloc: Global,
    grm: &YaccGrammar<StorageT>,
    max_states: usize,
) -> Result<Kernels<StorageT>, BuildFault>
    ensures kernels { IfOk result (AreStartKernels grm.now max_states StorageT.limit) }
    ensures well_formed { IsWellFormed grm.now }
    ensures fault { IfErr result (IsFaultOfStates grm.now max_states StorageT.limit) }
{
    let start = start_kernel(alloc, grm)?;
    let mut kernels = Kernels::new(alloc);
    let _start = number(&mut kernels, alloc, max_states, &start)?;
    Ok(kernels)
}

/// The kernel of the start item `^: . S {end}`.
pub fn start_kernel<StorageT: StorageIndex>(
    alloc: Global,
    grm: &YaccGrammar<StorageT>,
) -> Result<Vec<CoreItems<StorageT>>, AllocError>
    ensures kernel { IfOk result (IsKernelOf StorageT.index grm.now) }
    ensures start { IfOk result (IsStartKernel StorageT.index grm.now) }
    ensures well_formed { IsWellFormed grm.now }
{
    let core = start_core(alloc, grm)?;
    let mut kernel = Vec::new(alloc);
    kernel.push(core)?;
    Ok(kernel)
}

// The core of the start item.
fn start_core<StorageT: StorageIndex>(
    alloc: Global,
    grm: &YaccGrammar<StorageT>,
) -> Result<CoreItems<StorageT>, AllocError>
    ensures core { IfOk result (IsStartCoreOf StorageT.index grm.now) }
    ensures well_formed { IsWellFormed grm.now }
{
    let prod = grm.start_prod();
    let mut tokens = TokenSet::new(alloc, grm.tokens_len() + 1)?;
    tokens.insert(usize::from(grm.eof_token_idx()));
    Ok(CoreItems {
        prod,
        dot: 0,
        tokens,
    })
}

// The state of the kernel with this number. Kernels to which it goes and that are new get numbers.
#[tactic(auto, using(lrpar_grammar_places::proofs::FaultLemmas::no_value))]
fn expand<StorageT: StorageIndex>(
    alloc: Global,
    grm: &YaccGrammar<StorageT>,
    max_states: usize,
    sets: &mut Sets,
    number: usize,
    kernels: &mut Kernels<StorageT>,
) -> Result<State<StorageT>, BuildFault>
    requires well_formed { IsWellFormed grm.now }
    requires sets { AreSets grm.now sets.old }
    requires number { number < length kernels.old }
    requires kernels { AreNumbered grm.now max_states StorageT.limit kernels.old }
    ensures sets { AreSets grm.now sets.new }
    ensures state { IfOk result (IsStateAt StorageT.index grm.now max_states StorageT.limit kernels.old kernels.new number) }
    ensures fault { IfErr result (IsFaultOfStates grm.now max_states StorageT.limit) }
{
    let successors = make_item_set(alloc, grm, sets, number, kernels)?;
    let (gotos, shifts) = make_steps(alloc, grm, max_states, &successors, kernels)?;
    Ok(State {
        items: successors.items,
        gotos,
        shifts,
    })
}

// The closure of the kernel with this number, and the kernels to which it goes.
#[tactic(auto, using(lrpar_grammar_places::proofs::FaultLemmas::no_value))]
fn make_item_set<StorageT: StorageIndex>(
    alloc: Global,
    grm: &YaccGrammar<StorageT>,
    sets: &mut Sets,
    number: usize,
    kernels: &Kernels<StorageT>,
) -> Result<Successors<StorageT>, AllocError>
    requires well_formed { IsWellFormed grm.now }
    requires sets { AreSets grm.now sets.old }
    requires number { number < length kernels.now }
    requires kernels { AreKernels grm.now kernels.now }
    ensures sets { AreSets grm.now sets.new }
    ensures set { IfOk result (IsSetAt StorageT.index grm.now kernels.now number) }
{
    let kernel = kernels.kernel(alloc, number)?;
    let items = close_kernel(alloc, grm, sets, kernel)?;
    Successors::new(alloc, grm, items)
}

// The state of the kernel to which a transition leads, if the kernel has cores. A new kernel gets a number.
#[tactic(auto, using(lrpar_grammar_places::proofs::FaultLemmas::no_value))]
fn step<StorageT: StorageIndex>(
    alloc: Global,
    max_states: usize,
    kernel: &[CoreItems<StorageT>],
    kernels: &mut Kernels<StorageT>,
) -> Result<Option<StIdx<StorageT>>, BuildFault>
    ensures step { IfOk result (StepsTo StorageT.index max_states StorageT.limit kernels.old kernels.new kernel.now) }
    ensures fault { IfErr result (IsStepFaultOf StorageT.index max_states StorageT.limit kernels.old kernel.now) }
{
    if kernel.is_empty() {
        return Ok(None);
    }
    let state = number(kernels, alloc, max_states, kernel)?;
    Ok(Some(state))
}

// A kind of symbols of a grammar: its rules, or its tokens.
trait SymbolKind<StorageT: StorageIndex>: Numbered<StorageT> {
    // The symbol of a number.
    ghost symbol: { ℕ → GrammarSymbol };

    // The number of symbols of this kind in the grammar.
    ghost len_in: { Grammar → ℕ };

    ghost known: { (g : Grammar) (n : ℕ) → IsSymbolBelow (rules_len g) (tokens_len g) (symbol n) → n < len_in g };

    // The number of symbols of this kind in the grammar.
    fn len(grm: &YaccGrammar<StorageT>) -> usize
        ensures len { result ≡ len_in grm.now }
        ensures within { result ≤ StorageT.limit };

    // The kernels to which the item set goes by symbols of this kind.
    fn kernels(successors: &Successors<StorageT>) -> &[Vec<CoreItems<StorageT>>]
        ensures { AreKernelsBy StorageT.index symbol len_in successors.now result.now };
}

impl<StorageT: StorageIndex> SymbolKind<StorageT> for RIdx<StorageT> {
    ghost symbol = { Nonterminal };

    ghost len_in = { rules_len };

    ghost known = { λ g n below. below };

    fn len(grm: &YaccGrammar<StorageT>) -> usize {
        grm.rules_len()
    }

    fn kernels(successors: &Successors<StorageT>) -> &[Vec<CoreItems<StorageT>>] {
        &successors.rules
    }
}

impl<StorageT: StorageIndex> SymbolKind<StorageT> for TIdx<StorageT> {
    ghost symbol = { Terminal };

    ghost len_in = { tokens_len };

    ghost known = { λ g n below. below };

    fn len(grm: &YaccGrammar<StorageT>) -> usize {
        grm.tokens_len()
    }

    fn kernels(successors: &Successors<StorageT>) -> &[Vec<CoreItems<StorageT>>] {
        &successors.tokens
    }
}

// The transitions of the item set by rules, and those by tokens.
#[tactic(auto, using(lrpar_grammar_places::proofs::FaultLemmas::no_value))]
fn make_steps<StorageT: StorageIndex>(
    alloc: Global,
    grm: &YaccGrammar<StorageT>,
    max_states: usize,
    successors: &Successors<StorageT>,
    kernels: &mut Kernels<StorageT>,
) -> Result<
    (
        Vec<(RIdx<StorageT>, StIdx<StorageT>)>,
        Vec<(TIdx<StorageT>, StIdx<StorageT>)>,
    ),
    BuildFault,
>
    requires well_formed { IsWellFormed grm.now }
    requires set { IsReachedSet StorageT.index grm.now successors.now }
    requires kernels { AreNumbered grm.now max_states StorageT.limit kernels.old }
    ensures steps { IfOk result (AreAllSteps StorageT.index grm.now max_states StorageT.limit kernels.old kernels.new successors.now) }
    ensures fault { IfErr result (IsFaultOfStates grm.now max_states StorageT.limit) }
{
    let gotos = make_steps_by::<StorageT, RIdx<StorageT>>(
        alloc, grm, max_states, successors, kernels,
    )?;
    let shifts = make_steps_by::<StorageT, TIdx<StorageT>>(
        alloc, grm, max_states, successors, kernels,
    )?;
    Ok((gotos, shifts))
}

// The transitions of the item set by the symbols of one kind, ascending.
fn make_steps_by<StorageT: StorageIndex, SymbolT: SymbolKind<StorageT>>(
    alloc: Global,
    grm: &YaccGrammar<StorageT>,
    max_states: usize,
    successors: &Successors<StorageT>,
    kernels: &mut Kernels<StorageT>,
) -> Result<Vec<(SymbolT, StIdx<StorageT>)>, BuildFault>
    requires well_formed { IsWellFormed grm.now }
    requires set { IsReachedSet StorageT.index grm.now successors.now }
    requires kernels { AreNumbered grm.now max_states StorageT.limit kernels.old }
    ensures kernels { OnOk result (AreNumberedOn grm.now max_states StorageT.limit kernels.old kernels.new) }
    ensures steps { IfOk result (AreStepsBy StorageT.index SymbolT.number SymbolT.symbol grm.now kernels.new successors.now) }
    ensures fault { IfErr result (IsFaultOfStates grm.now max_states StorageT.limit) }
{
    let reached = SymbolT::kernels(successors);
    let mut rows = Vec::new(alloc);
    for number in 0..SymbolT::len(grm) {
        let symbol = SymbolT::numbered(StorageT::from_index(number).unwrap());
        let next = step(alloc, max_states, &reached[number], kernels)?;
        match next {
            None => {}
            Some(state) => rows.push((symbol, state))?,
        }
    }
    Ok(rows)
}
