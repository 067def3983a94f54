//! The merging of item sets whose kernels are weakly compatible.
//!
//! D. Pager, 'A practical general method for constructing LR(k) parsers', Acta Informatica 7, 1977.
ghost use Rattle.std.specs.Prelude.{◌≡◌, ◌<◌, ◌≤◌, ◌↔◌, ℕ, IfErr, IfNone, IfOk, IfSome, IsTrue, OnOk, length};
ghost use Rattle.std.specs.Bool.{OnFalse};
ghost use Rattle.lrpar_grammar.specs.Grammar.{IsWellFormed};
ghost use Rattle.lrpar_table_items.specs.Working.{AreSets};
ghost use Rattle.lrpar_table_merge.specs.Minimised.{IsMergeFault};
ghost use Rattle.lrpar_table_merge.specs.Merging.{AreMerging, EndsPass, EndsTurn, GoesOn, NoneWaits, work_of};
ghost use Rattle.lrpar_table_merge.specs.StoredKernels.{AreEqualCores, AreMadeOf, BeginsWith, CanUnite, IsMadeOf, StaysKernel, UniteKernels};
ghost use Rattle.lrpar_table_merge.specs.StoredStates.{AreSplitStates, HasCompatibleAt, HasNoCompatible, HasNoCompatibleOf, HaveKernels, IsCompatibleWith};

use crate::compatible::are_weakly_compatible;
use crate::expansions::expand;
use crate::held::Transitions;
use crate::unite::unite;
use lrpar_grammar::grammar::YaccGrammar;
use lrpar_grammar::span::StorageIndex;
use lrpar_table_items::cores::{CoreItems, copied};
use lrpar_table_items::fault::BuildFault;
use lrpar_table_items::sets::Sets;
use lrpar_table_items::states::start_kernel;
use std::alloc::{AllocError, Global};

/// A state while item sets are merged: its kernel, where it goes, and whether it has to be worked on.
pub struct MergedState<StorageT: StorageIndex> {
    pub kernel: Vec<CoreItems<StorageT>>,
    pub transitions: Transitions,
    pub waits: bool,
}

// With its own `Drop`, a function that drops one proves one call.
impl<StorageT: StorageIndex> Drop for MergedState<StorageT> {
    fn drop(self) {
        let MergedState {
            kernel,
            transitions,
            waits: _waits,
        } = self;
        drop(kernel);
        drop(transitions);
    }
}

impl<StorageT: StorageIndex> MergedState<StorageT> {
    /// Its kernel, and where it goes.
    pub(crate) fn into_parts(self) -> (Vec<CoreItems<StorageT>>, Transitions)
        ensures { result.0 ≡ self.kernel }
    {
        let MergedState {
            kernel,
            transitions,
            waits: _waits,
        } = self;
        (kernel, transitions)
    }
}

/// The states so far; and for each production the states whose kernels begin with a core of it, ascending.
pub struct Merging<StorageT: StorageIndex> {
    pub states: Vec<MergedState<StorageT>>,
    pub by_prod: Vec<Vec<usize>>,
}

impl<StorageT: StorageIndex> Drop for Merging<StorageT> {
    fn drop(self) {
        let Merging { states, by_prod } = self;
        drop(states);
        drop(by_prod);
    }
}

/// The merged states, at most `max_states` of them. A kernel goes into the first state that is weakly compatible with it, which is then
/// worked on again; otherwise it makes a new state. So if two of them have the same LR(0) cores, they have grown from kernels that merging can
/// make and that aren't weakly compatible.
///
/// Nothing else is promised of the lookaheads, and nothing of the transitions: `make_distinct_states` looks at them. Nothing may lead to a
/// state any more.
pub(crate) fn merge<StorageT: StorageIndex>(
    alloc: Global,
    grm: &YaccGrammar<StorageT>,
    sets: &mut Sets,
    max_states: usize,
) -> Result<Vec<MergedState<StorageT>>, BuildFault>
    requires well_formed { IsWellFormed grm.now }
    requires sets { AreSets grm.now sets.old }
    ensures sets { AreSets grm.now sets.new }
    ensures kernels { IfOk result (λ states. HaveKernels StorageT.index grm.now states.items) }
    ensures split { IfOk result (λ states. AreSplitStates StorageT.index grm.now states.items) }
    ensures room { IfOk result (λ states. length states.items ≤ max_states) }
    ensures fits { IfOk result (λ states. length states.items ≤ StorageT.limit) }
    ensures fault { IfErr result (IsMergeFault grm.now max_states StorageT.limit) }
{
    let mut merging = Merging::new(alloc, grm)?;
    let start = start_kernel(alloc, grm)?;
    let _start = merging.merge_kernel(alloc, grm, max_states, &start)?;
    merging.merge_until_stable(alloc, grm, sets, max_states)?;
    Ok(merging.into_states())
}

impl<StorageT: StorageIndex> Merging<StorageT> {
    // No states.
    fn new(alloc: Global, grm: &YaccGrammar<StorageT>) -> Result<Self, AllocError>
        ensures { IfOk result (λ merging. (most limit : ℕ) → AreMerging StorageT.index grm.now most limit merging) }
    {
        let by_prod = empty_lists(alloc, grm.prods_len())?;
        let states = Vec::new(alloc);
        Ok(Merging { states, by_prod })
    }

    // The states alone.
    fn into_states(self) -> Vec<MergedState<StorageT>>
        ensures { result ≡ self.states }
    {
        let Merging { states, by_prod } = self;
        drop(by_prod);
        states
    }

    // Works on states until none waits. A state waits again only if lookaheads were added to its kernel, so each time that one is worked on,
    // less work is left: once for a state, and twice for each lookahead that its kernel can still get.
    fn merge_until_stable(
        &mut self,
        alloc: Global,
        grm: &YaccGrammar<StorageT>,
        sets: &mut Sets,
        max_states: usize,
    ) -> Result<(), BuildFault>
        requires well_formed { IsWellFormed grm.now }
        requires sets { AreSets grm.now sets.old }
        requires merging { AreMerging StorageT.index grm.now max_states StorageT.limit self.old }
        ensures sets { AreSets grm.now sets.new }
        ensures merging { OnOk result (AreMerging StorageT.index grm.now max_states StorageT.limit self.new) }
        ensures stable { OnOk result (NoneWaits self.new.states.items) }
        ensures fault { IfErr result (IsMergeFault grm.now max_states StorageT.limit) }
    {
        'rounds: while self.work_on_all(alloc, grm, sets, max_states)? {}
        Ok(())
    }

    // Works on each state that waits. Returns whether any did.
    fn work_on_all(
        &mut self,
        alloc: Global,
        grm: &YaccGrammar<StorageT>,
        sets: &mut Sets,
        max_states: usize,
    ) -> Result<bool, BuildFault>
        requires well_formed { IsWellFormed grm.now }
        requires sets { AreSets grm.now sets.old }
        requires merging { AreMerging StorageT.index grm.now max_states StorageT.limit self.old }
        ensures sets { AreSets grm.now sets.new }
        ensures merging { OnOk result (AreMerging StorageT.index grm.now max_states StorageT.limit self.new) }
        ensures waited { IfOk result (EndsPass StorageT.index grm.now max_states self.old.states.items self.new.states.items) }
        ensures fault { IfErr result (IsMergeFault grm.now max_states StorageT.limit) }
    {
        let mut waited = false;
        let mut number = 0;
        'states: while number < self.states.len() {
            let worked = self.work_on(alloc, grm, sets, max_states, number)?;
            waited = waited || worked;
            number += 1;
        }
        Ok(waited)
    }

    // Works on the state, if it waits. Returns whether it did.
    fn work_on(
        &mut self,
        alloc: Global,
        grm: &YaccGrammar<StorageT>,
        sets: &mut Sets,
        max_states: usize,
        number: usize,
    ) -> Result<bool, BuildFault>
        requires well_formed { IsWellFormed grm.now }
        requires sets { AreSets grm.now sets.old }
        requires number { number < length self.old.states.items }
        requires merging { AreMerging StorageT.index grm.now max_states StorageT.limit self.old }
        ensures sets { AreSets grm.now sets.new }
        ensures merging { OnOk result (AreMerging StorageT.index grm.now max_states StorageT.limit self.new) }
        ensures turn { IfOk result (EndsTurn StorageT.index grm.now max_states number self.old.states.items self.new.states.items) }
        ensures fault { IfErr result (IsMergeFault grm.now max_states StorageT.limit) }
    {
        if !self.stop_waiting(grm, max_states, number) {
            return Ok(false);
        }
        let transitions = self.merge_successors(alloc, grm, sets, max_states, number)?;
        self.set_transitions(grm, max_states, number, transitions);
        Ok(true)
    }

    // Whether the state waits. It doesn't any more.
    fn stop_waiting(
        &mut self,
        grm: &YaccGrammar<StorageT>,
        max_states: usize,
        number: usize,
    ) -> bool
        requires number { number < length self.old.states.items }
        requires merging { AreMerging StorageT.index grm.now max_states StorageT.limit self.old }
        ensures merging { AreMerging StorageT.index grm.now max_states StorageT.limit self.new }
        ensures turn { EndsTurn StorageT.index grm.now max_states number self.old.states.items self.new.states.items result }
        ensures len { length self.new.states.items ≡ length self.old.states.items }
    {
        let waited = self.states[number].waits;
        self.states[number].waits = false;
        waited
    }

    // Places the kernels to which the state goes. Returns where it goes.
    fn merge_successors(
        &mut self,
        alloc: Global,
        grm: &YaccGrammar<StorageT>,
        sets: &mut Sets,
        max_states: usize,
        number: usize,
    ) -> Result<Transitions, BuildFault>
        requires well_formed { IsWellFormed grm.now }
        requires sets { AreSets grm.now sets.old }
        requires number { number < length self.old.states.items }
        requires merging { AreMerging StorageT.index grm.now max_states StorageT.limit self.old }
        ensures sets { AreSets grm.now sets.new }
        ensures goes_on { OnOk result (GoesOn StorageT.index grm.now max_states StorageT.limit self.old self.new) }
        ensures fault { IfErr result (IsMergeFault grm.now max_states StorageT.limit) }
    {
        let successors = expand(alloc, grm, sets, &self.states[number].kernel)?;
        let rules = self.merge_kernels(alloc, grm, max_states, &successors.rules)?;
        let tokens = self.merge_kernels(alloc, grm, max_states, &successors.tokens)?;
        Ok(Transitions { rules, tokens })
    }

    // Sets the transitions of the state.
    fn set_transitions(
        &mut self,
        grm: &YaccGrammar<StorageT>,
        max_states: usize,
        number: usize,
        transitions: Transitions,
    )
        requires merging { AreMerging StorageT.index grm.now max_states StorageT.limit self.old }
        ensures { GoesOn StorageT.index grm.now max_states StorageT.limit self.old self.new }
    {
        if number < self.states.len() {
            self.states[number].transitions = transitions;
        }
    }

    // The states of the kernels; those of kernels without cores are none.
    fn merge_kernels(
        &mut self,
        alloc: Global,
        grm: &YaccGrammar<StorageT>,
        max_states: usize,
        kernels: &[Vec<CoreItems<StorageT>>],
    ) -> Result<Vec<Option<usize>>, BuildFault>
        requires merging { AreMerging StorageT.index grm.now max_states StorageT.limit self.old }
        requires kernels { AreMadeOf StorageT.index grm.now kernels.now }
        ensures goes_on { OnOk result (GoesOn StorageT.index grm.now max_states StorageT.limit self.old self.new) }
        ensures fault { IfErr result (IsMergeFault grm.now max_states StorageT.limit) }
    {
        let mut row = Vec::with_capacity(alloc, kernels.len())?;
        for kernel in kernels {
            let next = if kernel.is_empty() {
                None
            } else {
                Some(self.merge_kernel(alloc, grm, max_states, kernel)?)
            };
            row.push(next)?;
        }
        Ok(row)
    }

    // The state into which the kernel goes: the first that is weakly compatible with it, or a new one.
    fn merge_kernel(
        &mut self,
        alloc: Global,
        grm: &YaccGrammar<StorageT>,
        max_states: usize,
        kernel: &[CoreItems<StorageT>],
    ) -> Result<usize, BuildFault>
        requires merging { AreMerging StorageT.index grm.now max_states StorageT.limit self.old }
        requires kernel { IsMadeOf StorageT.index grm.now kernel.now }
        ensures goes_on { OnOk result (GoesOn StorageT.index grm.now max_states StorageT.limit self.old self.new) }
        ensures fault { IfErr result (IsMergeFault grm.now max_states StorageT.limit) }
    {
        let first = usize::from(kernel[0].prod);
        match self.find(&self.by_prod[first], kernel) {
            Some(number) => {
                grow(&mut self.states[number], kernel);
                Ok(number)
            }
            None => self.push(alloc, grm, max_states, first, kernel),
        }
    }

    // The first of the numbers whose state is weakly compatible with the kernel.
    fn find(&self, numbers: &[usize], kernel: &[CoreItems<StorageT>]) -> Option<usize>
        ensures low { IfSome result (λ number. number < length self.now.states.items) }
        ensures compatible { IfSome result (IsCompatibleWith StorageT.index self.now kernel.now) }
        ensures none { IfNone result (HasNoCompatibleOf StorageT.index self.now numbers.now kernel.now) }
    {
        for place in 0..numbers.len() {
            let number = numbers[place];
            if self.is_compatible(number, kernel) {
                return Some(number);
            }
        }
        None
    }

    // Whether there is a state with this number whose kernel is weakly compatible with this one.
    fn is_compatible(&self, number: usize, kernel: &[CoreItems<StorageT>]) -> bool
        ensures { IsTrue result ↔ HasCompatibleAt StorageT.index self.now kernel.now number }
    {
        if number >= self.states.len() {
            return false;
        }
        are_weakly_compatible(&self.states[number].kernel, kernel)
    }

    // A new state with this kernel, which begins with a core of the production.
    fn push(
        &mut self,
        alloc: Global,
        grm: &YaccGrammar<StorageT>,
        max_states: usize,
        prod: usize,
        kernel: &[CoreItems<StorageT>],
    ) -> Result<usize, BuildFault>
        requires prod { prod < length self.old.by_prod.items }
        requires begins { BeginsWith StorageT.index kernel.now prod }
        requires merging { AreMerging StorageT.index grm.now max_states StorageT.limit self.old }
        requires kernel { IsMadeOf StorageT.index grm.now kernel.now }
        requires fresh { HasNoCompatible StorageT.index self.old kernel.now }
        ensures goes_on { OnOk result (GoesOn StorageT.index grm.now max_states StorageT.limit self.old self.new) }
        ensures fault { IfErr result (IsMergeFault grm.now max_states StorageT.limit) }
    {
        let number = self.states.len();
        if number >= max_states {
            return Err(BuildFault::TooManyStates);
        }
        if StorageT::from_index(number).is_none() {
            return Err(BuildFault::StorageTooSmall);
        }
        let kernel = copied(alloc, kernel)?;
        self.by_prod[prod].push(number)?;
        self.states.push(MergedState {
            kernel,
            transitions: Transitions {
                rules: Vec::new(alloc),
                tokens: Vec::new(alloc),
            },
            waits: true,
        })?;
        Ok(number)
    }
}

// As many empty lists as `len`.
fn empty_lists(alloc: Global, len: usize) -> Result<Vec<Vec<usize>>, AllocError>
    ensures { IfOk result (λ lists. length lists.items ≡ len) }
{
    let mut lists = Vec::with_capacity(alloc, len)?;
    for _ in 0..len {
        lists.push(Vec::new(alloc))?;
    }
    Ok(lists)
}

// Adds the lookaheads of the kernel to those of the state's kernel. If any of them was new, the state waits.
fn grow<StorageT: StorageIndex>(state: &mut MergedState<StorageT>, kernel: &[CoreItems<StorageT>])
    requires { CanUnite StorageT.index state.old.kernel.items kernel.now }
    ensures kernel { StaysKernel StorageT.index state.old.kernel.items state.new.kernel.items }
    ensures united { UniteKernels StorageT.index state.old.kernel.items kernel.now state.new.kernel.items }
    ensures work { work_of StorageT.index state.new ≤ work_of StorageT.index state.old }
    ensures waits { OnFalse state.new.waits (AreEqualCores StorageT.index state.new.kernel.items state.old.kernel.items) }
{
    if unite(&mut state.kernel, kernel) {
        state.waits = true;
    }
}
