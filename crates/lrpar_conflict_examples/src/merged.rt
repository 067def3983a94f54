//! Counterexamples of the conflicts of a table with merged item sets.
ghost use Rattle.std.specs.Prelude.{◌≡◌, IfErr, IfOk, IsPermutation, OnOk};
ghost use Rattle.lrpar_table_sentences.specs.Moves.{move_of};
ghost use Rattle.lrpar_conflict_examples.specs.Conflicts.{table_conflicts, unmet_of};
ghost use Rattle.lrpar_conflict_examples.specs.ExamplesFit.{MergedFit};
ghost use Rattle.lrpar_conflict_examples.specs.Merged.{AddsConflict, AddsExample, AreSortedBy, HasRoom, IsCanonicalOf, IsComparedTo, IsDealt, IsFirstOf, IsSetApart, KeepsExamples, MergedSearched, SaysWhetherLies, are_alike, conflicts_of, same_move};
ghost use Rattle.lrpar_conflict_examples.specs.NoExamples.{IsReason};

use crate::conflict::ConflictExample;
use crate::conflict_list::{example_of, table_conflicts};
use crate::met::met_states;
use crate::paired::Pairs;
use crate::unresolved::{UnmetConflict, is_met};
use lrpar_conflict_derivations::examples::{ExampleFault, Examples};
use lrpar_grammar::grammar::YaccGrammar;
use lrpar_grammar::span::{RIdx, StIdx, StorageIndex};
use lrpar_table_build::build::{BuildFault, from_yacc};
use lrpar_table_precedence::precedences::Precedences;
use lrpar_table_rows::table::{StateGraph, StateTable};
use lrpar_table_sentences::moves::Move;
use std::alloc::{AllocError, Global};
use thiserror::Error;

/// Why there are no counterexamples of a table's conflicts.
#[derive(Clone, Copy, Debug, PartialEq, Eq, Error)]
pub enum NoExamples<StorageT: StorageIndex> {
    /// The grammar reaches this rule from its start, and it derives no text.
    #[error("rule {at} derives no text", at = .0.0.to_index())]
    Unproductive(RIdx<StorageT>),
    /// The canonical table, in which they are looked for, can't be built.
    #[error("no canonical table: {0}")]
    Unbuilt(BuildFault),
    /// An allocation failed.
    #[error("out of memory")]
    Memory,
}

impl<StorageT: StorageIndex> From<AllocError> for NoExamples<StorageT> {
    ghost use Rattle.lrpar_conflict_examples.specs.declared.merged.NoExamples.TheVariants.{Memory};

    ghost from_gives = { λ _ fault. fault ≡ Memory };

    fn from(_: AllocError) -> NoExamples<StorageT> {
        NoExamples::Memory
    }
}

impl<StorageT: StorageIndex> From<BuildFault> for NoExamples<StorageT> {
    ghost use Rattle.lrpar_conflict_examples.specs.NoExamples.{of_build};

    ghost from_gives = { λ e fault. fault ≡ of_build e };

    fn from(fault: BuildFault) -> NoExamples<StorageT> {
        match fault {
            BuildFault::Memory => NoExamples::Memory,
            BuildFault::TooManyStates => NoExamples::Unbuilt(BuildFault::TooManyStates),
            BuildFault::StorageTooSmall => NoExamples::Unbuilt(BuildFault::StorageTooSmall),
            BuildFault::AcceptReduceConflict(set) => {
                NoExamples::Unbuilt(BuildFault::AcceptReduceConflict(set))
            }
        }
    }
}

impl<StorageT: StorageIndex> From<ExampleFault<StorageT>> for NoExamples<StorageT> {
    ghost use Rattle.lrpar_conflict_examples.specs.NoExamples.{of_example};

    ghost from_gives = { λ e fault. fault ≡ of_example e };

    fn from(fault: ExampleFault<StorageT>) -> NoExamples<StorageT> {
        match fault {
            ExampleFault::Unproductive(rule) => NoExamples::Unproductive(rule),
            ExampleFault::Memory => NoExamples::Memory,
        }
    }
}

/// The conflicts of a table with merged item sets. In each list those between two reductions come first, both in the order of the table.
#[derive(Debug)]
pub struct MergedConflicts<StorageT: StorageIndex> {
    /// Conflicts with a counterexample. It is one of a canonical item set that is within the merged one.
    pub examples: Vec<ConflictExample<StorageT>>,
    /// Conflicts in states that no parse meets: precedences take away each way to them.
    pub unmet: Vec<UnmetConflict<StorageT>>,
    /// The others: they come from the merging alone, and no canonical item set that a parse can meet has them.
    pub merged: Vec<UnmetConflict<StorageT>>,
}

// A drop of its own: code that drops one then has one call to prove.
impl<StorageT: StorageIndex> Drop for MergedConflicts<StorageT> {
    fn drop(self) {
        let MergedConflicts {
            examples,
            unmet,
            merged,
        } = self;
        drop(examples);
        drop(unmet);
        drop(merged);
    }
}

// The canonical table of a grammar, and what counterexamples of its conflicts need.
struct Canonical<StorageT: StorageIndex> {
    sgraph: StateGraph<StorageT>,
    stable: StateTable<StorageT>,
    shared: Examples<StorageT>,
    // Its conflicts.
    listed: Vec<UnmetConflict<StorageT>>,
    // For each of its states whether a parse can meet it.
    marks: Vec<bool>,
    // Its states and those of the table with merged item sets.
    pairs: Pairs,
}

// A drop of its own: code that drops one then has one call to prove.
impl<StorageT: StorageIndex> Drop for Canonical<StorageT> {
    fn drop(self) {
        let Canonical {
            sgraph,
            stable,
            shared,
            listed,
            marks,
            pairs,
        } = self;
        drop(sgraph);
        drop(stable);
        drop(shared);
        drop(listed);
        drop(marks);
        drop(pairs);
    }
}

/// Counterexamples of the conflicts of a table of the grammar that was built with merged item sets and with these precedences.
///
/// They are looked for in the canonical table, which is built without the precedences, with at most `max_states` states. A canonical conflict
/// lies in one of `stable` if it has the same token and the same two moves, if a parse can meet its state, and if a path of shifts and gotos
/// leads to its state that leads to the other's state in `stable`. A conflict has the counterexample of the first canonical conflict that
/// lies in it. The others are listed apart: as unmet if no path leads to their state, otherwise as conflicts of the merging. If there are no
/// conflicts, nothing is built.
///
/// `bound` is that of `conflict_examples`. `Unbuilt` says, as `from_yacc`, why there is no canonical table; `Unproductive` names, as in
/// `Examples::new`, the first rule that the grammar reaches from its start and that derives no text; `Memory` says that an allocation
/// failed. Takes the time and the memory of the canonical table, and the time of a counterexample for each conflict.
pub fn conflict_examples_by<StorageT: StorageIndex>(
    alloc: Global,
    grm: &YaccGrammar<StorageT>,
    precedences: &Precedences,
    stable: &StateTable<StorageT>,
    max_states: usize,
    bound: usize,
) -> Result<MergedConflicts<StorageT>, NoExamples<StorageT>>
    ensures fit { IfOk result (MergedFit grm.now) }
    ensures searched { IfOk result (MergedSearched bound) }
    // Each conflict of the table is in one of the three lists, as often as the table lists it, and they have no others.
    ensures all { IfOk result (λ found. IsPermutation (table_conflicts stable.now) (conflicts_of StorageT.index found)) }
    // It is with an example if and only if a canonical conflict lies in it: that of the first one. It is unmet if and only if no path leads
    // to its state.
    ensures sorted { IfOk result (AreSortedBy StorageT.index grm.now precedences.now stable.now max_states bound) }
    // A rule is unproductive, or the canonical table can't be built.
    ensures refused { IfErr result (IsReason StorageT.index grm.now max_states StorageT.limit) }
{
    let mut found = MergedConflicts {
        examples: Vec::new(alloc),
        unmet: Vec::new(alloc),
        merged: Vec::new(alloc),
    };
    let Some(_) = stable.conflicts() else {
        return Ok(found);
    };
    let canonical = Canonical::new(alloc, grm, precedences, stable, max_states)?;
    let listed = table_conflicts(alloc, stable)?;
    for conflict in &listed {
        push(alloc, grm, &canonical, *conflict, bound, &mut found)?;
    }
    Ok(found)
}

impl<StorageT: StorageIndex> Canonical<StorageT> {
    // The canonical table of the grammar, and the pairs of its states with those of the other table.
    fn new(
        alloc: Global,
        grm: &YaccGrammar<StorageT>,
        precedences: &Precedences,
        merged: &StateTable<StorageT>,
        max_states: usize,
    ) -> Result<Self, NoExamples<StorageT>>
        ensures canonical { IfOk result (IsCanonicalOf StorageT.index grm.now usize.MAX) }
        ensures room { IfOk result (HasRoom max_states) }
        ensures compared { IfOk result (IsComparedTo precedences.now merged.now) }
        ensures refused { IfErr result (IsReason StorageT.index grm.now max_states StorageT.limit) }
    {
        let (sgraph, stable) = from_yacc(alloc, grm, max_states)?;
        let shared = Examples::new(alloc, grm, &sgraph, &stable)?;
        let listed = table_conflicts(alloc, &stable)?;
        let marks = met_states(alloc, precedences, &stable)?;
        let pairs = Pairs::new(alloc, &stable, merged)?;
        Ok(Canonical {
            sgraph,
            stable,
            shared,
            listed,
            marks,
            pairs,
        })
    }

    // Whether a canonical conflict lies in one of the other table: at the same token, with the same moves, in a state that a parse can meet, and to
    // which a path leads that leads to the other's state.
    fn lies_in(&self, own: UnmetConflict<StorageT>, conflict: UnmetConflict<StorageT>) -> bool
        ensures { SaysWhetherLies StorageT.index self.now conflict own result }
    {
        let (state, other) = (usize::from(own.state), usize::from(conflict.state));
        are_alike(own, conflict)
            && is_met(&self.marks, own.state)
            && self.pairs.are_paired(state, other)
    }

    // The first canonical conflict that lies in one of the other table.
    fn first_in(&self, conflict: UnmetConflict<StorageT>) -> Option<UnmetConflict<StorageT>>
        ensures { IsFirstOf StorageT.index self.now conflict result }
    {
        for own in &self.listed {
            if self.lies_in(*own, conflict) {
                return Some(*own);
            }
        }
        None
    }
}

// Whether two conflicts are at the same token, with the same moves.
fn are_alike<StorageT: StorageIndex>(
    one: UnmetConflict<StorageT>,
    other: UnmetConflict<StorageT>,
) -> bool
    ensures { result ≡ are_alike (unmet_of StorageT.index one) (unmet_of StorageT.index other) }
{
    usize::from(one.token) == usize::from(other.token)
        && are_same(one.first, other.first)
        && are_same(one.second, other.second)
}

// Whether two moves are the same.
fn are_same<StorageT: StorageIndex>(one: Move<StorageT>, other: Move<StorageT>) -> bool
    ensures { result ≡ same_move (move_of StorageT.index one) (move_of StorageT.index other) }
{
    match one {
        Move::Take(own) => match other {
            Move::Take(token) => usize::from(own) == usize::from(token),
            Move::Make(_) => false,
        },
        Move::Make(own) => match other {
            Move::Take(_) => false,
            Move::Make(prod) => usize::from(own) == usize::from(prod),
        },
    }
}

// Adds a conflict to its list.
fn push<StorageT: StorageIndex>(
    alloc: Global,
    grm: &YaccGrammar<StorageT>,
    canonical: &Canonical<StorageT>,
    conflict: UnmetConflict<StorageT>,
    bound: usize,
    found: &mut MergedConflicts<StorageT>,
) -> Result<(), AllocError>
    requires canonical { IsCanonicalOf StorageT.index grm.now usize.MAX canonical.now }
    requires fit { MergedFit grm.now found.old }
    ensures fit { OnOk result (MergedFit grm.now found.new) }
    ensures all { OnOk result (AddsConflict StorageT.index (unmet_of StorageT.index conflict) found.old found.new) }
    ensures dealt { OnOk result (IsDealt StorageT.index grm.now canonical.now bound conflict found.old found.new) }
{
    match canonical.first_in(conflict) {
        Some(own) => {
            let (sgraph, stable) = (&canonical.sgraph, &canonical.stable);
            let shared = &canonical.shared;
            let example = example_of(alloc, grm, sgraph, stable, shared, own, bound)?;
            push_example(found, ConflictExample::new(conflict, example))
        }
        None => push_apart(found, canonical, conflict),
    }
}

// Adds a conflict with its counterexample.
fn push_example<StorageT: StorageIndex>(
    found: &mut MergedConflicts<StorageT>,
    example: ConflictExample<StorageT>,
) -> Result<(), AllocError>
    ensures examples { OnOk result (AddsExample example found.old found.new) }
    ensures all { OnOk result (AddsConflict StorageT.index example.conflict found.old found.new) }
{
    found.examples.push(example)?;
    Ok(())
}

// Adds a conflict without one: to those that no parse meets, if its state is in no pair, otherwise to those of the merging.
fn push_apart<StorageT: StorageIndex>(
    found: &mut MergedConflicts<StorageT>,
    canonical: &Canonical<StorageT>,
    conflict: UnmetConflict<StorageT>,
) -> Result<(), AllocError>
    ensures kept { OnOk result (KeepsExamples found.old found.new) }
    ensures all { OnOk result (AddsConflict StorageT.index (unmet_of StorageT.index conflict) found.old found.new) }
    ensures apart { OnOk result (IsSetApart canonical.now conflict (StorageT.index conflict.state.0) found.old found.new) }
{
    if canonical.pairs.is_paired(usize::from(conflict.state)) {
        found.merged.push(conflict)?;
    } else {
        found.unmet.push(conflict)?;
    }
    Ok(())
}
