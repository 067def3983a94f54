//! The table builder with a choice: canonical item sets, or merged ones.
ghost use Rattle.std.specs.Prelude.{◌≤◌, IfErr, IfOk, IfSome, length};
ghost use Rattle.lrpar_grammar.specs.Grammar.{IsWellFormed};
ghost use Rattle.lrpar_table_build.specs.Built.{HaveAtMost};
ghost use Rattle.lrpar_table_merge.specs.Distinct.{HaveDistinctStates};
ghost use Rattle.lrpar_table_merge.specs.MergedBy.{AreMergedBy};
ghost use Rattle.lrpar_table_merge.specs.Minimised.{AreMinimisedBy, AreSafe, IsMergeFault, IsMergingRefusal, IsRefusalBy};
ghost use Rattle.lrpar_table_merge.specs.StoredStates.{AreStatesOf};

use crate::distinct::make_distinct_states;
use crate::held::HeldFault;
use crate::merge::merge;
use crate::merged_table::table_of_merged;
use lrpar_grammar::grammar::YaccGrammar;
use lrpar_grammar::span::StorageIndex;
use lrpar_table_build::build::{BuildFault, Precedences, from_yacc_with};
use lrpar_table_items::item_set::State;
use lrpar_table_items::sets::Sets;
use lrpar_table_rows::table::{StateGraph, StateTable};
use std::alloc::Global;

/// Whether the item sets of a table are merged.
#[derive(Clone, Copy, Debug, PartialEq, Eq)]
pub enum Minimiser {
    /// They aren't: the table is the canonical one, as `from_yacc_with` builds it.
    Canonical,
    /// They are, where their kernels are weakly compatible, as in D. Pager, 'A practical general method for constructing LR(k) parsers',
    /// Acta Informatica 7, 1977. The table is about as small as an LALR(1) one.
    Pager,
}

/// The item sets of the grammar, at most `max_states`, and the LR(1) table that resolves their conflicts by the precedences. State 0 is
/// the start state. With `Minimiser::Canonical` it is what `from_yacc_with` builds.
///
/// With `Minimiser::Pager`, item sets are merged from the start, before any conflict is resolved; the canonical collection isn't made.
/// The merged sets have exactly the items that are propagated from the start item along the transitions of the table. The actions, the
/// conflicts and the resolved conflicts are those of the merged sets, by the rules of `from_yacc_with`. The table is safe and viable,
/// whatever the grammar. Without precedences it is complete exactly if it has no conflicts. If it has none, the canonical table has
/// none. A reduce/reduce conflict may come from the merging alone, if the grammar isn't LR(1).
///
/// The faults are those of `from_yacc_with`. With `Minimiser::Pager`, `TooManyStates` means that merging can make more than `max_states`
/// different kernels, from that of the start item by gotos and by unions, or that there are more canonical item sets. Whether it makes
/// them depends on the order in which sets are merged. It takes time proportional to the number of merged states, times how often
/// lookaheads are added to one, times the closure of an item set. After an `Err` nothing is left.
pub fn from_yacc_by<StorageT: StorageIndex>(
    alloc: Global,
    grm: &YaccGrammar<StorageT>,
    precedences: &Precedences,
    minimiser: Minimiser,
    max_states: usize,
) -> Result<(StateGraph<StorageT>, StateTable<StorageT>), BuildFault>
    // Canonical item sets or merged ones, and a table with their actions after conflict resolution.
    ensures built { IfOk result (AreMinimisedBy minimiser grm.now precedences.now) }
    ensures distinct { IfOk result HaveDistinctStates }
    ensures safe { IfOk result (AreSafe grm.now) }
    ensures room { IfOk result (HaveAtMost max_states) }
    // As for `from_yacc`; `AcceptReduceConflict`: a merged set calls for accept and a reduction; with `Minimiser::Pager`, too many states
    // may be kernels that merging can make.
    ensures refused { IfErr result (IsRefusalBy minimiser grm.now max_states StorageT.limit) }
{
    match minimiser {
        Minimiser::Canonical => from_yacc_with(alloc, grm, precedences, max_states),
        Minimiser::Pager => merged_table(alloc, grm, precedences, max_states),
    }
}

// Merged item sets and their table. If the merging made states that its transitions don't fit, which it never should, the canonical ones
// take their place: these are merged ones, too.
fn merged_table<StorageT: StorageIndex>(
    alloc: Global,
    grm: &YaccGrammar<StorageT>,
    precedences: &Precedences,
    max_states: usize,
) -> Result<(StateGraph<StorageT>, StateTable<StorageT>), BuildFault>
    ensures built { IfOk result (AreMergedBy grm.now precedences.now) }
    ensures distinct { IfOk result HaveDistinctStates }
    ensures room { IfOk result (HaveAtMost max_states) }
    ensures well_formed { IsWellFormed grm.now }
    ensures refused { IfErr result (IsMergingRefusal grm.now max_states StorageT.limit) }
{
    match states_of(alloc, grm, max_states)? {
        Some(states) => table_of_merged(alloc, grm, precedences, states),
        None => from_yacc_with(alloc, grm, precedences, max_states),
    }
}

// The merged states, if the transitions that the merging made fit their kernels.
fn states_of<StorageT: StorageIndex>(
    alloc: Global,
    grm: &YaccGrammar<StorageT>,
    max_states: usize,
) -> Result<Option<Vec<State<StorageT>>>, BuildFault>
    ensures states { IfOk result (λ states. IfSome states (AreStatesOf StorageT.index grm.now)) }
    ensures room { IfOk result (λ states. IfSome states (λ states. length states.items ≤ max_states)) }
    ensures fits { IfOk result (λ states. IfSome states (λ states. length states.items ≤ StorageT.limit)) }
    ensures well_formed { IsWellFormed grm.now }
    ensures fault { IfErr result (IsMergeFault grm.now max_states StorageT.limit) }
{
    let _lemma = grm.start_prod();
    let mut sets = Sets::new(alloc, grm)?;
    let merged = merge(alloc, grm, &mut sets, max_states)?;
    match make_distinct_states(alloc, grm, &mut sets, merged) {
        Ok(states) => Ok(Some(states)),
        Err(HeldFault::Misfit) => Ok(None),
        Err(HeldFault::Memory) => Err(BuildFault::Memory),
    }
}
