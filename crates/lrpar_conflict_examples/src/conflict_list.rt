//! Counterexamples of all conflicts of a table.
ghost use Rattle.std.specs.Prelude.{IfErr, IfOk};
ghost use Rattle.lrpar_table_build.specs.Built.{IsBuilt};
ghost use Rattle.lrpar_conflict_derivations.specs.Example.{IsFault};
ghost use Rattle.lrpar_conflict_examples.specs.Conflicts.{AllSearched, AreAllConflicts, HasExamples, HasExamplesOf, IsCounterexample, IsReady, ListsConflicts, ListsConflict, unmet_of};
ghost use Rattle.lrpar_conflict_examples.specs.ExamplesFit.{AllFit};

use crate::conflict::ConflictExample;
use crate::unresolved::UnmetConflict;
use lrpar_conflict_derivations::examples::{Example, ExampleFault, Examples};
use lrpar_grammar::grammar::YaccGrammar;
use lrpar_grammar::span::StorageIndex;
use lrpar_table_rows::table::{StateGraph, StateTable};
use lrpar_table_sentences::moves::Move;
use std::alloc::{AllocError, Global};

/// A counterexample of each conflict of a table that was built of the grammar: first those of reduce/reduce conflicts, then those of
/// shift/reduce conflicts, each in the order in which the table lists them. A table without conflicts has none.
///
/// `bound` is that of `Examples::of_reduce_reduce`: the bound of the search for a unifying counterexample, for each conflict. With 0 there
/// is no search; with 1,000 it takes less time than the table took, in the grammars that were measured. Each counterexample keeps its
/// bound. `Unproductive` names, as in `Examples::new`, the first rule that the grammar reaches from its start and that derives no text;
/// `Memory` says that an allocation failed.
pub fn conflict_examples<StorageT: StorageIndex>(
    alloc: Global,
    grm: &YaccGrammar<StorageT>,
    sgraph: &StateGraph<StorageT>,
    stable: &StateTable<StorageT>,
    bound: usize,
) -> Result<Vec<ConflictExample<StorageT>>, ExampleFault<StorageT>>
    requires built { IsBuilt grm.now sgraph.now stable.now }
    ensures examples { IfOk result (HasExamplesOf grm.now sgraph.now stable.now bound) }
    ensures searched { IfOk result (AllSearched bound) }
    ensures fit { IfOk result (AllFit grm.now) }
    ensures refused { IfErr result (IsFault StorageT.index grm.now) }
{
    let Some(_) = stable.conflicts() else {
        return Ok(Vec::new(alloc));
    };
    let listed = table_conflicts(alloc, stable)?;
    examples_of(alloc, grm, sgraph, stable, &listed, bound)
}

// The conflicts of a table, those between two reductions first.
pub(crate) fn table_conflicts<StorageT: StorageIndex>(
    alloc: Global,
    stable: &StateTable<StorageT>,
) -> Result<Vec<UnmetConflict<StorageT>>, AllocError>
    ensures { IfOk result (AreAllConflicts StorageT.index stable.now) }
{
    let mut listed = Vec::new(alloc);
    let Some(conflicts) = stable.conflicts() else {
        return Ok(listed);
    };
    'reductions: for conflict in conflicts.rr_conflicts() {
        let (token, first, second, state) = *conflict;
        listed.push(UnmetConflict {
            token,
            state,
            first: Move::Make(first),
            second: Move::Make(second),
        })?;
    }
    'shifts: for conflict in conflicts.sr_conflicts() {
        let (token, prod, state) = *conflict;
        listed.push(UnmetConflict {
            token,
            state,
            first: Move::Make(prod),
            second: Move::Take(token),
        })?;
    }
    Ok(listed)
}

// A counterexample of each of these conflicts of the table.
pub(crate) fn examples_of<StorageT: StorageIndex>(
    alloc: Global,
    grm: &YaccGrammar<StorageT>,
    sgraph: &StateGraph<StorageT>,
    stable: &StateTable<StorageT>,
    conflicts: &[UnmetConflict<StorageT>],
    bound: usize,
) -> Result<Vec<ConflictExample<StorageT>>, ExampleFault<StorageT>>
    requires built { IsBuilt grm.now sgraph.now stable.now }
    requires listed { ListsConflicts StorageT.index stable.now conflicts.now }
    ensures examples { IfOk result (HasExamples StorageT.index grm.now sgraph.now bound conflicts.now) }
    ensures fit { IfOk result (AllFit grm.now) }
    ensures refused { IfErr result (IsFault StorageT.index grm.now) }
{
    let shared = Examples::new(alloc, grm, sgraph, stable)?;
    let examples = each_example(alloc, grm, sgraph, stable, &shared, conflicts, bound)?;
    Ok(examples)
}

// A counterexample of each of these conflicts, by what all of them share.
fn each_example<StorageT: StorageIndex>(
    alloc: Global,
    grm: &YaccGrammar<StorageT>,
    sgraph: &StateGraph<StorageT>,
    stable: &StateTable<StorageT>,
    shared: &Examples<StorageT>,
    conflicts: &[UnmetConflict<StorageT>],
    bound: usize,
) -> Result<Vec<ConflictExample<StorageT>>, AllocError>
    requires ready { IsReady grm.now sgraph.now stable.now usize.MAX shared.now }
    requires listed { ListsConflicts StorageT.index stable.now conflicts.now }
    ensures { IfOk result (HasExamples StorageT.index grm.now sgraph.now bound conflicts.now) }
{
    let mut examples = Vec::new(alloc);
    for conflict in conflicts {
        let example = example_of(alloc, grm, sgraph, stable, shared, *conflict, bound)?;
        examples.push(ConflictExample::new(*conflict, example))?;
    }
    Ok(examples)
}

// A counterexample of a conflict of the table.
pub(crate) fn example_of<StorageT: StorageIndex>(
    alloc: Global,
    grm: &YaccGrammar<StorageT>,
    sgraph: &StateGraph<StorageT>,
    stable: &StateTable<StorageT>,
    shared: &Examples<StorageT>,
    conflict: UnmetConflict<StorageT>,
    bound: usize,
) -> Result<Example<StorageT>, AllocError>
    requires ready { IsReady grm.now sgraph.now stable.now usize.MAX shared.now }
    requires listed { ListsConflict StorageT.index stable.now conflict }
    ensures { IfOk result (IsCounterexample grm.now sgraph.now bound (unmet_of StorageT.index conflict)) }
{
    let (token, state) = (conflict.token, conflict.state);
    match (conflict.first, conflict.second) {
        (Move::Make(first), Move::Make(second)) => {
            let own = (token, first, second, state);
            shared.of_reduce_reduce(alloc, grm, sgraph, stable, &own, bound)
        }
        (Move::Make(prod), Move::Take(_)) => {
            let own = (token, prod, state);
            shared.of_shift_reduce(alloc, grm, sgraph, stable, &own, bound)
        }
        (Move::Take(_), _) => unreachable!(),
    }
}
