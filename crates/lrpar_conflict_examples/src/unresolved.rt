//! Counterexamples of the conflicts that precedences leave.
ghost use Rattle.std.specs.Prelude.{◌≡◌, IfErr, IfOk};
ghost use Rattle.lrpar_table_build.specs.Built.{IsBuilt};
ghost use Rattle.lrpar_table_sentences.specs.Reachable.{is_marked};
ghost use Rattle.lrpar_conflict_derivations.specs.Example.{IsFault};
ghost use Rattle.lrpar_conflict_examples.specs.Conflicts.{unmet_of};
ghost use Rattle.lrpar_conflict_examples.specs.ExamplesFit.{LeftFit};
ghost use Rattle.lrpar_conflict_examples.specs.Met.{AreConflictsLeft, ArePartedBy, is_unresolved};

use crate::conflict::ConflictExample;
use crate::conflict_list::{examples_of, table_conflicts};
use crate::met::met_states;
use lrpar_conflict_derivations::examples::ExampleFault;
use lrpar_grammar::grammar::YaccGrammar;
use lrpar_grammar::span::{StIdx, StorageIndex, TIdx};
use lrpar_table_precedence::precedences::Precedences;
use lrpar_table_rows::table::{StateGraph, StateTable};
use lrpar_table_sentences::moves::Move;
use std::alloc::{AllocError, Global};

/// A conflict without a counterexample: no parse meets it, or it comes from merged item sets alone.
#[derive(Clone, Copy, Debug, PartialEq, Eq)]
pub struct UnmetConflict<StorageT> {
    /// The token at which the state has the conflict.
    pub token: TIdx<StorageT>,
    /// The state that has the conflict.
    pub state: StIdx<StorageT>,
    /// The reduction of the conflict's production, or of the first of two.
    pub first: Move<StorageT>,
    /// The shift of the token, or the reduction of the second production.
    pub second: Move<StorageT>,
}

/// The conflicts that precedences leave. Those between two reductions come first, each list in the order of the table.
#[derive(Debug)]
pub struct ConflictsLeft<StorageT: StorageIndex> {
    /// A counterexample of each conflict in a state that a parse can meet.
    pub examples: Vec<ConflictExample<StorageT>>,
    /// The others: precedences take away the last way to their states, as they resolve the shifts of other conflicts.
    pub unmet: Vec<UnmetConflict<StorageT>>,
}

// A drop of its own: code that drops one then has one call to prove.
impl<StorageT: StorageIndex> Drop for ConflictsLeft<StorageT> {
    fn drop(self) {
        let ConflictsLeft { examples, unmet } = self;
        drop(examples);
        drop(unmet);
    }
}

/// Counterexamples of the conflicts that precedences leave. `sgraph` and `stable` are what `from_yacc` builds of the grammar, without the
/// precedences; `from_yacc_with` gives the states the same numbers.
///
/// A conflict is left if it is one between two reductions, or if the token or the production has no precedence. No parse by the table of
/// `from_yacc_with` meets one in a state to which each path of shifts and gotos has a shift that precedences resolve to a reduction or to an
/// error. Such a conflict has no counterexample, and is listed apart.
///
/// `bound` and the faults are those of `conflict_examples`. Takes the time of that call; and time linear in the entries of the table for each
/// sweep over its steps, few in practice. Memory grows with the entries.
pub fn conflict_examples_with<StorageT: StorageIndex>(
    alloc: Global,
    grm: &YaccGrammar<StorageT>,
    precedences: &Precedences,
    sgraph: &StateGraph<StorageT>,
    stable: &StateTable<StorageT>,
    bound: usize,
) -> Result<ConflictsLeft<StorageT>, ExampleFault<StorageT>>
    requires built { IsBuilt grm.now sgraph.now stable.now }
    ensures left { IfOk result (AreConflictsLeft StorageT.index grm.now precedences.now sgraph.now stable.now bound) }
    ensures fit { IfOk result (LeftFit grm.now) }
    ensures refused { IfErr result (IsFault StorageT.index grm.now) }
{
    let marks = met_states(alloc, precedences, stable)?;
    let (met, unmet) = parted(alloc, precedences, stable, &marks)?;
    let Some(_) = stable.conflicts() else {
        let examples = Vec::new(alloc);
        return Ok(ConflictsLeft { examples, unmet });
    };
    let examples = examples_of(alloc, grm, sgraph, stable, &met, bound)?;
    Ok(ConflictsLeft { examples, unmet })
}

// The conflicts that precedences leave: those in states that can be met, and the others.
fn parted<StorageT: StorageIndex>(
    alloc: Global,
    precedences: &Precedences,
    stable: &StateTable<StorageT>,
    marks: &[bool],
) -> Result<(Vec<UnmetConflict<StorageT>>, Vec<UnmetConflict<StorageT>>), AllocError>
    ensures { IfOk result (ArePartedBy StorageT.index precedences.now stable.now marks.now) }
{
    let listed = table_conflicts(alloc, stable)?;
    let mut met = Vec::new(alloc);
    let mut unmet = Vec::new(alloc);
    for conflict in &listed {
        if is_unresolved(precedences, *conflict) {
            if is_met(marks, conflict.state) {
                met.push(*conflict)?;
            } else {
                unmet.push(*conflict)?;
            }
        }
    }
    Ok((met, unmet))
}

// Whether precedences leave the conflict.
fn is_unresolved<StorageT: StorageIndex>(
    precedences: &Precedences,
    conflict: UnmetConflict<StorageT>,
) -> bool
    ensures { result ≡ is_unresolved precedences.now (unmet_of StorageT.index conflict) }
{
    match (conflict.first, conflict.second) {
        (Move::Make(prod), Move::Take(token)) => precedences.resolution(prod, token).is_none(),
        _ => true,
    }
}

// Whether the state is marked.
pub(crate) fn is_met<StorageT: StorageIndex>(marks: &[bool], state: StIdx<StorageT>) -> bool
    ensures { result ≡ is_marked marks.now (StorageT.index state.0) }
{
    match marks.get(usize::from(state)) {
        Some(mark) => *mark,
        None => false,
    }
}
