//! Minimal access strings of the states of a table, fixed in the order of their lengths.
ghost use Rattle.std.specs.Prelude.{◌≡◌, ◌<◌, IfOk, length};
ghost use Rattle.lrpar_table_build.specs.Built.{IsBuilt};
ghost use Rattle.lrpar_table_sentences.specs.Choices.{AreShortest};
ghost use Rattle.lrpar_table_sentences.specs.AccessLens.{AccessesAreRight, AllStepsAreClosed, AreSteps, FewerAreOpen, IsLeastOpenStep, KeepsAt, LeadWithin, OnlyStartIsKept, StayRight, open_step_len};
ghost use Rattle.lrpar_table_sentences.specs.AccessStrings.{AreAccesses};

use crate::back::access_to;
use crate::edges::edges;
use crate::kept::nothing_kept;
use crate::minimal_sentences::lesser;
use crate::shortest::Shortest;
use crate::transitions::{Access, Edge, Step};
use lrpar_grammar::grammar::YaccGrammar;
use lrpar_grammar::span::StorageIndex;
use lrpar_table_rows::table::{StateGraph, StateTable};
use std::alloc::{AllocError, Global};

/// What is kept of each state.
pub(crate) fn find_access_strings<StorageT: StorageIndex>(
    alloc: Global,
    grm: &YaccGrammar<StorageT>,
    sgraph: &StateGraph<StorageT>,
    stable: &StateTable<StorageT>,
    shortest: &Shortest<StorageT>,
) -> Result<Vec<Option<Access<StorageT>>>, AllocError>
    requires built { IsBuilt grm.now sgraph.now stable.now }
    requires shortest { AreShortest grm.now usize.MAX shortest.now }
    ensures { IfOk result (λ accesses. AreAccesses StorageT.index grm.now sgraph.now stable.now accesses.items) }
{
    // The proof needs that the grammar is well-formed and that the table is closed.
    let _lemma = grm.start_prod();
    let _lemma = stable.states_len();
    let edges = edges(alloc, stable, shortest)?;
    find_accesses_by_edges(alloc, stable, shortest, &edges)
}

// What is kept of each state, by the steps of the table.
fn find_accesses_by_edges<StorageT: StorageIndex>(
    alloc: Global,
    stable: &StateTable<StorageT>,
    shortest: &Shortest<StorageT>,
    edges: &[Edge<StorageT>],
) -> Result<Vec<Option<Access<StorageT>>>, AllocError>
    requires edges { AreSteps StorageT.index stable.now shortest.now edges.now }
    ensures right { IfOk result (λ accesses. AccessesAreRight StorageT.index stable.now shortest.now accesses.items) }
    ensures done { IfOk result (λ accesses. AllStepsAreClosed StorageT.index accesses.items edges.now) }
{
    let _lemma = stable.states_len();
    let mut accesses = start_kept(alloc, stable)?;
    'levels: while let Some(len) = least_open(edges, &accesses) {
        keep_least(edges, &mut accesses, len);
    }
    Ok(accesses)
}

// An access string without a step for the start state, and nothing for all others.
fn start_kept<StorageT: StorageIndex>(
    alloc: Global,
    stable: &StateTable<StorageT>,
) -> Result<Vec<Option<Access<StorageT>>>, AllocError>
    ensures { IfOk result (λ accesses. OnlyStartIsKept StorageT.index stable.now accesses.items) }
{
    let states = stable.states_len();
    let mut accesses = nothing_kept(alloc, states)?;
    accesses[usize::from(stable.start_state())] = Some(Access { len: 0, last: None });
    Ok(accesses)
}

// The least length of an access string by a step to a state with nothing kept yet.
fn least_open<StorageT: StorageIndex>(
    edges: &[Edge<StorageT>],
    accesses: &[Option<Access<StorageT>>],
) -> Option<usize>
    ensures { IsLeastOpenStep StorageT.index accesses.now edges.now result }
{
    let mut least = None;
    for edge in edges {
        least = lesser(least, open_len(accesses, edge));
    }
    least
}

// The length of the access string by the step, if nothing is kept yet of the state that it leads to.
fn open_len<StorageT: StorageIndex>(
    accesses: &[Option<Access<StorageT>>],
    edge: &Edge<StorageT>,
) -> Option<usize>
    ensures { result ≡ open_step_len StorageT.index accesses.now edge.now }
{
    match access_to(accesses, edge.next) {
        Some(_) => None,
        None => match access_to(accesses, edge.step.from) {
            Some(access) => Some(edge.len.saturating_add(access.len)),
            None => None,
        },
    }
}

// Keeps each access string that has the length, which is the least one, by a step to a state with nothing kept yet.
fn keep_least<StorageT: StorageIndex>(
    edges: &[Edge<StorageT>],
    accesses: &mut [Option<Access<StorageT>>],
    len: usize,
)
    requires { LeadWithin StorageT.index edges.now accesses.old }
    ensures right { StayRight StorageT.index edges.now accesses.old accesses.new len }
    ensures fewer { FewerAreOpen StorageT.index edges.now accesses.old accesses.new len }
{
    for edge in edges {
        if open_len(accesses, edge) == Some(len) {
            keep(accesses, usize::from(edge.next), len, edge.step);
        }
    }
}

// Keeps an access string of the state.
fn keep<StorageT: StorageIndex>(
    accesses: &mut [Option<Access<StorageT>>],
    state: usize,
    len: usize,
    step: Step<StorageT>,
)
    requires { state < length accesses.old }
    ensures { KeepsAt state len step accesses.old accesses.new }
{
    accesses[state] = Some(Access {
        len,
        last: Some(step),
    });
}
