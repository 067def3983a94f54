//! The states in which a run can stop, in groups of states with the same kernel cores.
ghost use Rattle.std.specs.Prelude.{◌↔◌, IfOk, IsTrue};
ghost use Rattle.lrpar_messages.specs.Groups.{AreGroups, AreInOneGroup, CoversKernel, HasGroup, TellsFirst};

use lrpar_grammar::span::{StIdx, StorageIndex};
use lrpar_table_check::check::ParserData;
use lrpar_table_rows::table::StateGraph;
use lrpar_table_stops::ErrorStates;
use std::alloc::{AllocError, Global};

/// Whether the states have the same kernel cores: productions with a dot that isn't at their start. A state that the graph doesn't have
/// has none.
pub fn have_same_kernel<StorageT: StorageIndex>(
    sgraph: &StateGraph<StorageT>,
    one: StIdx<StorageT>,
    other: StIdx<StorageT>,
) -> bool
    ensures { IsTrue result ↔ AreInOneGroup StorageT.index sgraph.now one other }
{
    has_kernel_of(sgraph, one, other) && has_kernel_of(sgraph, other, one)
}

/// The first state of each group of states with the same kernel cores, of those in which a run can stop at an error; ascending.
///
/// Takes for each such state time linear in the number of groups. `Err`: out of memory.
pub fn error_groups<StorageT: StorageIndex>(
    alloc: Global,
    data: &ParserData<StorageT>,
    stops: &ErrorStates,
) -> Result<Vec<StIdx<StorageT>>, AllocError>
    ensures { IfOk result (AreGroups StorageT.index data.now stops.now) }
{
    let mut firsts = Vec::new(alloc);
    for number in 0..data.sgraph().states_len() {
        let state = StIdx(StorageT::from_index(number).unwrap());
        if is_first(data.sgraph(), stops, &firsts, state) {
            firsts.push(state)?;
        }
    }
    Ok(firsts)
}

// Whether a run can stop in the state, and none of these states has the same kernel cores.
fn is_first<StorageT: StorageIndex>(
    sgraph: &StateGraph<StorageT>,
    stops: &ErrorStates,
    firsts: &[StIdx<StorageT>],
    state: StIdx<StorageT>,
) -> bool
    ensures { TellsFirst StorageT.index sgraph.now stops.now firsts.now state result }
{
    stops.contains(state) && !is_in_group(sgraph, firsts, state)
}

// Whether one of these states has the same kernel cores.
fn is_in_group<StorageT: StorageIndex>(
    sgraph: &StateGraph<StorageT>,
    firsts: &[StIdx<StorageT>],
    state: StIdx<StorageT>,
) -> bool
    ensures { IsTrue result ↔ HasGroup StorageT.index sgraph.now firsts.now state }
{
    for first in firsts {
        if have_same_kernel(sgraph, *first, state) {
            return true;
        }
    }
    false
}

// Whether each kernel core of the one state is one of the other.
fn has_kernel_of<StorageT: StorageIndex>(
    sgraph: &StateGraph<StorageT>,
    one: StIdx<StorageT>,
    other: StIdx<StorageT>,
) -> bool
    ensures { IsTrue result ↔ CoversKernel StorageT.index sgraph.now one other }
{
    if usize::from(one) >= sgraph.states_len() {
        return true;
    }
    for core in sgraph.begun_cores(one) {
        let (prod, dot) = *core;
        if !sgraph.has_core(other, prod, dot) {
            return false;
        }
    }
    true
}
