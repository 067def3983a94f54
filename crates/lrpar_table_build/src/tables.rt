//! The state graph and the table of states: of the canonical collection, and of any item sets.
ghost use Rattle.std.specs.Prelude.{◌≡◌, ◌≢◌, ◌<◌, ◌≤◌, IfErr, IfOk, length};
ghost use Rattle.lrpar_table_rows.specs.Graph.{graph_len};
ghost use Rattle.lrpar_table_rows.specs.PlainRows.{sparse_table_of};
ghost use Rattle.lrpar_table_rows.specs.Table.{IsTable};
ghost use Rattle.lrpar_table_build.specs.Built.{AreBuiltBy, HaveStates};
ghost use Rattle.lrpar_table_build.specs.Stored.{AreActionsBySome, AreActionsOf, AreGotos, AreRowsOf, AreStatesOf, AreTablesOf, HasItemsOf, HaveNoAcceptReduce, HaveRows, HaveRowsWithin, HaveValidRows, IsTableFaultOf, IsTableOf, conflicts_of};
ghost use Rattle.lrpar_table_items.specs.declared.fault.BuildFault.TheVariants.{Memory};
ghost use Rattle.lrpar_table_rows.specs.declared.fault.TableFault.{TableFault};

use lrpar_grammar::grammar::YaccGrammar;
use lrpar_grammar::span::{RIdx, StIdx, StorageIndex, TIdx};
use lrpar_table_items::fault::BuildFault;
use lrpar_table_items::item_rows::item_sets;
use lrpar_table_items::item_set::State;
use lrpar_table_items::state_row::make_state_row;
use lrpar_table_items::resolution::{FoundConflicts, ReduceReduce, ShiftReduce};
use lrpar_table_precedence::precedences::Precedences;
use lrpar_table_rows::table::{
    Action, Conflicts, Resolved, SparseRows, StateGraph, StateTable, TableFault,
};
use std::alloc::{AllocError, Global};

/// The entries that a state stores: tokens with actions, ascending.
type ActionRow<StorageT> = Vec<(TIdx<StorageT>, Action<StorageT>)>;

/// The gotos that a state stores: rules with states, ascending.
type GotoRow<StorageT> = Vec<(RIdx<StorageT>, StIdx<StorageT>)>;

/// The item sets of the states, and the table with their actions after conflict resolution by the precedences, with their conflicts, and
/// with those that the precedences resolve.
///
/// It returns `AcceptReduceConflict` with a state that calls for accept and for a reduction, and `Memory` if an allocation fails. It
/// takes time proportional to the number of states times tokens times complete cores.
pub(crate) fn tables<StorageT: StorageIndex>(
    alloc: Global,
    grm: &YaccGrammar<StorageT>,
    precedences: &Precedences,
    states: Vec<State<StorageT>>,
) -> Result<(StateGraph<StorageT>, StateTable<StorageT>), BuildFault>
    requires states { AreStatesOf StorageT.index grm.now states.items }
    requires fit { length states.items ≤ StorageT.limit }
    ensures built { IfOk result (AreBuiltBy grm.now precedences.now) }
    ensures len { IfOk result (HaveStates (length states.items)) }
    ensures refused { IfErr result (IsTableFaultOf StorageT.index grm.now states.items) }
{
    // The proof needs that the grammar is well-formed.
    let _lemma = grm.start_prod();
    graph_and_table(alloc, grm, precedences, states)
}

/// The item sets of any states, canonical or merged, and the table of them, with the actions after conflict resolution by the precedences,
/// with their conflicts, and with those that the precedences resolve. There must be a state, since a table starts in number 0.
///
/// It returns `AcceptReduceConflict` with a state that calls for accept and for a reduction, and `Memory` if an allocation fails. After an
/// `Err` nothing is left of the states. It takes time proportional to the number of states times tokens times complete cores.
pub fn state_tables<StorageT: StorageIndex>(
    alloc: Global,
    grm: &YaccGrammar<StorageT>,
    precedences: &Precedences,
    states: Vec<State<StorageT>>,
) -> Result<(StateGraph<StorageT>, StateTable<StorageT>), BuildFault>
    requires rows { HaveRows StorageT.index grm.now states.items }
    requires some { 0 < length states.items }
    requires fit { length states.items ≤ StorageT.limit }
    ensures len { IfOk result (HaveStates (length states.items)) }
    ensures items { IfOk result (λ built. HasItemsOf StorageT.index grm.now states.items built.0) }
    ensures table { IfOk result (λ built. IsTableOf StorageT.index precedences.now grm.now states.items built.1) }
    ensures none { IfOk result (λ _. HaveNoAcceptReduce StorageT.index grm.now states.items) }
    ensures refused { IfErr result (IsTableFaultOf StorageT.index grm.now states.items) }
{
    graph_and_table(alloc, grm, precedences, states)
}

// The item sets of the states, and the table of them.
#[tactic(auto, using(lrpar_grammar_places::proofs::FaultLemmas::no_value))]
fn graph_and_table<StorageT: StorageIndex>(
    alloc: Global,
    grm: &YaccGrammar<StorageT>,
    precedences: &Precedences,
    states: Vec<State<StorageT>>,
) -> Result<(StateGraph<StorageT>, StateTable<StorageT>), BuildFault>
    requires { HaveRowsWithin StorageT.index StorageT.limit grm.now states.items }
    ensures made { IfOk result (AreTablesOf StorageT.index precedences.now grm.now states.items) }
    ensures refused { IfErr result (IsTableFaultOf StorageT.index grm.now states.items) }
{
    let (actions, conflicts, resolved) = all_actions(alloc, grm, precedences, &states)?;
    let graph = graph_of(alloc, grm, &states)?;
    let rows = sparse_rows(alloc, grm, states, actions, conflicts)?;
    let table = table_of(alloc, rows)?;
    Ok((graph, table.with_resolved(resolved)))
}

// The actions of each state but errors, the conflicts of the states, if any are left, and those that are resolved.
#[tactic(auto, using(lrpar_grammar_places::proofs::FaultLemmas::no_value))]
fn all_actions<StorageT: StorageIndex>(
    alloc: Global,
    grm: &YaccGrammar<StorageT>,
    precedences: &Precedences,
    states: &[State<StorageT>],
) -> Result<
    (
        Vec<ActionRow<StorageT>>,
        Option<Conflicts<StorageT>>,
        Resolved<StorageT>,
    ),
    BuildFault,
>
    requires rows { HaveRows StorageT.index grm.now states.now }
    requires fit { length states.now ≤ StorageT.limit }
    ensures made { IfOk result (AreActionsOf StorageT.index precedences.now grm.now states.now) }
    ensures refused { IfErr result (IsTableFaultOf StorageT.index grm.now states.now) }
{
    let mut found = FoundConflicts::new(alloc);
    let rows = make_action_rows(alloc, grm, precedences, states, &mut found)?;
    let FoundConflicts {
        reduce_reduce,
        shift_reduce,
        resolved,
    } = found;
    Ok((
        rows,
        conflicts_of(reduce_reduce, shift_reduce),
        Resolved::new(resolved),
    ))
}

// The actions of each state but errors. The conflicts of the states are appended to those found.
#[tactic(auto, using(lrpar_grammar_places::proofs::FaultLemmas::no_value))]
fn make_action_rows<StorageT: StorageIndex>(
    alloc: Global,
    grm: &YaccGrammar<StorageT>,
    precedences: &Precedences,
    states: &[State<StorageT>],
    found: &mut FoundConflicts<StorageT>,
) -> Result<Vec<ActionRow<StorageT>>, BuildFault>
    requires rows { HaveRows StorageT.index grm.now states.now }
    requires fit { length states.now ≤ StorageT.limit }
    ensures rows { IfOk result (AreRowsOf StorageT.index precedences.now grm.now states.now found.old found.new) }
    ensures refused { IfErr result (IsTableFaultOf StorageT.index grm.now states.now) }
{
    let mut rows = Vec::with_capacity(alloc, states.len())?;
    for number in 0..states.len() {
        let state = &states[number];
        let sidx = StIdx(StorageT::from_index(number).unwrap());
        let row = make_state_row(
            alloc,
            grm,
            precedences,
            &sidx,
            &state.items,
            &state.shifts,
            found,
        )?;
        rows.push(row)?;
    }
    Ok(rows)
}

// The graph of the items of the states.
fn graph_of<StorageT: StorageIndex>(
    alloc: Global,
    grm: &YaccGrammar<StorageT>,
    states: &[State<StorageT>],
) -> Result<StateGraph<StorageT>, BuildFault>
    requires { length states.now ≤ StorageT.limit }
    ensures len { IfOk result (λ graph. graph_len graph ≡ length states.now) }
    ensures items { IfOk result (HasItemsOf StorageT.index grm.now states.now) }
    ensures refused { IfErr result (λ fault. fault ≡ Memory) }
{
    let sets = item_sets(alloc, grm, states)?;
    match StateGraph::from_sets(sets) {
        Ok(graph) => Ok(graph),
        Err(fault) => Err(out_of_memory(fault)),
    }
}

// The gotos of each state.
#[tactic(auto, using(lrpar_grammar_places::proofs::FaultLemmas::no_value))]
fn rows_of_gotos<StorageT: StorageIndex>(
    alloc: Global,
    states: Vec<State<StorageT>>,
) -> Result<Vec<GotoRow<StorageT>>, AllocError>
    ensures { IfOk result (AreGotos StorageT.index states.items) }
{
    let mut rows = Vec::with_capacity(alloc, states.len())?;
    for state in states {
        rows.push(state.gotos)?;
    }
    Ok(rows)
}

// The conflicts, if there are any.
fn conflicts_of<StorageT: StorageIndex>(
    rr: Vec<ReduceReduce<StorageT>>,
    sr: Vec<ShiftReduce<StorageT>>,
) -> Option<Conflicts<StorageT>>
    ensures { result ≡ conflicts_of StorageT.index rr sr }
{
    if rr.is_empty() && sr.is_empty() {
        None
    } else {
        Some(Conflicts::new(rr, sr))
    }
}

// The rows of the table of the states with these actions and conflicts.
#[tactic(auto, using(lrpar_grammar_places::proofs::FaultLemmas::no_value))]
fn sparse_rows<StorageT: StorageIndex>(
    alloc: Global,
    grm: &YaccGrammar<StorageT>,
    states: Vec<State<StorageT>>,
    actions: Vec<ActionRow<StorageT>>,
    conflicts: Option<Conflicts<StorageT>>,
) -> Result<SparseRows<StorageT>, AllocError>
    requires states { HaveRowsWithin StorageT.index StorageT.limit grm.now states.items }
    requires actions { AreActionsBySome StorageT.index grm.now states.items actions }
    ensures { IfOk result (HaveValidRows StorageT.index StorageT.limit grm.now states.items actions conflicts) }
{
    let len = states.len();
    let gotos = rows_of_gotos(alloc, states)?;
    Ok(SparseRows {
        start: StIdx(StorageT::from_index(0).unwrap()),
        states: len,
        tokens: grm.tokens_len(),
        rules: grm.rules_len(),
        actions,
        gotos,
        conflicts,
    })
}

// The table of rows that are those of a table.
fn table_of<StorageT: StorageIndex>(
    alloc: Global,
    rows: SparseRows<StorageT>,
) -> Result<StateTable<StorageT>, BuildFault>
    requires { IsTable StorageT.limit (sparse_table_of StorageT.index rows) }
    ensures table { IfOk result (λ table. table ≡ sparse_table_of StorageT.index rows) }
    ensures refused { IfErr result (λ fault. fault ≡ Memory) }
{
    match StateTable::from_sparse(alloc, rows) {
        Ok(table) => Ok(table),
        Err(fault) => Err(out_of_memory(fault)),
    }
}

// The fault of rows whose numbers are right: an allocation failed.
fn out_of_memory(fault: TableFault) -> BuildFault
    requires { fault ≢ TableFault.BadIndex }
    ensures { result ≡ Memory }
{
    match fault {
        TableFault::BadIndex => unreachable!(),
        TableFault::Memory => BuildFault::Memory,
    }
}
