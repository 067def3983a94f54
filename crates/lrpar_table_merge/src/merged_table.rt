//! The state graph and the table of merged item sets.
ghost use Rattle.std.specs.Prelude.{◌≤◌, IfErr, IfOk, length};
ghost use Rattle.lrpar_table_build.specs.Built.{HaveStates};
ghost use Rattle.lrpar_table_merge.specs.Distinct.{HaveDistinctStates};
ghost use Rattle.lrpar_table_merge.specs.MergedBy.{AreMergedBy, IsTableRefusal};
ghost use Rattle.lrpar_table_merge.specs.StoredStates.{AreStatesOf};

use lrpar_grammar::grammar::YaccGrammar;
use lrpar_grammar::span::StorageIndex;
use lrpar_table_build::tables::state_tables;
use lrpar_table_items::fault::BuildFault;
use lrpar_table_items::item_set::State;
use lrpar_table_precedence::precedences::Precedences;
use lrpar_table_rows::table::{StateGraph, StateTable};
use std::alloc::Global;

/// The item sets of the states, which are merged ones, and the table with their actions after conflict resolution by the precedences, with
/// their conflicts, and with those that the precedences resolve.
///
/// It returns `AcceptReduceConflict` with a state that calls for accept and for a reduction, and `Memory` if an allocation fails. After an
/// `Err` nothing is left of the states. It takes time proportional to the number of states times tokens times complete cores.
pub(crate) fn table_of_merged<StorageT: StorageIndex>(
    alloc: Global,
    grm: &YaccGrammar<StorageT>,
    precedences: &Precedences,
    states: Vec<State<StorageT>>,
) -> Result<(StateGraph<StorageT>, StateTable<StorageT>), BuildFault>
    requires states { AreStatesOf StorageT.index grm.now states }
    requires fit { length states.items ≤ StorageT.limit }
    ensures merged { IfOk result (AreMergedBy grm.now precedences.now) }
    ensures distinct { IfOk result HaveDistinctStates }
    ensures len { IfOk result (HaveStates (length states.items)) }
    ensures refused { IfErr result (IsTableRefusal grm.now) }
{
    let _lemma = grm.start_prod();
    state_tables(alloc, grm, precedences, states)
}
