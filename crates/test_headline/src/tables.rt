//! A table is built of its grammar, and checked before a parse uses it: it is safe, and its chains are within the cap. So a stack makes few
//! reductions under one lookahead.
ghost use Rattle.std.specs.Prelude.{IfErr, IfOk};
ghost use Rattle.lrpar_table_build.specs.Built.{AreBuilt, IsBuildRefusal};
ghost use Rattle.lrpar_table_check.specs.Checked.{HoldsParts, IsChecked, IsRefusedForMemory};
ghost use Rattle.lrpar_table_check.specs.CheckedStacks.{HasStack, IsListSettled, IsTokenOf};
ghost use Rattle.lrpar_table_rows.specs.Safe.{IsSafe};
ghost use Rattle.lrpar_table_stacks.specs.Chain.{AreChainsShort};

use lrpar_grammar::grammar::YaccGrammar;
use lrpar_grammar::span::{StIdx, StorageIndex, TIdx};
use lrpar_table::check::{ParserData, Refused};
use lrpar_table_build::build::{BuildFault, from_yacc};
use lrpar_table_rows::table::{StateGraph, StateTable};
use std::alloc::{AllocError, Global};

/// The item sets and the table of a grammar: the canonical collection, and its actions after conflict resolution. It is refused only for
/// a conflict of accept with a reduction, for too many states, or because memory ran out.
pub fn built_table<StorageT: StorageIndex>(
    alloc: Global,
    grm: &YaccGrammar<StorageT>,
    max_states: usize,
) -> Result<(StateGraph<StorageT>, StateTable<StorageT>), BuildFault>
    ensures built { IfOk result (AreBuilt grm.now) }
    ensures refused { IfErr result (IsBuildRefusal grm.now max_states StorageT.limit) }
{
    from_yacc(alloc, grm, max_states)
}

/// A checked table: it is safe, and no chain makes more reductions than the cap. A table of which both are true is refused only if memory
/// ran out.
pub fn checked_table<StorageT: StorageIndex>(
    alloc: Global,
    grm: YaccGrammar<StorageT>,
    sgraph: StateGraph<StorageT>,
    stable: StateTable<StorageT>,
    cap: u16,
) -> Result<ParserData<StorageT>, Refused<StorageT>>
    ensures made { IfOk result (HoldsParts grm sgraph stable cap) }
    ensures checked { IfOk result IsChecked }
    ensures exact { IsSafe grm sgraph stable → AreChainsShort grm stable cap → IfErr result IsRefusedForMemory }
{
    ParserData::new(alloc, grm, sgraph, stable, cap)
}

/// How many reductions the stack makes under the token: all that there are, and at most the cap for each of its states.
pub fn reductions_under<StorageT: StorageIndex>(
    checked: &ParserData<StorageT>,
    stack: &mut Vec<StIdx<StorageT>>,
    token: TIdx<StorageT>,
) -> Result<u128, AllocError>
    requires stack { HasStack StorageT.index checked.now stack.old }
    requires token { IsTokenOf StorageT.index checked.now token }
    ensures { IfOk result (IsListSettled StorageT.index checked.now token stack.old stack.new) }
{
    checked.settle(stack, token)
}
