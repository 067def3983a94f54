//! The table builder: the canonical collection of LR(1) item sets of a grammar, and its canonical LR(1) table.
ghost use Rattle.std.specs.Prelude.{IfErr, IfOk};
ghost use Rattle.lrpar_table_build.specs.Built.{AreBuilt, AreBuiltBy, HaveAtMost, HaveNoneResolved, IsBuildRefusal};

use crate::tables::tables;
use lrpar_grammar::grammar::YaccGrammar;
use lrpar_grammar::span::StorageIndex;
pub use lrpar_table_items::fault::BuildFault;
use lrpar_table_items::states::states;
pub use lrpar_table_precedence::precedences::Precedences;
use lrpar_table_rows::table::{StateGraph, StateTable};
use std::alloc::Global;

/// The canonical collection of LR(1) item sets of the grammar, at most `max_states`, and the canonical LR(1) table. State 0 is the
/// start state.
///
/// If an item set calls for a shift and a reduction at one token, the table shifts; if it calls for several reductions, the table
/// reduces by the first production. These are the table's shift/reduce and reduce/reduce conflicts, listed by state, token and
/// production. They fit the grammar. There are none exactly if no item set calls for two different actions at one token.
///
/// It returns `AcceptReduceConflict` if an item set calls for accept and for a reduction; its number is that of the item set in the
/// order in which they are built, which no contract fixes. It returns `TooManyStates` if there are more item sets than
/// `max_states`, `StorageTooSmall` if there are more than `StorageT` has numbers, and `Memory` if an allocation fails.
pub fn from_yacc<StorageT: StorageIndex>(
    alloc: Global,
    grm: &YaccGrammar<StorageT>,
    max_states: usize,
) -> Result<(StateGraph<StorageT>, StateTable<StorageT>), BuildFault>
    // The item sets are the canonical collection, and the table has their actions after conflict resolution. It is safe, and its
    // conflicts are theirs and fit.
    ensures built { IfOk result (AreBuilt grm.now) }
    ensures room { IfOk result (HaveAtMost max_states) }
    ensures nothing_resolved { IfOk result HaveNoneResolved }
    // `TooManyStates` and `StorageTooSmall`: there are too many item sets; `AcceptReduceConflict`: one calls for accept and a reduction.
    ensures refused { IfErr result (IsBuildRefusal grm.now max_states StorageT.limit) }
{
    // The proof needs that the grammar is well-formed.
    let _lemma = grm.start_prod();
    from_yacc_with(alloc, grm, &Precedences::none(alloc), max_states)
}

/// The canonical collection of LR(1) item sets of the grammar, at most `max_states`, and the LR(1) table that resolves conflicts by the
/// precedences. State 0 is the start state.
///
/// If an item set calls for a shift and for reductions at one token, the precedences of the token and of the first of the productions
/// decide, if both have one, by yacc's rule: the higher level wins, and at one level the table reduces if it associates to the left,
/// shifts if it associates to the right, and has an error if it doesn't associate. These conflicts are the table's `resolved()`, each
/// with how it was resolved, by state and token. Where the token or the production has no precedence, the table shifts, and the
/// conflict is listed by `conflicts()`. Precedences never decide between reductions: the first production is the one that
/// meets the shift, and each other one makes a reduce/reduce conflict.
///
/// The table is safe, but where a conflict was resolved it isn't complete. With `Precedences::none` it is the table of `from_yacc`. The
/// faults are those of `from_yacc`.
pub fn from_yacc_with<StorageT: StorageIndex>(
    alloc: Global,
    grm: &YaccGrammar<StorageT>,
    precedences: &Precedences,
    max_states: usize,
) -> Result<(StateGraph<StorageT>, StateTable<StorageT>), BuildFault>
    // The item sets are the canonical collection, and the table has their actions after conflict resolution by the precedences. It is
    // safe. Its conflicts are those that the precedences don't resolve, its resolved conflicts are the others, and both fit.
    ensures built { IfOk result (AreBuiltBy grm.now precedences.now) }
    ensures room { IfOk result (HaveAtMost max_states) }
    // As for `from_yacc`.
    ensures refused { IfErr result (IsBuildRefusal grm.now max_states StorageT.limit) }
{
    // The proof needs that the grammar is well-formed.
    let _lemma = grm.start_prod();
    let states = states(alloc, grm, max_states)?;
    tables(alloc, grm, precedences, states)
}
