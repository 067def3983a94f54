//! The actions of a state at each token, after conflict resolution, and its conflicts.
ghost use Rattle.std.specs.Prelude.{◌<◌, IfErr, IfOk, OnOk};
ghost use Rattle.lrpar_table_items.specs.StoredRows.{AppendsAction, AppendsResolved, AppendsToken, AppendsUnresolved, CallsForBoth, IsAcceptReduceFault, IsFaultAt, IsRefusedFor, IsStateRow, IsStateToResolve};

use crate::complete_items::{accepts, complete_cores, reductions_at};
use crate::cores::CoreItems;
use crate::fault::BuildFault;
use crate::resolution::{
    FoundConflicts, ShiftReduce, push_conflicts, push_shifted, push_unshifted, split_shift,
};
use lrpar_grammar::grammar::YaccGrammar;
use lrpar_grammar::span::{PIdx, StIdx, StorageIndex, TIdx};
use lrpar_table_precedence::precedences::Precedences;
use lrpar_table_rows::table::{Action, ResolvedConflict};
use std::alloc::Global;

/// The actions of the state but errors, tokens ascending, by the precedences. Its conflicts are appended to those found.
///
/// It returns `AcceptReduceConflict` if the start production and another one have complete items with the same lookahead, and no
/// item calls for a shift there; and `Memory` if an allocation fails. After an `Err` some of the conflicts were appended. It takes
/// time proportional to the number of tokens times the number of complete cores.
#[tactic(auto, using(lrpar_grammar_places::proofs::FaultLemmas::no_value))]
pub fn make_state_row<StorageT: StorageIndex>(
    alloc: Global,
    grm: &YaccGrammar<StorageT>,
    precedences: &Precedences,
    state: &StIdx<StorageT>,
    cores: &[CoreItems<StorageT>],
    shifts: &[(TIdx<StorageT>, StIdx<StorageT>)],
    found: &mut FoundConflicts<StorageT>,
) -> Result<Vec<(TIdx<StorageT>, Action<StorageT>)>, BuildFault>
    requires { IsStateToResolve StorageT.index grm.now cores.now shifts.now }
    ensures row { IfOk result (IsStateRow StorageT.index precedences.now grm.now state.now cores.now shifts.now found.old found.new) }
    ensures refused { IfErr result (IsAcceptReduceFault StorageT.index grm.now state.now cores.now shifts.now) }
{
    let start = usize::from(grm.start_prod());
    let complete = complete_cores(alloc, grm, cores)?;
    let mut row = Vec::new(alloc);
    let mut rest = shifts;
    for token in 0..grm.tokens_len() {
        let (shift, left) = split_shift(rest, token);
        rest = left;
        push_token(
            alloc,
            precedences,
            start,
            &complete,
            token,
            shift,
            state,
            &mut row,
            found,
        )?;
    }
    Ok(row)
}

// Appends the action at the token, and the conflicts there to those found. The complete cores are those of the state, and the shift is
// that by the token.
fn push_token<StorageT: StorageIndex>(
    alloc: Global,
    precedences: &Precedences,
    start: usize,
    complete: &[&CoreItems<StorageT>],
    token: usize,
    shift: Option<StIdx<StorageT>>,
    state: &StIdx<StorageT>,
    row: &mut Vec<(TIdx<StorageT>, Action<StorageT>)>,
    found: &mut FoundConflicts<StorageT>,
) -> Result<(), BuildFault>
    requires { token < StorageT.limit }
    ensures done { OnOk result (AppendsToken StorageT.index precedences.now start complete.now shift state.now token row.old row.new found.old found.new) }
    ensures refused { IfErr result (IsFaultAt StorageT.index start complete.now shift state.now token) }
{
    let prods = reductions_at(alloc, start, complete, token)?;
    let accepting = accepts(start, complete, token);
    let tidx = TIdx(StorageT::from_index(token).unwrap());
    push_conflicts(&prods, &tidx, state, &mut found.reduce_reduce)?;
    push_action(
        precedences,
        &prods,
        shift,
        accepting,
        &tidx,
        state,
        row,
        &mut found.shift_reduce,
        &mut found.resolved,
    )
}

// Appends the action at the token, and the shift/reduce conflict, if there is one, to `sr` or to `decided`.
fn push_action<StorageT: StorageIndex>(
    precedences: &Precedences,
    prods: &[PIdx<StorageT>],
    shift: Option<StIdx<StorageT>>,
    accepting: bool,
    tidx: &TIdx<StorageT>,
    state: &StIdx<StorageT>,
    row: &mut Vec<(TIdx<StorageT>, Action<StorageT>)>,
    sr: &mut Vec<ShiftReduce<StorageT>>,
    decided: &mut Vec<ResolvedConflict<StorageT>>,
) -> Result<(), BuildFault>
    ensures row { OnOk result (AppendsAction StorageT.index precedences.now tidx.now shift prods.now accepting row.old row.new) }
    ensures sr { OnOk result (AppendsUnresolved StorageT.index precedences.now state.now tidx.now shift prods.now sr.old sr.new) }
    ensures resolved { OnOk result (AppendsResolved StorageT.index precedences.now state.now tidx.now shift prods.now decided.old decided.new) }
    ensures none { IfOk result (λ _. ¬ (CallsForBoth StorageT.index shift prods.now accepting)) }
    ensures refused { IfErr result (IsRefusedFor StorageT.index state.now shift prods.now accepting) }
{
    match shift {
        Some(next) => {
            push_shifted(precedences, prods, next, tidx, state, row, sr, decided)?;
            Ok(())
        }
        None => push_unshifted(prods, accepting, tidx, state, row),
    }
}
