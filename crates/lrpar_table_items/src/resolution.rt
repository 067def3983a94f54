//! Conflict resolution: the action of a state at a token, from the actions that its items call for, and the conflicts among these.
ghost use Rattle.std.specs.Prelude.{◌+◌, ◌∷◌, IfErr, IfOk, OnOk, Some, None};
ghost use Rattle.lrpar_table_items.specs.StoredRows.{AppendsChosen, AppendsConflicts, AppendsResolved, AppendsShifted, AppendsUnresolved, AppendsUnshifted, CallsForBoth, HasLaterShifts, HasNoConflicts, IsRefusedFor, IsShiftAt, ShiftsAscendFrom};

use crate::fault::BuildFault;
use lrpar_grammar::span::{PIdx, StIdx, StorageIndex, TIdx};
use lrpar_table_precedence::precedences::{Precedences, Resolution};
use lrpar_table_rows::table::{Action, ResolvedConflict};
use std::alloc::{AllocError, Global};

/// A reduce/reduce conflict: the token, the two productions and the state.
pub type ReduceReduce<StorageT> = (
    TIdx<StorageT>,
    PIdx<StorageT>,
    PIdx<StorageT>,
    StIdx<StorageT>,
);

/// A shift/reduce conflict: the token, the production and the state.
pub type ShiftReduce<StorageT> = (TIdx<StorageT>, PIdx<StorageT>, StIdx<StorageT>);

/// The conflicts of states that were found so far: the reduce/reduce conflicts, the shift/reduce conflicts that the precedences don't
/// resolve, and those that they resolve.
#[derive(Drop)]
pub struct FoundConflicts<StorageT> {
    pub reduce_reduce: Vec<ReduceReduce<StorageT>>,
    pub shift_reduce: Vec<ShiftReduce<StorageT>>,
    pub resolved: Vec<ResolvedConflict<StorageT>>,
}

impl<StorageT: StorageIndex> FoundConflicts<StorageT> {
    /// No conflicts.
    pub fn new(alloc: Global) -> Self
        ensures { HasNoConflicts result }
    {
        FoundConflicts {
            reduce_reduce: Vec::new(alloc),
            shift_reduce: Vec::new(alloc),
            resolved: Vec::new(alloc),
        }
    }
}

/// Appends a reduce/reduce conflict with the first of the productions for each later one. An `Err` means that an allocation failed;
/// after it, some may have been appended.
pub fn push_conflicts<StorageT: StorageIndex>(
    prods: &[PIdx<StorageT>],
    tidx: &TIdx<StorageT>,
    state: &StIdx<StorageT>,
    rr: &mut Vec<ReduceReduce<StorageT>>,
) -> Result<(), AllocError>
    ensures { OnOk result (AppendsConflicts StorageT.index state.now tidx.now prods.now rr.old rr.new) }
{
    match prods.split_first() {
        Some((least, later)) => push_later(least, later, tidx, state, rr),
        None => Ok(()),
    }
}

// Appends a reduce/reduce conflict with the least production for each later one.
fn push_later<StorageT: StorageIndex>(
    least: &PIdx<StorageT>,
    later: &[PIdx<StorageT>],
    tidx: &TIdx<StorageT>,
    state: &StIdx<StorageT>,
    rr: &mut Vec<ReduceReduce<StorageT>>,
) -> Result<(), AllocError>
    ensures { OnOk result (AppendsConflicts StorageT.index state.now tidx.now (least.now ∷ later.now) rr.old rr.new) }
{
    for prod in later {
        rr.push((*tidx, *least, *prod, *state))?;
    }
    Ok(())
}

/// The state of the first shift and the other shifts, if that shift is by the token; otherwise no state, and all shifts.
pub fn split_shift<StorageT: StorageIndex>(
    shifts: &[(TIdx<StorageT>, StIdx<StorageT>)],
    token: usize,
) -> (
    Option<StIdx<StorageT>>,
    &[(TIdx<StorageT>, StIdx<StorageT>)],
)
    requires { ShiftsAscendFrom StorageT.index token shifts.now }
    ensures shift { IsShiftAt StorageT.index shifts.now token result.0 }
    ensures rest { ShiftsAscendFrom StorageT.index (token + 1) result.1.now }
    ensures later { HasLaterShifts StorageT.index token shifts.now result.1.now }
{
    match shifts.split_first() {
        Some((shift, rest)) => {
            if usize::from(shift.0) == token {
                (Some(shift.1), rest)
            } else {
                (None, shifts)
            }
        }
        None => (None, shifts),
    }
}

/// Appends the action at the token if there is a shift: what the precedences decide between the shift and the reduction by the first
/// production, and the shift, if they decide nothing or there is no production. If there is one, the shift/reduce conflict is appended
/// to `sr`, if it wasn't resolved, and otherwise to `decided`. An `Err` means that an allocation failed; after it, some may have been
/// appended.
pub fn push_shifted<StorageT: StorageIndex>(
    precedences: &Precedences,
    prods: &[PIdx<StorageT>],
    next: StIdx<StorageT>,
    tidx: &TIdx<StorageT>,
    state: &StIdx<StorageT>,
    row: &mut Vec<(TIdx<StorageT>, Action<StorageT>)>,
    sr: &mut Vec<ShiftReduce<StorageT>>,
    decided: &mut Vec<ResolvedConflict<StorageT>>,
) -> Result<(), AllocError>
    ensures row { OnOk result (AppendsShifted StorageT.index precedences.now tidx.now next prods.now row.old row.new) }
    ensures sr { OnOk result (AppendsUnresolved StorageT.index precedences.now state.now tidx.now (Some next) prods.now sr.old sr.new) }
    ensures resolved { OnOk result (AppendsResolved StorageT.index precedences.now state.now tidx.now (Some next) prods.now decided.old decided.new) }
{
    match prods.split_first() {
        Some((prod, _)) => {
            let by = precedences.resolution(*prod, *tidx);
            push_chosen(by, next, prod, tidx, row)?;
            match by {
                Some(by) => decided.push((*tidx, *prod, *state, by))?,
                None => sr.push((*tidx, *prod, *state))?,
            }
            Ok(())
        }
        None => {
            row.push((*tidx, Action::Shift(next)))?;
            Ok(())
        }
    }
}

// Appends the action that is chosen between a shift and a reduction, unless it is an error.
fn push_chosen<StorageT: StorageIndex>(
    by: Option<Resolution>,
    next: StIdx<StorageT>,
    prod: &PIdx<StorageT>,
    tidx: &TIdx<StorageT>,
    row: &mut Vec<(TIdx<StorageT>, Action<StorageT>)>,
) -> Result<(), AllocError>
    ensures { OnOk result (AppendsChosen StorageT.index tidx.now by next prod.now row.old row.new) }
{
    match by {
        None | Some(Resolution::Shift) => row.push((*tidx, Action::Shift(next)))?,
        Some(Resolution::Reduce) => row.push((*tidx, Action::Reduce(*prod)))?,
        Some(Resolution::Error) => {}
    }
    Ok(())
}

/// Appends the action at the token if there is no shift: the reduction by the first production, or accept. It returns
/// `AcceptReduceConflict` if the items call for both, and `Memory` if an allocation fails; after an `Err` nothing was appended.
pub fn push_unshifted<StorageT: StorageIndex>(
    prods: &[PIdx<StorageT>],
    accepting: bool,
    tidx: &TIdx<StorageT>,
    state: &StIdx<StorageT>,
    row: &mut Vec<(TIdx<StorageT>, Action<StorageT>)>,
) -> Result<(), BuildFault>
    ensures row { OnOk result (AppendsUnshifted StorageT.index tidx.now prods.now accepting row.old row.new) }
    ensures none { IfOk result (λ _. ¬ (CallsForBoth StorageT.index None prods.now accepting)) }
    ensures refused { IfErr result (IsRefusedFor StorageT.index state.now None prods.now accepting) }
{
    match prods.split_first() {
        Some((prod, _)) => {
            if accepting {
                return Err(BuildFault::AcceptReduceConflict(usize::from(*state)));
            }
            row.push((*tidx, Action::Reduce(*prod)))?;
        }
        None => {
            if accepting {
                row.push((*tidx, Action::Accept))?;
            }
        }
    }
    Ok(())
}
