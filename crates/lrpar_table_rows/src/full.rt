//! Full rows: whether they are those of a table, and which of their entries are stored.
ghost use Rattle.std.specs.Prelude.{◌<◌, ◌≤◌, ◌↔◌, IsTrue, IfOk, OnOk, length};
ghost use Rattle.lrpar_table_rows.specs.Rows.{HaveActionRows, HaveGotoRows, HaveNumbers, IsActionRow, IsGotoRow};
ghost use Rattle.lrpar_table_rows.specs.Table.{IsActionWithin, IsGotoWithin};
ghost use Rattle.lrpar_table_rows.specs.PlainRows.{plain_action, plain_goto, plain_rows};
ghost use Rattle.lrpar_table_rows.specs.StoredRows.{AppendsAction, AppendsGoto, AreActionsOf, AreActionsOfRows, AreGotosOf, AreGotosOfRows, AreRowsUpTo, MakeTable, plain_actions, plain_gotos};

use crate::each::all_rows;
use crate::numbers::can_number;
use crate::rows::{Action, TableRows};
use lrpar_grammar::span::{RIdx, StIdx, StorageIndex, TIdx};
use std::alloc::{AllocError, Global};

/// Whether the rows are those of a table.
pub(crate) fn are_rows<StorageT: StorageIndex>(rows: &TableRows<StorageT>) -> bool
    ensures { IsTrue result ↔ MakeTable StorageT.index StorageT.limit rows.now }
{
    are_numbers(rows) && have_action_rows(rows) && have_goto_rows(rows)
}

/// Whether there are as many rows of both kinds, `StorageT` can number all states, tokens and rules, and the start state is one
/// of the states.
fn are_numbers<StorageT: StorageIndex>(rows: &TableRows<StorageT>) -> bool
    ensures { IsTrue result ↔ HaveNumbers StorageT.limit (plain_rows StorageT.index rows.now) }
{
    let states = rows.actions.len();
    rows.gotos.len() == states
        && usize::from(rows.start) < states
        && can_number::<StorageT>(states)
        && can_number::<StorageT>(rows.tokens)
        && can_number::<StorageT>(rows.rules)
}

/// Whether each row of actions has an action for each token, with states in range.
fn have_action_rows<StorageT: StorageIndex>(rows: &TableRows<StorageT>) -> bool
    ensures { IsTrue result ↔ HaveActionRows (plain_rows StorageT.index rows.now) }
{
    let (tokens, states) = (rows.tokens, rows.actions.len());
    all_rows(&rows.actions, |row| is_action_row(row, tokens, states))
}

/// Whether the row has an action for each token, with states in range.
fn is_action_row<StorageT: StorageIndex>(
    row: &[Action<StorageT>],
    tokens: usize,
    states: usize,
) -> bool
    ensures { IsTrue result ↔ IsActionRow tokens states (plain_actions StorageT.index row.now) }
{
    row.len() == tokens && row.iter().all(|action| is_action_within(*action, states))
}

/// Whether the action's state, if it is a shift, is below `states`.
fn is_action_within<StorageT: StorageIndex>(action: Action<StorageT>, states: usize) -> bool
    ensures { IsTrue result ↔ IsActionWithin states (plain_action StorageT.index action) }
{
    match action {
        Action::Shift(state) => usize::from(state) < states,
        Action::Reduce(_) | Action::Accept | Action::Error => true,
    }
}

/// Whether each row of gotos has an optional state for each rule, in range.
fn have_goto_rows<StorageT: StorageIndex>(rows: &TableRows<StorageT>) -> bool
    ensures { IsTrue result ↔ HaveGotoRows (plain_rows StorageT.index rows.now) }
{
    let (rules, states) = (rows.rules, rows.actions.len());
    all_rows(&rows.gotos, |row| is_goto_row(row, rules, states))
}

/// Whether the row has an optional state for each rule, in range.
fn is_goto_row<StorageT: StorageIndex>(
    row: &[Option<StIdx<StorageT>>],
    rules: usize,
    states: usize,
) -> bool
    ensures { IsTrue result ↔ IsGotoRow rules states (plain_gotos StorageT.index row.now) }
{
    row.len() == rules && row.iter().all(|goto| is_goto_within(*goto, states))
}

/// Whether the state to go to, if there is one, is below `states`.
fn is_goto_within<StorageT: StorageIndex>(goto: Option<StIdx<StorageT>>, states: usize) -> bool
    ensures { IsTrue result ↔ IsGotoWithin states (plain_goto StorageT.index goto) }
{
    match goto {
        Some(state) => usize::from(state) < states,
        None => true,
    }
}

/// The entries that are stored for the rows of actions.
pub(crate) fn stored_actions<StorageT: StorageIndex>(
    alloc: Global,
    rows: &[Vec<Action<StorageT>>],
) -> Result<Vec<Vec<(TIdx<StorageT>, Action<StorageT>)>>, AllocError>
    requires { AreRowsUpTo StorageT.limit rows.now }
    ensures { IfOk result (AreActionsOfRows StorageT.index rows.now) }
{
    let mut stored = Vec::with_capacity(alloc, rows.len())?;
    for row in rows {
        stored.push(row_stored_actions(alloc, row)?)?;
    }
    Ok(stored)
}

/// The entries that are stored for the row: each action but errors, with its token.
fn row_stored_actions<StorageT: StorageIndex>(
    alloc: Global,
    row: &[Action<StorageT>],
) -> Result<Vec<(TIdx<StorageT>, Action<StorageT>)>, AllocError>
    requires { length row.now ≤ StorageT.limit }
    ensures { IfOk result (AreActionsOf StorageT.index row.now) }
{
    let mut stored = Vec::new(alloc);
    for (number, action) in row.iter().enumerate() {
        push_action(&mut stored, number, *action)?;
    }
    Ok(stored)
}

/// Appends the action with the token of this number, unless it is an error.
fn push_action<StorageT: StorageIndex>(
    stored: &mut Vec<(TIdx<StorageT>, Action<StorageT>)>,
    number: usize,
    action: Action<StorageT>,
) -> Result<(), AllocError>
    requires { number < StorageT.limit }
    ensures { OnOk result (AppendsAction StorageT.index number action stored.old stored.new) }
{
    match action {
        Action::Error => Ok(()),
        Action::Shift(_) | Action::Reduce(_) | Action::Accept => {
            let token = TIdx(StorageT::from_index(number).unwrap());
            stored.push((token, action))?;
            Ok(())
        }
    }
}

/// The entries that are stored for the rows of gotos.
pub(crate) fn stored_gotos<StorageT: StorageIndex>(
    alloc: Global,
    rows: &[Vec<Option<StIdx<StorageT>>>],
) -> Result<Vec<Vec<(RIdx<StorageT>, StIdx<StorageT>)>>, AllocError>
    requires { AreRowsUpTo StorageT.limit rows.now }
    ensures { IfOk result (AreGotosOfRows StorageT.index rows.now) }
{
    let mut stored = Vec::with_capacity(alloc, rows.len())?;
    for row in rows {
        stored.push(row_stored_gotos(alloc, row)?)?;
    }
    Ok(stored)
}

/// The entries that are stored for the row: each state to go to, with its rule.
fn row_stored_gotos<StorageT: StorageIndex>(
    alloc: Global,
    row: &[Option<StIdx<StorageT>>],
) -> Result<Vec<(RIdx<StorageT>, StIdx<StorageT>)>, AllocError>
    requires { length row.now ≤ StorageT.limit }
    ensures { IfOk result (AreGotosOf StorageT.index row.now) }
{
    let mut stored = Vec::new(alloc);
    for (number, goto) in row.iter().enumerate() {
        push_goto(&mut stored, number, *goto)?;
    }
    Ok(stored)
}

/// Appends the state with the rule of this number, if there is a state.
fn push_goto<StorageT: StorageIndex>(
    stored: &mut Vec<(RIdx<StorageT>, StIdx<StorageT>)>,
    number: usize,
    goto: Option<StIdx<StorageT>>,
) -> Result<(), AllocError>
    requires { number < StorageT.limit }
    ensures { OnOk result (AppendsGoto StorageT.index number goto stored.old stored.new) }
{
    if let Some(state) = goto {
        let rule = RIdx(StorageT::from_index(number).unwrap());
        stored.push((rule, state))?;
    }
    Ok(())
}
