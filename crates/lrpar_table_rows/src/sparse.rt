//! Sparse rows: whether they are those of a table.
ghost use Rattle.std.specs.Prelude.{◌↔◌, IsTrue};
ghost use Rattle.lrpar_table_rows.specs.Entries.{KeysAscend};
ghost use Rattle.lrpar_table_rows.specs.PlainRows.{action_entry, goto_entry, sparse_table_of};
ghost use Rattle.lrpar_table_rows.specs.StoredRows.{IsSparseActionRow, IsSparseGotoRow, StoreTable};
ghost use Rattle.lrpar_table_rows.specs.Table.{HasNumbers, HasRightActions, HasRightGotos, IsActionEntry, IsGotoEntry};

use crate::each::all_rows;
use crate::key::Key;
use crate::numbers::can_number;
use crate::rows::{Action, SparseRows};
use lrpar_grammar::span::{RIdx, StIdx, StorageIndex, TIdx};

/// Whether the rows are those of a table.
pub(crate) fn is_sparse_table<StorageT: StorageIndex>(rows: &SparseRows<StorageT>) -> bool
    ensures { IsTrue result ↔ StoreTable StorageT.index StorageT.limit rows.now }
{
    has_sparse_numbers(rows) && has_right_actions(rows) && has_right_gotos(rows)
}

/// Whether there is a row of both kinds for each state, `StorageT` can number all states, tokens and rules, and the start state
/// is one of the states.
fn has_sparse_numbers<StorageT: StorageIndex>(rows: &SparseRows<StorageT>) -> bool
    ensures { IsTrue result ↔ HasNumbers StorageT.limit (sparse_table_of StorageT.index rows.now) }
{
    rows.actions.len() == rows.states
        && rows.gotos.len() == rows.states
        && usize::from(rows.start) < rows.states
        && can_number::<StorageT>(rows.states)
        && can_number::<StorageT>(rows.tokens)
        && can_number::<StorageT>(rows.rules)
}

/// Whether each row of actions has tokens that ascend, all in range, and no errors.
fn has_right_actions<StorageT: StorageIndex>(rows: &SparseRows<StorageT>) -> bool
    ensures { IsTrue result ↔ HasRightActions (sparse_table_of StorageT.index rows.now) }
{
    let (tokens, states) = (rows.tokens, rows.states);
    all_rows(&rows.actions, |row| is_action_row(row, tokens, states))
}

/// Whether the row has tokens that ascend, with actions other than errors, all in range.
fn is_action_row<StorageT: StorageIndex>(
    row: &[(TIdx<StorageT>, Action<StorageT>)],
    tokens: usize,
    states: usize,
) -> bool
    ensures { IsTrue result ↔ IsSparseActionRow StorageT.index tokens states row.now }
{
    ascends(row)
        && row
            .iter()
            .all(|entry| is_action_entry(entry.0, entry.1, tokens, states))
}

/// Whether the token is below `tokens`, the action isn't an error, and its state, if it has one, is below `states`.
fn is_action_entry<StorageT: StorageIndex>(
    token: TIdx<StorageT>,
    action: Action<StorageT>,
    tokens: usize,
    states: usize,
) -> bool
    ensures { IsTrue result ↔ IsActionEntry tokens states (action_entry StorageT.index (token, action)) }
{
    usize::from(token) < tokens
        && match action {
            Action::Shift(state) => usize::from(state) < states,
            Action::Reduce(_) | Action::Accept => true,
            Action::Error => false,
        }
}

/// Whether each row of gotos has rules that ascend, all in range.
fn has_right_gotos<StorageT: StorageIndex>(rows: &SparseRows<StorageT>) -> bool
    ensures { IsTrue result ↔ HasRightGotos (sparse_table_of StorageT.index rows.now) }
{
    let (rules, states) = (rows.rules, rows.states);
    all_rows(&rows.gotos, |row| is_goto_row(row, rules, states))
}

/// Whether the row has rules that ascend, with states to go to, all in range.
fn is_goto_row<StorageT: StorageIndex>(
    row: &[(RIdx<StorageT>, StIdx<StorageT>)],
    rules: usize,
    states: usize,
) -> bool
    ensures { IsTrue result ↔ IsSparseGotoRow StorageT.index rules states row.now }
{
    ascends(row)
        && row
            .iter()
            .all(|entry| is_goto_entry(entry.0, entry.1, rules, states))
}

/// Whether the rule is below `rules`, and the state below `states`.
fn is_goto_entry<StorageT: StorageIndex>(
    rule: RIdx<StorageT>,
    state: StIdx<StorageT>,
    rules: usize,
    states: usize,
) -> bool
    ensures { IsTrue result ↔ IsGotoEntry rules states (goto_entry StorageT.index (rule, state)) }
{
    usize::from(rule) < rules && usize::from(state) < states
}

/// Whether the numbers of the keys ascend, each once.
fn ascends<K: Key, V>(row: &[(K, V)]) -> bool
    ensures { IsTrue result ↔ KeysAscend K.number row.now }
{
    for place in 1..row.len() {
        if row[place].0.to_number() <= row[place - 1].0.to_number() {
            return false;
        }
    }
    true
}
