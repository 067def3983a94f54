//! The part of a table that has the actions at some tokens alone.
ghost use Rattle.std.specs.Prelude.{◌<◌, IfOk, IfSome};
ghost use Rattle.lrpar_table_rows.specs.Table.{states_len};
ghost use Rattle.lrpar_table_pops.specs.Parts.{HasGotosOf, HasSomeActionsOf, IsPartOf};

use crate::entries::actions_at;
use lrpar_grammar::span::{RIdx, StIdx, StorageIndex, TIdx};
use lrpar_grammar::token_set::TokenSet;
use lrpar_table_rows::table::{Action, SparseRows, StateTable};
use std::alloc::{AllocError, Global};

/// The table with its actions at these tokens alone, and with all its gotos; or none, if an allocation of the table itself failed.
pub(crate) fn part_at<StorageT: StorageIndex>(
    alloc: Global,
    stable: &StateTable<StorageT>,
    tokens: &TokenSet,
) -> Result<Option<StateTable<StorageT>>, AllocError>
    ensures { IfOk result (λ part. IfSome part (IsPartOf stable.now)) }
{
    let mut actions = Vec::new(alloc);
    let mut gotos = Vec::new(alloc);
    'states: for number in 0..stable.states_len() {
        let state = StIdx(StorageT::from_index(number).unwrap());
        let acts = actions_row(alloc, stable, state, tokens)?;
        actions.push(acts)?;
        let goes = gotos_row(alloc, stable, state)?;
        gotos.push(goes)?;
    }
    let rows = SparseRows {
        start: stable.start_state(),
        states: stable.states_len(),
        tokens: stable.tokens_len(),
        rules: stable.rules_len(),
        actions,
        gotos,
        conflicts: None,
    };
    Ok(StateTable::from_sparse(alloc, rows).ok())
}

// The actions of the state at these tokens, with their tokens.
fn actions_row<StorageT: StorageIndex>(
    alloc: Global,
    stable: &StateTable<StorageT>,
    state: StIdx<StorageT>,
    tokens: &TokenSet,
) -> Result<Vec<(TIdx<StorageT>, Action<StorageT>)>, AllocError>
    ensures { IfOk result (λ row. HasSomeActionsOf StorageT.index stable.now (StorageT.index state.0) row.items) }
{
    let (known, actions) = actions_at(stable, state);
    let mut row = Vec::new(alloc);
    'tokens: for place in 0..known.len() {
        let (token, action) = (known[place], actions[place]);
        if tokens.contains(usize::from(token)) {
            row.push((token, action))?;
        }
    }
    Ok(row)
}

// The gotos of the state, with their rules.
fn gotos_row<StorageT: StorageIndex>(
    alloc: Global,
    stable: &StateTable<StorageT>,
    state: StIdx<StorageT>,
) -> Result<Vec<(RIdx<StorageT>, StIdx<StorageT>)>, AllocError>
    requires { StorageT.index state.0 < states_len stable.now }
    ensures { IfOk result (λ row. HasGotosOf StorageT.index stable.now (StorageT.index state.0) row.items) }
{
    let (rules, nexts) = stable.gotos_of(state);
    let mut row = Vec::new(alloc);
    'rules: for place in 0..rules.len() {
        let (rule, next) = (rules[place], nexts[place]);
        row.push((rule, next))?;
    }
    Ok(row)
}
