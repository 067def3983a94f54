//! The steps of a table, with the lengths of their symbols.
ghost use Rattle.std.specs.Prelude.{◌<◌, IfOk, OnOk};
ghost use Rattle.lrpar_table_rows.specs.Table.{states_len};
ghost use Rattle.lrpar_table_sentences.specs.AccessLens.{AppendsShift, AppendsStep, AppendsSteps, AreSteps, IsStoredAt};

use crate::shortest::Shortest;
use crate::transitions::{Edge, Step};
use lrpar_grammar::span::{StIdx, StorageIndex, Symbol, TIdx};
use lrpar_table_rows::table::{Action, StateTable};
use std::alloc::{AllocError, Global};

/// The table's shifts and gotos whose symbols are productive.
pub(crate) fn edges<StorageT: StorageIndex>(
    alloc: Global,
    stable: &StateTable<StorageT>,
    shortest: &Shortest<StorageT>,
) -> Result<Vec<Edge<StorageT>>, AllocError>
    ensures { IfOk result (λ edges. AreSteps StorageT.index stable.now shortest.now edges.items) }
{
    let mut edges = Vec::new(alloc);
    for state in 0..stable.states_len() {
        let s = StIdx(StorageT::from_index(state).unwrap());
        push_edges(&mut edges, stable, shortest, s)?;
    }
    Ok(edges)
}

// Appends the state's shifts and gotos.
fn push_edges<StorageT: StorageIndex>(
    edges: &mut Vec<Edge<StorageT>>,
    stable: &StateTable<StorageT>,
    shortest: &Shortest<StorageT>,
    s: StIdx<StorageT>,
) -> Result<(), AllocError>
    requires { StorageT.index s.0 < states_len stable.now }
    ensures edges { OnOk result (AppendsSteps StorageT.index stable.now shortest.now s edges.old edges.new) }
    ensures stored { OnOk result (IsStoredAt stable.now (StorageT.index s.0)) }
{
    let (tokens, actions) = stable.actions_of(s);
    'shifts: for (place, token) in tokens.iter().enumerate() {
        push_shift(edges, shortest, s, *token, actions[place])?;
    }
    let (rules, states) = stable.gotos_of(s);
    'gotos: for (place, rule) in rules.iter().enumerate() {
        push_edge(edges, shortest, s, Symbol::Rule(*rule), states[place])?;
    }
    Ok(())
}

// Appends the step of an action at a token, if it is a shift.
fn push_shift<StorageT: StorageIndex>(
    edges: &mut Vec<Edge<StorageT>>,
    shortest: &Shortest<StorageT>,
    s: StIdx<StorageT>,
    token: TIdx<StorageT>,
    action: Action<StorageT>,
) -> Result<(), AllocError>
    ensures { OnOk result (AppendsShift StorageT.index shortest.now s token action edges.old edges.new) }
{
    match action {
        Action::Shift(next) => push_edge(edges, shortest, s, Symbol::Token(token), next),
        Action::Reduce(_) | Action::Accept | Action::Error => Ok(()),
    }
}

// Appends a step, if its symbol is productive.
fn push_edge<StorageT: StorageIndex>(
    edges: &mut Vec<Edge<StorageT>>,
    shortest: &Shortest<StorageT>,
    from: StIdx<StorageT>,
    symbol: Symbol<StorageT>,
    next: StIdx<StorageT>,
) -> Result<(), AllocError>
    ensures { OnOk result (AppendsStep StorageT.index shortest.now from symbol next edges.old edges.new) }
{
    if let Some(len) = shortest.len_of(symbol) {
        edges.push(Edge {
            step: Step { from, symbol },
            next,
            len,
        })?;
    }
    Ok(())
}
