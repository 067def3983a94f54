//! Where symbols lead from a state.
ghost use Rattle.std.specs.Prelude.{◌≡◌, ◌<◌, IfSome, map};
ghost use Rattle.lrpar_grammar.specs.Symbols.{symbol_of};
ghost use Rattle.lrpar_table_rows.specs.Table.{goto_of, states_len};
ghost use Rattle.lrpar_table_stops.specs.Met.{number_in};
ghost use Rattle.lrpar_table_stops.specs.ErrorStates.{end_of_path, next_by};

use lrpar_grammar::span::{RIdx, StIdx, StorageIndex, Symbol};
use lrpar_table_rows::table::{Action, StateTable};

/// The state to which the symbols lead from this one, if they do.
pub(crate) fn end_of_path<StorageT: StorageIndex>(
    stable: &StateTable<StorageT>,
    state: StIdx<StorageT>,
    symbols: &[Symbol<StorageT>],
) -> Option<StIdx<StorageT>>
    ensures { number_in StorageT.index result ≡ end_of_path stable.now (StorageT.index state.0) (map (symbol_of StorageT.index) symbols.now) }
{
    let mut state = state;
    for symbol in symbols {
        state = next_by(stable, state, *symbol)?;
    }
    Some(state)
}

/// The state to which this one goes by the symbol, if it does: by a shift or by a goto. Takes the time of a look-up.
pub fn next_by<StorageT: StorageIndex>(
    stable: &StateTable<StorageT>,
    state: StIdx<StorageT>,
    symbol: Symbol<StorageT>,
) -> Option<StIdx<StorageT>>
    ensures { number_in StorageT.index result ≡ next_by stable.now (StorageT.index state.0) (symbol_of StorageT.index symbol) }
{
    if usize::from(state) >= stable.states_len() {
        return None;
    }
    match symbol {
        Symbol::Token(token) => {
            if usize::from(token) >= stable.tokens_len() {
                return None;
            }
            match stable.action(state, token) {
                Action::Shift(next) => Some(next),
                Action::Reduce(_) | Action::Accept | Action::Error => None,
            }
        }
        Symbol::Rule(rule) => goto_by(stable, state, rule),
    }
}

/// The goto of the state by the rule, if there is one.
pub(crate) fn goto_by<StorageT: StorageIndex>(
    stable: &StateTable<StorageT>,
    state: StIdx<StorageT>,
    rule: RIdx<StorageT>,
) -> Option<StIdx<StorageT>>
    requires { StorageT.index state.0 < states_len stable.now }
    ensures goto { number_in StorageT.index result ≡ goto_of stable.now (StorageT.index state.0) (StorageT.index rule.0) }
    ensures within { IfSome result (λ next. StorageT.index next.0 < states_len stable.now) }
{
    if usize::from(rule) >= stable.rules_len() {
        return None;
    }
    stable.goto(state, rule)
}
