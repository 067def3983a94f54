//! What the search uses: a grammar, its table, and what was computed of both.
ghost use Rattle.std.specs.Prelude.{◌<◌, IfSome};
ghost use Rattle.lrpar_grammar.specs.Grammar.{Terminal};
ghost use Rattle.lrpar_grammar.specs.Symbols.{symbol_of};
ghost use Rattle.lrpar_table_rows.specs.Table.{states_len};
ghost use Rattle.lrpar_conflict_derivations.specs.Stored.{Goes};

use crate::min_lengths::MinLengths;
use crate::predecessors::Predecessors;
use lrpar_grammar::grammar::YaccGrammar;
use lrpar_grammar::span::{PIdx, RIdx, StIdx, StorageIndex, Symbol, TIdx};
use lrpar_table_rows::table::{Action, Core, StateGraph, StateTable};
use lrpar_table_sentences::access_strings::AccessStrings;
use lrpar_table_sentences::shortest::Shortest;

/// What the search uses. Each method has a result for each number, out of range too, so that no caller has to prove a range.
#[derive(Drop)]
pub(crate) struct Context<'a, StorageT: StorageIndex> {
    pub(crate) grm: &'a YaccGrammar<StorageT>,
    pub(crate) graph: &'a StateGraph<StorageT>,
    pub(crate) table: &'a StateTable<StorageT>,
    pub(crate) shortest: &'a Shortest<StorageT>,
    pub(crate) access: &'a AccessStrings<StorageT>,
    pub(crate) lengths: &'a MinLengths,
    pub(crate) predecessors: &'a Predecessors<StorageT>,
}

impl<'a, StorageT: StorageIndex> Context<'a, StorageT> {
    /// The rule of the production, if there is one.
    pub(crate) fn rule_of(&self, prod: PIdx<StorageT>) -> Option<RIdx<StorageT>> {
        if usize::from(prod) < self.grm.prods_len() {
            Some(self.grm.prod_to_rule(prod))
        } else {
            None
        }
    }

    /// The symbols after the core's dot.
    pub(crate) fn rest(&self, core: Core<StorageT>) -> &[Symbol<StorageT>] {
        if usize::from(core.0) >= self.grm.prods_len() {
            return &[];
        }
        let symbols = self.grm.prod(core.0);
        if core.1 >= symbols.len() {
            return &[];
        }
        &symbols[core.1..]
    }

    /// The rule after the core's dot, if one is there.
    pub(crate) fn rule_after(&self, core: Core<StorageT>) -> Option<RIdx<StorageT>> {
        match *self.rest(core).first()? {
            Symbol::Rule(rule) => Some(rule),
            Symbol::Token(_) => None,
        }
    }

    /// Whether the core's dot is after all symbols.
    pub(crate) fn is_complete(&self, core: Core<StorageT>) -> bool {
        usize::from(core.0) < self.grm.prods_len() && core.1 == self.grm.prod(core.0).len()
    }

    /// Whether the production is the start production.
    pub(crate) fn is_start(&self, prod: PIdx<StorageT>) -> bool {
        usize::from(prod) == usize::from(self.grm.start_prod())
    }

    /// The least number of tokens that the symbol derives.
    pub(crate) fn len_of(&self, symbol: Symbol<StorageT>) -> usize {
        self.shortest.len_of(symbol).unwrap_or(usize::MAX)
    }

    /// The least number of tokens of an access string of the state.
    pub(crate) fn len_to(&self, state: StIdx<StorageT>) -> usize {
        self.access.len_to(state).unwrap_or(usize::MAX)
    }

    /// The productions and dots of the state's items.
    pub(crate) fn cores(&self, state: StIdx<StorageT>) -> &[Core<StorageT>] {
        if usize::from(state) >= self.graph.states_len() {
            return &[];
        }
        self.graph.cores(state)
    }

    /// Those whose dot is after a symbol, and that of the start item.
    pub(crate) fn begun_cores(&self, state: StIdx<StorageT>) -> &[Core<StorageT>] {
        if usize::from(state) >= self.graph.states_len() {
            return &[];
        }
        self.graph.begun_cores(state)
    }

    /// The tokens for which the state has an action.
    pub(crate) fn tokens(&self, state: StIdx<StorageT>) -> &[TIdx<StorageT>] {
        if usize::from(state) >= self.table.states_len() {
            return &[];
        }
        self.table.actions_of(state).0
    }

    /// The rules for which the state has a goto.
    pub(crate) fn rules(&self, state: StIdx<StorageT>) -> &[RIdx<StorageT>] {
        if usize::from(state) >= self.table.states_len() {
            return &[];
        }
        self.table.gotos_of(state).0
    }

    /// The state's action at the token.
    pub(crate) fn action(&self, state: StIdx<StorageT>, token: TIdx<StorageT>) -> Action<StorageT> {
        if usize::from(state) < self.table.states_len()
            && usize::from(token) < self.table.tokens_len()
        {
            self.table.action(state, token)
        } else {
            Action::Error
        }
    }
}

/// The state that the symbol leads to from this one, if it leads to one.
pub(crate) fn next_by<StorageT: StorageIndex>(
    table: &StateTable<StorageT>,
    state: StIdx<StorageT>,
    symbol: Symbol<StorageT>,
) -> Option<StIdx<StorageT>>
    ensures { IfSome result (Goes StorageT.index table.now state (symbol_of StorageT.index symbol)) }
{
    if usize::from(state) >= table.states_len() {
        return None;
    }
    match symbol {
        Symbol::Token(token) => shift_by(table, state, token),
        Symbol::Rule(rule) => {
            if usize::from(rule) < table.rules_len() {
                table.goto(state, rule)
            } else {
                None
            }
        }
    }
}

// The state that a shift of the token leads to.
fn shift_by<StorageT: StorageIndex>(
    table: &StateTable<StorageT>,
    state: StIdx<StorageT>,
    token: TIdx<StorageT>,
) -> Option<StIdx<StorageT>>
    requires { StorageT.index state.0 < states_len table.now }
    ensures { IfSome result (Goes StorageT.index table.now state (Terminal (StorageT.index token.0))) }
{
    if usize::from(token) >= table.tokens_len() {
        return None;
    }
    match table.action(state, token) {
        Action::Shift(next) => Some(next),
        Action::Reduce(_) | Action::Accept | Action::Error => None,
    }
}
