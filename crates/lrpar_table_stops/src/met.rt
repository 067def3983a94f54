//! For each state the tokens at which a run is known to look.
ghost use Rattle.std.specs.Prelude.{◌≡◌, ◌<◌, ◌↔◌, ℕ, IfOk, IsTrue};
ghost use Rattle.std.specs.Bool.{OnFalse, OnTrue};
ghost use Rattle.lrpar_grammar.specs.Grammar.{Grammar, prods_len};
ghost use Rattle.lrpar_table_rows.specs.Table.{states_len};
ghost use Rattle.lrpar_table_stops.specs.Met.{AreClosed, AreLeft, AreReduced, AreRight, HasRoomFor, IsLeft, IsLeftAt, IsReducedBy, IsReducedOver, IsReducedTo, MeetsAll, MeetsMore, ReducesAt, StayRightWith, StopsAt, StopsIn, is_met};
ghost use Rattle.lrpar_table_stops.specs.ErrorStates.{LooksAt, Replaces};

use crate::path::{end_of_path, goto_by};
use lrpar_grammar::grammar::YaccGrammar;
use lrpar_grammar::span::{PIdx, StIdx, StorageIndex, TIdx};
use lrpar_grammar::token_set::TokenSet;
use lrpar_table_rows::table::{Action, StateTable};
use std::alloc::{AllocError, Global};

/// A set without tokens for each state.
pub(crate) fn empty_sets<StorageT: StorageIndex>(
    alloc: Global,
    stable: &StateTable<StorageT>,
) -> Result<Vec<TokenSet>, AllocError>
    ensures { (g : Grammar) → IfOk result (λ sets. AreRight g stable.now sets.items) }
{
    let mut sets = Vec::with_capacity(alloc, stable.states_len())?;
    for _ in 0..stable.states_len() {
        sets.push(TokenSet::new(alloc, stable.tokens_len())?)?;
    }
    Ok(sets)
}

/// Adds what follows from what is known, and returns whether any was new.
pub(crate) fn add_all<StorageT: StorageIndex>(
    grm: &YaccGrammar<StorageT>,
    stable: &StateTable<StorageT>,
    sets: &mut [TokenSet],
) -> bool
    requires right { AreRight grm.now stable.now sets.old }
    ensures right { AreRight grm.now stable.now sets.new }
    ensures grown { OnTrue result (MeetsMore sets.old sets.new) }
    ensures closed { OnFalse result (AreClosed grm.now stable.now sets.new) }
{
    let start = add_tokens(grm, stable, sets, stable.start_state());
    let reduced = add_reductions(grm, stable, sets);
    let left = add_states(grm, stable, sets);
    start || reduced || left
}

// Adds where reductions lead, and returns whether any was new.
fn add_reductions<StorageT: StorageIndex>(
    grm: &YaccGrammar<StorageT>,
    stable: &StateTable<StorageT>,
    sets: &mut [TokenSet],
) -> bool
    requires right { AreRight grm.now stable.now sets.old }
    ensures right { AreRight grm.now stable.now sets.new }
    ensures grown { OnTrue result (MeetsMore sets.old sets.new) }
    ensures same { OnFalse result (sets.new ≡ sets.old) }
    ensures closed { OnFalse result (AreReduced grm.now stable.now sets.new) }
{
    let mut grown = false;
    for number in 0..grm.prods_len() {
        let prod = PIdx(StorageT::from_index(number).unwrap());
        if add_reductions_by(grm, stable, sets, prod) {
            grown = true;
        }
    }
    grown
}

// Adds where reductions by the production lead, and returns whether any was new.
fn add_reductions_by<StorageT: StorageIndex>(
    grm: &YaccGrammar<StorageT>,
    stable: &StateTable<StorageT>,
    sets: &mut [TokenSet],
    prod: PIdx<StorageT>,
) -> bool
    requires prod { StorageT.index prod.0 < prods_len grm.now }
    requires right { AreRight grm.now stable.now sets.old }
    ensures right { AreRight grm.now stable.now sets.new }
    ensures grown { OnTrue result (MeetsMore sets.old sets.new) }
    ensures same { OnFalse result (sets.new ≡ sets.old) }
    ensures closed { OnFalse result (IsReducedBy grm.now stable.now sets.new (StorageT.index prod.0)) }
{
    let mut grown = false;
    for number in 0..stable.states_len() {
        let below = StIdx(StorageT::from_index(number).unwrap());
        if add_reductions_over(grm, stable, sets, prod, below) {
            grown = true;
        }
    }
    grown
}

// Adds where reductions by the production over this state lead, and returns whether any was new.
fn add_reductions_over<StorageT: StorageIndex>(
    grm: &YaccGrammar<StorageT>,
    stable: &StateTable<StorageT>,
    sets: &mut [TokenSet],
    prod: PIdx<StorageT>,
    below: StIdx<StorageT>,
) -> bool
    requires prod { StorageT.index prod.0 < prods_len grm.now }
    requires below { StorageT.index below.0 < states_len stable.now }
    requires right { AreRight grm.now stable.now sets.old }
    ensures right { AreRight grm.now stable.now sets.new }
    ensures grown { OnTrue result (MeetsMore sets.old sets.new) }
    ensures same { OnFalse result (sets.new ≡ sets.old) }
    ensures closed { OnFalse result (IsReducedOver grm.now stable.now sets.new (StorageT.index prod.0) (StorageT.index below.0)) }
{
    let Some(next) = goto_by(stable, below, grm.prod_to_rule(prod)) else {
        return false;
    };
    let Some(from) = end_of_path(stable, below, grm.prod(prod)) else {
        return false;
    };
    let mut grown = false;
    for number in 0..stable.tokens_len() {
        let token = TIdx(StorageT::from_index(number).unwrap());
        if add_reduction(grm, stable, sets, prod, from, next, token) {
            grown = true;
        }
    }
    grown
}

// Adds the token to those of the state that a reduction by the production at it leads to, from this one, and returns whether it was new.
fn add_reduction<StorageT: StorageIndex>(
    grm: &YaccGrammar<StorageT>,
    stable: &StateTable<StorageT>,
    sets: &mut [TokenSet],
    prod: PIdx<StorageT>,
    from: StIdx<StorageT>,
    next: StIdx<StorageT>,
    token: TIdx<StorageT>,
) -> bool
    requires next { StorageT.index next.0 < states_len stable.now }
    requires token { StorageT.index token.0 < stable.now.tokens }
    requires leads { (below : ℕ) × Replaces grm.now stable.now (StorageT.index prod.0) below (StorageT.index from.0) (StorageT.index next.0) }
    requires right { AreRight grm.now stable.now sets.old }
    ensures right { AreRight grm.now stable.now sets.new }
    ensures grown { OnTrue result (MeetsMore sets.old sets.new) }
    ensures same { OnFalse result (sets.new ≡ sets.old) }
    ensures closed { OnFalse result (IsReducedTo StorageT.index stable.now sets.new prod from next token) }
{
    reduces_at(stable, sets, prod, from, token)
        && add_token(sets, usize::from(next), usize::from(token))
}

// Whether a run that looks at the token in the state reduces by the production, as far as is known.
fn reduces_at<StorageT: StorageIndex>(
    stable: &StateTable<StorageT>,
    sets: &[TokenSet],
    prod: PIdx<StorageT>,
    state: StIdx<StorageT>,
    token: TIdx<StorageT>,
) -> bool
    requires token { StorageT.index token.0 < stable.now.tokens }
    ensures { IsTrue result ↔ ReducesAt stable.now sets.now (StorageT.index prod.0) (StorageT.index state.0) (StorageT.index token.0) }
{
    usize::from(state) < stable.states_len()
        && stable.action(state, token) == Action::Reduce(prod)
        && is_met(sets, state, token)
}

// Adds where the states go and what repairs of errors in them put in, and returns whether any was new.
fn add_states<StorageT: StorageIndex>(
    grm: &YaccGrammar<StorageT>,
    stable: &StateTable<StorageT>,
    sets: &mut [TokenSet],
) -> bool
    requires right { AreRight grm.now stable.now sets.old }
    ensures right { AreRight grm.now stable.now sets.new }
    ensures grown { OnTrue result (MeetsMore sets.old sets.new) }
    ensures same { OnFalse result (sets.new ≡ sets.old) }
    ensures closed { OnFalse result (AreLeft stable.now sets.new) }
{
    let mut grown = false;
    for number in 0..stable.states_len() {
        let state = StIdx(StorageT::from_index(number).unwrap());
        if add_state(grm, stable, sets, state) {
            grown = true;
        }
    }
    grown
}

// Adds where the state goes and what repairs of errors in it put in, and returns whether any was new.
fn add_state<StorageT: StorageIndex>(
    grm: &YaccGrammar<StorageT>,
    stable: &StateTable<StorageT>,
    sets: &mut [TokenSet],
    state: StIdx<StorageT>,
) -> bool
    requires state { StorageT.index state.0 < states_len stable.now }
    requires right { AreRight grm.now stable.now sets.old }
    ensures right { AreRight grm.now stable.now sets.new }
    ensures grown { OnTrue result (MeetsMore sets.old sets.new) }
    ensures same { OnFalse result (sets.new ≡ sets.old) }
    ensures closed { OnFalse result (IsLeft stable.now sets.new (StorageT.index state.0)) }
{
    let mut grown = false;
    for number in 0..stable.tokens_len() {
        let token = TIdx(StorageT::from_index(number).unwrap());
        if add_at(grm, stable, sets, state, token) {
            grown = true;
        }
    }
    grown
}

// Adds where the state goes by a shift of the token, or what repairs put in if that is an error, and returns whether any was new.
fn add_at<StorageT: StorageIndex>(
    grm: &YaccGrammar<StorageT>,
    stable: &StateTable<StorageT>,
    sets: &mut [TokenSet],
    state: StIdx<StorageT>,
    token: TIdx<StorageT>,
) -> bool
    requires state { StorageT.index state.0 < states_len stable.now }
    requires token { StorageT.index token.0 < stable.now.tokens }
    requires right { AreRight grm.now stable.now sets.old }
    ensures right { AreRight grm.now stable.now sets.new }
    ensures grown { OnTrue result (MeetsMore sets.old sets.new) }
    ensures same { OnFalse result (sets.new ≡ sets.old) }
    ensures closed { OnFalse result (IsLeftAt stable.now sets.new (StorageT.index state.0) (StorageT.index token.0)) }
{
    match stable.action(state, token) {
        Action::Shift(next) => add_tokens(grm, stable, sets, next),
        Action::Error if is_met(sets, state, token) => { add_tokens(grm, stable, sets, state) }
        Action::Error | Action::Reduce(_) | Action::Accept => false,
    }
}

// Adds all tokens to those of the state, and returns whether any was new.
fn add_tokens<StorageT: StorageIndex>(
    grm: &YaccGrammar<StorageT>,
    stable: &StateTable<StorageT>,
    sets: &mut [TokenSet],
    state: StIdx<StorageT>,
) -> bool
    requires state { StorageT.index state.0 < states_len stable.now }
    requires looks { (t : ℕ) → t < stable.now.tokens → LooksAt grm.now stable.now (StorageT.index state.0) t }
    requires right { AreRight grm.now stable.now sets.old }
    ensures right { AreRight grm.now stable.now sets.new }
    ensures grown { OnTrue result (MeetsMore sets.old sets.new) }
    ensures same { OnFalse result (sets.new ≡ sets.old) }
    ensures closed { OnFalse result (MeetsAll sets.new stable.now.tokens (StorageT.index state.0)) }
{
    let mut grown = false;
    for token in 0..stable.tokens_len() {
        if add_token(sets, usize::from(state), token) {
            grown = true;
        }
    }
    grown
}

// Adds the token to those of the state, and returns whether it was new.
fn add_token(sets: &mut [TokenSet], state: usize, token: usize) -> bool
    requires room { HasRoomFor sets.old state token }
    ensures right { StayRightWith state token sets.old sets.new }
    ensures grown { OnTrue result (MeetsMore sets.old sets.new) }
    ensures same { OnFalse result (sets.new ≡ sets.old) }
    ensures closed { OnFalse result (IsTrue (is_met sets.new state token)) }
{
    if sets[state].contains(token) {
        return false;
    }
    sets[state].insert(token);
    true
}

// Whether a run is known to look at the token in the state.
fn is_met<StorageT: StorageIndex>(
    sets: &[TokenSet],
    state: StIdx<StorageT>,
    token: TIdx<StorageT>,
) -> bool
    ensures { result ≡ is_met sets.now (StorageT.index state.0) (StorageT.index token.0) }
{
    match sets.get(usize::from(state)) {
        Some(tokens) => tokens.contains(usize::from(token)),
        None => false,
    }
}

/// Whether a run is known to look at a token in the state at which that has no action.
pub(crate) fn stops_in<StorageT: StorageIndex>(
    stable: &StateTable<StorageT>,
    sets: &[TokenSet],
    state: StIdx<StorageT>,
) -> bool
    requires state { StorageT.index state.0 < states_len stable.now }
    ensures { IsTrue result ↔ StopsIn stable.now sets.now (StorageT.index state.0) }
{
    for number in 0..stable.tokens_len() {
        let token = TIdx(StorageT::from_index(number).unwrap());
        if stops_at(stable, sets, state, token) {
            return true;
        }
    }
    false
}

// Whether a run is known to look at the token in the state, which has no action at it.
fn stops_at<StorageT: StorageIndex>(
    stable: &StateTable<StorageT>,
    sets: &[TokenSet],
    state: StIdx<StorageT>,
    token: TIdx<StorageT>,
) -> bool
    requires state { StorageT.index state.0 < states_len stable.now }
    requires token { StorageT.index token.0 < stable.now.tokens }
    ensures { IsTrue result ↔ StopsAt stable.now sets.now (StorageT.index state.0) (StorageT.index token.0) }
{
    stable.action(state, token) == Action::Error && is_met(sets, state, token)
}
