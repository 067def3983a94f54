//! The exits of a stack's top from which a run goes on to accept, whatever comes next.
ghost use Rattle.std.specs.Prelude.{◌≡◌, ◌<◌, ◌≤◌, IfOk, IfSome, []};
ghost use Rattle.std.specs.Bool.{OnFalse, OnTrue};
ghost use Rattle.std.specs.Prelude.{ℕ, IsTrue, None, Some, slice_get};
ghost use Rattle.lrpar_grammar.specs.Tokens.{has};
ghost use Rattle.lrpar_table_pops.specs.AllGood.{IsGoodExit};
ghost use Rattle.lrpar_table_pops.specs.FoundAll.{SetsGrowBy};
ghost use Rattle.lrpar_table_pops.specs.Growth.{GrowsBy, HasLookahead, IsStored, SomeHasLookahead, ways_of};
ghost use Rattle.lrpar_table_pops.specs.declared.exits.Way.{Way};
ghost use Rattle.lrpar_table_pops.specs.declared.exits.Way.TheVariants.{Reduction};
ghost use Rattle.lrpar_grammar.specs.Grammar.{prods_len, rule_of};
ghost use Rattle.lrpar_table_rows.specs.StoredRows.{IsActionAt};
ghost use Rattle.lrpar_table_pops.specs.Exits.{AddsOnly, HasExit, LeavesIn, control_of};
ghost use Rattle.lrpar_table_pops.specs.Good.{AddsTokenBy, AllGoOn, AreGoodOver, GoesOn, LeadBoth, SomeGoesOn};
ghost use Rattle.lrpar_table_pops.specs.Pops.{Done, Dropping};
ghost use Rattle.lrpar_table_pops.specs.Sets.{room_in, tokens_by};
ghost use Rattle.lrpar_table_pops.specs.StoredPops.{at_of};
ghost use Rattle.lrpar_table_pops.specs.Automaton.{AddsByGotoIn, AreAllGoodTokens, AreReductionsClosedIn, ArePopsIn, AreTokensClosedIn, FindsGood, HasAllAboveIn, HasState, HaveRoomIn, IsTokenClosedIn, IsNeverGood, IsPartWith, KeepsReductionsIn, LeadToReductionsIn, ReadsOnIn};
ghost use Rattle.lrpar_table_pops.specs.Room.{SetsGrow};

use crate::automaton::Automaton;
use crate::exits::{Exit, Exits, Way};
use crate::found::rule_number;
use crate::pops::Pops;
use crate::sets::{clear_sets, insert_new};
use lrpar_grammar::grammar::YaccGrammar;
use lrpar_grammar::span::{StIdx, StorageIndex, TIdx};
use lrpar_grammar::token_set::TokenSet;
use lrpar_table_rows::table::{Action, StateTable};
use std::alloc::{AllocError, Global};

/// The good exits of the start state alone: a run has accepted.
pub(crate) fn good_at_start<StorageT: StorageIndex>(
    alloc: Global,
    checked: &Automaton<'_, StorageT>,
) -> Result<Exits, AllocError>
    ensures good { IfOk result (AreGoodOver checked.now.grammar checked.now.table []) }
    ensures all { IfOk result (λ good. IsStored checked.now.grammar good Done) }
{
    let mut good = Exits::new(alloc, checked, checked.stable().start_state())?;
    good.insert(Way::Acceptance, usize::from(checked.grm().eof_token_idx()));
    Ok(good)
}

/// Sets the lookaheads of each rule at which it can be reduced on top of a stack, with the state on top, so that a run goes on to accept, by
/// the good exits of the state. Only lookaheads at which the part of the table has actions are looked at.
pub(crate) fn set_good_reductions<StorageT: StorageIndex>(
    checked: &Automaton<'_, StorageT>,
    part: &StateTable<StorageT>,
    pops: &Pops,
    state: StIdx<StorageT>,
    good: &Exits,
    reduced: &mut Vec<TokenSet>,
)
    requires part { IsPartWith checked.now part.now pops.now }
    requires state { HasState StorageT.index checked.now state }
    requires room { HaveRoomIn checked.now reduced.old }
    ensures good { LeadToReductionsIn StorageT.index checked.now state good.now reduced.new }
    ensures room { HaveRoomIn checked.now reduced.new }
    ensures all { AreReductionsClosedIn StorageT.index checked.now part.now pops.now state good.now reduced.new }
{
    clear_sets(reduced);
    'passes: while add_all(checked, part, pops, state, good, reduced) {}
}

// Adds the reductions, by each goto of the state, after which a run takes the state off by a good exit. Returns whether any was new.
fn add_all<StorageT: StorageIndex>(
    checked: &Automaton<'_, StorageT>,
    part: &StateTable<StorageT>,
    pops: &Pops,
    state: StIdx<StorageT>,
    good: &Exits,
    reduced: &mut Vec<TokenSet>,
) -> bool
    requires part { IsPartWith checked.now part.now pops.now }
    requires state { HasState StorageT.index checked.now state }
    ensures keeps { KeepsReductionsIn StorageT.index checked.now state good.now reduced.old reduced.new }
    ensures sets { SetsGrow result reduced.old reduced.new }
    ensures all { OnFalse result (AreReductionsClosedIn StorageT.index checked.now part.now pops.now state good.now reduced.old) }
{
    let (rules, nexts) = checked.stable().gotos_of(state);
    let mut grown = false;
    'gotos: for (place, rule) in rules.iter().enumerate() {
        let next = nexts[place];
        if add_by_goto(checked, part, pops, usize::from(*rule), next, good, reduced) {
            grown = true;
        }
    }
    grown
}

// Adds the reductions to the rule after which a run takes the state below by a good exit, if that has this goto by the rule. Returns whether
// any was new.
fn add_by_goto<StorageT: StorageIndex>(
    checked: &Automaton<'_, StorageT>,
    part: &StateTable<StorageT>,
    pops: &Pops,
    rule: usize,
    next: StIdx<StorageT>,
    good: &Exits,
    reduced: &mut Vec<TokenSet>,
) -> bool
    requires part { IsPartWith checked.now part.now pops.now }
    requires next { HasState StorageT.index checked.now next }
    ensures keeps { AddsByGotoIn StorageT.index checked.now good.now rule next reduced.old reduced.new }
    ensures sets { SetsGrow result reduced.old reduced.new }
    ensures all { OnFalse result (AreTokensClosedIn StorageT.index checked.now part.now pops.now good.now rule next reduced.old) }
{
    let (tokens, actions) = part.actions_of(next);
    let mut grown = false;
    'tokens: for (place, token) in tokens.iter().enumerate() {
        if add_token(
            checked,
            pops,
            rule,
            next,
            *token,
            actions[place],
            good,
            reduced,
        ) {
            grown = true;
        }
    }
    grown
}

// Adds the reduction to the rule at the token, where state `next` acts so, if a run takes the state below by a good exit after it. Returns
// whether it was new.
fn add_token<StorageT: StorageIndex>(
    checked: &Automaton<'_, StorageT>,
    pops: &Pops,
    rule: usize,
    next: StIdx<StorageT>,
    token: TIdx<StorageT>,
    action: Action<StorageT>,
    good: &Exits,
    reduced: &mut Vec<TokenSet>,
) -> bool
    requires pops { ArePopsIn checked.now pops.now }
    requires next { HasState StorageT.index checked.now next }
    requires action { IsActionAt StorageT.index checked.now.table next token action }
    ensures keeps { AddsByGotoIn StorageT.index checked.now good.now rule next reduced.old reduced.new }
    ensures sets { SetsGrow result reduced.old reduced.new }
    ensures all { OnFalse result (IsTokenClosedIn StorageT.index checked.now pops.now good.now rule next token reduced.old) }
{
    if has_token(reduced, rule, usize::from(token)) {
        return false;
    }
    if !reads_on(checked, pops, next, token, action, good, reduced) {
        return false;
    }
    insert_by(reduced, rule, usize::from(token))
}

// Whether the token is one of the rule's.
fn has_token(reduced: &[TokenSet], rule: usize, token: usize) -> bool
    ensures { result ≡ has (tokens_by reduced.now rule) token }
{
    match reduced.get(rule) {
        Some(tokens) => tokens.contains(token),
        None => false,
    }
}

// Adds the token to those of the rule. Returns whether it was new.
fn insert_by(reduced: &mut Vec<TokenSet>, rule: usize, token: usize) -> bool
    ensures adds { AddsTokenBy reduced.old.items reduced.new.items rule token }
    ensures all { SetsGrowBy (λ r t. (r ≡ rule) × (t ≡ token)) reduced.old.items reduced.new.items }
    ensures same { OnFalse result (reduced.new.items ≡ reduced.old.items) }
    ensures room { room_in reduced.new.items ≤ room_in reduced.old.items }
    ensures grown { OnTrue result (room_in reduced.new.items < room_in reduced.old.items) }
{
    if rule >= reduced.len() {
        return false;
    }
    insert_new(&mut reduced[rule], token)
}

// Whether a run that reads the token, with state `next` on top, takes that state off, and goes on to accept.
fn reads_on<StorageT: StorageIndex>(
    checked: &Automaton<'_, StorageT>,
    pops: &Pops,
    next: StIdx<StorageT>,
    token: TIdx<StorageT>,
    action: Action<StorageT>,
    good: &Exits,
    reduced: &[TokenSet],
) -> bool
    requires pops { ArePopsIn checked.now pops.now }
    requires next { HasState StorageT.index checked.now next }
    requires action { IsActionAt StorageT.index checked.now.table next token action }
    ensures reads { OnTrue result (ReadsOnIn StorageT.index checked.now good.now reduced.now next token) }
    ensures all { FindsGood StorageT.index checked.now pops.now next token action good.now reduced.now result }
{
    let grm = checked.grm();
    // The proof needs that the table is safe.
    let _lemma = checked.stable();
    match action {
        Action::Error => false,
        Action::Accept => is_good_at(grm, Way::Acceptance, usize::from(token), good, reduced),
        Action::Shift(_) => has_good_pop(grm, pops, next, usize::from(token), good, reduced),
        Action::Reduce(prod) => {
            let symbols = grm.prod(prod).len();
            if symbols == 0 {
                has_good_pop(grm, pops, next, usize::from(token), good, reduced)
            } else {
                let (prod, left) = (usize::from(prod), symbols - 1);
                let way = Way::Reduction { prod, left };
                is_good_at(grm, way, usize::from(token), good, reduced)
            }
        }
    }
}

// Whether the state has a good exit at the token.
fn has_good_pop<StorageT: StorageIndex>(
    grm: &YaccGrammar<StorageT>,
    pops: &Pops,
    state: StIdx<StorageT>,
    token: usize,
    good: &Exits,
    reduced: &[TokenSet],
) -> bool
    ensures good { OnTrue result (SomeGoesOn grm.now good.now reduced.now (HasExit (at_of pops.now (StorageT.index state.0) token))) }
    ensures all { (way : Way) (t : ℕ) → HasLookahead (at_of pops.now (StorageT.index state.0) token) way t → IsGoodExit grm.now good.now reduced.now way t → IsTrue result }
{
    match pops.at(state, token) {
        Some(above) => has_good(grm, above, good, reduced),
        None => false,
    }
}

// Whether one of the exits of the state above is good.
fn has_good<StorageT: StorageIndex>(
    grm: &YaccGrammar<StorageT>,
    above: &Exits,
    good: &Exits,
    reduced: &[TokenSet],
) -> bool
    ensures good { OnTrue result (SomeGoesOn grm.now good.now reduced.now (HasExit above.now)) }
    ensures all { (way : Way) (t : ℕ) → SomeHasLookahead above.now way t → IsGoodExit grm.now good.now reduced.now way t → IsTrue result }
{
    for place in 0..above.len() {
        if is_good(grm, above.get(place), good, reduced) {
            return true;
        }
    }
    false
}

// Whether the exit of the state above is good with one of its lookaheads.
fn is_good<StorageT: StorageIndex>(
    grm: &YaccGrammar<StorageT>,
    exit: &Exit,
    good: &Exits,
    reduced: &[TokenSet],
) -> bool
    ensures good { OnTrue result (SomeGoesOn grm.now good.now reduced.now (LeavesIn exit.now.way exit.now.tokens)) }
    ensures all { (t : ℕ) → IsTrue (has exit.now.tokens t) → IsGoodExit grm.now good.now reduced.now exit.now.way t → IsTrue result }
{
    match good_tokens(grm, exit.way, good, reduced) {
        Some(tokens) => tokens.has_common(&exit.tokens),
        None => false,
    }
}

// Whether the exit of the state above this way, at the token, is good.
fn is_good_at<StorageT: StorageIndex>(
    grm: &YaccGrammar<StorageT>,
    way: Way,
    token: usize,
    good: &Exits,
    reduced: &[TokenSet],
) -> bool
    ensures good { OnTrue result (GoesOn grm.now good.now reduced.now (control_of way token)) }
    ensures all { IsGoodExit grm.now good.now reduced.now way token → IsTrue result }
{
    match good_tokens(grm, way, good, reduced) {
        Some(tokens) => tokens.contains(token),
        None => false,
    }
}

// The lookaheads at which the exit of the state above this way is good.
fn good_tokens<'a, StorageT: StorageIndex>(
    grm: &YaccGrammar<StorageT>,
    way: Way,
    good: &'a Exits,
    reduced: &'a [TokenSet],
) -> Option<&'a TokenSet>
    ensures good { IfSome result (λ tokens. AllGoOn grm.now good.now reduced.now (control_of way) tokens.now) }
    ensures all { IfSome result (λ tokens. AreAllGoodTokens grm.now good.now reduced.now way tokens.now) }
    ensures none { result ≡ None → IsNeverGood grm.now good.now reduced.now way }
{
    match way {
        Way::Acceptance => good.tokens_at(Way::Acceptance),
        Way::Reduction { prod, left } => good_drops(grm, prod, left, good, reduced),
    }
}

// The lookaheads at which a run that reduces by the production is good, if it first drops this number of states, beginning with this one.
fn good_drops<'a, StorageT: StorageIndex>(
    grm: &YaccGrammar<StorageT>,
    prod: usize,
    symbols: usize,
    good: &'a Exits,
    reduced: &'a [TokenSet],
) -> Option<&'a TokenSet>
    ensures good { IfSome result (λ tokens. AllGoOn grm.now good.now reduced.now (Dropping prod symbols) tokens.now) }
    ensures all { IfSome result (λ tokens. AreAllGoodTokens grm.now good.now reduced.now (Reduction prod symbols) tokens.now) }
    ensures none { result ≡ None → IsNeverGood grm.now good.now reduced.now (Reduction prod symbols) }
{
    if symbols == 0 {
        good_here(grm, prod, reduced)
    } else {
        let left = symbols - 1;
        good.tokens_at(Way::Reduction { prod, left })
    }
}

// The lookaheads at which a reduction by the production is good.
fn good_here<'a, StorageT: StorageIndex>(
    grm: &YaccGrammar<StorageT>,
    prod: usize,
    reduced: &'a [TokenSet],
) -> Option<&'a TokenSet>
    ensures tokens { IfSome result (λ tokens. tokens.now ≡ tokens_by reduced.now (rule_of grm.now prod)) }
    ensures none { result ≡ None → (t : ℕ) → prod < prods_len grm.now → ¬ (IsTrue (has (tokens_by reduced.now (rule_of grm.now prod)) t)) }
{
    match rule_number(grm, prod) {
        Some(rule) => reduced.get(rule),
        None => None,
    }
}

/// The good exits of state `next` on top of a stack, by the good exits of the stack's top and the good reductions on top of the stack.
pub(crate) fn good_above<StorageT: StorageIndex>(
    alloc: Global,
    checked: &Automaton<'_, StorageT>,
    good: &Exits,
    reduced: &[TokenSet],
    next: StIdx<StorageT>,
) -> Result<Exits, AllocError>
    requires { HasState StorageT.index checked.now next }
    ensures good { IfOk result (LeadBoth checked.now.grammar checked.now.table good.now reduced.now) }
    ensures all { IfOk result (HasAllAboveIn StorageT.index checked.now next good.now reduced.now) }
{
    let grm = checked.grm();
    // The proof needs that the item sets have the table's states.
    let _lemma = checked.stable();
    let mut above = Exits::new(alloc, checked, next)?;
    for place in 0..above.len() {
        add_good(grm, &mut above, place, good, reduced);
    }
    Ok(above)
}

// Adds the lookaheads at which the exit at this place is good.
fn add_good<StorageT: StorageIndex>(
    grm: &YaccGrammar<StorageT>,
    above: &mut Exits,
    place: usize,
    good: &Exits,
    reduced: &[TokenSet],
)
    ensures good { AddsOnly (GoesOn grm.now good.now reduced.now) above.old above.new }
    ensures ways { ways_of above.new ≡ ways_of above.old }
    ensures all { GrowsBy (λ w t. (slice_get (ways_of above.old) place ≡ Some w) × IsGoodExit grm.now good.now reduced.now w t) above.old above.new }
{
    if place < above.len() {
        let way = above.get(place).way;
        if let Some(tokens) = good_tokens(grm, way, good, reduced) {
            above.unite(way, tokens);
        }
    }
}
