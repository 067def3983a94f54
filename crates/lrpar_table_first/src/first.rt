//! FIRST sets of rules, and which rules are nullable.
ghost use Rattle.std.specs.Prelude.{◌≡◌, ◌<◌, ◌+◌, IfOk, length};
ghost use Rattle.std.specs.Bool.{OnFalse, OnTrue};
ghost use Rattle.lrpar_grammar.specs.Grammar.{IsWellFormed, prods_len};
ghost use Rattle.lrpar_table_first.specs.Stored.{AddsBefore, AddsFirst, AreClosed, AreEmpty, AreFirstsOf, AreSymbolsBelow, AreSymbolsOf, AreWide, HaveFirsts, HaveGrown, HaveRoomFor, HaveSpace, IsClosedFor, IsWide, KeepRoom, KeepTokens, StaySound};

use lrpar_grammar::grammar::YaccGrammar;
use lrpar_grammar::span::{PIdx, StorageIndex, Symbol};
use lrpar_grammar::token_set::TokenSet;
use std::alloc::{AllocError, Global};

/// The FIRST set of each rule: the tokens that it can begin with. The number of tokens, which is no token's number, serves as
/// dummy lookahead: the set of a nullable rule has it.
pub fn first_sets<StorageT: StorageIndex>(
    alloc: Global,
    grm: &YaccGrammar<StorageT>,
) -> Result<Vec<TokenSet>, AllocError>
    ensures { IfOk result (HaveFirsts grm.now) }
{
    let _lemma = grm.start_prod();
    let mut sets = empty_sets(alloc, grm)?;
    let mut front = TokenSet::new(alloc, grm.tokens_len() + 1)?;
    'passes: while grow_all(grm, &mut sets, &mut front) {}
    Ok(sets)
}

/// An empty set for each rule.
pub fn empty_sets<StorageT: StorageIndex>(
    alloc: Global,
    grm: &YaccGrammar<StorageT>,
) -> Result<Vec<TokenSet>, AllocError>
    ensures room { IfOk result (HaveSpace grm.now) }
    ensures none { IfOk result (λ sets. AreEmpty sets.items) }
{
    let mut sets = Vec::with_capacity(alloc, grm.rules_len())?;
    for _ in 0..grm.rules_len() {
        sets.push(TokenSet::new(alloc, grm.tokens_len() + 1)?)?;
    }
    Ok(sets)
}

/// Empties the sets.
pub fn clear_all(sets: &mut [TokenSet])
    ensures none { AreEmpty sets.new }
    ensures room { KeepRoom sets.old sets.new }
{
    for rule in 0..sets.len() {
        sets[rule].clear();
    }
}

// Adds the FIRST set of each production, by the sets so far, to the set of its rule, and returns whether anything was new.
// `front` is scratch space.
fn grow_all<StorageT: StorageIndex>(
    grm: &YaccGrammar<StorageT>,
    sets: &mut [TokenSet],
    front: &mut TokenSet,
) -> bool
    requires well_formed { IsWellFormed grm.now }
    requires room { AreWide grm.now sets.old front.old }
    ensures room { AreWide grm.now sets.new front.new }
    ensures sound { StaySound grm.now sets.old sets.new }
    ensures grown { OnTrue result (HaveGrown sets.old sets.new) }
    ensures closed { OnFalse result (AreClosed grm.now sets.new) }
{
    let mut grown = false;
    for prod in 0..grm.prods_len() {
        let pidx = PIdx(StorageT::from_index(prod).unwrap());
        if grow(grm, pidx, sets, front) {
            grown = true;
        }
    }
    grown
}

// Adds the FIRST set of the production, by the sets so far, to the set of its rule, and returns whether anything was new.
fn grow<StorageT: StorageIndex>(
    grm: &YaccGrammar<StorageT>,
    pidx: PIdx<StorageT>,
    sets: &mut [TokenSet],
    front: &mut TokenSet,
) -> bool
    requires prod { StorageT.index pidx.0 < prods_len grm.now }
    requires well_formed { IsWellFormed grm.now }
    requires room { AreWide grm.now sets.old front.old }
    ensures room { AreWide grm.now sets.new front.new }
    ensures sound { StaySound grm.now sets.old sets.new }
    ensures grown { OnTrue result (HaveGrown sets.old sets.new) }
    ensures same { OnFalse result (KeepTokens sets.old sets.new) }
    ensures closed { OnFalse result (IsClosedFor StorageT.index grm.now sets.new pidx) }
{
    let dummy = grm.tokens_len();
    front.clear();
    add_first(sets, grm.prod(pidx), dummy, front);
    let rule = usize::from(grm.prod_to_rule(pidx));
    sets[rule].unite_below(front, dummy + 1)
}

/// Adds First(symbols, a) to `set` for each token a of `after`: nothing, if `after` is empty. `front` is scratch space.
pub fn add_first_before<StorageT: StorageIndex>(
    grm: &YaccGrammar<StorageT>,
    sets: &[TokenSet],
    symbols: &[Symbol<StorageT>],
    after: &TokenSet,
    front: &mut TokenSet,
    set: &mut TokenSet,
)
    requires firsts { AreFirstsOf grm.now sets.now }
    requires symbols { AreSymbolsOf StorageT.index grm.now symbols.now }
    requires after { IsWide grm.now after.now }
    requires front { IsWide grm.now front.old }
    requires set { IsWide grm.now set.old }
    ensures front { IsWide grm.now front.new }
    ensures set { IsWide grm.now set.new }
    ensures tokens { AddsBefore StorageT.index grm.now after.now symbols.now set.old set.new }
{
    if !after.has_any() {
        return;
    }
    let dummy = grm.tokens_len();
    front.clear();
    add_first(sets, symbols, dummy, front);
    let _new = set.unite_below(front, dummy);
    if front.contains(dummy) {
        let _more = set.unite_below(after, dummy + 1);
    }
}

/// Adds the FIRST set of the symbols to `front`, computed from the set of each rule; and the dummy lookahead, if all symbols are
/// nullable by these sets.
pub fn add_first<StorageT: StorageIndex>(
    sets: &[TokenSet],
    symbols: &[Symbol<StorageT>],
    dummy: usize,
    front: &mut TokenSet,
)
    requires rules { AreSymbolsBelow StorageT.index (length sets.now) dummy symbols.now }
    requires wide { HaveRoomFor dummy sets.now }
    requires front { length front.old ≡ dummy + 1 }
    ensures front { length front.new ≡ dummy + 1 }
    ensures tokens { AddsFirst StorageT.index dummy sets.now symbols.now front.old front.new }
{
    for symbol in symbols {
        match *symbol {
            Symbol::Token(token) => {
                front.insert(usize::from(token));
                return;
            }
            Symbol::Rule(rule) => {
                let set = &sets[usize::from(rule)];
                let _grown = front.unite_below(set, dummy);
                if !set.contains(dummy) {
                    return;
                }
            }
        }
    }
    front.insert(dummy);
}
