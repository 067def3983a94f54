//! Sets of tokens, one for each rule.
ghost use Rattle.std.specs.Prelude.{◌≡◌, IfOk, IsTrue};
ghost use Rattle.lrpar_table_pops.specs.Growth.{AddsAll, HaveRoomFor, KeepRoom};
ghost use Rattle.std.specs.Bool.{OnFalse};
ghost use Rattle.lrpar_grammar.specs.Tokens.{has};
ghost use Rattle.lrpar_table_pops.specs.Sets.{AddsOnlyToken, AddsOnlyTokens, HaveNoTokens};
ghost use Rattle.lrpar_table_pops.specs.Room.{GainsToken};

use lrpar_grammar::grammar::YaccGrammar;
use lrpar_grammar::span::StorageIndex;
use lrpar_grammar::token_set::TokenSet;
use std::alloc::{AllocError, Global};

/// For each rule of the grammar a set without tokens.
pub(crate) fn empty_sets<StorageT: StorageIndex>(
    alloc: Global,
    grm: &YaccGrammar<StorageT>,
) -> Result<Vec<TokenSet>, AllocError>
    ensures none { IfOk result (λ sets. HaveNoTokens sets.items) }
    ensures room { IfOk result (λ sets. HaveRoomFor grm.now sets.items) }
{
    let mut sets = Vec::new(alloc);
    'rules: for _ in 0..grm.rules_len() {
        let set = TokenSet::new(alloc, grm.tokens_len())?;
        sets.push(set)?;
    }
    Ok(sets)
}

/// Adds the tokens that there is room for. Returns whether any was new.
pub(crate) fn unite(tokens: &mut TokenSet, others: &TokenSet) -> bool
    ensures adds { AddsOnlyTokens tokens.old tokens.new others.now }
    ensures all { AddsAll (λ t. IsTrue (has others.now t)) tokens.old tokens.new }
    ensures grown { GainsToken tokens.old tokens.new result }
    ensures same { OnFalse result (tokens.new ≡ tokens.old) }
{
    let end = tokens.len();
    tokens.unite_below(others, end)
}

/// Adds the token, if there is room for it.
pub(crate) fn insert(tokens: &mut TokenSet, token: usize)
    ensures adds { AddsOnlyToken tokens.old tokens.new token }
    ensures all { AddsAll (λ t. t ≡ token) tokens.old tokens.new }
{
    if token < tokens.len() {
        tokens.insert(token);
    }
}

/// Adds the token, if it is no member and there is room for it. Returns whether it was added.
pub(crate) fn insert_new(tokens: &mut TokenSet, token: usize) -> bool
    ensures adds { AddsOnlyToken tokens.old tokens.new token }
    ensures all { AddsAll (λ t. t ≡ token) tokens.old tokens.new }
    ensures grown { GainsToken tokens.old tokens.new result }
    ensures same { OnFalse result (tokens.new ≡ tokens.old) }
{
    if token >= tokens.len() || tokens.contains(token) {
        return false;
    }
    tokens.insert(token);
    true
}

/// Removes all tokens.
pub(crate) fn clear_sets(sets: &mut Vec<TokenSet>)
    ensures none { HaveNoTokens sets.new.items }
    ensures room { KeepRoom sets.old.items sets.new.items }
{
    for place in 0..sets.len() {
        sets[place].clear();
    }
}
