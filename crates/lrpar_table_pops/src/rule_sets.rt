//! Sets of tokens by rules, which are emptied in the time that those take that have tokens.
ghost use Rattle.std.specs.Prelude.{◌≡◌, ◌≢◌, ◌<◌, ◌⊎◌, ℕ, false, IfOk, IsTrue, length};
ghost use Rattle.std.specs.Bool.{OnFalse};
ghost use Rattle.std.specs.List.{Contains};
ghost use Rattle.lrpar_grammar.specs.Tokens.{has};
ghost use Rattle.lrpar_table_pops.specs.Growth.{AddsAll, HaveRoomFor, KeepRoom};
ghost use Rattle.lrpar_table_pops.specs.Room.{GainsToken};
ghost use Rattle.lrpar_table_pops.specs.Sets.{AddsOnlyToken, AddsOnlyTokens, HaveNoTokens, HaveTokensAlone, ReplacesTokens, tokens_by};

use crate::sets::{clear_sets, empty_sets, insert, insert_new, unite};
use lrpar_grammar::grammar::YaccGrammar;
use lrpar_grammar::span::StorageIndex;
use lrpar_grammar::token_set::TokenSet;
use std::alloc::{AllocError, Global};
use std::marker::Model;

/// A set of tokens for each rule.
pub(crate) struct RuleSets {
    sets: Vec<TokenSet>,
    /// The rules whose sets may have tokens.
    rules: Vec<usize>,
    /// Whether others may have some, too, as there was no memory to list them.
    is_short: bool,
}

impl Drop for RuleSets {
    fn drop(self) {
        let RuleSets {
            sets,
            rules,
            is_short: _,
        } = self;
        drop(sets);
        drop(rules);
    }
}

impl Model for RuleSets {
    ghost use Rattle.lrpar_table_pops.specs.Sets.{HaveTokensAlone, RuleTokens};

    ghost Value = { RuleTokens };

    ghost view = { λ sets. record { items = sets.sets.items } };

    ghost invariant = { λ sets. HaveTokensAlone sets.sets.items sets.rules.items sets.is_short };
}

impl RuleSets {
    /// For each rule of the grammar a set without tokens.
    pub(crate) fn new<StorageT: StorageIndex>(
        alloc: Global,
        grm: &YaccGrammar<StorageT>,
    ) -> Result<Self, AllocError>
        ensures none { IfOk result (λ sets. HaveNoTokens sets.items) }
        ensures room { IfOk result (λ sets. HaveRoomFor grm.now sets.items) }
    {
        let sets = empty_sets(alloc, grm)?;
        Ok(RuleSets {
            sets,
            rules: Vec::new(alloc),
            is_short: false,
        })
    }

    /// How many rules there are.
    pub(crate) fn len(&self) -> usize
        ensures { result ≡ length self.now.items }
    {
        self.sets.len()
    }

    /// The tokens of the rule.
    pub(crate) fn get(&self, rule: usize) -> &TokenSet
        requires { rule < length self.now.items }
        ensures { result.now ≡ tokens_by self.now.items rule }
    {
        &self.sets[rule]
    }

    /// Adds the token to those of the rule, if there is room for it.
    pub(crate) fn insert(&mut self, rule: usize, token: usize)
        requires { rule < length self.old.items }
        ensures adds { ReplacesTokens (λ old new. AddsOnlyToken old new token × AddsAll (λ t. t ≡ token) old new) rule self.old.items self.new.items }
    {
        note_rule(&self.sets[rule], &mut self.rules, &mut self.is_short, rule);
        insert(&mut self.sets[rule], token);
    }

    /// Adds the token to those of the rule, if it isn't one of them and there is room for it. Returns whether it was added.
    pub(crate) fn insert_new(&mut self, rule: usize, token: usize) -> bool
        requires { rule < length self.old.items }
        ensures adds { ReplacesTokens (λ old new. AddsOnlyToken old new token × AddsAll (λ t. t ≡ token) old new × GainsToken old new result) rule self.old.items self.new.items }
        ensures same { OnFalse result (self.new ≡ self.old) }
    {
        note_rule(&self.sets[rule], &mut self.rules, &mut self.is_short, rule);
        insert_new(&mut self.sets[rule], token)
    }

    /// Adds the tokens to those of the rule that there is room for.
    pub(crate) fn unite(&mut self, rule: usize, tokens: &TokenSet)
        requires { rule < length self.old.items }
        ensures adds { ReplacesTokens (λ old new. AddsOnlyTokens old new tokens.now × AddsAll (λ t. IsTrue (has tokens.now t)) old new) rule self.old.items self.new.items }
    {
        note_rule(&self.sets[rule], &mut self.rules, &mut self.is_short, rule);
        unite(&mut self.sets[rule], tokens);
    }

    /// Removes all tokens.
    pub(crate) fn clear(&mut self)
        ensures none { HaveNoTokens self.new.items }
        ensures room { KeepRoom self.old.items self.new.items }
    {
        if self.is_short {
            clear_sets(&mut self.sets);
        } else {
            clear_sets_of(&mut self.sets, &self.rules);
        }
        self.rules.clear();
        self.is_short = false;
    }
}

// Adds the rule with these tokens to the rules, if it has none yet; without memory for it, some are left out from then on.
fn note_rule(tokens: &TokenSet, rules: &mut Vec<usize>, is_short: &mut bool, rule: usize)
    ensures kept { (r : ℕ) → Contains rules.old.items r ⊎ IsTrue is_short.old → Contains rules.new.items r ⊎ IsTrue is_short.new }
    ensures noted { ((t : ℕ) → IsTrue (has tokens.now t) → Contains rules.old.items rule ⊎ IsTrue is_short.old) → Contains rules.new.items rule ⊎ IsTrue is_short.new }
{
    if tokens.has_any() {
        return;
    }
    if rules.push(rule).is_err() {
        *is_short = true;
    }
}

// Removes the tokens of these rules, which have all that there are.
fn clear_sets_of(sets: &mut Vec<TokenSet>, rules: &[usize])
    requires { HaveTokensAlone sets.old.items rules.now false }
    ensures none { HaveNoTokens sets.new.items }
    ensures room { KeepRoom sets.old.items sets.new.items }
{
    for place in 0..rules.len() {
        clear_set(sets, rules[place]);
    }
}

// Removes the tokens of the rule.
fn clear_set(sets: &mut Vec<TokenSet>, rule: usize)
    ensures none { (t : ℕ) → ¬ (IsTrue (has (tokens_by sets.new.items rule) t)) }
    ensures others { (r : ℕ) → r ≢ rule → tokens_by sets.new.items r ≡ tokens_by sets.old.items r }
    ensures room { KeepRoom sets.old.items sets.new.items }
{
    if rule < sets.len() {
        sets[rule].clear();
    }
}
