//! Few names for the tokens that are expected.
ghost use Rattle.std.specs.Prelude.{◌≡◌, ◌≤◌, ◌||◌, ℕ, All, IfOk, filter, length, not};
ghost use Rattle.std.specs.List.Sorted.{IsPermutation};
ghost use Rattle.lrpar_grammar.specs.Tokens.{IsEmptySet, has};
ghost use Rattle.lrpar_names.specs.Choosing.{AreChosen, AreTokensBelow, FindsNameable, rule_numbers, token_numbers};

use crate::first_tokens::FirstTokens;
use crate::names::Names;
use lrpar_grammar::token_set::TokenSet;
use lrpar_grammar_places::span::{RIdx, StorageIndex, TIdx};
use std::alloc::{AllocError, Global};

/// Names for what is expected: rules, and the tokens with which none of them can begin.
#[derive(Debug)]
pub struct Choices<StorageT: StorageIndex> {
    /// Rules with names for people.
    pub rules: Vec<RIdx<StorageT>>,
    /// The other tokens.
    pub tokens: Vec<TIdx<StorageT>>,
}

// With its own `Drop`, a function that drops one proves one call.
impl<StorageT: StorageIndex> Drop for Choices<StorageT> {
    fn drop(self) {
        let Choices { rules, tokens } = self;
        drop(rules);
        drop(tokens);
    }
}

impl FirstTokens {
    ghost use Rattle.lrpar_names.specs.Choices.{AreAllNeeded, AreApart, CoverExpected, KeepOthers, LeaveNoneOut, NameCandidates};

    /// Few names for the expected tokens. A rule is named if it is a candidate, has a name for people, can begin with a token, and all
    /// tokens with which it can begin are expected. The rules that can begin with the most tokens come first, and of these the rule with
    /// the least number. A rule is left out if the rules before it can begin with each of its tokens. The rules after it aren't looked
    /// at, so a rule may stay whose tokens all belong to others. The tokens are the expected ones with which no named rule can begin, in
    /// their order.
    ///
    /// With n candidates, e expected tokens and t tokens in the grammar it takes O(e + n t log n) time, and memory for the candidates and
    /// the tokens.
    pub fn choose_names<StorageT: StorageIndex>(
        &self,
        alloc: Global,
        names: &Names,
        candidates: &[RIdx<StorageT>],
        expected: &[TIdx<StorageT>],
    ) -> Result<Choices<StorageT>, AllocError>
        ensures cover { IfOk result (CoverExpected StorageT.index self.now expected.now) }
        ensures candidates { IfOk result (NameCandidates StorageT.index self.now names.now candidates.now expected.now) }
        ensures complete { IfOk result (LeaveNoneOut StorageT.index self.now names.now candidates.now expected.now) }
        ensures needed { IfOk result (AreAllNeeded StorageT.index self.now) }
        ensures others { IfOk result (KeepOthers StorageT.index self.now expected.now) }
        ensures apart { IfOk result (AreApart StorageT.index self.now) }
    {
        let wanted = set_of(alloc, self.tokens, expected)?;
        let order = by_falling_size(alloc, &self.sets, candidates)?;
        let mut covered = TokenSet::new(alloc, self.tokens)?;
        let rules = choose_rules(alloc, &self.sets, names, &order, &wanted, &mut covered)?;
        let tokens = tokens_outside(alloc, expected, &covered)?;
        Ok(Choices { rules, tokens })
    }
}

// The tokens below `len`, as a set.
fn set_of<StorageT: StorageIndex>(
    alloc: Global,
    len: usize,
    tokens: &[TIdx<StorageT>],
) -> Result<TokenSet, AllocError>
    ensures { IfOk result (λ set. AreTokensBelow len (token_numbers StorageT.index tokens.now) set) }
{
    let mut set = TokenSet::new(alloc, len)?;
    'tokens: for token in tokens {
        let number = usize::from(*token);
        if number < len {
            set.insert(number);
        }
    }
    Ok(set)
}

// The candidates by how many tokens they can begin with, the most first, and then by their numbers.
fn by_falling_size<StorageT: StorageIndex>(
    alloc: Global,
    sets: &[TokenSet],
    candidates: &[RIdx<StorageT>],
) -> Result<Vec<RIdx<StorageT>>, AllocError>
    ensures { IfOk result (λ order. IsPermutation candidates.now order.items) }
{
    let mut order = Vec::from_slice(alloc, candidates)?;
    order.sort_by_key(|rule| (missing_count(sets, *rule), *rule))?;
    Ok(order)
}

// With how many tokens the rule can't begin.
fn missing_count<StorageT: StorageIndex>(sets: &[TokenSet], rule: RIdx<StorageT>) -> usize {
    match sets.get(usize::from(rule)) {
        Some(set) => (0..set.len()).filter(|token| !set.contains(*token)).count(),
        None => usize::MAX,
    }
}

// The rules that are chosen, in this order. `covered`, which is empty at first, gets the tokens with which they can begin.
fn choose_rules<StorageT: StorageIndex>(
    alloc: Global,
    sets: &[TokenSet],
    names: &Names,
    order: &[RIdx<StorageT>],
    wanted: &TokenSet,
    covered: &mut TokenSet,
) -> Result<Vec<RIdx<StorageT>>, AllocError>
    requires room { All (λ row. length row ≡ length covered.old) sets.now }
    requires none { IsEmptySet covered.old }
    ensures { IfOk result (λ rules. AreChosen sets.now names.now wanted.now (rule_numbers StorageT.index order.now)
        (rule_numbers StorageT.index rules.items) covered.new) }
{
    let mut rules = Vec::new(alloc);
    'order: for rule in order {
        let Some(set) = nameable(sets, names, *rule, wanted) else {
            continue;
        };
        if covered.covers(set) {
            continue;
        }
        rules.push(*rule)?;
        add_all(covered, set);
    }
    Ok(rules)
}

// The tokens with which the rule can begin, if it can be named.
fn nameable<'s, StorageT: StorageIndex>(
    sets: &'s [TokenSet],
    names: &Names,
    rule: RIdx<StorageT>,
    wanted: &TokenSet,
) -> Option<&'s TokenSet>
    ensures { FindsNameable sets.now names.now wanted.now (StorageT.index rule.0) result }
{
    let set = sets.get(usize::from(rule))?;
    if names.rule(rule).is_some() && set.has_any() && wanted.covers(set) {
        Some(set)
    } else {
        None
    }
}

// Adds all tokens of the set.
fn add_all(covered: &mut TokenSet, set: &TokenSet)
    requires { length set.now ≤ length covered.old }
    ensures room { length covered.new ≡ length covered.old }
    ensures tokens { (t : ℕ) → has covered.new t ≡ (has covered.old t || has set.now t) }
{
    let _grown = covered.unite_below(set, set.len());
}

// The tokens that aren't in the set, in their order.
fn tokens_outside<StorageT: StorageIndex>(
    alloc: Global,
    tokens: &[TIdx<StorageT>],
    set: &TokenSet,
) -> Result<Vec<TIdx<StorageT>>, AllocError>
    ensures { IfOk result (λ others. others.items ≡ filter (λ token. not (has set.now (StorageT.index token.0))) tokens.now) }
{
    tokens
        .iter()
        .copied()
        .filter(|token| !set.contains(usize::from(*token)))
        .collect(alloc)
}
