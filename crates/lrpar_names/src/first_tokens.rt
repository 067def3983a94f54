//! The tokens with which each rule can begin.
ghost use Rattle.std.specs.Prelude.{IfOk};
ghost use Rattle.lrpar_names.specs.FirstTokens.{AreBitsBelow, AreFirstTokens, AreRowsBelow};

use lrpar_grammar::grammar::YaccGrammar;
use lrpar_grammar::token_set::TokenSet;
use lrpar_grammar_places::span::StorageIndex;
use lrpar_table_first::first::first_sets;
use std::alloc::{AllocError, Global};
use std::marker::Model;

/// The tokens with which each rule of a grammar can begin.
pub struct FirstTokens {
    pub(crate) tokens: usize,
    pub(crate) sets: Vec<TokenSet>,
}

// With its own `Drop`, a function that drops one proves one call.
impl Drop for FirstTokens {
    fn drop(self) {
        let FirstTokens { tokens: _, sets } = self;
        drop(sets);
    }
}

impl Model for FirstTokens {
    ghost use Rattle.std.specs.Prelude.{◌≡◌, All, Bool, List, length};

    ghost Value = { List (List Bool) };

    ghost view = { λ first. first.sets.items };

    ghost invariant = { λ first. All (λ row. length row ≡ first.tokens) first.sets.items };
}

impl FirstTokens {
    /// The tokens with which each rule of the grammar can begin: its FIRST set. Takes memory for each pair of a rule and a token, one bit
    /// each, and the time of `first_sets`.
    pub fn new<StorageT: StorageIndex>(
        alloc: Global,
        grm: &YaccGrammar<StorageT>,
    ) -> Result<Self, AllocError>
        ensures { IfOk result (λ first. AreFirstTokens grm.now first) }
    {
        let tokens = grm.tokens_len();
        let firsts = first_sets(alloc, grm)?;
        let sets = sets_below(alloc, &firsts, tokens)?;
        Ok(FirstTokens { tokens, sets })
    }
}

// The tokens of each set below `end`.
fn sets_below(alloc: Global, sets: &[TokenSet], end: usize) -> Result<Vec<TokenSet>, AllocError>
    ensures { IfOk result (λ below. AreRowsBelow sets.now end below.items) }
{
    let mut below = Vec::with_capacity(alloc, sets.len())?;
    'sets: for set in sets {
        below.push(set_below(alloc, set, end)?)?;
    }
    Ok(below)
}

// The tokens of the set below `end`.
fn set_below(alloc: Global, set: &TokenSet, end: usize) -> Result<TokenSet, AllocError>
    ensures { IfOk result (λ below. AreBitsBelow set.now end below) }
{
    let mut below = TokenSet::new(alloc, end)?;
    let _grown = below.unite_below(set, end);
    Ok(below)
}
