//! Levels of precedence: their tokens, and the productions that name one of them.
ghost use Rattle.std.specs.Prelude.{◌<◌, IsTrue, ◌↔◌, OnOk, length};
ghost use Rattle.lrpar_table_levels.specs.Stored.{AppendsTokens, AreBelow, AreKnown, AreLevelsKnown, AreNamedBelow, HaveTokensBelow, IsOfLevel, ListsNamed, ListsTokens};

use lrpar_grammar::grammar::YaccGrammar;
use lrpar_grammar::span::{PIdx, StorageIndex, TIdx};
use lrpar_table_precedence::precedence::{AssocKind, Precedence};
use std::alloc::{AllocError, Global};

/// A level of precedence: how its tokens associate, and its tokens. It may have none: a production can name it all the same.
#[derive(Debug, Drop)]
pub struct Level<StorageT: StorageIndex> {
    pub kind: AssocKind,
    pub tokens: Vec<TIdx<StorageT>>,
}

// Whether each token and each production is one of the grammar, and each level that a production names is there.
pub(crate) fn are_within<StorageT: StorageIndex>(
    grm: &YaccGrammar<StorageT>,
    levels: &[Level<StorageT>],
    named: &[(PIdx<StorageT>, usize)],
) -> bool
    ensures { IsTrue result ↔ AreKnown StorageT.index grm.now levels.now named.now }
{
    all_tokens_within(levels, grm.tokens_len())
        && all_named_within(named, grm.prods_len(), levels.len())
}

// Whether each token of the levels is below the number.
fn all_tokens_within<StorageT: StorageIndex>(levels: &[Level<StorageT>], tokens: usize) -> bool
    ensures { IsTrue result ↔ HaveTokensBelow StorageT.index tokens levels.now }
{
    levels
        .iter()
        .all(|level| are_tokens_within(&level.tokens, tokens))
}

// Whether each token is below the number.
fn are_tokens_within<StorageT: StorageIndex>(level: &[TIdx<StorageT>], tokens: usize) -> bool
    ensures { IsTrue result ↔ AreBelow StorageT.index tokens level.now }
{
    level.iter().all(|token| usize::from(*token) < tokens)
}

// Whether each production and each level that it names are below these numbers.
fn all_named_within<StorageT: StorageIndex>(
    named: &[(PIdx<StorageT>, usize)],
    prods: usize,
    levels: usize,
) -> bool
    ensures { IsTrue result ↔ AreNamedBelow StorageT.index prods levels named.now }
{
    named.iter().all(|(prod, level)| usize::from(*prod) < prods && *level < levels)
}

// The tokens of the levels, each with its precedence.
pub(crate) fn entries_of_tokens<StorageT: StorageIndex>(
    alloc: Global,
    levels: &[Level<StorageT>],
) -> Result<Vec<(usize, Precedence)>, AllocError>
    ensures { ListsTokens StorageT.index levels.now result }
{
    let mut entries = Vec::new(alloc);
    for number in 0..levels.len() {
        let precedence = precedence_of(levels, number);
        push_tokens(&levels[number].tokens, precedence, &mut entries)?;
    }
    Ok(entries)
}

// The precedence of a level.
fn precedence_of<StorageT: StorageIndex>(levels: &[Level<StorageT>], level: usize) -> Precedence
    requires { level < length levels.now }
    ensures { IsOfLevel StorageT.index levels.now level result }
{
    let kind = levels[level].kind;
    Precedence { level, kind }
}

// Appends the tokens, each with the precedence.
fn push_tokens<StorageT: StorageIndex>(
    tokens: &[TIdx<StorageT>],
    precedence: Precedence,
    entries: &mut Vec<(usize, Precedence)>,
) -> Result<(), AllocError>
    ensures { OnOk result (AppendsTokens StorageT.index precedence tokens.now entries.old entries.new) }
{
    for token in tokens {
        entries.push((usize::from(*token), precedence))?;
    }
    Ok(())
}

// The productions that name a level, each with the level's precedence.
pub(crate) fn entries_of_prods<StorageT: StorageIndex>(
    alloc: Global,
    levels: &[Level<StorageT>],
    named: &[(PIdx<StorageT>, usize)],
) -> Result<Vec<(usize, Precedence)>, AllocError>
    requires { AreLevelsKnown StorageT.index levels.now named.now }
    ensures { ListsNamed StorageT.index levels.now named.now result }
{
    let mut entries = Vec::with_capacity(alloc, named.len())?;
    for entry in named {
        let (prod, level) = *entry;
        entries.push((usize::from(prod), precedence_of(levels, level)))?;
    }
    Ok(entries)
}
