//! The precedences that a `.y` file declares, by the numbers of tokens and productions.
ghost use Rattle.std.specs.Prelude.{◌≡◌, ◌++◌, IfErr, IfOk, OnOk, map, option_map};
ghost use Rattle.lrpar_grammar_bison_rules.specs.Rules.{alternative_of, item_of};
ghost use Rattle.lrpar_grammar_words.specs.Words.{placed as text_placed};
ghost use Rattle.lrpar_grammar_bison_parts.specs.Precedences.{AppendsPrecWords, ArePrecWords, AreProdSlots, AreRanks, AreTokenSlots, HasNoRepeatedRank, HasPrecWord, IsProdSlot, IsRank, IsRankFault, MapsRankList, is_prec, last_slot, symbols_in};

use crate::faults::BisonFault;
use crate::midrules::action_count;
use crate::symbols::symbol_word;
use lrpar_grammar_bison::words::Word;
use lrpar_grammar_bison_rules::rules::{Alternative, Item, RankedWord};
use lrpar_grammar_bison_rules::word_order::ItemKind;
use lrpar_grammar_places::span::{Span, StorageIndex, Symbol};
use lrpar_grammar_reader::parts::{ProdPart, TokenPart};
use lrpar_grammar_words::words as text;
use lrpar_table_precedence::precedence::{Precedence, slot_at};
use std::alloc::{AllocError, Global};
use std::collections::BTreeMap;

/// A token with a precedence, as a word of a grammar text.
#[derive(Clone, Copy)]
pub struct Rank<'a> {
    pub word: text::Word<'a>,
    pub precedence: Precedence,
}

/// The tokens with a precedence.
pub fn rank_list<'a>(
    alloc: Global,
    ranked: &[RankedWord<'a>],
    aliases: &BTreeMap<&'a str, Word<'a>>,
) -> Result<Vec<Rank<'a>>, AllocError>
    ensures { IfOk result (AreRanks aliases.now ranked.now) }
{
    let mut ranks = Vec::with_capacity(alloc, ranked.len())?;
    for entry in ranked {
        ranks.push(Rank {
            word: symbol_word(entry.word, aliases),
            precedence: entry.precedence,
        })?;
    }
    Ok(ranks)
}

/// The precedences by the names of tokens. Fails with `RepeatedPrecedence` at the first token that has one already, or with `Memory`.
pub fn rank_map<'a>(
    alloc: Global,
    ranks: &[Rank<'a>],
) -> Result<BTreeMap<&'a str, Precedence>, BisonFault>
    ensures found { IfOk result (MapsRankList ranks.now) }
    ensures distinct { OnOk result (HasNoRepeatedRank ranks.now) }
    ensures fault { IfErr result (IsRankFault ranks.now) }
{
    let mut found = BTreeMap::new(alloc);
    for rank in ranks {
        if found.contains_key(rank.word.name) {
            return Err(BisonFault::RepeatedPrecedence(rank.word.span()));
        }
        found.insert(rank.word.name, rank.precedence)?;
    }
    Ok(found)
}

/// The precedence of each token.
pub fn token_slots(
    alloc: Global,
    tokens: &[TokenPart],
    found: &BTreeMap<&str, Precedence>,
) -> Result<Vec<Option<Precedence>>, AllocError>
    ensures { IfOk result (AreTokenSlots found.now tokens.now) }
{
    let mut slots = Vec::with_capacity(alloc, tokens.len())?;
    for token in tokens {
        slots.push(rank_of(token.name.as_str(), found))?;
    }
    Ok(slots)
}

// The precedence of the token with that name.
fn rank_of(name: &str, found: &BTreeMap<&str, Precedence>) -> Option<Precedence>
    ensures { IsRank found.now name.now result }
{
    match found.get(name) {
        Some(precedence) => Some(*precedence),
        None => None,
    }
}

/// The symbol of the `%prec` of each production, if it has one. Rules for actions come before the alternative of these, and
/// have none.
pub fn prec_words<'a>(
    alloc: Global,
    alternatives: &[Alternative<'a>],
    aliases: &BTreeMap<&'a str, Word<'a>>,
) -> Result<Vec<Option<text::Word<'a>>>, AllocError>
    ensures { IfOk result (ArePrecWords aliases.now alternatives.now) }
{
    let mut words = Vec::with_capacity(alloc, alternatives.len())?;
    for alternative in alternatives {
        push_prec_words(&mut words, &alternative.items, aliases)?;
    }
    Ok(words)
}

// Appends nothing for each action of an alternative, and then the symbol of its `%prec`, if it has one.
fn push_prec_words<'a>(
    words: &mut Vec<Option<text::Word<'a>>>,
    items: &[Item<'a>],
    aliases: &BTreeMap<&'a str, Word<'a>>,
) -> Result<(), AllocError>
    ensures { OnOk result (AppendsPrecWords aliases.now items.now words.old words.new) }
{
    for _ in 0..action_count(items) {
        words.push(None)?;
    }
    words.push(prec_word(items, aliases))?;
    Ok(())
}

// The symbol of the first `%prec` among the parts of an alternative.
fn prec_word<'a>(
    items: &[Item<'a>],
    aliases: &BTreeMap<&'a str, Word<'a>>,
) -> Option<text::Word<'a>>
    ensures { HasPrecWord aliases.now items.now result }
{
    for item in items {
        if is_prec(item.kind) {
            return Some(symbol_word(item.word, aliases));
        }
    }
    None
}

/// Whether the part is the symbol of a `%prec`.
pub fn is_prec(kind: ItemKind) -> bool
    ensures { result ≡ is_prec kind }
{
    matches!(kind, ItemKind::Prec)
}

/// The precedence of each production: that of the symbol of its `%prec`; without one that of its last token, if that is the default.
pub fn prod_slots<'a, StorageT: StorageIndex>(
    alloc: Global,
    prods: &[ProdPart<StorageT>],
    words: &[Option<text::Word<'a>>],
    ranks: TokenRanks<'a, '_>,
) -> Result<Vec<Option<Precedence>>, AllocError>
    ensures { IfOk result (AreProdSlots StorageT.index ranks.entry words.now prods.now) }
{
    let mut slots = Vec::with_capacity(alloc, prods.len())?;
    for (i, prod) in prods.iter().enumerate() {
        let word = if i < words.len() { words[i] } else { None };
        slots.push(prod_slot(&prod.symbols, word, ranks))?;
    }
    Ok(slots)
}

/// The precedences of tokens, by their names and by their numbers, and whether a production has that of its last token.
#[derive(Clone, Copy)]
pub struct TokenRanks<'a, 'b> {
    pub by_name: &'b BTreeMap<&'a str, Precedence>,
    pub by_number: &'b [Option<Precedence>],
    pub is_default: bool,
}

// The precedence of a production with these symbols, and with that symbol in its `%prec`, if it has one.
fn prod_slot<StorageT: StorageIndex>(
    symbols: &[(Symbol<StorageT>, Span)],
    word: Option<text::Word<'_>>,
    ranks: TokenRanks<'_, '_>,
) -> Option<Precedence>
    ensures { IsProdSlot StorageT.index ranks.entry symbols.now word.entry result }
{
    match word {
        Some(word) => rank_of(word.name, ranks.by_name),
        None if ranks.is_default => last_slot(symbols, ranks.by_number),
        None => None,
    }
}

// The precedence of the last token among the symbols.
fn last_slot<StorageT: StorageIndex>(
    symbols: &[(Symbol<StorageT>, Span)],
    slots: &[Option<Precedence>],
) -> Option<Precedence>
    ensures { result ≡ last_slot slots.now (symbols_in StorageT.index symbols.now) }
{
    let mut last = None;
    for (symbol, _) in symbols {
        if let Symbol::Token(token) = symbol {
            last = slot_at(slots, usize::from(*token));
        }
    }
    last
}
