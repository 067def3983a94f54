//! The parts of a grammar, made of its declarations and rules.
ghost use Rattle.std.specs.Prelude.{◌≡◌, ◌<◌, ◌↔◌, IfOk, IsTrue, length, true};
ghost use Rattle.lrpar_grammar_words.specs.Outline.{alternative_of, outline_of};
ghost use Rattle.lrpar_grammar_reader.specs.Names.{is_among};
ghost use Rattle.lrpar_grammar_reader.specs.Spells.{IsClean, alternative_span, printed_text, rule_number, token_number};
ghost use Rattle.lrpar_grammar_reader.specs.TextNames.{AreAllNumbered, AreNumberedWords, AreRules, FitsBelow, HasNumbering, HasRoom, HasRoomFor, IsNumbered, IsNumberedWord, IsStartRule, Represents, numbering_by};
ghost use Rattle.lrpar_grammar_reader.specs.TextParts.{ArePlacedAs, AreProdsOf, AreRulesOf, AreSpelledParts, RepresentEach, AreTokensOf, IsProdOf, IsRuleOf, IsTokenOf};
ghost use Rattle.lrpar_grammar_reader.specs.TextWords.{AreEppsOf, AreInOrder, HasDefinedRules, HasSymbolsInOrder, IsInOrder};

use crate::names::Names;
use crate::parts::{GrammarParts, ProdPart, RulePart, TokenPart, can_number};
use crate::tables::{Tables, is_token};
use lrpar_grammar_places::span::{RIdx, Span, StorageIndex, Symbol, TIdx};
use lrpar_grammar_words::outline::{Alternative, Outline};
use lrpar_grammar_words::words::Word;
use std::alloc::{AllocError, Global};

/// The parts of the grammar that clean declarations and rules spell.
pub fn spelled_parts<StorageT: StorageIndex>(
    alloc: Global,
    outline: &Outline,
    tables: &Tables,
) -> Result<GrammarParts<StorageT>, AllocError>
    requires numbering { HasNumbering outline.now tables.now }
    requires epps { AreEppsOf outline.now (tables.now).epps }
    requires clean { IsClean (outline_of outline.now) }
    requires rules { HasDefinedRules outline.now }
    requires order { HasSymbolsInOrder outline.now }
    requires fit { FitsBelow StorageT.limit outline.now }
    ensures { IfOk result (AreSpelledParts StorageT.index outline.now) }
{
    Ok(GrammarParts {
        rules: rule_parts(alloc, tables.rules.words())?,
        tokens: token_parts(alloc, tables.tokens.words(), &tables.epps, outline)?,
        prods: prod_parts(alloc, &outline.alternatives, tables)?,
        start: start_rule(&outline.starts, tables),
    })
}

/// Whether the storage type can number all rules, tokens and productions, with what the grammar adds to them.
pub fn fit<StorageT: StorageIndex>(outline: &Outline, tables: &Tables) -> bool
    ensures { IsTrue result ↔ HasRoomFor StorageT.limit outline.now tables.now }
{
    can_number::<StorageT>(
        tables.rules.len(),
        tables.tokens.len(),
        outline.alternatives.len(),
    )
}

// The rule after `%start`, else the first rule.
fn start_rule<StorageT: StorageIndex>(starts: &[Word], tables: &Tables) -> RIdx<StorageT>
    requires room { HasRoom StorageT.limit tables.now }
    requires some { 0 < length (numbering_by tables.now).rules }
    requires known { AreRules tables.now starts.now }
    ensures { IsStartRule StorageT.index tables.now starts.now result }
{
    match starts.first() {
        Some(word) => rule_idx(&tables.rules, word.name),
        None => RIdx(StorageT::from_index(1).unwrap()),
    }
}

// The rules, in the order of their numbers.
fn rule_parts(alloc: Global, words: &[Word]) -> Result<Vec<RulePart>, AllocError>
    ensures { IfOk result (AreRulesOf words.now) }
{
    let mut parts = Vec::with_capacity(alloc, words.len())?;
    for word in words {
        parts.push(rule_part(alloc, word)?)?;
    }
    Ok(parts)
}

// A rule, with its name and place.
fn rule_part(alloc: Global, word: &Word) -> Result<RulePart, AllocError>
    ensures { IfOk result (IsRuleOf word.now) }
{
    Ok(RulePart {
        name: String::from_str(alloc, word.name)?,
        span: word.span(),
    })
}

// The tokens, in the order of their numbers, with their printed texts.
fn token_parts(
    alloc: Global,
    words: &[Word],
    epps: &Names,
    outline: &Outline,
) -> Result<Vec<TokenPart>, AllocError>
    requires { AreEppsOf outline.now epps.now }
    ensures { IfOk result (AreTokensOf outline.now words.now) }
{
    let mut parts = Vec::with_capacity(alloc, words.len())?;
    for word in words {
        parts.push(token_part(alloc, word, epps, outline)?)?;
    }
    Ok(parts)
}

// A token, with its name, its printed text and its place.
fn token_part(
    alloc: Global,
    word: &Word,
    epps: &Names,
    outline: &Outline,
) -> Result<TokenPart, AllocError>
    requires { AreEppsOf outline.now epps.now }
    ensures { IfOk result (IsTokenOf outline.now word.now) }
{
    Ok(TokenPart {
        name: String::from_str(alloc, word.name)?,
        epp: Some(String::from_str(alloc, printed_text(word.name, epps, outline))?),
        span: word.span(),
    })
}

// The text that is printed for a token of that name.
fn printed_text<'a>(name: &'a str, epps: &Names, outline: &'a Outline) -> &'a str
    requires { AreEppsOf outline.now epps.now }
    ensures { result.now ≡ printed_text (outline_of outline.now) name.now }
{
    match epps.number(name) {
        Some(number) => match outline.epp_texts.get(number) {
            Some(text) => text.name,
            None => name,
        },
        None => name,
    }
}

// The productions, in the order of the text.
fn prod_parts<StorageT: StorageIndex>(
    alloc: Global,
    alternatives: &[Alternative],
    tables: &Tables,
) -> Result<Vec<ProdPart<StorageT>>, AllocError>
    requires room { HasRoom StorageT.limit tables.now }
    requires known { AreAllNumbered tables.now alternatives.now }
    requires order { AreInOrder alternatives.now }
    ensures { IfOk result (AreProdsOf StorageT.index tables.now alternatives.now) }
{
    let mut parts = Vec::with_capacity(alloc, alternatives.len())?;
    for alternative in alternatives {
        parts.push(prod_part(alloc, alternative, tables)?)?;
    }
    Ok(parts)
}

// An alternative as a production.
fn prod_part<StorageT: StorageIndex>(
    alloc: Global,
    alternative: &Alternative,
    tables: &Tables,
) -> Result<ProdPart<StorageT>, AllocError>
    requires room { HasRoom StorageT.limit tables.now }
    requires known { IsNumbered tables.now alternative.now }
    requires order { IsInOrder alternative.now }
    ensures { IfOk result (IsProdOf StorageT.index tables.now alternative.now) }
{
    Ok(ProdPart {
        rule: rule_idx(&tables.rules, alternative.rule.name),
        symbols: symbols(alloc, &alternative.symbols, tables)?,
        span: prod_span(alternative),
    })
}

// The place of a production.
fn prod_span(alternative: &Alternative) -> Span
    requires { IsInOrder alternative.now }
    ensures { result ≡ alternative_span (alternative_of alternative.now) }
{
    match (alternative.symbols.first(), alternative.symbols.last()) {
        (Some(first), Some(last)) => Span::new(first.span().start(), last.span().end()),
        _ => {
            let end = alternative.end.span().start();
            Span::new(end, end)
        }
    }
}

// The symbols of a production, each with its place.
fn symbols<StorageT: StorageIndex>(
    alloc: Global,
    words: &[Word],
    tables: &Tables,
) -> Result<Vec<(Symbol<StorageT>, Span)>, AllocError>
    requires room { HasRoom StorageT.limit tables.now }
    requires known { AreNumberedWords tables.now words.now }
    ensures symbols { IfOk result (RepresentEach StorageT.index tables.now words.now) }
    ensures spans { IfOk result (ArePlacedAs words.now) }
{
    let mut pairs = Vec::with_capacity(alloc, words.len())?;
    for word in words {
        pairs.push((symbol(word, tables), word.span()))?;
    }
    Ok(pairs)
}

// The symbol that a word represents.
fn symbol<StorageT: StorageIndex>(word: &Word, tables: &Tables) -> Symbol<StorageT>
    requires room { HasRoom StorageT.limit tables.now }
    requires known { IsNumberedWord tables.now word.now }
    ensures { Represents StorageT.index tables.now word.now result }
{
    if is_token(word, &tables.declared) {
        Symbol::Token(token_idx(&tables.tokens, word.name))
    } else {
        Symbol::Rule(rule_idx(&tables.rules, word.name))
    }
}

// The number of a rule. The added rule is number 0.
fn rule_idx<StorageT: StorageIndex>(rules: &Names, name: &str) -> RIdx<StorageT>
    requires room { length rules.now < StorageT.limit }
    requires known { is_among name.now rules.now ≡ true }
    ensures { StorageT.index result.0 ≡ rule_number rules.now name.now }
{
    match rules.number(name) {
        Some(number) => RIdx(StorageT::from_index(number + 1).unwrap()),
        None => unreachable!(),
    }
}

// The number of a token.
fn token_idx<StorageT: StorageIndex>(tokens: &Names, name: &str) -> TIdx<StorageT>
    requires room { length tokens.now < StorageT.limit }
    requires known { is_among name.now tokens.now ≡ true }
    ensures { StorageT.index result.0 ≡ token_number tokens.now name.now }
{
    match tokens.number(name) {
        Some(number) => TIdx(StorageT::from_index(number).unwrap()),
        None => unreachable!(),
    }
}
