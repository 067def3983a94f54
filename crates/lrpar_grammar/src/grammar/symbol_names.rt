//! The numbers of symbols by their names, and of the productions that texts spell.
ghost use Rattle.std.specs.Prelude.{◌≡◌, ◌≤◌, IfOk, length};
ghost use Rattle.lrpar_grammar.specs.Spelled.{is_colon, is_name, named_symbols};
ghost use Rattle.lrpar_grammar.specs.Stored.{row_in};
ghost use Rattle.lrpar_grammar.specs.SymbolNames.{AreNamedBy, AreNumbersOf, AreRuleNames, AreSpelledBy, AreSymbolNames, HasFirstFrom, number_of_word};

use super::value::YaccGrammar;
use lrpar_grammar_places::span::{RIdx, StorageIndex};
use lrpar_grammar_words::word_list::read_words;
use lrpar_grammar_words::words::{Word, WordKind};
use std::alloc::{AllocError, Global};
use std::collections::BTreeMap;
use std::marker::Model;

// The names of all symbols by their numbers, the rules before the tokens; and a look-up by name.
pub(super) struct SymbolNames<'a> {
    names: Vec<&'a str>,
    rules: usize,
    // the first symbol with that name
    symbols: BTreeMap<&'a str, usize>,
    // the first token with that name
    tokens: BTreeMap<&'a str, usize>,
}

// Hand-written, so that code that drops names needs the proof of one call only.
impl<'a> Drop for SymbolNames<'a> {
    fn drop(self) {
        let SymbolNames {
            names,
            rules: _,
            symbols,
            tokens,
        } = self;
        drop(names);
        drop(symbols);
        drop(tokens);
    }
}

impl<'a> Model for SymbolNames<'a> {
    ghost use Rattle.std.specs.Prelude.{drop, map};
    ghost use Rattle.lrpar_grammar.specs.Spelled.{NamedSymbols};
    ghost use Rattle.lrpar_grammar.specs.SymbolNames.{AreFirst};

    ghost Value = { NamedSymbols };

    ghost view = { λ s. record { rules = s.rules; names = map (λ x. x.now) s.names.items } };

    ghost invariant = { λ s. AreFirst s.symbols 0 (map (λ x. x.now) s.names.items)
        × AreFirst s.tokens s.rules (drop s.rules (map (λ x. x.now) s.names.items)) };
}

impl<'a> SymbolNames<'a> {
    // The names of a grammar's rules and tokens. Takes logarithmic time for each.
    pub(super) fn new<StorageT: StorageIndex>(
        alloc: Global,
        grm: &'a YaccGrammar<StorageT>,
    ) -> Result<Self, AllocError>
        ensures { IfOk result (λ names. names ≡ named_symbols grm.now) }
    {
        let names = symbol_names(alloc, grm)?;
        let rules = grm.rules_len();
        let symbols = first_numbers(alloc, &names, 0)?;
        let tokens = first_numbers(alloc, &names, rules)?;
        Ok(SymbolNames {
            names,
            rules,
            symbols,
            tokens,
        })
    }

    // The production that the text spells, as numbers of symbols. `None` if it doesn't have the form of one.
    pub(super) fn numbers_of(
        &self,
        alloc: Global,
        text: &str,
    ) -> Result<Option<Vec<usize>>, AllocError>
        ensures { IfOk result (λ found. AreNumbersOf self.now text.now (row_in found)) }
    {
        match read_words(alloc, text)? {
            Some(words) => self.numbers_spelled(alloc, &words),
            None => Ok(None),
        }
    }

    // The numbers that words of a production spell: a rule's name, a colon, and names.
    fn numbers_spelled(
        &self,
        alloc: Global,
        words: &[Word],
    ) -> Result<Option<Vec<usize>>, AllocError>
        ensures { IfOk result (AreSpelledBy self.now words.now) }
    {
        match words {
            [rule, colon, symbols @ ..] if is_name(rule.kind) && is_colon(colon.kind) => {
                self.numbers_named(alloc, rule, symbols)
            }
            _ => Ok(None),
        }
    }

    // The numbers of a rule and of symbols by their names. `None` if one of them is no name of a symbol.
    fn numbers_named(
        &self,
        alloc: Global,
        rule: &Word,
        symbols: &[Word],
    ) -> Result<Option<Vec<usize>>, AllocError>
        ensures { IfOk result (AreNamedBy self.now rule.now symbols.now) }
    {
        let Some(number) = self.number_named(rule) else {
            return Ok(None);
        };
        let mut numbers = Vec::new(alloc);
        numbers.push(number)?;
        for word in symbols {
            let Some(number) = self.number_named(word) else {
                return Ok(None);
            };
            numbers.push(number)?;
        }
        Ok(Some(numbers))
    }

    // The number of the symbol that the word names.
    fn number_named(&self, word: &Word) -> Option<usize>
        ensures { result ≡ number_of_word self.now word.now }
    {
        match word.kind {
            WordKind::Name => self.symbols.get(word.name).copied(),
            WordKind::Quoted => self.tokens.get(word.name).copied(),
            _ => None,
        }
    }
}

// Whether the word is an unquoted name.
fn is_name(kind: WordKind) -> bool
    ensures { result ≡ is_name kind }
{
    matches!(kind, WordKind::Name)
}

// Whether the word is a colon.
fn is_colon(kind: WordKind) -> bool
    ensures { result ≡ is_colon kind }
{
    matches!(kind, WordKind::Colon)
}

// The names of a grammar's rules, and then those of its tokens.
fn symbol_names<'a, StorageT: StorageIndex>(
    alloc: Global,
    grm: &'a YaccGrammar<StorageT>,
) -> Result<Vec<&'a str>, AllocError>
    ensures { IfOk result (AreSymbolNames grm.now) }
{
    let mut names = rule_names(alloc, grm)?;
    let tokens = grm.tokens_map(alloc)?;
    for (name, _) in &tokens {
        names.push(*name)?;
    }
    Ok(names)
}

// The names of a grammar's rules.
fn rule_names<'a, StorageT: StorageIndex>(
    alloc: Global,
    grm: &'a YaccGrammar<StorageT>,
) -> Result<Vec<&'a str>, AllocError>
    ensures { IfOk result (AreRuleNames grm.now) }
{
    let mut names = Vec::with_capacity(alloc, grm.rules_len())?;
    for number in 0..grm.rules_len() {
        let ridx = RIdx(StorageT::from_index(number).unwrap());
        names.push(grm.rule_name_str(ridx))?;
    }
    Ok(names)
}

// For each of the names from the number `from` on, the first of these that is it.
fn first_numbers<'a>(
    alloc: Global,
    names: &[&'a str],
    from: usize,
) -> Result<BTreeMap<&'a str, usize>, AllocError>
    requires { from ≤ length names.now }
    ensures { IfOk result (HasFirstFrom from names.now) }
{
    let mut numbers = BTreeMap::new(alloc);
    for number in (from..names.len()).rev() {
        numbers.insert(names[number], number)?;
    }
    Ok(numbers)
}
