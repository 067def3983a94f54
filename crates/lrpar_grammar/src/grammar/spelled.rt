//! The productions of a grammar, as a caller lists them by their texts.
ghost use Rattle.std.specs.Prelude.{◌≡◌, ◌<◌, ◌≤◌, [], None, IfErr, IfOk, OnOk, slice_index_or};
ghost use Rattle.lrpar_grammar_reader.specs.Symbols.{symbol_of};
ghost use Rattle.lrpar_grammar.specs.Matching.{IsMatched, prods_of, texts_of};
ghost use Rattle.lrpar_grammar.specs.Spelled.{AreNumberedProds, AreProdNumbers, IsListing, SpellEach, symbol_number};
ghost use Rattle.lrpar_grammar.specs.SpelledFaults.{AreUnlisted, IsMissingOf, IsSpelledFault, IsTextFault};
ghost use Rattle.lrpar_grammar.specs.Stored.{texts_in};

use super::matching::{Matching, Misfit};
use super::spelled_fault::SpelledFault;
use super::symbol_names::SymbolNames;
use super::value::YaccGrammar;
use lrpar_grammar_places::span::{PIdx, StorageIndex, Symbol};
use std::alloc::{AllocError, Global};
use std::marker::{Model, PhantomData};

/// The productions of a grammar by their places in a caller's list of texts, as `YaccGrammar::prods_spelled` gives them.
#[derive(Debug)]
pub struct Spelled<StorageT: StorageIndex> {
    places: Vec<Option<usize>>,
    kind: PhantomData<StorageT>,
}

// An `impl Drop` of its own, so that a function that drops a value proves one call only.
impl<StorageT: StorageIndex> Drop for Spelled<StorageT> {
    fn drop(self) {
        let Spelled { places, kind: _ } = self;
        drop(places);
    }
}

impl<StorageT: StorageIndex> Model for Spelled<StorageT> {
    ghost use Rattle.std.specs.Prelude.{ℕ, List, Option};

    ghost Value = { List (Option ℕ) };

    ghost view = { λ s. s.places.items };
}

impl<StorageT: StorageIndex> Spelled<StorageT> {
    /// The place in the list, counted from 0, of the text that spells the production. `None` for the start production, and for a
    /// number that is no production of the grammar. Takes constant time.
    pub fn of(&self, pidx: PIdx<StorageT>) -> Option<usize>
        ensures { result ≡ slice_index_or self.now (StorageT.index pidx.0) None }
    {
        self.of_number(usize::from(pidx))
    }

    /// Where the text of the production with this number is in the list. Takes constant time.
    pub fn of_number(&self, production: usize) -> Option<usize>
        ensures { result ≡ slice_index_or self.now production None }
    {
        match self.places.get(production) {
            Some(place) => *place,
            None => None,
        }
    }
}

impl<StorageT: StorageIndex> YaccGrammar<StorageT> {
    ghost use Rattle.lrpar_grammar_reader.specs.Grammar.{IsWellFormed, prods_len, rules_len, start_prod};

    /// The productions by their places in a list of texts, so that a caller can match on places in a list of its own instead of
    /// numbers, which shift if the grammar changes.
    ///
    /// Each production but the start production is listed once, in any order. A text is a rule's name, a colon and the names of
    /// the symbols: `Expr: Expr 'OR' And`, or `Where:` for an empty right side. Words, blanks and comments are those of grammar
    /// texts. A name in quotes is that of a token; any other name is that of the rule or, if there is none, of the token. If rules or
    /// tokens share a name, it is that of the first. Productions that are spelled alike are listed as often as they are there, and
    /// get their places in order.
    ///
    /// Fails with the first text that is wrong: `Unknown` if it spells no production, `Repeated` if the list has it more
    /// often than the grammar. Fails with `Missing` if all texts are right, for the first production that has none; and with
    /// `Memory` if an allocation fails. Takes memory linear in the grammar and the list, and time linear in these but for
    /// names and productions: each of these is looked up in logarithmic time.
    pub fn prods_spelled(
        &self,
        alloc: Global,
        texts: &[&str],
    ) -> Result<Spelled<StorageT>, SpelledFault>
        ensures listed { IfOk result (IsListing self.now (texts_in texts.now)) }

        // An error is the first fault of the list or, wherever an allocation failed, `Memory`. A list with a fault is none.
        ensures faulty { IfErr result (IsSpelledFault self.now (texts_in texts.now)) }
        ensures unlisted { IfErr result (AreUnlisted self.now (texts_in texts.now)) }
    {
        let prods = self.number_prods(alloc)?;
        let places = self.text_positions(alloc, &prods, texts)?;
        Ok(Spelled {
            places,
            kind: PhantomData,
        })
    }

    // The place of each production's text.
    fn text_positions(
        &self,
        alloc: Global,
        prods: &[Vec<usize>],
        texts: &[&str],
    ) -> Result<Vec<Option<usize>>, SpelledFault>
        requires prods { AreNumberedProds self.now prods.now }
        requires fits { start_prod self.now < StorageT.limit }
        ensures listed { IfOk result (λ places. IsListing self.now (texts_in texts.now) places.items) }
        ensures faulty { IfErr result (IsSpelledFault self.now (texts_in texts.now)) }
    {
        let names = SymbolNames::new(alloc, self)?;
        let mut matching = Matching::new(alloc, prods)?;
        match_texts(alloc, &names, texts, &mut matching)?;
        match matching.first_without_text() {
            Some(prod) => Err(self.missing(alloc, prod)),
            None => Ok(matching.into_positions()),
        }
    }

    // The fault that a production has no text.
    fn missing(&self, alloc: Global, prod: usize) -> SpelledFault
        requires within { prod < prods_len self.now }
        requires fits { prod < StorageT.limit }
        ensures { IsMissingOf self.now prod result }
    {
        let pidx = PIdx(StorageT::from_index(prod).unwrap());
        match self.prod_text(alloc, pidx) {
            Ok(text) => SpelledFault::Missing { text },
            Err(_) => SpelledFault::Memory,
        }
    }

    // The productions other than the start production, as numbers of symbols.
    fn number_prods(&self, alloc: Global) -> Result<Vec<Vec<usize>>, AllocError>
        ensures prods { IfOk result (λ prods. AreNumberedProds self.now prods.items) }
        ensures fits { start_prod self.now < StorageT.limit }
    {
        let end = self.start_prod().0.to_index();
        let mut prods = Vec::with_capacity(alloc, end)?;
        for number in 0..end {
            let pidx = PIdx(StorageT::from_index(number).unwrap());
            prods.push(self.numbers(alloc, pidx)?)?;
        }
        Ok(prods)
    }

    // A production as numbers of symbols: its rule, and then its right side.
    fn numbers(&self, alloc: Global, pidx: PIdx<StorageT>) -> Result<Vec<usize>, AllocError>
        requires { StorageT.index pidx.0 < prods_len self.now }
        ensures { IfOk result (AreProdNumbers StorageT.index self.now pidx) }
    {
        let rules = self.rules_len();
        let mut numbers = Vec::new(alloc);
        numbers.push(usize::from(self.prod_to_rule(pidx)))?;
        for symbol in self.prod(pidx) {
            numbers.push(symbol_number(rules, *symbol))?;
        }
        Ok(numbers)
    }
}

// The number of a symbol among all symbols: the rules come first.
fn symbol_number<StorageT: StorageIndex>(rules: usize, symbol: Symbol<StorageT>) -> usize
    requires { rules ≤ StorageT.limit }
    ensures { result ≡ symbol_number rules (symbol_of StorageT.index symbol) }
{
    match symbol {
        Symbol::Rule(ridx) => ridx.0.to_index(),
        Symbol::Token(tidx) => rules + tidx.0.to_index(),
    }
}

// Takes each text of the list.
fn match_texts(
    alloc: Global,
    names: &SymbolNames,
    texts: &[&str],
    matching: &mut Matching,
) -> Result<(), SpelledFault>
    requires matched { IsMatched matching.old }
    requires none { texts_of matching.old ≡ [] }
    ensures matched { OnOk result (IsMatched matching.new) }
    ensures prods { OnOk result (prods_of matching.new ≡ prods_of matching.old) }
    ensures spell { OnOk result (SpellEach names.now (texts_in texts.now) (texts_of matching.new)) }
    ensures fault { IfErr result (IsTextFault names.now (prods_of matching.old) (texts_in texts.now)) }
{
    for (place, text) in texts.iter().enumerate() {
        let Some(numbers) = names.numbers_of(alloc, text)? else {
            return Err(SpelledFault::unknown(alloc, text, place));
        };
        match matching.match_text(numbers) {
            Ok(()) => {}
            Err(Misfit::Unknown) => return Err(SpelledFault::unknown(alloc, text, place)),
            Err(Misfit::Repeated) => return Err(SpelledFault::repeated(alloc, text, place)),
            Err(Misfit::Memory) => return Err(SpelledFault::Memory),
        }
    }
    Ok(())
}
