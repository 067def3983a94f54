//! Words of a grammar text by their names.
ghost use Rattle.std.specs.Prelude.{◌≡◌, ◌≤◌, IfOk, OnOk, IfErr, length, map};
ghost use Rattle.lrpar_grammar_words.specs.Words.{placed};
ghost use Rattle.lrpar_grammar_words.specs.Outline.{outline_of};
ghost use Rattle.lrpar_grammar_reader.specs.Spells.{HasFault};
ghost use Rattle.lrpar_grammar_reader.specs.Names.{is_among, number_of};
ghost use Rattle.lrpar_grammar_reader.specs.TextWords.{AddsName, AreEppsOf, AreFirstOfEach, HasDistinctEpps, NumbersWords};

use crate::parts::GrammarFault;
use lrpar_grammar_words::outline::Outline;
use lrpar_grammar_words::words::Word;
use std::alloc::{AllocError, Global};
use std::collections::BTreeMap;
use std::marker::Model;

/// Words with distinct names. The number of each is its place among them.
pub struct Names<'a> {
    words: Vec<Word<'a>>,
    numbers: BTreeMap<&'a str, usize>,
}

// Hand-written, so that code that drops names needs the proof of one call only.
impl<'a> Drop for Names<'a> {
    fn drop(self) {
        let Names { words, numbers } = self;
        drop(words);
        drop(numbers);
    }
}

impl<'a> Model for Names<'a> {
    ghost use Rattle.std.specs.Prelude.{List, map};
    ghost use Rattle.lrpar_grammar_words.specs.Words.{PlacedWord, placed};
    ghost use Rattle.lrpar_grammar_reader.specs.Names.{AreNumbers};

    ghost Value = { List PlacedWord };

    ghost view = { λ s. map placed s.words.items };

    ghost invariant = { λ s. AreNumbers s.numbers (map placed s.words.items) };
}

impl<'a> Names<'a> {
    /// The words with distinct names among these: of each name the first word. Takes logarithmic time for each word.
    pub fn first_of_each(alloc: Global, words: &[Word<'a>]) -> Result<Self, AllocError>
        ensures { IfOk result (AreFirstOfEach words.now) }
    {
        let mut first = Vec::new(alloc);
        let mut numbers = BTreeMap::new(alloc);
        for word in words {
            add(&mut first, &mut numbers, *word)?;
        }
        Ok(Names {
            words: first,
            numbers,
        })
    }

    /// The tokens of the `%epp`s, which must have distinct names. Fails with `RepeatedEpp` at the first one whose name an earlier
    /// one has, and with `Memory` if an allocation fails. There must be at most one `%start`.
    pub fn of_epps(alloc: Global, outline: &Outline<'a>) -> Result<Self, GrammarFault>
        requires { length (outline_of outline.now).starts ≤ 1 }
        ensures names { IfOk result (AreEppsOf outline.now) }
        ensures distinct { OnOk result (HasDistinctEpps outline.now) }
        ensures err { IfErr result (HasFault (outline_of outline.now)) }
    {
        let mut words = Vec::new(alloc);
        let mut numbers = BTreeMap::new(alloc);
        for word in &outline.epps {
            if numbers.contains_key(word.name) {
                return Err(GrammarFault::RepeatedEpp(word.span()));
            }
            add(&mut words, &mut numbers, *word)?;
        }
        Ok(Names { words, numbers })
    }

    /// The words, in the order of their numbers.
    pub fn words(&self) -> &[Word<'a>]
        ensures { map placed result.now ≡ self.now }
    {
        &self.words
    }

    /// The number of words.
    pub fn len(&self) -> usize
        ensures { result ≡ length self.now }
    {
        self.words.len()
    }

    /// The number of a name.
    pub fn number(&self, name: &str) -> Option<usize>
        ensures { result ≡ number_of name.now self.now }
    {
        self.numbers.get(name).copied()
    }

    /// Whether a word has that name.
    pub fn contains(&self, name: &str) -> bool
        ensures { result ≡ is_among name.now self.now }
    {
        self.numbers.contains_key(name)
    }
}

// Gives the word the next number if its name is new.
fn add<'a>(
    first: &mut Vec<Word<'a>>,
    numbers: &mut BTreeMap<&'a str, usize>,
    word: Word<'a>,
) -> Result<(), AllocError>
    requires { NumbersWords numbers.old first.old }
    ensures words { OnOk result (AddsName first.old first.new word.entry) }
    ensures numbers { OnOk result (NumbersWords numbers.new first.new) }
{
    if !numbers.contains_key(word.name) {
        numbers.insert(word.name, first.len())?;
        first.push(word)?;
    }
    Ok(())
}
