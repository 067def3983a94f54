//! The declarations and rules of a grammar text.
ghost use Rattle.std.specs.Prelude.{◌≡◌, ◌++◌, ◌∷◌, [], IfOk, IfErr, OnOk};
ghost use Rattle.lrpar_grammar_words.specs.Words.{placed};
ghost use Rattle.lrpar_grammar_words.specs.declared.outline.OutlineFault.TheVariants.{Memory};

use crate::word_order::{Expected, Role};
use crate::words::{Word, piece_at, word_at};
use std::alloc::{AllocError, AllocFailed, Global};
use std::mem;

/// An alternative of a rule.
#[derive(Drop)]
pub struct Alternative<'a> {
    /// The last rule defined before it.
    pub rule: Word<'a>,
    /// Its symbols.
    pub symbols: Vec<Word<'a>>,
    /// The `|` or `;` that ends it.
    pub end: Word<'a>,
}

/// The declarations and rules of a grammar text, as lists of words in the order of the text.
pub struct Outline<'a> {
    /// The names after `%start`.
    pub starts: Vec<Word<'a>>,
    /// The tokens that a `%token` declares.
    pub declared: Vec<Word<'a>>,
    /// The token of each `%epp`.
    pub epps: Vec<Word<'a>>,
    /// The printed text of each `%epp`.
    pub epp_texts: Vec<Word<'a>>,
    /// The rules that are defined.
    pub defined: Vec<Word<'a>>,
    /// The alternatives of the rules.
    pub alternatives: Vec<Alternative<'a>>,
    /// The symbols of an alternative that hasn't ended.
    pub symbols: Vec<Word<'a>>,
}

// Hand-written, so that code that drops an outline needs the proof of one call only.
impl<'a> Drop for Outline<'a> {
    fn drop(self) {
        let Outline {
            starts,
            declared,
            epps,
            epp_texts,
            defined,
            alternatives,
            symbols,
        } = self;
        drop(starts);
        drop(declared);
        drop(epps);
        drop(epp_texts);
        drop(defined);
        drop(alternatives);
        drop(symbols);
    }
}

/// Why a text has no outline.
#[derive(Drop)]
pub enum OutlineFault {
    /// The text isn't a grammar text. At this byte is the first word that can't be read or isn't allowed there, a
    /// quote or comment that isn't closed, or the end of the text, if it comes too early.
    Syntax(usize),
    /// An allocation failed.
    Memory,
}

impl From<AllocError> for OutlineFault {
    ghost from_gives = { λ _ fault. fault ≡ Memory };

    fn from(_: AllocError) -> OutlineFault {
        OutlineFault::Memory
    }
}

impl<T: Drop> From<AllocFailed<T>> for OutlineFault {
    ghost from_gives = { λ _ fault. fault ≡ Memory };

    fn from(_: AllocFailed<T>) -> OutlineFault {
        OutlineFault::Memory
    }
}

impl<'a> Outline<'a> {
    ghost use Rattle.lrpar_grammar_words.specs.Outline.{outline_of, no_words, with_word, AreOfDefinedRules, HasOrderedSymbols, IsOutlineOf, IsRefused};

    /// The declarations and rules of the text. Takes time and memory linear in the length of the text.
    pub fn read(alloc: Global, text: &'a str) -> Result<Self, OutlineFault>
        ensures outline { IfOk result (λ o. IsOutlineOf text.now (outline_of o)) }
        ensures rules { IfOk result (λ o. AreOfDefinedRules (outline_of o)) }
        ensures order { IfOk result (λ o. HasOrderedSymbols (outline_of o)) }
        ensures refused { IfErr result (IsRefused text.now) }
    {
        let bytes = text.as_bytes();
        let mut outline = Outline::new(alloc);
        let mut expected = Expected::Declaration;
        let mut place = 0;
        while place < bytes.len() {
            let Some(piece) = piece_at(&bytes[place..]) else {
                return Err(OutlineFault::Syntax(place));
            };
            if let Some(kind) = piece.word {
                let Some((role, next)) = expected.after(kind) else {
                    return Err(OutlineFault::Syntax(place));
                };
                let word = word_at(text, place, kind, piece.len);
                outline.add_word(alloc, role, word)?;
                expected = next;
            }
            place += piece.len;
        }
        if expected.may_end() {
            Ok(outline)
        } else {
            Err(OutlineFault::Syntax(place))
        }
    }

    // The outline of a text without words.
    fn new(alloc: Global) -> Self
        ensures { outline_of result ≡ no_words }
    {
        Outline {
            starts: Vec::new(alloc),
            declared: Vec::new(alloc),
            epps: Vec::new(alloc),
            epp_texts: Vec::new(alloc),
            defined: Vec::new(alloc),
            alternatives: Vec::new(alloc),
            symbols: Vec::new(alloc),
        }
    }

    // Adds one more word, by its role.
    #[tactic(auto, unfolding(crate::specs::Outline::with_word))]
    fn add_word(&mut self, alloc: Global, role: Role, word: Word<'a>) -> Result<(), AllocError>
        ensures { OnOk result (outline_of self.new ≡ with_word (outline_of self.old) role (placed word.entry)) }
    {
        match role {
            Role::Sign => Ok(()),
            Role::Start => push(&mut self.starts, word),
            Role::Declared => push(&mut self.declared, word),
            Role::EppOf => push(&mut self.epps, word),
            Role::Epp => push(&mut self.epp_texts, word),
            Role::Defined => push(&mut self.defined, word),
            Role::Symbol => push(&mut self.symbols, word),
            Role::AlternativeEnd => self.end_alternative(alloc, word),
        }
    }

    // Ends the alternative that has the symbols so far.
    #[tactic(auto, unfolding(crate::specs::Outline::with_word))]
    fn end_alternative(&mut self, alloc: Global, end: Word<'a>) -> Result<(), AllocError>
        ensures { OnOk result (outline_of self.new ≡ with_word (outline_of self.old) Role.AlternativeEnd (placed end.entry)) }
    {
        let symbols = mem::replace(&mut self.symbols, Vec::new(alloc));
        if let Some(rule) = self.defined.last() {
            let rule = *rule;
            self.alternatives.push(Alternative { rule, symbols, end })?;
        }
        Ok(())
    }
}

// Appends a word.
fn push<'a>(words: &mut Vec<Word<'a>>, word: Word<'a>) -> Result<(), AllocError>
    ensures { OnOk result (words.new.items ≡ words.old.items ++ word.entry ∷ []) }
{
    Ok(words.push(word)?)
}
