//! Names of rules and tokens for people.
ghost use Rattle.std.specs.Prelude.{◌≡◌, None, Some, IfOk, OnErr, OnOk, is_some, replicate, slice_set};
ghost use Rattle.lrpar_grammar.specs.Stored.{text_in};
ghost use Rattle.lrpar_grammar.specs.Symbols.{symbol_of};
ghost use Rattle.lrpar_names.specs.Names.{no_names, rule_words, slot_at, slots_of, token_words, with_token, with_words, words_of};

use lrpar_grammar::grammar::YaccGrammar;
use lrpar_grammar_places::span::{RIdx, StorageIndex, Symbol, TIdx};
use std::alloc::{AllocError, Global};
use std::marker::Model;

/// The names of a grammar's rules and tokens for people, as in `expected an expression`. Any of them may have none.
#[derive(Debug)]
pub struct Names {
    rules: Vec<Option<String>>,
    tokens: Vec<Option<String>>,
}

// With its own `Drop`, a function that drops one proves one call.
impl Drop for Names {
    fn drop(self) {
        let Names { rules, tokens } = self;
        drop(rules);
        drop(tokens);
    }
}

impl Model for Names {
    ghost use Rattle.lrpar_names.specs.Names.{NameLists, slots_of};

    ghost Value = { NameLists };

    ghost view = { λ names. record { rules = slots_of names.rules.items; tokens = slots_of names.tokens.items } };
}

impl Names {
    /// No rule and no token of the grammar has a name. Takes memory for each of them.
    pub fn new<StorageT: StorageIndex>(
        alloc: Global,
        grm: &YaccGrammar<StorageT>,
    ) -> Result<Names, AllocError>
        ensures { IfOk result (λ names. names ≡ no_names grm.now) }
    {
        let rules = empty_slots(alloc, grm.rules_len())?;
        let tokens = empty_slots(alloc, grm.tokens_len())?;
        Ok(Names { rules, tokens })
    }

    /// The rule's name for people. `None` if it has none, and for a number that the grammar doesn't have.
    pub fn rule<StorageT: StorageIndex>(&self, rule: RIdx<StorageT>) -> Option<&str>
        ensures { text_in result ≡ rule_words self.now (StorageT.index rule.0) }
    {
        text_at(&self.rules, usize::from(rule))
    }

    /// The token's name for people. `None` if it has none, and for a number that the grammar doesn't have.
    pub fn token<StorageT: StorageIndex>(&self, token: TIdx<StorageT>) -> Option<&str>
        ensures { text_in result ≡ token_words self.now (StorageT.index token.0) }
    {
        text_at(&self.tokens, usize::from(token))
    }

    /// Names the token, if it has no name yet. Nothing is done for a number that the grammar doesn't have. After an `Err` the names are
    /// what they were.
    pub fn name_token<StorageT: StorageIndex>(
        &mut self,
        token: TIdx<StorageT>,
        name: &str,
    ) -> Result<(), AllocError>
        ensures ok { OnOk result (self.new ≡ with_token self.old (StorageT.index token.0) name.now) }
        ensures err { OnErr result (self.new ≡ self.old) }
    {
        if self.token(token).is_some() {
            return Ok(());
        }
        fill(&mut self.tokens, usize::from(token), name)
    }

    // Whether the symbol has a name.
    pub(crate) fn has_words<StorageT: StorageIndex>(&self, symbol: Symbol<StorageT>) -> bool
        ensures { result ≡ is_some (words_of self.now (symbol_of StorageT.index symbol)) }
    {
        match symbol {
            Symbol::Rule(rule) => self.rule(rule).is_some(),
            Symbol::Token(token) => self.token(token).is_some(),
        }
    }

    // Names the symbol.
    pub(crate) fn name_symbol<StorageT: StorageIndex>(
        &mut self,
        symbol: Symbol<StorageT>,
        words: &str,
    ) -> Result<(), AllocError>
        ensures ok { OnOk result (self.new ≡ with_words self.old (symbol_of StorageT.index symbol) words.now) }
        ensures err { OnErr result (self.new ≡ self.old) }
    {
        match symbol {
            Symbol::Rule(rule) => fill(&mut self.rules, usize::from(rule), words),
            Symbol::Token(token) => fill(&mut self.tokens, usize::from(token), words),
        }
    }
}

// So many empty slots.
fn empty_slots(alloc: Global, len: usize) -> Result<Vec<Option<String>>, AllocError>
    ensures { IfOk result (λ slots. slots_of slots.items ≡ replicate len None) }
{
    let mut slots = Vec::with_capacity(alloc, len)?;
    'slots: for _ in 0..len {
        slots.push(None)?;
    }
    Ok(slots)
}

// The text in the slot. `None` out of range.
fn text_at(slots: &[Option<String>], place: usize) -> Option<&str>
    ensures { text_in result ≡ slot_at (slots_of slots.now) place }
{
    match slots.get(place) {
        Some(Some(text)) => Some(text.as_str()),
        _ => None,
    }
}

// Puts the text into the slot, if there is such a slot.
fn fill(slots: &mut Vec<Option<String>>, place: usize, text: &str) -> Result<(), AllocError>
    ensures ok { OnOk result (slots_of slots.new.items ≡ slice_set (slots_of slots.old.items) place (Some text.now)) }
    ensures err { OnErr result (slots.new.items ≡ slots.old.items) }
{
    let text = String::from_str(*slots.allocator(), text)?;
    if place < slots.len() {
        slots[place] = Some(text);
    }
    Ok(())
}
