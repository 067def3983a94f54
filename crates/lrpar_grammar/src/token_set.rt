//! Sets of tokens.
ghost use Rattle.std.specs.Prelude.{◌≡◌, ◌<◌, ◌≤◌, ◌↔◌, ◌*◌, ◌/◌, ℕ, Some, IfOk, IsTrue, length};
ghost use Rattle.std.specs.Bool.{OnFalse, OnTrue};
ghost use Rattle.std.specs.Cmp.{bool_cmp_total, bool_eq_equiv, partial_equiv_from_equiv};
ghost use Rattle.std.specs.Cmp.Lexicographic.{lists_equiv, lists_per, lists_total, pointwise, slice_cmp};
ghost use Rattle.std.specs.Ordering.{bool_cmp};
ghost use Rattle.std.proofs.Common.{refl};
ghost use Rattle.std.proofs.Math.Bool.{beq};
ghost use Rattle.lrpar_grammar.specs.SetOrder.{order_of_sets, sets_tie};
ghost use Rattle.lrpar_grammar.specs.Tokens.{CoversAll, HaveCommon, IsEmptySet, PutsToken, UnitesBelow, has, missing};
ghost use Rattle.lrpar_grammar.specs.Words.{AddsBelow, AddsBit, AreComparedAs, AreEmptyWordsFor, CoverBelow, HaveAny, HaveNone, HaveOneBoth, IsWordBelow, bit, word_at};

use std::alloc::{AllocError, Global};
use std::cmp::Ordering;
use std::marker::Model;

/// A set of tokens below a fixed number, with one bit for each of them, in words of 64 bits. Of two sets the one without the first token
/// that only one of them has is the lesser.
#[derive(Drop)]
pub struct TokenSet {
    // For how many tokens it has room.
    len: usize,
    // Bit `t % 64` of word `t / 64` is that of token t.
    words: Vec<u64>,
}

impl Model for TokenSet {
    ghost use Rattle.std.specs.Prelude.{Bool, List};
    ghost use Rattle.lrpar_grammar.specs.Words.{AreWordsFor, bits_of};

    ghost Value = { List Bool };

    ghost view = { λ set. bits_of set.len set.words.items };

    ghost invariant = { λ set. AreWordsFor set.len set.words.items };
}

impl TokenSet {
    /// The empty set, with room for the tokens below `len`.
    pub fn new(alloc: Global, len: usize) -> Result<Self, AllocError>
        ensures room { IfOk result (λ set. length set ≡ len) }
        ensures none { IfOk result (λ set. IsEmptySet set) }
    {
        let words = empty_words(alloc, len)?;
        Ok(TokenSet { len, words })
    }

    /// For how many tokens it has room.
    pub fn len(&self) -> usize
        ensures { result ≡ length self.now }
    {
        self.len
    }

    /// A set with the same tokens.
    pub fn copy(&self, alloc: Global) -> Result<Self, AllocError>
        ensures { IfOk result (λ set. set ≡ self.now) }
    {
        let words = Vec::from_slice(alloc, &self.words)?;
        Ok(TokenSet {
            len: self.len,
            words,
        })
    }

    /// Whether the token is in the set.
    pub fn contains(&self, token: usize) -> bool
        ensures { result ≡ has self.now token }
    {
        has_bit(word_of(&self.words, token / 64), token % 64)
    }

    /// Whether any token is in the set.
    pub fn has_any(&self) -> bool
        ensures { IsTrue result ↔ ((t : ℕ) × IsTrue (has self.now t)) }
    {
        have_any(&self.words)
    }

    /// Puts the token into the set.
    pub fn insert(&mut self, token: usize)
        requires { token < length self.old }
        ensures room { length self.new ≡ length self.old }
        ensures tokens { PutsToken self.old self.new token }
    {
        insert_bit(&mut self.words, token);
    }

    /// Puts all tokens of the other set below `end` into this one. Returns whether any of them was new.
    pub fn unite_below(&mut self, other: &TokenSet, end: usize) -> bool
        requires room { end ≤ length self.old }
        ensures room { length self.new ≡ length self.old }
        ensures tokens { UnitesBelow self.old self.new other.now end }
        ensures grown { OnTrue result (missing self.new < missing self.old) }
        ensures same { OnFalse result (self.new ≡ self.old) }
    {
        if cover_below(&self.words, &other.words, end) {
            return false;
        }
        add_below(&mut self.words, &other.words, end);
        true
    }

    /// Whether all tokens of the other set are in this one.
    pub fn covers(&self, other: &TokenSet) -> bool
        ensures { IsTrue result ↔ CoversAll self.now other.now }
    {
        cover_below(&self.words, &other.words, other.len)
    }

    /// Whether a token is in both sets.
    pub fn has_common(&self, other: &TokenSet) -> bool
        ensures { IsTrue result ↔ HaveCommon self.now other.now }
    {
        have_common(&self.words, &other.words)
    }

    /// Whether the sets have the same tokens, and room for as many.
    pub fn is_same(&self, other: &TokenSet) -> bool
        ensures { IsTrue result ↔ (self.now ≡ other.now) }
    {
        self.len == other.len && compare_words(&self.words, &other.words).is_eq()
    }

    /// Removes all tokens from the set.
    pub fn clear(&mut self)
        ensures room { length self.new ≡ length self.old }
        ensures none { IsEmptySet self.new }
    {
        clear_words(&mut self.words);
    }
}

impl PartialEq for TokenSet {
    ghost eq = { pointwise beq };

    ghost laws = { lists_per (partial_equiv_from_equiv bool_eq_equiv) };

    fn eq(&self, other: &TokenSet) -> bool {
        self.cmp(other).is_eq()
    }
}

impl Eq for TokenSet {
    ghost laws = { lists_equiv bool_eq_equiv };
}

impl PartialOrd for TokenSet {
    ghost partial_cmp = { λ bits others. Some (slice_cmp bool_cmp bits others) };

    ghost laws = { order_of_sets };

    fn partial_cmp(&self, other: &TokenSet) -> Option<Ordering> {
        Some(self.cmp(other))
    }
}

impl Ord for TokenSet {
    ghost cmp = { slice_cmp bool_cmp };

    ghost total = { lists_total bool_cmp_total };

    ghost matches_partial_cmp = { λ bits others. refl };

    ghost matches_eq = { sets_tie };

    fn cmp(&self, other: &TokenSet) -> Ordering {
        compare_words(&self.words, &other.words).then(self.len.cmp(&other.len))
    }
}

// Words without bits, for the tokens below `len`.
fn empty_words(alloc: Global, len: usize) -> Result<Vec<u64>, AllocError>
    ensures { IfOk result (λ words. AreEmptyWordsFor len words.items) }
{
    let words = vec![in alloc; 0u64; len / 64 + 1]?;
    Ok(words)
}

// Word k; past the last one, a word without bits.
fn word_of(words: &[u64], k: usize) -> u64
    ensures { result ≡ word_at words.now k }
{
    match words.get(k) {
        Some(word) => *word,
        None => 0,
    }
}

// Whether the word has this bit.
fn has_bit(word: u64, place: usize) -> bool
    requires { place < 64 }
    ensures { result ≡ bit word place }
{
    (word >> place) & 1 == 1
}

// Adds the bit for the token.
fn insert_bit(words: &mut Vec<u64>, token: usize)
    requires { token / 64 < length words.old.items }
    ensures room { length words.new.items ≡ length words.old.items }
    ensures bits { AddsBit words.old.items words.new.items token }
{
    let word = words[token / 64];
    words[token / 64] = word | (1 << (token % 64));
}

// Whether the words have any bit.
fn have_any(words: &[u64]) -> bool
    ensures { IsTrue result ↔ HaveAny words.now }
{
    for word in words {
        if *word != 0 {
            return true;
        }
    }
    false
}

// Word k, with the bits of the tokens below `end` alone.
fn word_below(words: &[u64], k: usize, end: usize) -> u64
    ensures { IsWordBelow words.now k end result }
{
    let word = word_of(words, k);
    if k < end / 64 {
        word
    } else if k == end / 64 {
        word & ((1 << (end % 64)) - 1)
    } else {
        0
    }
}

// Whether these words have all bits of the others for the tokens below `end`.
fn cover_below(words: &[u64], others: &[u64], end: usize) -> bool
    ensures { IsTrue result ↔ CoverBelow words.now others.now end }
{
    for k in 0..others.len() {
        if word_below(others, k, end) & !word_of(words, k) != 0 {
            return false;
        }
    }
    true
}

// Adds the bits of the others for the tokens below `end`.
fn add_below(words: &mut Vec<u64>, others: &[u64], end: usize)
    requires { end ≤ 64 * length words.old.items }
    ensures room { length words.new.items ≡ length words.old.items }
    ensures bits { AddsBelow words.old.items words.new.items others.now end }
{
    for k in 0..words.len() {
        let word = words[k];
        words[k] = word | word_below(others, k, end);
    }
}

// Whether the words have a bit in common.
fn have_common(words: &[u64], others: &[u64]) -> bool
    ensures { IsTrue result ↔ HaveOneBoth words.now others.now }
{
    for k in 0..words.len() {
        if words[k] & word_of(others, k) != 0 {
            return true;
        }
    }
    false
}

// Compares the words by the first bit in which they differ.
fn compare_words(words: &[u64], others: &[u64]) -> Ordering
    ensures { AreComparedAs words.now others.now result }
{
    for k in 0..words.len().max(others.len()) {
        let other = word_of(others, k);
        let differ = word_of(words, k) ^ other;
        if differ != 0 {
            return if has_bit(other, differ.trailing_zeros() as usize) {
                Ordering::Less
            } else {
                Ordering::Greater
            };
        }
    }
    Ordering::Equal
}

// Removes all bits.
fn clear_words(words: &mut Vec<u64>)
    ensures room { length words.new.items ≡ length words.old.items }
    ensures none { HaveNone words.new.items }
{
    for word in words.iter_mut() {
        *word = 0;
    }
}
