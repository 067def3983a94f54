//! A counterexample of a conflict.
ghost use Rattle.std.specs.Prelude.{◌≡◌, ◌↔◌, IfOk, IsTrue};
ghost use Rattle.lrpar_table_sentences.specs.Moves.{moves_in};
ghost use Rattle.lrpar_conflict_derivations.specs.Example.{after_search};
ghost use Rattle.lrpar_conflict_derivations.specs.Stored.{AreSameTokens, AreTokensOf, HaveAsMany, HaveOneText, IsExampleBy};
ghost use Rattle.lrpar_conflict_derivations.specs.Texts.{token_numbers};

use lrpar_grammar::span::{StorageIndex, TIdx};
use lrpar_table_sentences::moves::Move;
use std::alloc::{AllocError, Global};
use std::marker::Model;

/// A counterexample of a conflict: an access string of the conflict's state, and two derivations that go on from there, as moves.
#[derive(Debug)]
pub struct Example<StorageT: StorageIndex> {
    before: Vec<TIdx<StorageT>>,
    first: Vec<Move<StorageT>>,
    second: Vec<Move<StorageT>>,
    ambiguous: bool,
    shortest: bool,
    bound: usize,
    tried: usize,
    complete: bool,
}

// A drop of its own, so that code that drops one elsewhere proves one call.
impl<StorageT: StorageIndex> Drop for Example<StorageT> {
    fn drop(self) {
        let Example {
            before,
            first,
            second,
            ambiguous: _,
            shortest: _,
            bound: _,
            tried: _,
            complete: _,
        } = self;
        drop(before);
        drop(first);
        drop(second);
    }
}

impl<StorageT: StorageIndex> Model for Example<StorageT> {
    ghost use Rattle.lrpar_table_sentences.specs.Moves.{moves_in};
    ghost use Rattle.lrpar_conflict_derivations.specs.Example.{ExampleOf};
    ghost use Rattle.lrpar_conflict_derivations.specs.Texts.{token_numbers};

    ghost Value = { ExampleOf };

    ghost view = { λ x. record { before = token_numbers StorageT.index x.before.items; first = moves_in StorageT.index x.first.items; second = moves_in StorageT.index x.second.items; ambiguous = x.ambiguous; shortest = x.shortest; bound = x.bound; tried = x.tried; complete = x.complete } };
}

impl<StorageT: StorageIndex> Example<StorageT> {
    // The counterexample of two derivations that begin with these moves, whose text is a shortest access string or not, with the search's
    // bound.
    pub(crate) fn new(
        alloc: Global,
        front: &[Move<StorageT>],
        first: Vec<Move<StorageT>>,
        second: Vec<Move<StorageT>>,
        shortest: bool,
        bound: usize,
    ) -> Result<Self, AllocError>
        ensures { IfOk result (IsExampleBy StorageT.index front.now first.items second.items shortest bound) }
    {
        let before = tokens_of(alloc, front)?;
        let ambiguous = have_same_text(alloc, &first, &second)?;
        Ok(Example {
            before,
            first,
            second,
            ambiguous,
            shortest,
            bound,
            tried: 0,
            complete: false,
        })
    }

    // The counterexample after a search for a unifying one: how much that has tried, and whether that is all that it came to.
    pub(crate) fn with_search(self, tried: usize, complete: bool) -> Self
        ensures { result ≡ after_search self tried complete }
    {
        let mut example = self;
        example.tried = tried;
        example.complete = complete;
        example
    }

    /// The tokens of an access string of the conflict's state: a shortest one, unless the counterexample is unifying and was found on
    /// another access path.
    pub fn before(&self) -> &[TIdx<StorageT>]
        ensures { token_numbers StorageT.index result.now ≡ self.now.before }
    {
        &self.before
    }

    /// The moves of the first derivation.
    pub fn first(&self) -> &[Move<StorageT>]
        ensures { moves_in StorageT.index result.now ≡ self.now.first }
    {
        &self.first
    }

    /// The moves of the second derivation.
    pub fn second(&self) -> &[Move<StorageT>]
        ensures { moves_in StorageT.index result.now ≡ self.now.second }
    {
        &self.second
    }

    /// Whether the counterexample is unifying: both derivations have the same text, so that the grammar is ambiguous.
    pub fn is_ambiguous(&self) -> bool
        ensures { result ≡ self.now.ambiguous }
    {
        self.ambiguous
    }

    /// Whether no access string of the conflict's state has fewer tokens than `before`.
    pub fn is_shortest(&self) -> bool
        ensures { result ≡ self.now.shortest }
    {
        self.shortest
    }

    /// The bound of the search for a unifying counterexample. Nothing is searched for if both derivations had one text from the start.
    pub fn bound(&self) -> usize
        ensures { result ≡ self.now.bound }
    {
        self.bound
    }

    /// How many ends of access paths and configurations a search has tried that found no unifying counterexample. It is 0 if this one is
    /// unifying.
    pub fn tried(&self) -> usize
        ensures { result ≡ self.now.tried }
    {
        self.tried
    }

    /// Whether such a search has tried all that it came to. A larger bound then finds no more.
    pub fn is_search_complete(&self) -> bool
        ensures { result ≡ self.now.complete }
    {
        self.complete
    }
}

// Whether both shift the same number of tokens.
pub(crate) fn have_as_many<StorageT: StorageIndex>(
    alloc: Global,
    one: &[Move<StorageT>],
    other: &[Move<StorageT>],
) -> Result<bool, AllocError>
    ensures { IfOk result (λ same. IsTrue same ↔ HaveAsMany StorageT.index one.now other.now) }
{
    let one = tokens_of(alloc, one)?;
    let other = tokens_of(alloc, other)?;
    Ok(one.len() == other.len())
}

// Whether both shift the same tokens.
fn have_same_text<StorageT: StorageIndex>(
    alloc: Global,
    first: &[Move<StorageT>],
    second: &[Move<StorageT>],
) -> Result<bool, AllocError>
    ensures { IfOk result (λ same. IsTrue same ↔ HaveOneText StorageT.index first.now second.now) }
{
    let one = tokens_of(alloc, first)?;
    let other = tokens_of(alloc, second)?;
    Ok(are_same(&one, &other))
}

// Whether the tokens are the same.
fn are_same<StorageT: StorageIndex>(one: &[TIdx<StorageT>], other: &[TIdx<StorageT>]) -> bool
    ensures { IsTrue result ↔ AreSameTokens StorageT.index one.now other.now }
{
    if one.len() != other.len() {
        return false;
    }
    for place in 0..one.len() {
        if usize::from(one[place]) != usize::from(other[place]) {
            return false;
        }
    }
    true
}

/// The tokens that the moves shift, in order. Fails only if an allocation does.
pub fn tokens_of<StorageT: StorageIndex>(
    alloc: Global,
    moves: &[Move<StorageT>],
) -> Result<Vec<TIdx<StorageT>>, AllocError>
    ensures { IfOk result (AreTokensOf StorageT.index moves.now) }
{
    let mut tokens = Vec::new(alloc);
    for step in moves {
        match *step {
            Move::Take(token) => tokens.push(token)?,
            Move::Make(_) => {}
        }
    }
    Ok(tokens)
}
