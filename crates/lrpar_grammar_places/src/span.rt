//! Parts of a text, storage numbers, and the numbers of rules, productions, tokens and states.
ghost use Rattle.std.specs.Prelude.{◌≡◌, ◌-◌, ◌^◌, ◌<◌, ◌≤◌, ◌==◌, ◌↔◌, ℕ, IsTrue, IsSome, IfSome, List, refl};
ghost use Rattle.std.specs.Ordering.{nat_cmp};
ghost use Rattle.lrpar_grammar_places.specs.Span.{Extent};
ghost use Rattle.lrpar_grammar_places.specs.declared.span.SpansKind.{SpansKind};

use std::fmt::Debug;
use std::hash::Hash;
use std::marker::Model;

/// A part of a text: its bytes from `start` up to, and not including, `end`.
#[derive(Clone, Copy, Debug, PartialEq, Eq, Hash)]
pub struct Span {
    start: usize,
    end: usize,
}

impl Model for Span {
    ghost use Rattle.std.specs.Prelude.{◌≤◌};
    ghost use Rattle.lrpar_grammar_places.specs.Span.{Extent};

    ghost Value = { Extent };

    ghost view = { λ s. record { start = s.start; end = s.end } };

    ghost invariant = { λ s. s.start ≤ s.end };

    ghost inverse = { λ e. record { start = e.start; end = e.end } };
}

impl Span {
    /// The part from byte `start` to byte `end`, which must not be smaller.
    pub fn new(start: usize, end: usize) -> Self
        requires { start ≤ end }
        ensures start { result.start ≡ start }
        ensures end { result.end ≡ end }
    {
        Span { start, end }
    }

    /// The first byte, counted from 0.
    pub fn start(&self) -> usize
        ensures start { result ≡ self.now.start }
        ensures ordered { self.now.start ≤ self.now.end }
    {
        self.start
    }

    /// The byte after the last one.
    pub fn end(&self) -> usize
        ensures end { result ≡ self.now.end }
        ensures ordered { self.now.start ≤ self.now.end }
    {
        self.end
    }

    /// The length of the part in bytes.
    pub fn len(&self) -> usize
        ensures len { result ≡ self.now.end - self.now.start }
    {
        self.end - self.start
    }

    /// Whether the part has no bytes.
    pub fn is_empty(&self) -> bool
        ensures empty { IsTrue result ↔ (self.now.start ≡ self.now.end) }
    {
        self.start == self.end
    }
}

/// What a type must do to number rules, productions, tokens and states: its values are compared, hashed and printed, and turned
/// into an index and back.
pub trait StorageIndex: Copy + Ord + Debug + Hash {
    /// The number that a value represents.
    ghost index: { Self → ℕ };

    /// The value that represents a number.
    ghost at_index: { ℕ → Self };

    /// The number of values that the type has.
    ghost limit: { ℕ };

    /// The number that the value represents. It is below the type's limit.
    fn to_index(self) -> usize
        ensures value { result ≡ index self }
        ensures within { result < limit };

    /// The value that represents `n`, if the type has it.
    fn from_index(n: usize) -> Option<Self>
        ensures within { IsSome result ↔ (n < limit) }
        ensures value { IfSome result (λ x. x ≡ at_index n) }
        ensures back { IfSome result (λ x. index x ≡ n) };

    ghost at_index_law: { (x : Self) → at_index (index x) ≡ x };

    ghost index_law: { (n : ℕ) → index (at_index n) ≡ n };

    ghost limit_law: { limit ≤ 2 ^ 32 };

    ghost cmp_law: { (x y : Self) → Self.Ord.cmp x y ≡ nat_cmp (index x) (index y) };

    ghost eq_law: { (x y : Self) → Self.PartialEq.eq x y ≡ (index x == index y) };
}

impl StorageIndex for u8 {
    ghost index = { λ x. x };

    ghost at_index = { λ n. n };

    ghost limit = { 2 ^ 8 };

    fn to_index(self) -> usize {
        self as usize
    }

    fn from_index(n: usize) -> Option<u8> {
        u8::try_from(n).ok()
    }

    ghost use Rattle.std.proofs.Common.{lit≤};

    ghost at_index_law = { λ x. refl };

    ghost index_law = { λ n. refl };

    ghost limit_law = { lit≤ tt };

    ghost cmp_law = { λ x y. refl };

    ghost eq_law = { λ x y. refl };
}

impl StorageIndex for u16 {
    ghost index = { λ x. x };

    ghost at_index = { λ n. n };

    ghost limit = { 2 ^ 16 };

    fn to_index(self) -> usize {
        self as usize
    }

    fn from_index(n: usize) -> Option<u16> {
        u16::try_from(n).ok()
    }

    ghost use Rattle.std.proofs.Common.{lit≤};

    ghost at_index_law = { λ x. refl };

    ghost index_law = { λ n. refl };

    ghost limit_law = { lit≤ tt };

    ghost cmp_law = { λ x y. refl };

    ghost eq_law = { λ x y. refl };
}

impl StorageIndex for u32 {
    ghost index = { λ x. x };

    ghost at_index = { λ n. n };

    ghost limit = { 2 ^ 32 };

    fn to_index(self) -> usize {
        self as usize
    }

    fn from_index(n: usize) -> Option<u32> {
        u32::try_from(n).ok()
    }

    ghost use Rattle.std.proofs.Common.{lit≤};

    ghost at_index_law = { λ x. refl };

    ghost index_law = { λ n. refl };

    ghost limit_law = { lit≤ tt };

    ghost cmp_law = { λ x y. refl };

    ghost eq_law = { λ x y. refl };
}

/// A number of one kind: of rules, productions, tokens or states.
pub trait Numbered<StorageT: StorageIndex>: Copy + Debug {
    /// The number.
    ghost number: { Self → ℕ };

    /// The value of this kind with that number.
    fn numbered(number_of: StorageT) -> Self
        ensures { number result ≡ StorageT.index number_of };
}

/// The number of a rule.
#[derive(Clone, Copy, Debug, PartialEq, Eq, PartialOrd, Ord, Hash)]
pub struct RIdx<StorageT>(pub StorageT);

impl<StorageT: StorageIndex> RIdx<StorageT> {
    /// The number in its storage type.
    pub fn as_storaget(&self) -> StorageT
        ensures { result ≡ self.now.0 }
    {
        self.0
    }
}

impl<StorageT: StorageIndex> Numbered<StorageT> for RIdx<StorageT> {
    ghost number = { λ x. StorageT.index x.0 };

    fn numbered(number_of: StorageT) -> Self {
        RIdx(number_of)
    }
}

impl<StorageT: StorageIndex> From<RIdx<StorageT>> for usize {
    ghost from_gives = { λ number value. value ≡ StorageT.index number.0 };

    fn from(number: RIdx<StorageT>) -> usize {
        number.0.to_index()
    }
}

/// The number of a production.
#[derive(Clone, Copy, Debug, PartialEq, Eq, PartialOrd, Ord, Hash)]
pub struct PIdx<StorageT>(pub StorageT);

impl<StorageT: StorageIndex> PIdx<StorageT> {
    /// The number in its storage type.
    pub fn as_storaget(&self) -> StorageT
        ensures { result ≡ self.now.0 }
    {
        self.0
    }
}

impl<StorageT: StorageIndex> Numbered<StorageT> for PIdx<StorageT> {
    ghost number = { λ x. StorageT.index x.0 };

    fn numbered(number_of: StorageT) -> Self {
        PIdx(number_of)
    }
}

impl<StorageT: StorageIndex> From<PIdx<StorageT>> for usize {
    ghost from_gives = { λ number value. value ≡ StorageT.index number.0 };

    fn from(number: PIdx<StorageT>) -> usize {
        number.0.to_index()
    }
}

/// The number of a token.
#[derive(Clone, Copy, Debug, PartialEq, Eq, PartialOrd, Ord, Hash)]
pub struct TIdx<StorageT>(pub StorageT);

impl<StorageT: StorageIndex> TIdx<StorageT> {
    /// The number in its storage type.
    pub fn as_storaget(&self) -> StorageT
        ensures { result ≡ self.now.0 }
    {
        self.0
    }
}

impl<StorageT: StorageIndex> Numbered<StorageT> for TIdx<StorageT> {
    ghost number = { λ x. StorageT.index x.0 };

    fn numbered(number_of: StorageT) -> Self {
        TIdx(number_of)
    }
}

impl<StorageT: StorageIndex> From<TIdx<StorageT>> for usize {
    ghost from_gives = { λ number value. value ≡ StorageT.index number.0 };

    fn from(number: TIdx<StorageT>) -> usize {
        number.0.to_index()
    }
}

/// The number of a state.
#[derive(Clone, Copy, Debug, PartialEq, Eq, PartialOrd, Ord, Hash)]
pub struct StIdx<StorageT>(pub StorageT);

impl<StorageT: StorageIndex> StIdx<StorageT> {
    /// The number in its storage type.
    pub fn as_storaget(&self) -> StorageT
        ensures { result ≡ self.now.0 }
    {
        self.0
    }
}

impl<StorageT: StorageIndex> From<StIdx<StorageT>> for usize {
    ghost from_gives = { λ number value. value ≡ StorageT.index number.0 };

    fn from(number: StIdx<StorageT>) -> usize {
        number.0.to_index()
    }
}

/// A symbol on the right side of a production.
#[derive(Clone, Copy, Debug, PartialEq, Eq, Hash)]
pub enum Symbol<StorageT> {
    /// Whatever the rule derives.
    Rule(RIdx<StorageT>),
    /// One lexeme of the token.
    Token(TIdx<StorageT>),
}

/// What the spans of an error or a warning show.
#[derive(Clone, Copy, Debug, PartialEq, Eq, Hash)]
pub enum SpansKind {
    /// The one place of an error.
    Error,
    /// The places of a thing that is there more than once, the first one first.
    DuplicationError,
    /// Any other places.
    Other,
}

/// A thing that has places in a text.
pub trait Spanned {
    /// The places.
    ghost places: { Self → List Extent };

    /// What the places show.
    ghost kind: { Self → SpansKind };

    /// The places, the most helpful one first.
    fn spans(&self) -> &[Span]
        ensures { result.now ≡ places self.now };

    /// What the places show.
    fn spanskind(&self) -> SpansKind
        ensures { result ≡ kind self.now };
}
