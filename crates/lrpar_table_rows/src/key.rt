//! The keys of entries: tokens and rules, by their numbers.
ghost use Rattle.std.specs.Prelude.{◌≡◌, ◌<◌, ◌^◌, ℕ};

use lrpar_grammar::span::{RIdx, StorageIndex, TIdx};

/// The key of an entry: a token or a rule, by its number.
pub(crate) trait Key: Copy {
    /// The number.
    ghost number: { Self → ℕ };

    /// The number.
    fn to_number(self) -> usize
        ensures value { result ≡ number self }
        ensures fits { result < 2 ^ 32 };
}

impl<StorageT: StorageIndex> Key for TIdx<StorageT> {
    ghost number = { λ token. StorageT.index token.0 };

    fn to_number(self) -> usize {
        self.0.to_index()
    }
}

impl<StorageT: StorageIndex> Key for RIdx<StorageT> {
    ghost number = { λ rule. StorageT.index rule.0 };

    fn to_number(self) -> usize {
        self.0.to_index()
    }
}
