//! Storage types as numbers of `num_traits`. The contracts of `num_traits` take long to load, so the index types don't use them, and this
//! is a trait of its own.
ghost use Rattle.std.specs.Prelude.{◌≡◌, ◌<◌, ◌↔◌, ℕ, pos, Some, refl};

use lrpar_grammar_places::span::StorageIndex;
use num_traits::{PrimInt, Unsigned};

/// A storage type, which numbers rules, productions, tokens and states: `u8`, `u16` or `u32`. As a number, a value is its index.
pub trait StorageNum: StorageIndex + PrimInt + Unsigned {
    ghost value_law: { (x : Self) → Self.value x ≡ pos (Self.index x) };

    ghost integer_law: { (x : Self) → Self.integer_of x ≡ Some (pos (Self.index x)) };

    ghost fits_law: { (n : ℕ) → Self.fits (pos n) ↔ (n < Self.limit) };
}

impl StorageNum for u8 {
    ghost value_law = { λ x. refl };

    ghost integer_law = { λ x. refl };

    ghost fits_law = { λ n. (λ fits. fits, λ below. below) };
}

impl StorageNum for u16 {
    ghost value_law = { λ x. refl };

    ghost integer_law = { λ x. refl };

    ghost fits_law = { λ n. (λ fits. fits, λ below. below) };
}

impl StorageNum for u32 {
    ghost value_law = { λ x. refl };

    ghost integer_law = { λ x. refl };

    ghost fits_law = { λ n. (λ fits. fits, λ below. below) };
}
