//! The error of `shifts`.
ghost use Rattle.std.specs.Prelude.{◌≡◌};

use std::error::Error;
use std::fmt;
use std::marker::Model;

/// The number of lexemes that must follow a repair was 0, but it must be at least 1. It holds the builder.
#[derive(Drop)]
pub struct ZeroShifts<B> {
    pub(crate) builder: B,
}

impl<B> Model for ZeroShifts<B> {
    ghost Value = { B };

    ghost view = { λ refused. refused.builder };
}

impl<B> ZeroShifts<B> {
    /// The builder as it was.
    pub fn into_builder(self) -> B
        ensures { result ≡ self }
    {
        self.builder
    }
}

// It doesn't show the builder, so that a caller's `?` requires nothing of its types.
impl<B: Drop> fmt::Debug for ZeroShifts<B> {
    fn fmt<W: fmt::Write>(&self, f: &mut fmt::Formatter<W>) -> fmt::Result {
        write!(f, "ZeroShifts")
    }
}

impl<B: Drop> fmt::Display for ZeroShifts<B> {
    ghost use Rattle.std.specs.Prelude.{Some, codes};

    ghost output = { λ _. Some (codes "shifts must be at least 1") };

    fn fmt<W: fmt::Write>(&self, f: &mut fmt::Formatter<W>) -> fmt::Result {
        write!(f, "shifts must be at least 1")
    }
}

impl<B: Drop> Error for ZeroShifts<B> {}
