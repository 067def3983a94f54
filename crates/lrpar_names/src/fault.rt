//! Why a text isn't a messages file.
use lrpar_grammar_places::span::Span;
use std::alloc::{AllocError, AllocFailed};
use thiserror::Error;

/// Why a text gives no names. Each fault but `Memory` has its place in the text, in bytes.
#[derive(Clone, Copy, Debug, PartialEq, Eq, Error)]
pub enum NamesFault {
    /// A line that isn't `NAME: WORDS`. The place is the line without the blanks at its ends.
    #[error("expected NAME: WORDS, at byte {at}", at = .0.start())]
    Unread(Span),
    /// A name that the grammar doesn't have. The place is the name without its quotes.
    #[error("the grammar has no rule or token of this name, at byte {at}", at = .0.start())]
    Unknown(Span),
    /// A name that has words already. The place is the name without its quotes.
    #[error("repeated name, at byte {at}", at = .0.start())]
    Repeated(Span),
    /// A name without words. The place is the line without the blanks at its ends.
    #[error("expected words after the colon, at byte {at}", at = .0.start())]
    Empty(Span),
    /// An allocation failed.
    #[error("out of memory")]
    Memory,
}

impl From<AllocError> for NamesFault {
    ghost use Rattle.std.specs.Prelude.{◌≡◌};
    ghost use Rattle.lrpar_names.specs.declared.fault.NamesFault.TheVariants.{Memory};

    ghost from_gives = { λ _ fault. fault ≡ Memory };

    fn from(_: AllocError) -> NamesFault {
        NamesFault::Memory
    }
}

impl<T: Drop> From<AllocFailed<T>> for NamesFault {
    ghost use Rattle.std.specs.Prelude.{◌≡◌};
    ghost use Rattle.lrpar_names.specs.declared.fault.NamesFault.TheVariants.{Memory};

    ghost from_gives = { λ _ fault. fault ≡ Memory };

    fn from(_: AllocFailed<T>) -> NamesFault {
        NamesFault::Memory
    }
}
