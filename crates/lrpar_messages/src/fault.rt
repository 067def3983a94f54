//! Why a text isn't a catalogue of messages for a table.
use lrpar_grammar_places::span::Span;
use std::alloc::{AllocError, AllocFailed};
use thiserror::Error;

/// What is wrong with an entry of a catalogue.
#[derive(Clone, Copy, Debug, PartialEq, Eq, Error)]
pub enum MessageFaultKind {
    /// A quote that doesn't end in its line. The place is from the quote on.
    #[error("this quote doesn't end")]
    OpenQuote,
    /// A name that no token of the grammar has; after `%after`, no symbol. The place is the name.
    #[error("the grammar has no such symbol")]
    Unknown,
    /// No token is there. The place is the line.
    #[error("no token is here")]
    NoTokens,
    /// A run over the tokens doesn't stop. The place is the last of them.
    #[error("this is no error")]
    NoError,
    /// A run over the tokens stops before the last one. The place is the token at which it stops.
    #[error("this is already an error")]
    EarlyError,
    /// Symbols after `%after` that lead nowhere. The place is the first that doesn't.
    #[error("no state is reached by this symbol")]
    NoPath,
    /// Symbols after `%after` that lead to a state in which no run stops. The place is the line.
    #[error("no run stops after these symbols")]
    NoStop,
    /// An error that has a message already. The place is the line, and `first` that of the other one.
    #[error("this error has a message already")]
    Repeated { first: Span },
    /// An entry without a message. The place is the line.
    #[error("this error has no message")]
    NoMessage,
    /// A message before the first entry. The place is the line.
    #[error("this message belongs to no error")]
    Stray,
}

/// Why a text isn't a catalogue of messages.
#[derive(Clone, Copy, Debug, PartialEq, Eq, Error)]
pub enum MessageFault {
    /// Something is wrong at a place of the text, in bytes.
    #[error("{kind}, at byte {at}", at = .span.start())]
    At { kind: MessageFaultKind, span: Span },
    /// An allocation failed.
    #[error("out of memory")]
    Memory,
}

impl From<AllocError> for MessageFault {
    ghost use Rattle.std.specs.Prelude.{◌≡◌};
    ghost use Rattle.lrpar_messages.specs.declared.fault.MessageFault.TheVariants.{Memory};

    ghost from_gives = { λ _ fault. fault ≡ Memory };

    fn from(_: AllocError) -> MessageFault {
        MessageFault::Memory
    }
}

impl<T: Drop> From<AllocFailed<T>> for MessageFault {
    ghost use Rattle.std.specs.Prelude.{◌≡◌};
    ghost use Rattle.lrpar_messages.specs.declared.fault.MessageFault.TheVariants.{Memory};

    ghost from_gives = { λ _ fault. fault ≡ Memory };

    fn from(_: AllocFailed<T>) -> MessageFault {
        MessageFault::Memory
    }
}
