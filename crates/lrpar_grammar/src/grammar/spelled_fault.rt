//! Why a list of texts isn't a list of a grammar's productions.
ghost use Rattle.std.specs.Prelude.{◌≡◌};
ghost use Rattle.lrpar_grammar.specs.declared.grammar.spelled_fault.SpelledFault.TheVariants.{Memory};

use std::alloc::{AllocError, AllocFailed, Global};
use thiserror::Error;

/// Why a list of texts isn't a list of a grammar's productions.
#[derive(Debug, Drop, Error)]
pub enum SpelledFault {
    /// The text at this place of the list, counted from 0, spells no production of the grammar other than the start production.
    #[error("no such production, at place {place}: {text}")]
    Unknown {
        /// The text, as the list has it.
        text: String,
        /// Its place in the list.
        place: usize,
    },
    /// The text at this place of the list, counted from 0, spells a production, but the texts up to there spell it more often than
    /// the grammar has it.
    #[error("repeated production, at place {place}: {text}")]
    Repeated {
        /// The text, as the list has it.
        text: String,
        /// Its place in the list.
        place: usize,
    },
    /// No text is left for this production. It has the text that `YaccGrammar::prod_text` gives.
    #[error("missing production: {text}")]
    Missing {
        /// A text that spells the production.
        text: String,
    },
    /// An allocation failed.
    #[error("out of memory")]
    Memory,
}

impl From<AllocError> for SpelledFault {
    ghost from_gives = { λ _ fault. fault ≡ Memory };

    fn from(_: AllocError) -> SpelledFault {
        SpelledFault::Memory
    }
}

impl<T: Drop> From<AllocFailed<T>> for SpelledFault {
    ghost from_gives = { λ _ fault. fault ≡ Memory };

    fn from(_: AllocFailed<T>) -> SpelledFault {
        SpelledFault::Memory
    }
}

impl SpelledFault {
    ghost use Rattle.lrpar_grammar.specs.SpelledFaults.{IsRepeatedOf, IsUnknownOf};

    // The text at that place spells no production.
    pub(super) fn unknown(alloc: Global, text: &str, place: usize) -> SpelledFault
        ensures { IsUnknownOf text.now place result }
    {
        match String::from_str(alloc, text) {
            Ok(text) => SpelledFault::Unknown { text, place },
            Err(_) => SpelledFault::Memory,
        }
    }

    // The text at that place is one too many.
    pub(super) fn repeated(alloc: Global, text: &str, place: usize) -> SpelledFault
        ensures { IsRepeatedOf text.now place result }
    {
        match String::from_str(alloc, text) {
            Ok(text) => SpelledFault::Repeated { text, place },
            Err(_) => SpelledFault::Memory,
        }
    }
}
