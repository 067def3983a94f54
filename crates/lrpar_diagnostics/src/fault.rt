//! The text of an error, and why it isn't made.
ghost use Rattle.std.specs.Prelude.{◌≡◌};
ghost use Rattle.lrpar_diagnostics.specs.declared.fault.DiagnosticFault.TheVariants.{Memory};

use std::alloc::{AllocError, AllocFailed};
use std::error::Error;
use std::fmt;
use std::marker::Model;

/// Why the text of an error or a warning isn't made.
#[derive(Clone, Copy, Debug, PartialEq, Eq, thiserror::Error)]
pub enum DiagnosticFault {
    /// An error has more than one place, but only one can be its own.
    #[error("several spans")]
    SeveralSpans,
    /// Out of memory: an allocation failed.
    #[error("out of memory")]
    Memory,
}

impl From<AllocError> for DiagnosticFault {
    ghost from_gives = { λ _ fault. fault ≡ Memory };

    fn from(_: AllocError) -> DiagnosticFault {
        DiagnosticFault::Memory
    }
}

impl<T: Drop> From<AllocFailed<T>> for DiagnosticFault {
    ghost from_gives = { λ _ fault. fault ≡ Memory };

    fn from(_: AllocFailed<T>) -> DiagnosticFault {
        DiagnosticFault::Memory
    }
}

/// An error by its text, which names the places of another error.
#[derive(Debug, Drop)]
pub struct DiagnosticError {
    text: String,
}

impl Model for DiagnosticError {
    ghost use Rattle.std.specs.Prelude.{List, ℕ};
    ghost use Rattle.std.specs.String.{string_bytes};

    ghost Value = { List ℕ };

    ghost view = { λ error. string_bytes error.text };
}

impl DiagnosticError {
    ghost use Rattle.std.specs.String.{string_bytes};

    // The error of this text.
    pub(crate) fn new(text: String) -> Self
        ensures { result ≡ string_bytes text }
    {
        DiagnosticError { text }
    }

    /// The text.
    pub fn text(&self) -> &str
        ensures { result.now ≡ self.now }
    {
        self.text.as_str()
    }
}

impl fmt::Display for DiagnosticError {
    ghost use Rattle.std.specs.Prelude.{Some};

    ghost output = { λ error. Some error };

    fn fmt<W: fmt::Write>(&self, f: &mut fmt::Formatter<W>) -> fmt::Result {
        let text = self.text();
        write!(f, "{text}")
    }
}

impl Error for DiagnosticError {}
