//! Why a case has no outcome.
ghost use Rattle.std.specs.Prelude.{◌≡◌};
ghost use Rattle.test_case_lines.specs.declared.fault.Fault.TheVariants.{Memory};

use std::alloc::{AllocError, AllocFailed};
use std::{fmt, io};

/// Why a case has no outcome, or why there are no more cases.
#[derive(Clone, Copy)]
pub enum Fault {
    /// This line of the file can't be read, for this reason.
    Line(usize, &'static str),
    /// A file can't be read or written, or a stream takes no more.
    Io(io::ErrorKind),
    /// An allocation failed.
    Memory,
}

impl fmt::Display for Fault {
    fn fmt<W: fmt::Write>(&self, f: &mut fmt::Formatter<W>) -> fmt::Result {
        match self {
            Fault::Line(number, text) => write!(f, "line {number}: {text}"),
            Fault::Io(kind) => write!(f, "{kind}"),
            Fault::Memory => write!(f, "out of memory"),
        }
    }
}

impl From<io::Error> for Fault {
    fn from(error: io::Error) -> Fault {
        Fault::Io(error.kind())
    }
}

impl From<AllocError> for Fault {
    ghost from_gives = { λ _ fault. fault ≡ Memory };

    fn from(_: AllocError) -> Fault {
        Fault::Memory
    }
}

impl<T: Drop> From<AllocFailed<T>> for Fault {
    ghost from_gives = { λ _ fault. fault ≡ Memory };

    fn from(_: AllocFailed<T>) -> Fault {
        Fault::Memory
    }
}
