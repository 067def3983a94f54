//! Why a program ends without an answer.
ghost use Rattle.std.specs.Prelude.{◌≡◌};
ghost use Rattle.program_files.specs.declared.fault.Fault.TheVariants.{Memory};

use lrpar_grammar::grammar::GrammarFault;
use lrpar_lexer::RulesFault;
use lrpar_parse::parser::ParseFault;
use lrpar_table::build::BuildFault;
use lrpar_table::check::CheckFault;
use std::alloc::{AllocError, AllocFailed, Global};
use std::io;
use thiserror::Error;

/// What is wrong with the words of a program.
#[derive(Clone, Copy, Debug, Error)]
pub enum Misuse {
    #[error("no command has these words")]
    Command,
    #[error("a word isn't UTF-8")]
    NotUtf8,
    #[error("--limit needs -r cpctplus or complete")]
    LimitAlone,
    #[error("standard input can be read once")]
    Input,
}

/// Why a program ends without an answer. The text names no program: each program adds its name when it writes the text.
#[derive(Debug, Drop, Error)]
pub enum Fault {
    /// The words are no command of the program, as this says.
    #[error("{0}")]
    Usage(Misuse),
    /// The words are wrong, as this says, which names the word.
    #[error("{0}")]
    Words(String),
    /// No lexeme would have to follow a repair.
    #[error("shifts must be at least 1")]
    ZeroShifts,
    /// The file at this path isn't there, can't be read, or isn't UTF-8.
    #[error("cannot read {0}")]
    File(String),
    /// Standard input can't be read, or isn't UTF-8.
    #[error("cannot read standard input")]
    Input,
    /// What is wrong with a file, as messages show it, without its last line feed.
    #[error("{0}")]
    Message(String),
    /// An allocation failed.
    #[error("out of memory")]
    Memory,
    /// A grammar is refused.
    #[error("grammar: {0}")]
    Grammar(GrammarFault),
    /// No table is built of a grammar.
    #[error("table: {0}")]
    Build(BuildFault),
    /// A table isn't safe to parse by.
    #[error("table: {0}")]
    Check(CheckFault),
    /// The line of this number in a lexer is no rule.
    #[error("lexer: line {0}")]
    Lexer(usize),
    /// The line of this number in a text of repairs is no sequence.
    #[error("repairs: line {0}")]
    Repairs(usize),
    /// An error lies outside of its text, which no error of a parse does.
    #[error("an error lies outside of the text")]
    Misplaced,
    /// A parse is refused for a lexeme that the program's lexer never gives.
    #[error("{0}")]
    Parse(ParseFault),
    /// Standard output takes no more.
    #[error("cannot write standard output")]
    Output,
}

impl Fault {
    /// The fault of a file that can't be read.
    pub fn of_file(alloc: Global, path: &str, error: &io::Error) -> Fault {
        if error.kind() == io::ErrorKind::OutOfMemory {
            return Fault::Memory;
        }
        match String::from_str(alloc, path) {
            Ok(path) => Fault::File(path),
            Err(_) => Fault::Memory,
        }
    }

    /// The fault of standard input that can't be read.
    pub fn of_input(error: &io::Error) -> Fault {
        match error.kind() {
            io::ErrorKind::OutOfMemory => Fault::Memory,
            _ => Fault::Input,
        }
    }

    /// The fault of a program's arguments that can't be read.
    pub fn of_arguments(error: &io::Error) -> Fault {
        match error.kind() {
            io::ErrorKind::OutOfMemory => Fault::Memory,
            _ => Fault::Usage(Misuse::NotUtf8),
        }
    }

    /// The fault that shows a message, which ends with a line feed.
    pub fn of_message(mut message: String) -> Fault {
        if message.as_str().ends_with('\n') {
            let _ = message.pop();
        }
        Fault::Message(message)
    }
}

impl From<GrammarFault> for Fault {
    fn from(fault: GrammarFault) -> Fault {
        match fault {
            GrammarFault::Memory => Fault::Memory,
            refusal => Fault::Grammar(refusal),
        }
    }
}

impl From<BuildFault> for Fault {
    fn from(fault: BuildFault) -> Fault {
        match fault {
            BuildFault::Memory => Fault::Memory,
            refusal => Fault::Build(refusal),
        }
    }
}

impl From<CheckFault> for Fault {
    fn from(fault: CheckFault) -> Fault {
        match fault {
            CheckFault::Memory => Fault::Memory,
            refusal => Fault::Check(refusal),
        }
    }
}

impl From<ParseFault> for Fault {
    fn from(fault: ParseFault) -> Fault {
        match fault {
            ParseFault::Memory => Fault::Memory,
            refusal => Fault::Parse(refusal),
        }
    }
}

impl From<RulesFault> for Fault {
    fn from(fault: RulesFault) -> Fault {
        match fault {
            RulesFault::Memory => Fault::Memory,
            RulesFault::Line(number, _) => Fault::Lexer(number),
        }
    }
}

// For a failed write to standard output. A failed read has its own faults: see `of_file` and `of_input`.
impl From<io::Error> for Fault {
    fn from(error: io::Error) -> Fault {
        match error.kind() {
            io::ErrorKind::OutOfMemory => Fault::Memory,
            _ => Fault::Output,
        }
    }
}

impl From<AllocError> for Fault {
    ghost from_gives = { λ _ fault. fault ≡ Memory };

    fn from(_: AllocError) -> Fault {
        Fault::Memory
    }
}

impl<T: Drop> From<AllocFailed<T>> for Fault {
    ghost from_gives = { λ _ fault. fault ≡ Memory };

    fn from(_: AllocFailed<T>) -> Fault {
        Fault::Memory
    }
}
