//! The line about a fault on standard error.
use program_files::fault::Fault;
use std::fmt;

/// How the program is called.
const USAGE: &str =
    "usage: lrpar demo TEXT | tree [--shifts K] GRAMMAR LEXER INPUT [REPAIRS] | check GRAMMAR CAP | conflicts GRAMMAR | calc [--shifts K] [REPAIRS]";

/// A fault as the program prints it: how the program is called if its words are wrong, and else its name and the fault.
#[derive(Drop)]
pub(crate) struct FaultLine(pub(crate) Fault);

impl fmt::Display for FaultLine {
    fn fmt<W: fmt::Write>(&self, f: &mut fmt::Formatter<W>) -> fmt::Result {
        match &self.0 {
            Fault::Usage(_) => write!(f, "{USAGE}"),
            fault => write!(f, "lrpar: {fault}"),
        }
    }
}
