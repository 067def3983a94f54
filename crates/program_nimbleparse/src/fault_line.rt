//! The lines about a fault on standard error.
use program_files::fault::Fault;
use std::fmt;

/// A fault as the program prints it: a message as it is, and else the program's name and the fault.
#[derive(Drop)]
pub(crate) struct FaultLine(pub(crate) Fault);

impl fmt::Display for FaultLine {
    fn fmt<W: fmt::Write>(&self, f: &mut fmt::Formatter<W>) -> fmt::Result {
        match &self.0 {
            Fault::Message(text) => write!(f, "{text}"),
            fault => write!(f, "nimbleparse: {fault}"),
        }
    }
}
