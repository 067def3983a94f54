//! Texts of errors, warnings and conflicts, with the lines that they are about, underlined.
#![tactic(auto)]

mod conflicts;
mod fault;
mod formatter;
mod source;
mod spanned;

pub use fault::{DiagnosticError, DiagnosticFault};
pub use formatter::SpannedDiagnosticFormatter;
pub use spanned::DiagnosticFormatter;
