//! The parts of a grammar, and a grammar with one more token, which no production has: for text that no rule of a lexer matches.
#![tactic(auto)]

mod copies;
pub mod laws;
mod names;
pub mod unmatched;

pub use copies::declared_parts;
pub use unmatched::{UnmatchedFault, with_unmatched};
