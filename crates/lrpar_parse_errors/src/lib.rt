//! Parse errors with their repairs, and the texts of both.
#![tactic(auto)]

mod error_text;
pub mod errors;
mod expected;
mod message;
mod names;
mod sequence_text;

pub use errors::{LexParseError, ParseError, ParseRepair, PpFault};
