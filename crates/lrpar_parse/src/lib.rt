//! The parse calls: lexers in, a value or a tree and errors out.
#![tactic(auto)]

mod actions;
mod args;
pub mod every_text;
mod expected;
pub mod failures;
pub mod fault;
pub mod generictree;
pub mod laws;
mod lexed;
pub mod lexeme_fault;
pub mod parser;
mod shifts;
mod values;

pub use parser::RTParserBuilder;
