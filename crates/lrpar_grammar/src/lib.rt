//! The grammar: symbols, rules and productions, with their names and places, and sets of tokens.
#![tactic(auto)]

pub mod grammar;
pub mod laws;
pub mod token_set;

pub use lrpar_grammar_places::{lines, span, text_range};
