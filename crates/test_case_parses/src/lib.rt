//! Cases of parses.
#![tactic(auto)]

mod at_errors;
mod calls;
pub mod chain;
mod clones;
pub mod completable;
pub mod expected;
mod lexemes;
pub mod parse;
pub mod precedence;
mod recoverer;
mod shown;
mod steps;
