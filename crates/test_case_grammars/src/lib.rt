//! Cases of grammars, of underlined messages, of reports, and of counterexamples.
#![tactic(auto)]

pub mod bison;
pub mod examples;
pub mod grammars;
pub mod parts;
pub mod reports;
pub mod spelled;
pub mod underlines;
mod uses;
pub mod yacc;
