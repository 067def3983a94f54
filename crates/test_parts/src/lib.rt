//! What test crates share: grammars with their tables, a lexer, a calculator as a user writes it, and drops.
#![tactic(auto)]

pub mod built;
pub mod calculator;
pub mod drops;
pub mod lexer;
