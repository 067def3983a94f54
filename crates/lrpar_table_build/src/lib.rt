//! The table builder: the canonical LR(1) table of a grammar.
#![tactic(auto)]

pub mod build;
pub mod laws;
pub mod tables;
