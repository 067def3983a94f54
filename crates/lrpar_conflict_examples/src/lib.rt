//! Counterexamples of all conflicts of a table, and their texts.
#![tactic(auto)]

mod conflict;
mod conflict_list;
pub mod examples;
mod merged;
mod met;
mod paired;
mod pieces;
mod text;
mod unresolved;
mod words;
