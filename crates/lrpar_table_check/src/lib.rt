//! The check of a table: its conditions, and the lengths of its chains of reductions.
#![tactic(auto)]

mod chains;
pub mod check;
mod complete_tables;
mod expected;
mod fault;
pub mod laws;
mod longest;
mod safety;
mod settle;
mod stack_check;
mod viable_tables;
