//! What runs take off a stack, and whether each stack of a table can be completed.
#![tactic(auto)]

mod automaton;
pub mod check_completable;
mod entries;
mod exits;
mod fault;
mod follow;
mod found;
mod good;
pub mod laws;
mod likely;
mod part;
mod pops;
mod rule_sets;
mod saturate;
mod searched;
mod sets;
