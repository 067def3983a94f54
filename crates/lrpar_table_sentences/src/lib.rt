//! Minimal sentences of symbols, access strings of states, and which rules are reachable and productive.
#![tactic(auto)]

pub mod access_strings;
mod back;
mod begins;
mod descend;
mod edges;
mod kept;
mod minimal_accesses;
mod minimal_sentences;
pub mod moves;
pub mod reachable;
pub mod shortest;
mod transitions;
mod unfold;
