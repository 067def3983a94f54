//! Stacks of states that share their lower states.
#![tactic(auto)]

pub mod laws;
pub mod shared_stacks;
