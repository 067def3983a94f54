//! Stacks of states, and what a shift and a reduction do to one.
#![tactic(auto)]

pub mod laws;
pub mod overlay;
pub mod probe;
pub mod reduction;
pub mod stack_check;
pub mod state_stack;
