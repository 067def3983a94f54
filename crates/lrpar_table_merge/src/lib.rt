//! Merging of LR(1) item sets: weak compatibility of kernels, the union of their lookaheads, and the items that merged states hold.
#![tactic(auto)]

pub mod build;
mod clear;
pub mod compatible;
mod distinct;
mod expansions;
pub mod held;
pub mod laws;
mod merge;
mod merged_states;
mod merged_table;
mod pass;
mod propagate;
mod reached;
pub mod unite;
