//! Closure and goto of LR(1) items, the canonical collection of item sets, and the choice between the actions of a state.
#![tactic(auto)]

pub mod closure;
pub mod complete_items;
pub mod cores;
pub mod fault;
pub mod item_rows;
pub mod item_set;
pub mod items;
pub mod kernels;
mod numbers;
mod reach;
pub mod resolution;
pub mod sets;
pub mod state_row;
pub mod states;
pub mod successors;
