//! Nullable rules, and FIRST sets.
#![tactic(auto)]

pub mod after_dot;
pub mod first;
