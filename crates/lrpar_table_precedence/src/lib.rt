//! Precedences of tokens and productions, and what they decide between a shift and a reduction.
#![tactic(auto)]

pub mod precedence;
pub mod precedences;
