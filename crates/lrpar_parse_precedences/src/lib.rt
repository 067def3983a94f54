//! Trees of parses over tables that are built by precedences: they respect the precedences.
#![tactic(auto)]

pub mod laws;
