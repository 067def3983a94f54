//! Code in a grammar file: its pieces, and where it ends.
#![tactic(auto)]

pub mod code;
pub mod laws;
