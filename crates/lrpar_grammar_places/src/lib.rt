//! The numbers of rules, productions, tokens and states, spans of a text, and its lines.
#![tactic(auto)]

pub mod laws;
pub mod lines;
pub mod span;
pub mod text_range;
