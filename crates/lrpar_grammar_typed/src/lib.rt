//! Grammars whose rules have types and whose productions have names: their notation, and the grammars that they mean.
#![tactic(auto)]

pub mod expand;
pub mod file;
mod forms;
pub mod laws;
mod names;
pub mod notation;
mod syntax;
pub mod typed;

pub use names::{push_named, push_word};
