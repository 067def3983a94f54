//! The code of typed grammars: a trait of actions, parses to their values, and a spec.
#![tactic(auto)]

mod actions;
mod args;
mod names;
mod plan;
mod rows;
mod rules;
mod syntax;
mod template;
mod values;

pub use plan::CodeFault;
pub use syntax::{rust_of, spec_of};
