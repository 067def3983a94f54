//! Names of rules and tokens for people, from a messages file, and few names for what is expected.
#![tactic(auto)]

mod candidates;
mod choices;
mod choosing;
mod entry;
mod fault;
mod first_tokens;
pub mod laws;
mod names;
mod part;
mod reading;

pub use candidates::candidate_rules;
pub use choices::{push_choices, push_token};
pub use choosing::Choices;
pub use fault::NamesFault;
pub use first_tokens::FirstTokens;
pub use names::Names;
