//! Changes of one lexeme that help at an error: each that does, and how far a run then comes.
#![tactic(auto)]

mod change;
mod front;
mod search;
mod trial;

pub use change::{Change, Suggestion};
pub use search::suggestions;
