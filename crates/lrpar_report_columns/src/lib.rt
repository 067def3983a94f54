//! A text and its lines as they are printed, and the columns of its parts.
#![tactic(auto)]

mod lines;

pub use lines::{Lines, push_repeated};
