//! Reports for programs: each is a JSON object on a line of its own.
#![tactic(auto)]

mod lists;
mod parts;
mod reporting;
mod writer;

pub use reporting::JsonReporter;
