//! The parts of a grammar, and the reader that makes them of a grammar text.
#![tactic(auto)]

pub mod laws;
pub mod names;
pub mod parts;
pub mod reader;
pub mod spelled;
pub mod tables;
pub mod wrong_names;
