//! Case files: their lines, the cases and values in them, and the comparison of what came with what is expected.
#![tactic(auto)]

pub mod cases;
pub mod fault;
pub mod line;
pub mod names;
pub mod printed;
pub mod text;
pub mod values;
pub mod verdict;
