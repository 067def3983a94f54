//! The table builder with options: precedences, merging of item sets, and limits on states and chains.
#![tactic(auto)]

pub mod options;

pub use lrpar_table_merge::build::Minimiser;
pub use options::TableOptions;
