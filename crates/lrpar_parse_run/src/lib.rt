//! The run of the parser: shifts and reductions, the values that they build, and the replay of repairs, from error point to error
//! point.
#![tactic(auto)]

pub mod building;
pub mod entries;
mod far;
pub mod nothing;
pub mod reducing;
pub mod replay;
pub mod run;
pub mod run_stack;
pub mod top;
pub mod trees;
pub mod values;
pub mod whole_run;
