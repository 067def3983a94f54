//! The law that a parse stops in no other state than those in which a run can stop.
#![tactic(auto)]

pub mod laws;
