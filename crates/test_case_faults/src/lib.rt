//! Cases of faults that are shown where they are.
#![tactic(auto)]

pub mod bison_reports;
pub mod faults;
