//! The conditions of a safe table and those of a complete one, each tested at one state.
#![tactic(auto)]

pub mod checkable;
pub mod completeness;
pub mod completeness_fault;
pub mod completeness_test;
mod cores;
mod entrywise;
mod shape;
