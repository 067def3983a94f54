//! Whether the cores of each item set are justified: each comes from the start, or from a kernel core by closure.
#![tactic(auto)]

mod marks;
pub mod viable_fault;
pub mod viable_test;
