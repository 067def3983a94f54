//! The declarations and rules of `.y` files as bison reads them.
#![tactic(auto)]

pub mod aliases;
pub mod directives;
pub mod rules;
pub mod signs;
pub mod word_order;
