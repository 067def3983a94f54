//! Cases of tables: building, checking, stacks, tables by hand, and those of `.y` files.
#![tactic(auto)]

pub mod actions;
pub mod built;
pub mod checks;
pub mod faults;
pub mod hand;
pub mod precedences;
pub mod refusals;
pub mod rows;
pub mod stack;
pub mod stacks;
pub mod subject;
pub mod yacc_files;
