//! State tables for users: a table, its builder and its check.
#![tactic(auto)]

pub mod build;
pub mod laws;

pub use lrpar_table_check::check;
pub use lrpar_table_rows::table;
