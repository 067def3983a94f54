//! The commands of `lrpar` over words, files and streams.
#![tactic(auto)]

mod arguments;
mod calc;
mod check;
mod conflicts;
mod demo;
mod fault_line;
mod lexer;
mod program;
mod tree;

pub use program::{run, run_of_process};
