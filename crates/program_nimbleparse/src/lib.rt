//! `nimbleparse` over words, files and streams: grammars, lexers, trees, and messages of each.
#![tactic(auto)]

mod catalogue;
mod code;
mod command;
mod completer;
mod conflicts;
mod counts;
mod declared;
mod errors;
mod expects;
mod fault_line;
pub mod grammar;
mod header;
mod inputs;
pub mod kind;
mod look;
mod messages;
mod options;
mod parse;
mod plan;
pub mod printer;
mod program;
mod recoverers;
pub mod rules;
pub mod show;
mod shown;
mod sizes;
mod source;
mod states;
mod typed;
mod unmatched;
mod useless;
mod wording;

pub use lrpar_report::Look;
pub use program::{Terminal, run, run_of_process};
