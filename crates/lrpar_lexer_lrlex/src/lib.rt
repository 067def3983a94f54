//! Lexers by `.l` files, in the form of lrlex: rules with start states.
#![tactic(auto)]

mod active;
mod declarations;
mod escapes;
mod fault;
mod flags;
pub mod laws;
mod lexer;
mod lexing;
mod lexing_all;
mod line;
mod names;
mod part;
mod reading;
mod rule_line;
mod rules;
mod stack;
mod states;

pub use fault::LrlexFault;
pub use lexer::StateLexer;
pub use reading::rules_of_lrlex;
pub use rules::LrlexRules;
