//! The words of a grammar text, and the declarations and rules that they make.
#![tactic(auto)]

pub mod laws;
pub mod outline;
pub mod word_list;
pub mod word_order;
pub mod words;
