//! What both programs share: files and streams, texts, tables of grammars, and parses with what is printed of them.
#![tactic(auto)]

pub mod fault;
pub mod files;
pub mod parsing;
pub mod repairs;
pub mod streams;
pub mod tables;
