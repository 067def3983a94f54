//! A language: the table of its grammar, its lexer, and the reports of errors in its texts.
#![tactic(auto)]

mod fault;
mod language;

pub use fault::LanguageFault;
pub use language::{Language, LanguageTexts};
