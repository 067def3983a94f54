//! `.y` files as bison reads them: their words.
#![tactic(auto)]

pub mod numbers;
pub mod spellings;
pub mod word_list;
pub mod words;
