//! The grammars of `.y` files as bison reads them: their parts and precedences.
#![tactic(auto)]

pub mod ends;
pub mod faults;
pub mod grammar;
pub mod midrules;
pub mod numbers;
pub mod outline;
pub mod precedences;
pub mod symbols;
pub mod unquoted;
