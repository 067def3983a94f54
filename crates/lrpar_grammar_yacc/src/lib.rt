//! `.y` files of lrpar and of yacc: their erasure to a grammar text, the grammar that is left, and what they declare beside it.
#![tactic(auto)]

pub mod declarations;
pub mod faults;
pub mod file;
pub mod laws;
pub mod parts;
pub mod steps;
pub mod text;
