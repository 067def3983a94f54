//! Cases of lexers by `.l` files.
#![tactic(auto)]

pub mod lrlex;
