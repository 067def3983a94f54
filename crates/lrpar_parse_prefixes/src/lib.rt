//! The viable prefix property: what a run shifts can be continued to a sentence, and an error is found at the first lexeme that
//! can't be.
#![tactic(auto)]

pub mod laws;
