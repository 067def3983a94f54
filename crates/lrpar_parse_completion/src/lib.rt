//! The recoverer `Completion`, which always repairs: it goes on at the nearest lexeme at which that is possible.
#![tactic(auto)]

mod cheapest;
mod completer;
mod completion;
mod fault;
mod finder;
pub mod laws;
mod nearest;
mod table_completion;
mod waiting;

pub use completion::Completion;
pub use fault::NoCompletion;
pub use table_completion::TableCompletion;
