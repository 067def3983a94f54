//! Levels of precedence, and the precedences of a grammar by them: by the numbers of tokens, or by the names that a `.y` file declares.
#![tactic(auto)]

mod declared;
mod fault;
mod filled;
mod levels;
mod precedences;

pub use declared::precedences_of_declarations;
pub use fault::PrecedenceFault;
pub use levels::Level;
pub use precedences::precedences_of_levels;
