//! Lexemes, lexers, and the repairs of an input.
#![tactic(auto)]

pub mod laws;
pub mod lex_api;
pub mod placed;
pub mod places;
pub mod pp_fault;
pub mod printed_parts;
pub mod repairs;
pub mod spaces;

pub use lex_api::{InputLexer, LexError, Lexeme, Lexer, LexerTypes, NonStreamingLexer};
pub use pp_fault::PpFault;
pub use repairs::ParseRepair;
