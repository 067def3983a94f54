//! Drops of errors. A crate that drops them by these calls has no drop of its own to prove.
use lrpar_lexer::TokenTypes;
use lrpar_parse_errors::errors::LexParseError;

/// Drops an error.
pub fn drop_error(_: LexParseError<u32, TokenTypes>) {}

/// Drops the errors of a parse.
pub fn drop_errors(_: Vec<LexParseError<u32, TokenTypes>>) {}
