//! Values whose types are those of their rules: the trait that code generated from a grammar implements, and parses to such values.
#![tactic(auto)]

mod next;
mod parse;
mod rows;
mod typed;

pub use lrpar_grammar::span::{PIdx, RIdx, Symbol};
pub use lrpar_grammar::text_range::TextRange;
pub use lrpar_parse::parser::{Args, LexParseError, ParseFault, RTParserBuilder};
pub use lrpar_parse_lexemes::Lexeme;
pub use lrpar_parse_repair::repair::Recoverer;
pub use lrpar_table_check::check::ParserData;
pub use next::{next_lexeme, next_value, one_item, with_item};
pub use parse::parse_typed;
pub use rows::{are_rows_of, has_row};
pub use typed::Typed;
