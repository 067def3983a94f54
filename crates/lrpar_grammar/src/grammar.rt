//! The grammar value: rules, tokens and productions with their names and places.

mod fit;
mod matching;
mod numbers;
mod prod_text;
mod prods;
mod spelled;
mod spelled_fault;
mod spelled_parts;
mod symbol_names;
mod text;
mod tokens;
mod value;

pub use lrpar_grammar_reader::parts::{GrammarFault, GrammarParts, ProdPart, RulePart, TokenPart};
pub use numbers::Numbers;
pub use spelled::Spelled;
pub use spelled_fault::SpelledFault;
pub use spelled_parts::SpelledParts;
pub use value::YaccGrammar;
