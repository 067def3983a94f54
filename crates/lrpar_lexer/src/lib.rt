//! A lexer that uses rules, each a regular expression and a token; its rules as a text; and a lexer over a list of lexemes.
#![tactic(auto)]

pub mod laws;
mod lexer;
mod lexing;
mod lexing_all;
mod list_fault;
mod list_lexer;
mod list_places;
mod marks;
mod matcher;
mod matching;
mod parts;
mod rule;
mod rule_lexer;
mod rule_tree;
mod rules;
mod token;

pub use lexer::{LexRules, TextLexer};
pub use lexing::push_lexeme;
pub use list_fault::ListFault;
pub use list_lexer::ListLexer;
pub use matching::{Matchers, Winner};
pub use parts::part_of;
pub use rule::LexRule;
pub use rule_lexer::RuleLexer;
pub use rules::{LineFault, RulesFault, rules_of};
pub use token::{NoToken, Token, TokenTypes};
