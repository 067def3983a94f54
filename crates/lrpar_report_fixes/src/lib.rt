//! Reports of parse errors with ways to mend the text.
#![tactic(auto)]

mod changes;
mod expected;
mod filling;
mod fixes;
mod lexemes;
mod openers;
mod patterns;
mod ranking;
mod reports;
mod rule_texts;
mod scene;
mod spacing;
mod spellings;
mod subject;
mod text_reports;
mod token_texts;
mod ways;
mod wording;
mod words;

pub use rule_texts::read_token_texts;
pub use text_reports::TextReports;
pub use token_texts::TokenTexts;
pub use wording::Wording;
