//! Why texts are no language.
use lrpar_grammar::grammar::GrammarFault;
use lrpar_grammar_unmatched::UnmatchedFault;
use lrpar_lexer::RulesFault;
use lrpar_messages::MessageFault;
use lrpar_names::NamesFault;
use lrpar_table::build::Unbuilt;
use std::alloc::AllocError;
use thiserror::Error;

/// Why texts are no language.
#[derive(Debug, Drop, Error)]
pub enum LanguageFault {
    /// The grammar is at fault.
    #[error("grammar: {0}")]
    Grammar(#[from] GrammarFault),
    /// The grammar has a symbol that is called `unknown text`, or no room for one token more.
    #[error("token of unknown text: {0}")]
    Unmatched(#[from] UnmatchedFault),
    /// The rules of the lexer are at fault.
    #[error("lexer: {0}")]
    Lexer(#[from] RulesFault),
    /// The names of rules and tokens are at fault.
    #[error("names: {0}")]
    Names(#[from] NamesFault),
    /// The messages for errors are at fault.
    #[error("messages: {0}")]
    Messages(#[from] MessageFault),
    /// The grammar has no table.
    #[error("table: {0}")]
    Table(#[from] Unbuilt<u32>),
    /// An allocation failed.
    #[error("out of memory")]
    Memory(#[from(alloc)] AllocError),
}
