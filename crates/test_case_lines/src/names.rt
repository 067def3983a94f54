//! Names of rules and tokens.
use crate::fault::Fault;
use crate::values::index_of;
use lrpar_grammar::grammar::YaccGrammar;
use lrpar_grammar::span::{RIdx, StorageIndex, TIdx};

/// The name of the rule; empty out of range.
pub fn rule_name<S: StorageIndex>(grm: &YaccGrammar<S>, rule: RIdx<S>) -> &str {
    if usize::from(rule) < grm.rules_len() {
        grm.rule_name_str(rule)
    } else {
        ""
    }
}

/// The name of the token, `$` for the end token; empty out of range.
pub fn token_name<S: StorageIndex>(grm: &YaccGrammar<S>, token: TIdx<S>) -> &str {
    if usize::from(token) < grm.tokens_len() {
        grm.token_name(token).unwrap_or("$")
    } else {
        ""
    }
}

/// The token of this name, `$` for the end token; else that of this number, which needn't be one of the grammar.
pub fn token_of(grm: &YaccGrammar<u32>, word: &str, line: usize) -> Result<TIdx<u32>, Fault> {
    match grm.token_idx(word) {
        Some(token) => Ok(token),
        None if word == "$" => Ok(grm.eof_token_idx()),
        None => Ok(TIdx(index_of(word, line)?)),
    }
}
