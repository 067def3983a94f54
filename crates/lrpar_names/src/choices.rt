//! Texts of what is expected.
use crate::choosing::Choices;
use crate::names::Names;
use lrpar_grammar::grammar::YaccGrammar;
use lrpar_grammar_places::span::{RIdx, StorageIndex, TIdx};
use std::alloc::AllocError;

/// How many rules and tokens are named at most.
const MOST_CHOICES: usize = 12;

/// Adds what is expected: `expected A`, `expected A or B`, `expected A, B or C`; first the rules, and then the tokens. Of more than twelve
/// there are the first twelve, and how many more there are, as in ` or 3 more`. Adds nothing, if there are none. After an `Err` a part of
/// the text may have been added.
pub fn push_choices<StorageT: StorageIndex>(
    out: &mut String,
    grm: &YaccGrammar<StorageT>,
    names: &Names,
    choices: &Choices<StorageT>,
) -> Result<(), AllocError> {
    let rules = choices.rules.as_slice();
    let tokens = choices.tokens.as_slice();
    let named_rules = rules.get(..MOST_CHOICES).unwrap_or(rules);
    let left = MOST_CHOICES.saturating_sub(named_rules.len());
    let named_tokens = tokens.get(..left).unwrap_or(tokens);
    let count = rules.len().saturating_add(tokens.len());
    for (place, rule) in named_rules.iter().enumerate() {
        out.push_str(joint(place, count))?;
        push_rule(out, grm, names, *rule)?;
    }
    for (number, token) in named_tokens.iter().enumerate() {
        out.push_str(joint(rules.len().saturating_add(number), count))?;
        push_token(out, grm, names, *token)?;
    }
    push_more(out, count.saturating_sub(MOST_CHOICES))
}

// What comes before the choice at this place, of so many.
fn joint(place: usize, count: usize) -> &'static str {
    if place == 0 {
        "expected "
    } else if place.saturating_add(1) == count {
        " or "
    } else {
        ", "
    }
}

// Adds how many more there are, if there are any.
fn push_more(out: &mut String, more: usize) -> Result<(), AllocError> {
    match more {
        0 => Ok(()),
        _ => write!(out, " or {more} more"),
    }
}

// Adds a rule as messages name it: by its name for people, if it has one, and by its name otherwise.
fn push_rule<StorageT: StorageIndex>(
    out: &mut String,
    grm: &YaccGrammar<StorageT>,
    names: &Names,
    rule: RIdx<StorageT>,
) -> Result<(), AllocError> {
    if let Some(name) = names.rule(rule) {
        return out.push_str(name);
    }
    if usize::from(rule) < grm.rules_len() {
        out.push_str(grm.rule_name_str(rule))
    } else {
        out.push_str("no rule")
    }
}

/// Adds a token as messages name it: by its name for people, if it has one; otherwise by its printed text, if that isn't its name; otherwise
/// by its name in quotes, with line feeds, carriage returns and tabs as `\n`, `\r` and `\t`. The end token is `end of input`, if it has no
/// name for people. After an `Err` a part of the text may have been added.
pub fn push_token<StorageT: StorageIndex>(
    out: &mut String,
    grm: &YaccGrammar<StorageT>,
    names: &Names,
    token: TIdx<StorageT>,
) -> Result<(), AllocError> {
    if let Some(name) = names.token(token) {
        return out.push_str(name);
    }
    let printed = grm.epp_of(token);
    if usize::from(token) < grm.tokens_len() && grm.token_name(token) == Some(printed) {
        push_quoted(out, printed)
    } else {
        out.push_str(printed)
    }
}

// Adds the text between quotes, with line feeds, carriage returns and tabs as `\n`, `\r` and `\t`.
fn push_quoted(out: &mut String, text: &str) -> Result<(), AllocError> {
    out.push('\'')?;
    for c in text.chars() {
        match c {
            '\n' => out.push_str("\\n")?,
            '\r' => out.push_str("\\r")?,
            '\t' => out.push_str("\\t")?,
            _ => out.push(c)?,
        }
    }
    out.push('\'')
}
