//! Lists of what may come somewhere.
use lrpar_grammar::grammar::YaccGrammar;
use lrpar_grammar::span::{StorageIndex, TIdx};
use std::alloc::AllocError;

/// How many tokens are named at most.
const MOST_CHOICES: usize = 12;

/// Adds what may come: `expected A`, `expected A or B`, `expected A, B or C`; of more than twelve tokens the first twelve, and how many
/// more there are. Adds nothing, if there are none.
pub fn push_choices<StorageT: StorageIndex>(
    out: &mut String,
    grm: &YaccGrammar<StorageT>,
    tokens: &[TIdx<StorageT>],
) -> Result<(), AllocError> {
    let named = tokens.get(..MOST_CHOICES).unwrap_or(tokens);
    let more = tokens.len().saturating_sub(named.len());
    for (place, token) in named.iter().enumerate() {
        let after = named.len().saturating_sub(place).saturating_add(more);
        out.push_str(joint(place, after))?;
        push_token(out, grm, *token)?;
    }
    push_more(out, " or ", more)
}

/// Adds how many more there are, if there are any.
pub(crate) fn push_more(out: &mut String, before: &str, more: usize) -> Result<(), AllocError> {
    match more {
        0 => Ok(()),
        _ => write!(out, "{before}{more} more"),
    }
}

/// What comes before the choice at place `place` of a list, if `left` choices are left with it.
pub(crate) fn joint(place: usize, left: usize) -> &'static str {
    match (place, left) {
        (0, _) => "expected ",
        (_, 1) => " or ",
        _ => ", ",
    }
}

/// Adds a token as messages name it: by its printed text, if it has one, by its name in quotes otherwise, and the end token as
/// `end of input`.
pub fn push_token<StorageT: StorageIndex>(
    out: &mut String,
    grm: &YaccGrammar<StorageT>,
    token: TIdx<StorageT>,
) -> Result<(), AllocError> {
    let printed = grm.epp_of(token);
    if usize::from(token) < grm.tokens_len() && grm.token_name(token) == Some(printed) {
        push_quoted(out, printed)
    } else {
        out.push_str(printed)
    }
}

/// Adds the text between quotes, with line feeds, carriage returns and tabs as `\n`, `\r` and `\t`.
pub fn push_quoted(out: &mut String, text: &str) -> Result<(), AllocError> {
    out.push('\'')?;
    for c in text.chars() {
        match escape_of(c) {
            Some(escape) => out.push_str(escape)?,
            None => out.push(c)?,
        }
    }
    out.push('\'')
}

// What is written between quotes in place of a line feed, a carriage return or a tab.
fn escape_of(c: char) -> Option<&'static str> {
    match c {
        '\n' => Some("\\n"),
        '\r' => Some("\\r"),
        '\t' => Some("\\t"),
        _ => None,
    }
}

/// Adds texts, one after the other.
pub(crate) fn push_all(out: &mut String, texts: &[&str]) -> Result<(), AllocError> {
    for text in texts {
        out.push_str(text)?;
    }
    Ok(())
}
