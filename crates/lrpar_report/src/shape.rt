//! What may come at a place of a grammar text, which is found by trying it.
use crate::choices::joint;
use lrpar_grammar_words::outline::{Outline, OutlineFault};
use lrpar_grammar_words::words::WordKind;
use std::alloc::{AllocError, Global};

// A word of this kind, after a blank, and how messages name such words.
fn sample(kind: WordKind) -> (&'static str, &'static str) {
    match kind {
        WordKind::StartSign => (" %start", "%start"),
        WordKind::TokenSign => (" %token", "%token"),
        WordKind::EppSign => (" %epp", "%epp"),
        WordKind::RulesSign => (" %%", "%%"),
        WordKind::Name => (" a", "a name"),
        WordKind::Quoted => (" 'a'", "a quoted word"),
        WordKind::Colon => (" :", "':'"),
        WordKind::Bar => (" |", "'|'"),
        WordKind::Semicolon => (" ;", "';'"),
    }
}

/// Adds the kinds of words that may follow this beginning of a grammar text, which has to be a list of whole words that begins some
/// grammar text: `, expected A, B or C`.
pub(crate) fn push_expected(
    out: &mut String,
    alloc: Global,
    front: &str,
) -> Result<(), AllocError> {
    let names = expected(alloc, front)?;
    if !names.is_empty() {
        out.push_str(", ")?;
    }
    for (place, name) in names.iter().enumerate() {
        out.push_str(joint(place, names.len().saturating_sub(place)))?;
        out.push_str(name)?;
    }
    Ok(())
}

// The kinds of words that may follow the beginning.
fn expected(alloc: Global, front: &str) -> Result<Vec<&'static str>, AllocError> {
    let mut names = Vec::new(alloc);
    for kind in WordKind::ALL {
        let (word, name) = sample(kind);
        if can_follow(alloc, front, word)? {
            names.push(name)?;
        }
    }
    if can_follow(alloc, front, "")? {
        names.push("the end")?;
    }
    Ok(names)
}

// Whether the word may follow the beginning: the text is then read to its end.
fn can_follow(alloc: Global, front: &str, word: &str) -> Result<bool, AllocError> {
    let text = format!(in alloc; "{front}{word}")?;
    match Outline::read(alloc, text.as_str()) {
        Ok(_) => Ok(true),
        Err(OutlineFault::Syntax(place)) => Ok(!word.is_empty() && place == text.len()),
        Err(OutlineFault::Memory) => Err(AllocError),
    }
}
