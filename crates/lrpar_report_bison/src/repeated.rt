//! Tokens and texts of a `.y` file that are declared again.
use crate::seen::Seen;
use crate::words::push_word;
use lrpar_grammar_bison::words::Word;
use lrpar_grammar_bison_rules::word_order::Role;
use lrpar_grammar_places::span::Span;
use lrpar_report_lines::Report;
use std::alloc::{AllocError, Global};
use std::collections::BTreeMap;

/// Adds a warning for each token of `%token` that is declared again, and for each text that names no token, as its token has one already or
/// the text is another token's.
pub(crate) fn push_repeated(
    reports: &mut Vec<Report>,
    alloc: Global,
    seen: &[Seen<'_>],
) -> Result<(), AllocError> {
    // Where tokens come first among the words; and where texts do, by themselves and by their tokens.
    let mut tokens = BTreeMap::new(alloc);
    let mut texts = BTreeMap::new(alloc);
    let mut named = BTreeMap::new(alloc);
    let mut token = "";
    for (number, one) in seen.iter().enumerate() {
        match one.role {
            Role::Token => {
                push_token(reports, alloc, seen, &mut tokens, number, one.word)?;
                token = one.word.name;
            }
            Role::Alias => {
                let text = one.word;
                push_text(
                    reports, alloc, seen, &mut texts, &mut named, token, number, text,
                )?;
            }
            _ => {}
        }
    }
    Ok(())
}

// Adds the token, or a warning, if it is declared already.
fn push_token<'a>(
    reports: &mut Vec<Report>,
    alloc: Global,
    seen: &[Seen<'_>],
    tokens: &mut BTreeMap<&'a str, usize>,
    number: usize,
    word: Word<'a>,
) -> Result<(), AllocError> {
    if let Some(first) = place_of(seen, tokens, word.name) {
        let what = " is declared again";
        let report = again(alloc, "token ", word.name, what, word.span())?;
        reports.push(report.label(first, "it is declared here")?)?;
    } else {
        tokens.insert(word.name, number)?;
    }
    Ok(())
}

// Adds the text of a token; or a warning, if it is another token's, or the token has one. Bison's own tokens have.
fn push_text<'a>(
    reports: &mut Vec<Report>,
    alloc: Global,
    seen: &[Seen<'_>],
    texts: &mut BTreeMap<&'a str, usize>,
    named: &mut BTreeMap<&'a str, usize>,
    token: &'a str,
    number: usize,
    text: Word<'a>,
) -> Result<(), AllocError> {
    if let Some(first) = place_of(seen, texts, text.name) {
        let what = " is that of a token already";
        let report = again(alloc, "text ", text.name, what, text.span())?;
        reports.push(report.label(first, "it is declared here")?)?;
    } else if let Some(first) = place_of(seen, named, token) {
        let report = again(alloc, "token ", token, " has a text already", text.span())?;
        reports.push(report.label(first, "this is its text")?)?;
    } else if token == "error" || token == "YYUNDEF" {
        reports.push(again(alloc, "token ", token, " has a text already", text.span())?)?;
    } else {
        texts.insert(text.name, number)?;
        named.insert(token, number)?;
    }
    Ok(())
}

// The place of the word that the map has for the name, if it has one.
fn place_of(seen: &[Seen<'_>], numbers: &BTreeMap<&str, usize>, name: &str) -> Option<Span> {
    let number = *numbers.get(name)?;
    let one = seen.get(number)?;
    Some(one.word.span())
}

// A warning about something that is declared again.
fn again(
    alloc: Global,
    front: &str,
    name: &str,
    back: &str,
    span: Span,
) -> Result<Report, AllocError> {
    let mut message = String::from_str(alloc, front)?;
    push_word(&mut message, name)?;
    message.push_str(back)?;
    Report::warning(alloc, message.as_str())?.label(span, "leave this one out")
}
