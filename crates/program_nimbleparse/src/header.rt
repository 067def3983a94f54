//! The header of a `.y` file, `%grmtools{..}`, and the kind that it names.
use crate::kind::GrammarKind;
use lrpar_grammar::span::Span;
use lrpar_grammar_words::word_order::Expected;
use lrpar_grammar_yacc::parts::{PartKind, YaccKind};
use lrpar_grammar_yacc::steps::{StepKind, step_at};
use std::alloc::{AllocError, Global};

/// What the header of a file says of its kind.
#[derive(Clone, Copy)]
pub(crate) enum Named {
    /// Nothing, or there is no header.
    Nothing,
    /// This kind.
    Kind(GrammarKind),
    /// A kind that isn't known, at this place of the file.
    Unknown(Span),
}

/// What the header of a file says of its kind by `yacckind`. Only blanks and comments may come before the header.
pub(crate) fn named_kind(alloc: Global, text: &str) -> Result<Named, AllocError> {
    let Some(header) = header_of(text) else {
        return Ok(Named::Nothing);
    };
    let settings = text.get(header.start()..header.end()).unwrap_or("");
    let mut at = header.start();
    for setting in settings.split(',') {
        let (key, value) = setting.split_once(':').unwrap_or((setting, ""));
        if lowered(alloc, key)?.as_str() == "yacckind" {
            let start = at.saturating_add(key.len()).saturating_add(1);
            return kind_named(alloc, value, start);
        }
        at = at.saturating_add(setting.len()).saturating_add(1);
    }
    Ok(Named::Nothing)
}

// The place between the braces of the header, if there is one.
fn header_of(text: &str) -> Option<Span> {
    let bytes = text.as_bytes();
    let mut place = 0usize;
    for _ in 0..bytes.len() {
        let rest = bytes.get(place..).unwrap_or(&[]);
        let step = step_at(YaccKind::Grmtools, Expected::Declaration, rest)?;
        let end = place.saturating_add(step.len);
        match step.kind {
            StepKind::Blank => place = end,
            StepKind::Part(PartKind::Header) => {
                let start = place.saturating_add(step.head).saturating_add(1);
                return Some(Span::new(start.min(end), end.saturating_sub(1).max(start.min(end))));
            }
            _ => return None,
        }
    }
    None
}

// The kind that a value names, which starts at that byte of the file. Namespaces may be left out, and case doesn't count.
fn kind_named(alloc: Global, value: &str, start: usize) -> Result<Named, AllocError> {
    let word = lowered(alloc, value)?;
    let word = without(word.as_str(), "yacckind::");
    if word == "grmtools" {
        return Ok(Named::Kind(GrammarKind::Yacc(YaccKind::Grmtools)));
    }
    if word == "typed" {
        return Ok(Named::Kind(GrammarKind::Typed));
    }
    if is_original(word) {
        return Ok(Named::Kind(GrammarKind::Yacc(YaccKind::Original)));
    }
    let after = value.trim_start();
    let from = start.saturating_add(value.len().saturating_sub(after.len()));
    let to = from.saturating_add(after.trim_end().len());
    Ok(Named::Unknown(Span::new(from, to)))
}

// Whether it is `original` with one of the kinds of actions.
fn is_original(word: &str) -> bool {
    let Some(inner) = word.strip_prefix("original(") else {
        return false;
    };
    let actions = without(
        inner.strip_suffix(')').unwrap_or(""),
        "yaccoriginalactionkind::",
    );
    matches!(actions, "noaction" | "useraction" | "genericparsetree")
}

// The text without that word, if it begins with it.
fn without<'a>(text: &'a str, word: &str) -> &'a str {
    text.strip_prefix(word).unwrap_or(text)
}

// The text in small letters, and without blanks.
fn lowered(alloc: Global, text: &str) -> Result<String, AllocError> {
    let mut word = String::new(alloc);
    for c in text.chars() {
        if !c.is_whitespace() {
            word.push(c.to_ascii_lowercase())?;
        }
    }
    Ok(word)
}
