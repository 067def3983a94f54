//! Patterns that are plain texts.
use std::alloc::{AllocError, Global};

/// The text that the pattern seems to match alone. There is none, if it has an operator of regular expressions, or an escape with a meaning of
/// its own.
pub(crate) fn plain_text(alloc: Global, pattern: &str) -> Result<Option<String>, AllocError> {
    if let Some(character) = class_of_one(pattern) {
        return Ok(Some(String::from_str(alloc, character)?));
    }
    let mut text = String::new(alloc);
    let mut is_escaped = false;
    for c in pattern.chars() {
        if !is_escaped && c == '\\' {
            is_escaped = true;
        } else if stands_for_itself(is_escaped, c) {
            text.push(c)?;
            is_escaped = false;
        } else {
            return Ok(None);
        }
    }
    if is_escaped || text.is_empty() {
        return Ok(None);
    }
    Ok(Some(text))
}

// Whether the character, after a backslash or without one, is matched by itself alone.
fn stands_for_itself(is_escaped: bool, c: char) -> bool {
    if is_escaped {
        c.is_ascii_punctuation()
    } else {
        !is_operator(c)
    }
}

// The character of a class of one character.
fn class_of_one(pattern: &str) -> Option<&str> {
    let inside = pattern.strip_prefix('[')?.strip_suffix(']')?;
    if is_plain(inside) { Some(inside) } else { None }
}

// Whether the text is one character that has no meaning in a class.
fn is_plain(inside: &str) -> bool {
    inside.chars().count() == 1 && !matches!(inside, "^" | "\\" | "[" | "]")
}

// Whether the character is an operator of regular expressions.
fn is_operator(c: char) -> bool {
    matches!(
        c,
        '.' | '*' | '+' | '?' | '|' | '(' | ')' | '[' | ']' | '{' | '}' | '^' | '$' | '\\'
    )
}
