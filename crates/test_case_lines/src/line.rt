//! The lines of a case file.
use crate::fault::Fault;
use std::alloc::Global;

/// A line that counts: its number, from 1, and what it has.
#[derive(Clone, Copy)]
pub struct Line<'a> {
    pub number: usize,
    pub content: Content<'a>,
}

/// What a line has.
#[derive(Clone, Copy)]
pub enum Content<'a> {
    /// The first line of a case: `KIND NAME`.
    Header { kind: &'a str, name: &'a str },
    /// A line of a case: `  KEY  VALUE`.
    Field { key: &'a str, value: &'a str },
    /// A line of the text that belongs to the key above: `  |TEXT`.
    Text(&'a str),
}

/// The lines of the text that count: all but empty ones, and those that begin with `--`.
pub fn lines_of<'a>(alloc: Global, text: &'a str) -> Result<Vec<Line<'a>>, Fault> {
    let mut lines = Vec::new(alloc);
    let mut number = 0usize;
    for line in text.split('\n') {
        number = number.saturating_add(1);
        if let Some(content) = content_of(line) {
            lines.push(Line { number, content })?;
        }
    }
    Ok(lines)
}

// What a line has, if it counts.
fn content_of(line: &str) -> Option<Content<'_>> {
    match line.strip_prefix("  ") {
        Some(inside) => Some(content_inside(inside)),
        None if line.starts_with("--") || line.trim().is_empty() => None,
        None => {
            let (kind, name) = in_two(line);
            Some(Content::Header { kind, name })
        }
    }
}

// What a line has that begins with two spaces, by the rest of it.
fn content_inside(inside: &str) -> Content<'_> {
    match inside.strip_prefix('|') {
        Some(text) => Content::Text(text),
        None => {
            let (key, value) = in_two(inside);
            Content::Field { key, value }
        }
    }
}

/// The first word of a text, and what follows it, without the blanks at both ends.
pub fn in_two(text: &str) -> (&str, &str) {
    match text.trim().split_once(' ') {
        Some((word, rest)) => (word, rest.trim()),
        None => (text.trim(), ""),
    }
}
