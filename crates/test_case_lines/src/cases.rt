//! Cases, as lines of their file.
use crate::fault::Fault;
use crate::line::{Content, Line};
use crate::text::unescaped;
use std::alloc::Global;

/// A case: its first line, and the lines below it.
#[derive(Clone, Copy)]
pub struct Case<'t, 'a> {
    /// The number of its first line.
    pub number: usize,
    /// What kind of case it is.
    pub kind: &'a str,
    /// What it shows.
    pub name: &'a str,
    /// The lines below the first one.
    pub lines: &'t [Line<'a>],
}

/// The case that begins with the line at this place, if one does. Lines before the first case are a case without a kind.
pub fn case_at<'t, 'a>(lines: &'t [Line<'a>], at: usize) -> Option<Case<'t, 'a>> {
    let (first, below) = lines.get(at..)?.split_first()?;
    let number = first.number;
    let lines = until_header(below);
    match first.content {
        Content::Header { kind, name } => Some(Case {
            number,
            kind,
            name,
            lines,
        }),
        Content::Field { .. } | Content::Text(_) if at > 0 => None,
        Content::Field { .. } | Content::Text(_) => Some(Case {
            number,
            kind: "",
            name: "",
            lines,
        }),
    }
}

/// The lines after this place, up to the next case that is a subject.
pub fn section_after<'t, 'a>(lines: &'t [Line<'a>], at: usize) -> &'t [Line<'a>] {
    until_subject(&lines[at.saturating_add(1).min(lines.len())..])
}

// The lines before the next case.
fn until_header<'t, 'a>(lines: &'t [Line<'a>]) -> &'t [Line<'a>] {
    let count = lines.iter().position(|line| is_header(*line));
    &lines[..count.unwrap_or(lines.len()).min(lines.len())]
}

// The lines before the next case that is a subject.
fn until_subject<'t, 'a>(lines: &'t [Line<'a>]) -> &'t [Line<'a>] {
    let count = lines.iter().position(|line| begins_subject(*line));
    &lines[..count.unwrap_or(lines.len()).min(lines.len())]
}

// Whether a case that is a subject begins with the line.
fn begins_subject(line: Line<'_>) -> bool {
    match line.content {
        Content::Header { kind, name: _ } => is_subject(kind),
        Content::Field { .. } | Content::Text(_) => false,
    }
}

// Whether a case of this kind is the subject of the cases after it.
fn is_subject(kind: &str) -> bool {
    kind == "grammar" || kind == "table"
}

// Whether a case begins with the line.
fn is_header(line: Line<'_>) -> bool {
    matches!(line.content, Content::Header { .. })
}

impl<'t, 'a> Case<'t, 'a> {
    /// Whether it is the subject of the cases after it.
    pub fn is_subject(&self) -> bool {
        is_subject(self.kind)
    }

    /// The lines from the first one with this key on; none, if there is none.
    pub fn from(&self, key: &str) -> &'t [Line<'a>] {
        from_key(self.lines, key)
    }

    /// The value of the first line with this key, and the number of that line.
    pub fn value(&self, key: &str) -> Option<(&'a str, usize)> {
        value_of(self.from(key))
    }

    /// The value of the first line with this key, empty if there is none.
    pub fn value_or_nothing(&self, key: &str) -> &'a str {
        match self.value(key) {
            Some((value, _)) => value,
            None => "",
        }
    }

    /// The text of the first line with this key, and of the lines of text below it, empty if there is none.
    pub fn bytes(&self, alloc: Global, key: &str) -> Result<Vec<u8>, Fault> {
        bytes_of(alloc, self.from(key))
    }

    /// The value of a key as a string.
    pub fn text(&self, alloc: Global, key: &str) -> Result<String, Fault> {
        match String::from_utf8(self.bytes(alloc, key)?) {
            Ok(text) => Ok(text),
            Err(_) => Err(Fault::Line(self.number, "a text that isn't UTF-8")),
        }
    }
}

/// The lines from the first one with this key on; none, if there is none.
pub fn from_key<'t, 'a>(lines: &'t [Line<'a>], key: &str) -> &'t [Line<'a>] {
    let at = lines.iter().position(|line| has_key(*line, key));
    &lines[at.unwrap_or(lines.len()).min(lines.len())..]
}

// Whether the line has this key.
fn has_key(line: Line<'_>, name: &str) -> bool {
    match line.content {
        Content::Field { key, value: _ } => key == name,
        Content::Header { .. } | Content::Text(_) => false,
    }
}

/// The value of the first of these lines, and its number.
pub fn value_of<'a>(lines: &[Line<'a>]) -> Option<(&'a str, usize)> {
    match lines.first()?.content {
        Content::Field { key: _, value } => Some((value, lines.first()?.number)),
        Content::Header { .. } | Content::Text(_) => None,
    }
}

/// The text of the first of these lines: its value, in which escapes are read, and then the lines of text below it, with a line feed
/// after each.
pub fn bytes_of(alloc: Global, lines: &[Line<'_>]) -> Result<Vec<u8>, Fault> {
    let (value, number) = value_of(lines).unwrap_or(("", 0));
    bytes_below(alloc, value, number, lines.get(1..).unwrap_or(&[]))
}

/// The text of a value in the line of this number, in which escapes are read, and then the lines of text with which those below it
/// begin, with a line feed after each.
pub fn bytes_below(
    alloc: Global,
    value: &str,
    number: usize,
    below: &[Line<'_>],
) -> Result<Vec<u8>, Fault> {
    let mut bytes = unescaped(alloc, value, number)?;
    for line in below {
        let Content::Text(text) = line.content else {
            break;
        };
        bytes.extend_from_slice(text.as_bytes())?;
        bytes.push(b'\n')?;
    }
    Ok(bytes)
}
