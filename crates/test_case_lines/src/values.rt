//! Numbers and spans in the values of lines.
use crate::cases::Case;
use crate::fault::Fault;
use lrpar_grammar::span::{Span, StorageIndex};
use lrpar_grammar_yacc::parts::YaccKind;

/// The cap of a table whose case names none.
pub const CAP: u16 = 10;

/// The word as a number.
pub fn number_of(word: &str, line: usize) -> Result<usize, Fault> {
    match word.trim().parse::<usize>() {
        Ok(number) => Ok(number),
        Err(_) => Err(Fault::Line(line, "a number is wanted")),
    }
}

/// The number of the first line with this key, or `other` if there is none.
pub fn number_at(case: Case<'_, '_>, key: &str, other: usize) -> Result<usize, Fault> {
    match case.value(key) {
        None => Ok(other),
        Some((value, line)) => number_of(value, line),
    }
}

/// The cap of the first line with this key, or [`CAP`] if there is none.
pub fn cap_at(case: Case<'_, '_>, key: &str) -> Result<u16, Fault> {
    cap_of(number_at(case, key, usize::from(CAP))?, case.number)
}

/// The number as a cap.
pub fn cap_of(number: usize, line: usize) -> Result<u16, Fault> {
    match u16::try_from(number) {
        Ok(cap) => Ok(cap),
        Err(_) => Err(Fault::Line(line, "a cap is wanted")),
    }
}

/// The kind of the `.y` file that the line `kind` names: `original`, and otherwise `grmtools`.
pub fn kind_of(case: Case<'_, '_>) -> YaccKind {
    match case.value_or_nothing("kind") {
        "original" => YaccKind::Original,
        _ => YaccKind::Grmtools,
    }
}

/// The word as a number of a storage type.
pub fn index_of<S: StorageIndex>(word: &str, line: usize) -> Result<S, Fault> {
    match S::from_index(number_of(word, line)?) {
        Some(index) => Ok(index),
        None => Err(Fault::Line(line, "a smaller number is wanted")),
    }
}

/// The span `START..END`, if it is one.
pub fn span_of(text: &str) -> Option<Span> {
    let (start, end) = text.split_once("..")?;
    match (start.parse::<usize>(), end.parse::<usize>()) {
        (Ok(start), Ok(end)) if start <= end => Some(Span::new(start, end)),
        _ => None,
    }
}
