//! Whether what came of a case is what it expects.
use crate::cases::Case;
use crate::fault::Fault;
use crate::line::{Content, Line};
use std::alloc::Global;

/// The key of the message that is expected of a case that is wrong on purpose.
const SAYS: &str = "says";

/// What is wrong with a case, as a text; `None` if nothing is. `inputs` are the keys of the lines that say what is done; all others
/// say what has to come, in their order. A case with a line `says` is wrong on purpose: its message has to be the one of that line,
/// and what is wrong is then that it isn't.
pub fn wrong_of(
    alloc: Global,
    case: Case<'_, '_>,
    inputs: &[&str],
    came: Result<String, Fault>,
) -> Result<Option<String>, Fault> {
    let verdict = verdict_of(alloc, case, inputs, came)?;
    match case.value(SAYS) {
        None => Ok(verdict),
        Some((expected, _)) => wrong_message(alloc, expected, verdict),
    }
}

// What is wrong with the case by itself.
fn verdict_of(
    alloc: Global,
    case: Case<'_, '_>,
    inputs: &[&str],
    came: Result<String, Fault>,
) -> Result<Option<String>, Fault> {
    match came {
        Ok(came) => difference(alloc, case, inputs, came.as_str()),
        Err(fault) => Ok(Some(format!(in alloc; "{fault}")?)),
    }
}

// What is wrong with a case that has to give this message.
fn wrong_message(
    alloc: Global,
    expected: &str,
    verdict: Option<String>,
) -> Result<Option<String>, Fault> {
    match verdict {
        None => Ok(Some(format!(in alloc; "it has to be wrong: {expected}")?)),
        Some(verdict) if verdict.as_str() == expected => Ok(None),
        Some(verdict) => Ok(Some(format!(in alloc; "the outcome is: {verdict}")?)),
    }
}

// The first line in which what came isn't what the case expects, as a text; `None` if there is none.
fn difference(
    alloc: Global,
    case: Case<'_, '_>,
    inputs: &[&str],
    came: &str,
) -> Result<Option<String>, Fault> {
    let expected = expected_of(alloc, case, inputs)?;
    for (line, found) in expected.iter().zip(came.lines()) {
        if !is_line(*line, found) {
            return Ok(Some(difference_text(alloc, *line, found)?));
        }
    }
    length_difference(alloc, &expected, came)
}

// The lines of the case that say what has to come.
fn expected_of<'a>(
    alloc: Global,
    case: Case<'_, 'a>,
    inputs: &[&str],
) -> Result<Vec<Line<'a>>, Fault> {
    let mut expected = Vec::new(alloc);
    let mut counts = false;
    for line in case.lines {
        counts = is_expected(*line, inputs, counts);
        if counts {
            expected.push(*line)?;
        }
    }
    Ok(expected)
}

// The first line that is expected and didn't come, or came and isn't expected, as a text; `None` if as many came as are expected.
fn length_difference(
    alloc: Global,
    expected: &[Line<'_>],
    came: &str,
) -> Result<Option<String>, Fault> {
    if let Some(line) = expected.get(came.lines().count()) {
        return Ok(Some(difference_text(alloc, *line, "nothing")?));
    }
    match came.lines().nth(expected.len()) {
        Some(found) => Ok(Some(format!(in alloc; "wanted nothing more, came: {found}")?)),
        None => Ok(None),
    }
}

// Whether the line says what has to come. A line of text does if the one above it does.
fn is_expected(line: Line<'_>, inputs: &[&str], above: bool) -> bool {
    match line.content {
        Content::Field { key, value: _ } => key != SAYS && !inputs.contains(&key),
        Content::Text(_) => above,
        Content::Header { .. } => false,
    }
}

// Whether the line that came is this one.
fn is_line(line: Line<'_>, found: &str) -> bool {
    match line.content {
        Content::Field { key, value: "" } => found == key,
        Content::Field { key, value } => is_field(found, key, value),
        Content::Text(text) => found.strip_prefix('|') == Some(text),
        Content::Header { .. } => false,
    }
}

// Whether the line that came has this key and this value.
fn is_field(found: &str, key: &str, value: &str) -> bool {
    match found.split_once(' ') {
        Some((word, rest)) => word == key && rest == value,
        None => false,
    }
}

// A difference as a text.
fn difference_text(alloc: Global, line: Line<'_>, found: &str) -> Result<String, Fault> {
    let number = line.number;
    let expected = shown(alloc, line)?;
    Ok(format!(in alloc; "line {number}: wanted: {expected}, came: {found}")?)
}

// The line as it is in the file, without the blanks around it.
fn shown(alloc: Global, line: Line<'_>) -> Result<String, Fault> {
    Ok(match line.content {
        Content::Header { kind, name } => format!(in alloc; "{kind} {name}")?,
        Content::Field { key, value } => format!(in alloc; "{key} {value}")?,
        Content::Text(text) => format!(in alloc; "|{text}")?,
    })
}
