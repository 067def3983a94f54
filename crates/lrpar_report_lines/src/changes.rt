//! What the edits of a fix change on which lines.
use crate::edits::Edit;
use lrpar_grammar_places::span::Span;
use lrpar_report_columns::Lines;
use std::alloc::{AllocError, Global};

/// On how many lines the edits of a fix are shown at most.
const MOST_LINES: usize = 4;

/// What an edit changes on a line.
#[derive(Clone, Copy)]
pub(crate) struct Change {
    /// The byte at which the line starts.
    pub(crate) line: usize,
    /// The byte of the line's text from which on text goes, and at which the new text comes.
    pub(crate) from: usize,
    /// The byte up to which text of the line goes.
    pub(crate) to: usize,
    /// The number of the edit.
    pub(crate) number: usize,
    /// The mark below it: `+` if nothing goes, `~` if new text comes in place of text that goes, and `-` if nothing comes.
    pub(crate) mark: char,
}

/// What the edits change, in order, or `None` if they touch too many lines. The edits have to be in order, and not overlap. An edit over
/// several lines puts its new text on the first one, and on the others its text only goes. An edit that leaves the text as it is isn't
/// among them.
pub(crate) fn changes_of(
    alloc: Global,
    lines: &Lines<'_>,
    edits: &[Edit],
) -> Result<Option<Vec<Change>>, AllocError> {
    let mut changes = Vec::new(alloc);
    let mut touched = 0usize;
    for (number, edit) in edits.iter().enumerate() {
        if !edit.span.is_empty() || !edit.text.is_empty() {
            let more = push_changes(&mut changes, lines, number, edit)?;
            touched = touched.saturating_add(more);
        }
        if touched > MOST_LINES {
            return Ok(None);
        }
    }
    Ok(Some(changes))
}

// Adds what an edit changes, and stops after too many lines. Returns how many lines it touches that no edit before it does.
fn push_changes(
    changes: &mut Vec<Change>,
    lines: &Lines<'_>,
    number: usize,
    edit: &Edit,
) -> Result<usize, AllocError> {
    let last = last_line(lines, edit.span);
    let mut line = lines.line_start(edit.span.start());
    let mut more = 0usize;
    for _ in 0..=MOST_LINES {
        if !matches!(changes.last(), Some(change) if change.line == line) {
            more = more.saturating_add(1);
        }
        changes.push(change_of(lines, number, edit, line))?;
        if last <= line {
            break;
        }
        line = lines.line_end(line).saturating_add(1);
    }
    Ok(more)
}

// The byte at which the last line starts that an edit of this part touches. If the part ends where a line starts, that line isn't touched,
// unless the part is empty.
fn last_line(lines: &Lines<'_>, part: Span) -> usize {
    let start = lines.line_start(part.end());
    if part.start() < start && start == part.end() {
        lines.line_start(start.saturating_sub(1))
    } else {
        start
    }
}

// What an edit changes on the line that starts at a byte.
fn change_of(lines: &Lines<'_>, number: usize, edit: &Edit, line: usize) -> Change {
    let (from, to) = lines.mark(edit.span, line);
    let mark = if edit.text.is_empty() || edit.span.start() < line {
        '-'
    } else if edit.span.is_empty() {
        '+'
    } else {
        '~'
    };
    Change {
        line,
        from,
        to,
        number,
        mark,
    }
}

/// The first of the changes that are on one line, and the changes after them.
pub(crate) fn split_line(changes: &[Change]) -> (&[Change], &[Change]) {
    let count = count_on_line(changes);
    let on_line = changes.get(..count).unwrap_or(changes);
    let later = changes.get(count..).unwrap_or(&[]);
    (on_line, later)
}

// How many of the changes are on the line of the first.
fn count_on_line(changes: &[Change]) -> usize {
    let Some(first) = changes.first() else {
        return 0;
    };
    let mut count = 0usize;
    for change in changes {
        if change.line != first.line {
            break;
        }
        count = count.saturating_add(1);
    }
    count
}
