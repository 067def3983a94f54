//! How fixes are shown.
use crate::changes::{Change, changes_of, split_line};
use crate::edits::{Edit, Fix, between};
use crate::levels::{Look, push_help};
use lrpar_report_columns::{Lines, push_repeated};
use std::alloc::{AllocError, Global};
use unicode_width::UnicodeWidthStr;

/// How many fixes are shown after the first.
const MOST_OTHERS: usize = 2;

/// Adds the fixes of a report: the first with the lines that its edits touch, and the messages of the next two.
pub(crate) fn push_fixes(
    out: &mut String,
    alloc: Global,
    look: Look,
    lines: &Lines<'_>,
    fixes: &[Fix],
) -> Result<(), AllocError> {
    let Some((first, others)) = fixes.split_first() else {
        return Ok(());
    };
    push_message(out, look, ": ", first)?;
    push_edits(out, alloc, lines, first)?;
    for other in others.get(..MOST_OTHERS).unwrap_or(others) {
        push_message(out, look, ": or ", other)?;
    }
    Ok(())
}

// Adds the message of a fix, after the word `help` and what is between both.
fn push_message(out: &mut String, look: Look, between: &str, fix: &Fix) -> Result<(), AllocError> {
    push_help(out, look)?;
    out.push_str(between)?;
    out.push_str(fix.message.as_str())?;
    out.push('\n')
}

// Adds the lines that the edits of a fix touch, if the text can be edited so, and they can be shown.
fn push_edits(
    out: &mut String,
    alloc: Global,
    lines: &Lines<'_>,
    fix: &Fix,
) -> Result<(), AllocError> {
    if !fix.fits(lines.text()) || has_line_break(&fix.edits) {
        return Ok(());
    }
    match changes_of(alloc, lines, &fix.edits)? {
        Some(changes) => push_changed_lines(out, alloc, lines, &fix.edits, &changes),
        None => Ok(()),
    }
}

// Whether the new text of an edit has a line feed.
fn has_line_break(edits: &[Edit]) -> bool {
    for edit in edits {
        if edit.text.as_bytes().contains(&b'\n') {
            return true;
        }
    }
    false
}

// Adds the lines on which there are changes, with `...` between two that don't follow one another.
fn push_changed_lines(
    out: &mut String,
    alloc: Global,
    lines: &Lines<'_>,
    edits: &[Edit],
    changes: &[Change],
) -> Result<(), AllocError> {
    let mut rest = changes;
    for _ in 0..changes.len() {
        let Some(first) = rest.first() else {
            break;
        };
        let line = first.line;
        let (on_line, later) = split_line(rest);
        push_changed_line(out, alloc, lines, edits, line, on_line)?;
        let below = lines.line_end(line).saturating_add(1);
        if matches!(later.first(), Some(next) if next.line != below) {
            out.push_str("...\n")?;
        }
        rest = later;
    }
    Ok(())
}

// Adds the line that starts at a byte as it is after the changes, with text that goes where nothing comes, and the marks below it.
fn push_changed_line(
    out: &mut String,
    alloc: Global,
    lines: &Lines<'_>,
    edits: &[Edit],
    line: usize,
    changes: &[Change],
) -> Result<(), AllocError> {
    let number = lines.number(line);
    let before = out.len();
    write!(out, "{number}| ")?;
    let margin = out.len().saturating_sub(before);
    let mut row = Row::new(alloc);
    let mut at = line;
    for change in changes {
        row.push_kept(out, lines, at, change.from)?;
        row.push_change(out, lines, edits, change)?;
        at = change.to;
    }
    row.push_kept(out, lines, at, lines.text_end(line))?;
    out.push('\n')?;
    push_repeated(out, ' ', margin)?;
    out.push_str(row.marks.as_str())?;
    out.push('\n')
}

/// The marks below a line, as far as its text has come.
#[derive(Drop)]
struct Row {
    /// The marks, with the blanks before them.
    marks: String,
    /// The column after the last mark, counted from 0.
    end: usize,
    /// The column after the text, counted from 0.
    column: usize,
    /// Whether only blanks have come since text that goes.
    joins: bool,
}

impl Row {
    // No marks, below no text.
    fn new(alloc: Global) -> Self {
        Row {
            marks: String::new(alloc),
            end: 0,
            column: 0,
            joins: false,
        }
    }

    // Adds text of the line that stays, to the line alone.
    fn push_kept(
        &mut self,
        out: &mut String,
        lines: &Lines<'_>,
        from: usize,
        to: usize,
    ) -> Result<(), AllocError> {
        let kept = between(lines.text(), from, to);
        out.push_str(kept)?;
        self.column = self.column.saturating_add(lines.columns(from, to));
        self.joins = self.joins && is_blank(kept);
        Ok(())
    }

    // Adds the text of a change to the line, and marks below it.
    fn push_change(
        &mut self,
        out: &mut String,
        lines: &Lines<'_>,
        edits: &[Edit],
        change: &Change,
    ) -> Result<(), AllocError> {
        if change.mark == '-' {
            out.push_str(between(lines.text(), change.from, change.to))?;
            return self.push_marks('-', lines.columns(change.from, change.to));
        }
        match edits.get(change.number) {
            Some(edit) => {
                out.push_str(edit.text.as_str())?;
                self.push_marks(change.mark, edit.text.as_str().width())
            }
            None => Ok(()),
        }
    }

    // Adds marks below the next columns of the text, at least one.
    fn push_marks(&mut self, mark: char, columns: usize) -> Result<(), AllocError> {
        let joins = mark == '-';
        let gap = if joins && self.joins { '-' } else { ' ' };
        push_repeated(&mut self.marks, gap, self.column.saturating_sub(self.end))?;
        let from = self.end.max(self.column);
        let to = self.column.saturating_add(columns.max(1));
        push_repeated(&mut self.marks, mark, to.saturating_sub(from))?;
        self.end = from.max(to);
        self.column = self.column.saturating_add(columns);
        self.joins = joins;
        Ok(())
    }
}

// Whether a text has only spaces and tabs.
fn is_blank(text: &str) -> bool {
    text.as_bytes()
        .iter()
        .all(|byte| *byte == b' ' || *byte == b'\t')
}
