//! The underlines of a line.
use crate::touched::{OnLine, Touch};
use lrpar_report_columns::{Lines, push_repeated};
use std::alloc::{AllocError, Global};

/// An underline, from one place of its line to another one.
#[derive(Clone, Copy)]
pub(crate) struct Mark {
    /// Where it starts: a byte of the text, and later the column on the line, counted from 0.
    pub(crate) from: usize,
    /// Where it ends: the place after the last one.
    pub(crate) to: usize,
    /// Whether it is that of the first label of its report.
    pub(crate) is_first: bool,
    /// The number of the label that ends here, if one does.
    pub(crate) ends: Option<usize>,
}

/// The underlines of a line, by columns, in the order in which they start.
pub(crate) fn marks_of(
    alloc: Global,
    lines: &Lines<'_>,
    on_line: &OnLine<'_>,
) -> Result<Vec<Mark>, AllocError> {
    let mut marks = Vec::new(alloc);
    push_opening(&mut marks, lines, on_line)?;
    push_closing(&mut marks, lines, on_line)?;
    push_through(&mut marks, lines, on_line)?;
    let columns = columns_of(alloc, lines, on_line.start, &marks)?;
    let mut placed = Vec::new(alloc);
    for mark in &marks {
        placed.push(by_columns(&columns, *mark))?;
    }
    placed.sort_by_key(|mark| mark.from)?;
    Ok(placed)
}

// Adds the underlines of the labels that start on the line.
fn push_opening(
    marks: &mut Vec<Mark>,
    lines: &Lines<'_>,
    on_line: &OnLine<'_>,
) -> Result<(), AllocError> {
    for (_, number) in on_line.opening {
        if let Some(touch) = on_line.touches.get(*number) {
            marks.push(mark_of(lines, on_line.start, *number, *touch))?;
        }
    }
    Ok(())
}

// Adds the underlines of the labels that end on the line and start on an earlier one.
fn push_closing(
    marks: &mut Vec<Mark>,
    lines: &Lines<'_>,
    on_line: &OnLine<'_>,
) -> Result<(), AllocError> {
    for (_, number) in on_line.closing {
        match on_line.touches.get(*number) {
            Some(touch) if touch.first_line < on_line.start => {
                marks.push(mark_of(lines, on_line.start, *number, *touch))?;
            }
            _ => {}
        }
    }
    Ok(())
}

// Adds an underline of the whole line if the first label goes through it, and one for all others that do.
fn push_through(
    marks: &mut Vec<Mark>,
    lines: &Lines<'_>,
    on_line: &OnLine<'_>,
) -> Result<(), AllocError> {
    let through = on_line.open.saturating_sub(closing_earlier(on_line));
    let first = match on_line.touches.first() {
        Some(touch) => touch.first_line < on_line.start && on_line.start < touch.last_line,
        None => false,
    };
    if first {
        marks.push(whole_line(lines, on_line.start, true))?;
    }
    if through > usize::from(first) {
        marks.push(whole_line(lines, on_line.start, false))?;
    }
    Ok(())
}

// How many of the labels that end on the line start on an earlier one.
fn closing_earlier(on_line: &OnLine<'_>) -> usize {
    let mut count = 0usize;
    for (_, number) in on_line.closing {
        match on_line.touches.get(*number) {
            Some(touch) if touch.first_line < on_line.start => count = count.saturating_add(1),
            _ => {}
        }
    }
    count
}

// The underline of all of the line.
fn whole_line(lines: &Lines<'_>, start: usize, is_first: bool) -> Mark {
    Mark {
        from: start,
        to: lines.text_end(start),
        is_first,
        ends: None,
    }
}

// The underline of a label on the line that starts at a byte.
fn mark_of(lines: &Lines<'_>, start: usize, number: usize, touch: Touch) -> Mark {
    let (from, to) = lines.mark(touch.part, start);
    Mark {
        from,
        to,
        is_first: number == 0,
        ends: if touch.last_line == start {
            Some(number)
        } else {
            None
        },
    }
}

// The column of each byte at which an underline starts or ends, by ascending bytes. Each byte of the line is looked at once.
fn columns_of(
    alloc: Global,
    lines: &Lines<'_>,
    start: usize,
    marks: &[Mark],
) -> Result<Vec<(usize, usize)>, AllocError> {
    let bytes = bytes_of(alloc, marks)?;
    let mut columns = Vec::new(alloc);
    let mut at = start;
    let mut column = 0usize;
    for byte in &bytes {
        column = column.saturating_add(lines.columns(at, *byte));
        at = *byte;
        columns.push((at, column))?;
    }
    Ok(columns)
}

// The bytes at which underlines start and end, ascending.
fn bytes_of(alloc: Global, marks: &[Mark]) -> Result<Vec<usize>, AllocError> {
    let mut bytes = Vec::new(alloc);
    for mark in marks {
        bytes.push(mark.from)?;
        bytes.push(mark.to)?;
    }
    bytes.sort()?;
    Ok(bytes)
}

// The underline by columns. It is at least one column wide.
fn by_columns(columns: &[(usize, usize)], mark: Mark) -> Mark {
    let from = column_at(columns, mark.from);
    let to = column_at(columns, mark.to);
    Mark {
        from,
        to: to.max(from.saturating_add(1)),
        is_first: mark.is_first,
        ends: mark.ends,
    }
}

// The column of a byte.
fn column_at(columns: &[(usize, usize)], byte: usize) -> usize {
    let place = columns.partition_point(|known| known.0 < byte);
    match columns.get(place) {
        Some((_, column)) => *column,
        None => 0,
    }
}

/// Adds the underlines: `^` where the first label is, `-` where only others are. They have to be in the order in which they start.
pub(crate) fn push_marks(out: &mut String, marks: &[Mark]) -> Result<(), AllocError> {
    let (first_from, first_to) = first_columns(marks);
    let mut at = 0usize;
    for mark in marks {
        push_repeated(out, ' ', mark.from.saturating_sub(at))?;
        for column in at.max(mark.from)..mark.to {
            let is_first = first_from <= column && column < first_to;
            out.push(if is_first { '^' } else { '-' })?;
        }
        at = at.max(mark.to);
    }
    Ok(())
}

// The columns of the first label, from one up to another one.
fn first_columns(marks: &[Mark]) -> (usize, usize) {
    match marks.iter().find(|mark| mark.is_first) {
        Some(mark) => (mark.from, mark.to),
        None => (0, 0),
    }
}
