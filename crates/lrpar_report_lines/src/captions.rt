//! The texts of the labels that end on a line.
use crate::marks::Mark;
use crate::reports::Label;
use crate::touched::OnLine;
use lrpar_report_columns::{Lines, push_repeated};
use std::alloc::{AllocError, Global};

/// How many texts hang below a line at most.
const MOST_HUNG: usize = 8;

/// Adds the texts of the labels that end on the line: beside the last underline that of its label, and all others below. `margin` columns
/// come before the line's text.
pub(crate) fn push_captions(
    out: &mut String,
    alloc: Global,
    lines: &Lines<'_>,
    labels: &[Label],
    on_line: &OnLine<'_>,
    marks: &[Mark],
    margin: usize,
) -> Result<(), AllocError> {
    let beside = beside_of(labels, marks);
    if let Some(number) = beside {
        out.push(' ')?;
        out.push_str(text_of(labels, number))?;
    }
    out.push('\n')?;
    let mut hung = hung_of(alloc, labels, marks, beside)?;
    if hung.len() > MOST_HUNG {
        push_label_texts(out, lines, labels, on_line, &hung, margin)
    } else {
        push_hung(out, labels, &mut hung, margin)
    }
}

// The text of a label, without blanks at its end.
fn text_of(labels: &[Label], number: usize) -> &str {
    match labels.get(number) {
        Some(label) => label.text.as_str().trim_end_matches(' '),
        None => "",
    }
}

// The label that ends at an underline, if it has a text.
fn caption_of(labels: &[Label], mark: &Mark) -> Option<usize> {
    match mark.ends {
        Some(number) if !text_of(labels, number).is_empty() => Some(number),
        _ => None,
    }
}

// The label whose text is beside the underlines: of those with a text that end where the last underline does the one that starts last,
// and of several the first.
fn beside_of(labels: &[Label], marks: &[Mark]) -> Option<usize> {
    let last = last_column(marks);
    let mut start = 0usize;
    let mut beside = None;
    for mark in marks {
        if let Some(number) = caption_of(labels, mark) {
            let is_later = match beside {
                None => true,
                Some(other) => start < mark.from || (start == mark.from && number < other),
            };
            if mark.to == last && is_later {
                start = mark.from;
                beside = Some(number);
            }
        }
    }
    beside
}

// The column after the last underline.
fn last_column(marks: &[Mark]) -> usize {
    let mut last = 0usize;
    for mark in marks {
        last = last.max(mark.to);
    }
    last
}

// The first column and the number of each label whose text is below the underlines, ascending.
fn hung_of(
    alloc: Global,
    labels: &[Label],
    marks: &[Mark],
    beside: Option<usize>,
) -> Result<Vec<(usize, usize)>, AllocError> {
    let mut hung = Vec::new(alloc);
    for mark in marks {
        if let Some(number) = caption_of(labels, mark) {
            if beside != Some(number) {
                hung.push((mark.from, number))?;
            }
        }
    }
    hung.sort()?;
    Ok(hung)
}

// Adds the texts, each at the column of its label, from the last to the first, with bars from the others to theirs.
fn push_hung(
    out: &mut String,
    labels: &[Label],
    hung: &mut Vec<(usize, usize)>,
    margin: usize,
) -> Result<(), AllocError> {
    if hung.is_empty() {
        return Ok(());
    }
    push_repeated(out, ' ', margin)?;
    push_bars(out, hung, usize::MAX)?;
    out.push('\n')?;
    for _ in 0..hung.len() {
        let Some((column, number)) = hung.pop() else {
            break;
        };
        push_repeated(out, ' ', margin)?;
        let at = push_bars(out, hung, column)?;
        push_repeated(out, ' ', column.saturating_sub(at))?;
        out.push_str(text_of(labels, number))?;
        out.push('\n')?;
    }
    Ok(())
}

// Adds a bar at each of the columns that is before this one. Returns the column after the last bar.
fn push_bars(
    out: &mut String,
    hung: &[(usize, usize)],
    before: usize,
) -> Result<usize, AllocError> {
    let mut at = 0usize;
    for (column, _) in hung {
        if at <= *column && *column < before {
            push_repeated(out, ' ', column.saturating_sub(at))?;
            out.push('|')?;
            at = column.saturating_add(1);
        }
    }
    Ok(at)
}

// Adds the texts, each on a line with the column at which its label starts, counted from 1, in characters.
fn push_label_texts(
    out: &mut String,
    lines: &Lines<'_>,
    labels: &[Label],
    on_line: &OnLine<'_>,
    hung: &[(usize, usize)],
    margin: usize,
) -> Result<(), AllocError> {
    for (_, number) in hung {
        push_repeated(out, ' ', margin)?;
        let column = column_of(lines, on_line, *number);
        write!(out, "column {column}: ")?;
        out.push_str(text_of(labels, *number))?;
        out.push('\n')?;
    }
    Ok(())
}

// The column at which a label starts on the line.
fn column_of(lines: &Lines<'_>, on_line: &OnLine<'_>, number: usize) -> usize {
    let start = match on_line.touches.get(number) {
        Some(touch) => touch.part.start().max(on_line.start),
        None => on_line.start,
    };
    match lines.position(start) {
        Some((_, column)) => column,
        None => 1,
    }
}
