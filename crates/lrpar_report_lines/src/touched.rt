//! Which labels touch which lines.
use crate::places::part_of;
use crate::reports::Label;
use lrpar_grammar_places::span::Span;
use lrpar_report_columns::Lines;
use std::alloc::{AllocError, Global};

/// A label in its text: its part of the text, and the first and the last line that it touches.
#[derive(Clone, Copy)]
pub(crate) struct Touch {
    /// The part.
    pub(crate) part: Span,
    /// The byte at which the first line starts.
    pub(crate) first_line: usize,
    /// The byte at which the last line starts.
    pub(crate) last_line: usize,
}

/// All labels in their text.
#[derive(Drop)]
pub(crate) struct Touched {
    /// Each label, in the order of the report.
    pub(crate) touches: Vec<Touch>,
    /// The first line and the number of each label, in order.
    pub(crate) by_first: Vec<(usize, usize)>,
    /// The last line and the number of each label, in order.
    pub(crate) by_last: Vec<(usize, usize)>,
}

impl Touched {
    /// The labels in the text of these lines.
    pub(crate) fn new(
        alloc: Global,
        lines: &Lines<'_>,
        labels: &[Label],
    ) -> Result<Self, AllocError> {
        let mut touches = Vec::new(alloc);
        let mut by_first = Vec::new(alloc);
        let mut by_last = Vec::new(alloc);
        for (number, label) in labels.iter().enumerate() {
            let touch = touch_of(lines, label);
            let (first_line, last_line) = (touch.first_line, touch.last_line);
            touches.push(touch)?;
            by_first.push((first_line, number))?;
            by_last.push((last_line, number))?;
        }
        by_first.sort()?;
        by_last.sort()?;
        Ok(Touched {
            touches,
            by_first,
            by_last,
        })
    }
}

// The label in the text of these lines.
fn touch_of(lines: &Lines<'_>, label: &Label) -> Touch {
    let part = part_of(lines.text(), label.span);
    let first_line = lines.line_start(part.start());
    Touch {
        part,
        first_line,
        last_line: last_line(lines, first_line, part.end()),
    }
}

// The start of the last line of a part that starts on the line from byte `first_line` on and ends at byte `end`. It is the line of the
// end, or, if that has no text and isn't the first one, the line before it.
fn last_line(lines: &Lines<'_>, first_line: usize, end: usize) -> usize {
    let start = lines.line_start(end);
    if start > first_line && lines.text_end(start) <= start {
        lines.line_start(start.saturating_sub(1))
    } else {
        start
    }
}

/// The labels on a line.
#[derive(Clone, Copy)]
pub(crate) struct OnLine<'t> {
    /// The byte at which the line starts.
    pub(crate) start: usize,
    /// All labels in their text.
    pub(crate) touches: &'t [Touch],
    /// The labels that start on this line.
    pub(crate) opening: &'t [(usize, usize)],
    /// The labels that end on this line.
    pub(crate) closing: &'t [(usize, usize)],
    /// How many labels have started on earlier lines, and not ended there.
    pub(crate) open: usize,
}

/// How many pairs from this place on have this line.
pub(crate) fn count_on_line(pairs: &[(usize, usize)], from: usize, line: usize) -> usize {
    let mut count = 0usize;
    for (start, _) in pairs.get(from..).unwrap_or(&[]) {
        if *start != line {
            break;
        }
        count = count.saturating_add(1);
    }
    count
}
