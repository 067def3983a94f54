//! How reports are shown.
use crate::captions::push_captions;
use crate::fixes::push_fixes;
use crate::levels::{Level, Look, push_word};
use crate::marks::{marks_of, push_marks};
use crate::places::next_boundary;
use crate::reports::{Label, Report};
use crate::touched::{OnLine, Touched, count_on_line};
use lrpar_report_columns::{Lines, push_repeated};
use std::alloc::{AllocError, Global};

/// Shows reports about a text. It borrows the text, and the path by which reports name it.
#[derive(Drop)]
pub struct Reporter<'a> {
    path: &'a str,
    look: Look,
    lines: Lines<'a>,
}

impl<'a> Reporter<'a> {
    /// The reporter of a text and its path. Takes time linear in the text, and memory for each of its lines. `Err`: out of memory.
    pub fn new(
        alloc: Global,
        text: &'a str,
        path: &'a str,
        look: Look,
    ) -> Result<Self, AllocError> {
        let lines = Lines::new(alloc, text)?;
        Ok(Reporter { path, look, lines })
    }

    /// Adds the report: its title, the lines that its labels touch, its notes, and its fixes.
    ///
    /// The title is `PATH:LINE:COLUMN: error: MESSAGE`, with the place at which the first label starts; `PATH: error: MESSAGE` if there
    /// are no labels. Lines and columns count from 1, columns in characters.
    ///
    /// Then comes each line that a label touches, once, in the order of the text, as `LINE| TEXT`, with the underlines below it: `^` where
    /// the first label is, `-` where only others are, at least one for each label. `...` is between two lines that don't follow one
    /// another. The last of several lines of a label is left out if it has no text. A carriage return before a line feed isn't shown;
    /// all other characters are written as they are. Underlines are placed by the columns of `unicode_width`.
    ///
    /// A label's text comes at the last line that it touches. The text of the label whose underline ends the row is beside it; of several
    /// the one that starts last, and then the first of the report. All other texts of the line hang below, each at the column where its
    /// label starts, from right to left, with a bar `|` up to its underline:
    ///
    /// ```text
    /// 1| a + b + c
    ///    ^   -   - third
    ///    |   |
    ///    |   second
    ///    first
    /// ```
    ///
    /// If more than eight texts would hang below a line, each is on a line `column COLUMN: TEXT` instead, from left to right. A text is
    /// written without the blanks at its end, so one of blanks alone counts as empty. Texts should have no line feeds: they are written
    /// as they are.
    ///
    /// Then comes a line `note: NOTE` for each note.
    ///
    /// Then comes a line `help: MESSAGE` for the first fix, and each line of the text that one of its edits touches, once, as it would be
    /// after them, with the marks below it: `+` where text is new and nothing goes, `~` where new text is in place of text that goes, and
    /// `-` where text goes and nothing comes, which is still shown. There is at least one mark for each edit. Parts that go with only
    /// blanks between them are marked as one. Of an edit over several lines the new text is on the first one. `...` is between two lines
    /// that don't follow one another:
    ///
    /// ```text
    /// help: insert ';'
    /// 2|   int x = 3;
    ///               +
    /// help: or delete 'int'
    /// ```
    ///
    /// Lines aren't shown if there are more than four, if the text can't be edited so ([`crate::Fix::apply`] gives `None`), or if a new
    /// text has a line feed. For the second and the third fix there is only a line `help: or MESSAGE`, and more aren't shown.
    ///
    /// With [`Look::Coloured`] the words `error`, `warning`, `note` and `help` have colours.
    ///
    /// An end of a label that is inside a character is moved to the next character, and one after the text's end to that end
    /// ([`crate::part_of`]).
    ///
    /// Takes time linear in what it writes, in the lines that it shows and in the edits of the first fix, and for n labels O(n log n) more,
    /// and memory for the underlines of one line and what those edits change. `Err`: out of memory; then a part of the report may have been added.
    pub fn push(&self, out: &mut String, alloc: Global, report: &Report) -> Result<(), AllocError> {
        self.push_title(out, report)?;
        if !report.labels.is_empty() {
            let touched = Touched::new(alloc, &self.lines, &report.labels)?;
            self.push_touched(out, alloc, &report.labels, &touched)?;
        }
        for note in &report.notes {
            self.push_note(out, note.as_str())?;
        }
        push_fixes(out, alloc, self.look, &self.lines, &report.fixes)
    }

    // Adds the first line of a report.
    fn push_title(&self, out: &mut String, report: &Report) -> Result<(), AllocError> {
        out.push_str(self.path)?;
        if let Some(label) = report.labels.first() {
            self.push_position(out, label.span.start())?;
        }
        out.push_str(": ")?;
        push_word(out, self.look, report.level)?;
        out.push_str(": ")?;
        out.push_str(report.message.as_str())?;
        out.push('\n')
    }

    // Adds the line and the column of a byte.
    fn push_position(&self, out: &mut String, byte: usize) -> Result<(), AllocError> {
        match self.lines.position(next_boundary(self.lines.text(), byte)) {
            Some((line, column)) => write!(out, ":{line}:{column}"),
            None => Ok(()),
        }
    }

    // Adds a note.
    fn push_note(&self, out: &mut String, note: &str) -> Result<(), AllocError> {
        push_word(out, self.look, Level::Note)?;
        out.push_str(": ")?;
        out.push_str(note)?;
        out.push('\n')
    }

    // Adds the lines that labels touch, in order.
    fn push_touched(
        &self,
        out: &mut String,
        alloc: Global,
        labels: &[Label],
        touched: &Touched,
    ) -> Result<(), AllocError> {
        // How many labels start on earlier lines, and how many end there.
        let mut opened = 0usize;
        let mut closed = 0usize;
        let mut next = line_at(&touched.by_first, 0);
        for _ in 0..=self.lines.text().len() {
            let Some(start) = next else {
                break;
            };
            let on_line = on_line_of(touched, opened, closed, start);
            self.push_line(out, alloc, labels, &on_line)?;
            opened = opened.saturating_add(on_line.opening.len());
            closed = closed.saturating_add(on_line.closing.len());
            let below = self.lines.line_end(start).saturating_add(1);
            next = if closed < opened {
                Some(below)
            } else {
                line_at(&touched.by_first, opened)
            };
            if matches!(next, Some(line) if line != below) {
                out.push_str("...\n")?;
            }
        }
        Ok(())
    }

    // Adds a line with the labels on it.
    fn push_line(
        &self,
        out: &mut String,
        alloc: Global,
        labels: &[Label],
        on_line: &OnLine<'_>,
    ) -> Result<(), AllocError> {
        let marks = marks_of(alloc, &self.lines, on_line)?;
        let margin = self.lines.push_line(out, on_line.start)?;
        push_repeated(out, ' ', margin)?;
        push_marks(out, &marks)?;
        push_captions(out, alloc, &self.lines, labels, on_line, &marks, margin)
    }
}

// The line of the pair at a place.
fn line_at(pairs: &[(usize, usize)], place: usize) -> Option<usize> {
    match pairs.get(place) {
        Some((line, _)) => Some(*line),
        None => None,
    }
}

// The labels on the line that starts at a byte, if so many start on earlier lines, and so many end there.
fn on_line_of(touched: &Touched, opened: usize, closed: usize, start: usize) -> OnLine<'_> {
    let opens = opened.saturating_add(count_on_line(&touched.by_first, opened, start));
    let closes = closed.saturating_add(count_on_line(&touched.by_last, closed, start));
    OnLine {
        start,
        touches: &touched.touches,
        opening: touched.by_first.get(opened..opens).unwrap_or(&[]),
        closing: touched.by_last.get(closed..closes).unwrap_or(&[]),
        open: opened.saturating_sub(closed),
    }
}
