//! A text, and how parts of it are shown: the lines that they touch, with the parts underlined.
ghost use Rattle.std.specs.Prelude.{◌≡◌, ◌<◌, ◌≤◌, ◌↔◌, IfOk, IfSome, IsTrue, OnOk, length};
ghost use Rattle.std.specs.Str.{IsCharBoundary, IsUtf8};
ghost use Rattle.lrpar_grammar_places.specs.Lines.{line_end, line_start};
ghost use Rattle.lrpar_grammar_places.specs.Strings.{Appends};
ghost use Rattle.lrpar_report_columns.specs.Columns.{columns, margin, mark_end, mark_start, printed_line, text_end};
ghost use Rattle.lrpar_diagnostics.specs.Underline.{EndOnFirstLine, EndOnLine, FollowInOrder, FollowOnLine, IsNextPrinted, block_text, first_mark, is_printed, marked_line, marks_after, on_line_text, underline};
ghost use Rattle.lrpar_diagnostics.specs.Location.{AreLineAndColumn};
ghost use Rattle.lrpar_grammar.specs.SpansFit.{IsPartOf};

use lrpar_grammar_places::span::Span;
use lrpar_report_columns::{Lines, push_repeated};
use std::alloc::{AllocError, Global};

/// A text, by its lines. Calls that `Lines` has, too, take only bytes and parts of the text, and so say what they give without a
/// condition.
#[derive(Drop)]
pub(crate) struct Source<'a> {
    pub(crate) lines: Lines<'a>,
    ghost text_of_lines: { ∥ IsUtf8 lines ∥₁ },
}

impl<'a> Source<'a> {
    /// The text with its lines.
    pub(crate) fn new(alloc: Global, src: &'a str) -> Result<Self, AllocError>
        ensures { IfOk result (λ source. source.lines ≡ src.now) }
    {
        let lines = Lines::new(alloc, src)?;
        Ok(Source { lines })
    }

    /// The line and the column of a byte, each counted from 1: 0 and 0 after the text's end and inside a character.
    pub(crate) fn position(&self, byte: usize) -> (usize, usize)
        ensures inside { IsCharBoundary self.now.lines byte → AreLineAndColumn self.now.lines byte result }
        ensures outside { ¬ IsCharBoundary self.now.lines byte → (result.0 ≡ 0) × (result.1 ≡ 0) }
    {
        match self.lines.position(byte) {
            Some(place) => place,
            None => (0, 0),
        }
    }

    /// The byte at which the line of a byte starts.
    pub(crate) fn line_start(&self, byte: usize) -> usize
        requires { byte ≤ length self.now.lines }
        ensures start { result ≡ line_start self.now.lines byte }
        ensures boundary { IsCharBoundary self.now.lines result }
    {
        self.lines.line_start(byte)
    }

    // The byte at which the line of a byte ends.
    fn line_end(&self, byte: usize) -> usize
        requires { byte ≤ length self.now.lines }
        ensures end { result ≡ line_end self.now.lines byte }
        ensures boundary { IsCharBoundary self.now.lines result }
    {
        self.lines.line_end(byte)
    }

    // The byte at which the text of the line that starts at a byte ends.
    fn text_end(&self, start: usize) -> usize
        requires { start ≤ length self.now.lines }
        ensures end { result ≡ text_end self.now.lines start }
        ensures after { start ≤ result }
        ensures boundary { IsCharBoundary self.now.lines result }
    {
        self.lines.text_end(start)
    }

    // How many columns a part of the text takes.
    fn columns(&self, start: usize, end: usize) -> usize
        requires start { IsCharBoundary self.now.lines start }
        requires end { IsCharBoundary self.now.lines end }
        requires ordered { start ≤ end }
        ensures { result ≡ columns self.now.lines start end }
    {
        self.lines.columns(start, end)
    }

    // Adds the line that starts at a byte. Returns how many bytes come before the line's text.
    fn push_line(&self, out: &mut String, start: usize) -> Result<usize, AllocError>
        requires { IsCharBoundary self.now.lines start }
        ensures text { OnOk result (Appends out.old out.new (printed_line self.now.lines start)) }
        ensures margin { IfOk result (λ bytes. bytes ≡ length (margin self.now.lines start)) }
    {
        self.lines.push_line(out, start)
    }

    // The bytes from which and up to which a part is underlined on the line that starts at a byte.
    fn mark(&self, part: Span, start: usize) -> (usize, usize)
        requires start { IsCharBoundary self.now.lines start }
        requires part { IsPartOf self.now.lines part }
        ensures from { result.0 ≡ mark_start self.now.lines part start }
        ensures to { result.1 ≡ mark_end self.now.lines part start }
        ensures after { start ≤ result.0 }
        ensures ordered { result.0 ≤ result.1 }
        ensures boundaries { IsCharBoundary self.now.lines result.0 × IsCharBoundary self.now.lines result.1 }
    {
        self.lines.mark(part, start)
    }

    // Adds the underline of a part of the text.
    fn push_underline(
        &self,
        out: &mut String,
        start: usize,
        end: usize,
        underline_c: char,
    ) -> Result<(), AllocError>
        requires start { IsCharBoundary self.now.lines start }
        requires end { IsCharBoundary self.now.lines end }
        requires ordered { start ≤ end }
        ensures { OnOk result (Appends out.old out.new (underline self.now.lines underline_c start end)) }
    {
        push_repeated(out, underline_c, self.columns(start, end).max(1))
    }

    // Adds the line that starts at a byte, with the part of the span in it underlined.
    fn push_marked(
        &self,
        out: &mut String,
        prefix: &str,
        span: Span,
        underline_c: char,
        start: usize,
    ) -> Result<(), AllocError>
        requires start { IsCharBoundary self.now.lines start }
        requires span { IsPartOf self.now.lines span }
        ensures { OnOk result (Appends out.old out.new (marked_line self.now.lines prefix.now span underline_c start)) }
    {
        let margin = self.push_line(out, start)?;
        out.push_str(prefix)?;
        push_repeated(out, ' ', margin.saturating_sub(prefix.len()))?;
        let (from, to) = self.mark(span, start);
        push_repeated(out, ' ', self.columns(start, from))?;
        self.push_underline(out, from, to, underline_c)
    }

    // The start of the next line that is printed after the one that starts at a byte, of a part up to byte `end`.
    fn next_printed(&self, start: usize, end: usize) -> Option<usize>
        requires start { start ≤ length self.now.lines }
        requires end { end ≤ length self.now.lines }
        ensures next { IsNextPrinted self.now.lines start end result }
        ensures further { IfSome result (λ next. (start < next) × (next ≤ end)) }
        ensures boundary { IfSome result (λ next. IsCharBoundary self.now.lines next) }
    {
        let line_end = self.line_end(start);
        if line_end >= end {
            return None;
        }
        let next = line_end + 1;
        if self.is_printed(next, end) {
            Some(next)
        } else {
            None
        }
    }

    // Whether the line that starts at a byte is printed, of a part up to byte `end` that starts in an earlier line.
    fn is_printed(&self, start: usize, end: usize) -> bool
        requires { start ≤ length self.now.lines }
        ensures { result ≡ is_printed self.now.lines end start }
    {
        self.line_end(start) < end || start < self.text_end(start)
    }

    /// Adds the lines that a part of the text touches, each underlined, and the message after the last one.
    pub(crate) fn push_block(
        &self,
        out: &mut String,
        prefix: &str,
        span: Span,
        message: &str,
        underline_c: char,
    ) -> Result<(), AllocError>
        requires { IsPartOf self.now.lines span }
        ensures { OnOk result (Appends out.old out.new (block_text self.now.lines prefix.now span message.now underline_c)) }
    {
        let mut start = self.line_start(span.start());
        self.push_marked(out, prefix, span, underline_c, start)?;
        while let Some(next) = self.next_printed(start, span.end()) {
            out.push('\n')?;
            self.push_marked(out, prefix, span, underline_c, next)?;
            start = next;
        }
        out.push(' ')?;
        out.push_str(message)
    }

    /// Adds the line of the first part of the text, and below it the underlines of all and the message.
    pub(crate) fn push_on_line(
        &self,
        out: &mut String,
        spans: &[Span],
        message: &str,
        underline_c: char,
    ) -> Result<(), AllocError>
        requires { FollowInOrder self.now.lines 0 spans.now }
        ensures { OnOk result (Appends out.old out.new (on_line_text self.now.lines spans.now message.now underline_c)) }
    {
        let Some((first, others)) = spans.split_first() else {
            return Ok(());
        };
        self.push_first(out, *first, underline_c)?;
        self.push_marks(out, first.end(), others, underline_c)?;
        out.push(' ')?;
        out.push_str(message)
    }

    // Adds the line of a part of the text, and below it the part's underline.
    fn push_first(&self, out: &mut String, span: Span, underline_c: char) -> Result<(), AllocError>
        requires { IsPartOf self.now.lines span }
        ensures { OnOk result (Appends out.old out.new (first_mark self.now.lines underline_c span)) }
    {
        let start = self.line_start(span.start());
        let margin = self.push_line(out, start)?;
        push_repeated(out, ' ', margin)?;
        let from = span.start().min(self.text_end(start));
        push_repeated(out, ' ', self.columns(start, from))?;
        self.push_underline(out, span.start(), span.end(), underline_c)
    }

    // Adds the underlines of parts that follow on a byte, each after as many spaces as there are columns before it.
    fn push_marks(
        &self,
        out: &mut String,
        after: usize,
        spans: &[Span],
        underline_c: char,
    ) -> Result<(), AllocError>
        requires after { IsCharBoundary self.now.lines after }
        requires order { FollowInOrder self.now.lines after spans.now }
        ensures { OnOk result (Appends out.old out.new (marks_after self.now.lines underline_c after spans.now)) }
    {
        let mut end = after;
        let mut rest = spans;
        while let Some((span, others)) = rest.split_first() {
            push_repeated(out, ' ', self.columns(end, span.start()))?;
            self.push_underline(out, span.start(), span.end(), underline_c)?;
            end = span.end();
            rest = others;
        }
        Ok(())
    }

    /// Whether the parts lie in the text, are in order and don't overlap, and all lie on one line.
    pub(crate) fn follow_on_line(&self, spans: &[Span]) -> bool
        ensures { IsTrue result ↔ FollowOnLine self.now.lines spans.now }
    {
        follow_in_order(self.lines.text(), spans) && self.end_on_first_line(spans)
    }

    // Whether the parts all end on the line on which the first one starts.
    fn end_on_first_line(&self, spans: &[Span]) -> bool
        requires { FollowInOrder self.now.lines 0 spans.now }
        ensures { IsTrue result ↔ EndOnFirstLine self.now.lines spans.now }
    {
        match spans.split_first() {
            Some((first, _)) => self.end_on_line(self.line_start(first.start()), spans),
            None => true,
        }
    }

    // Whether the parts all end on the line that starts at a byte.
    fn end_on_line(&self, start: usize, spans: &[Span]) -> bool
        requires { FollowInOrder self.now.lines 0 spans.now }
        ensures { IsTrue result ↔ EndOnLine self.now.lines start spans.now }
    {
        let mut after = 0;
        let mut rest = spans;
        while let Some((span, others)) = rest.split_first() {
            if self.line_start(span.end()) != start {
                return false;
            }
            after = span.end();
            rest = others;
        }
        true
    }
}

// Whether the parts lie in the text, are in order and don't overlap.
fn follow_in_order(src: &str, spans: &[Span]) -> bool
    ensures { IsTrue result ↔ FollowInOrder src.now 0 spans.now }
{
    let mut end = 0;
    let mut rest = spans;
    while let Some((span, others)) = rest.split_first() {
        if !follows(src, end, *span) {
            return false;
        }
        end = span.end();
        rest = others;
    }
    true
}

// Whether the part lies in the text, and starts at the byte or after it.
fn follows(src: &str, byte: usize, span: Span) -> bool
    ensures { IsTrue result ↔ ((byte ≤ span.start) × IsPartOf src.now span) }
{
    byte <= span.start() && src.is_char_boundary(span.start()) && src.is_char_boundary(span.end())
}
