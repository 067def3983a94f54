//! Texts that name places of a text and show them.
ghost use Rattle.std.specs.Prelude.{◌≡◌, ◌%◌, ◌≤◌, ◌++◌, ◌↔◌, [], if◌then◌else◌, IfOk, IsTrue, OnOk, codes, length};
ghost use Rattle.std.specs.String.{string_bytes};
ghost use Rattle.lrpar_grammar_places.specs.Lines.{line_table};
ghost use Rattle.lrpar_grammar_places.specs.Strings.{Appends, HasText};
ghost use Rattle.lrpar_grammar.specs.SpansFit.{IsPartOf};
ghost use Rattle.lrpar_diagnostics.specs.Location.{HasPath, HasSource, IsLocationText, IsPlaceText, is_teen, ordinal_text, suffix_of_digit};
ghost use Rattle.lrpar_diagnostics.specs.Underline.{FollowInOrder, SpansFollow, shown_block, shown_on_line};

use crate::source::Source;
use lrpar_grammar_places::lines::NewlineCache;
use lrpar_grammar_places::span::Span;
use std::alloc::{AllocError, Global};
use std::marker::Model;

/// Makes texts that name places of a text and show them, with the lines that they touch. It borrows the text, and the path under
/// which it names it. Lines count from 1. A line ends before its line feed, and a carriage return directly before that isn't
/// printed.
///
/// A place has to start and end between two characters of the text, except that of a location. Each call fails if memory runs
/// out, and as `DiagnosticFormatter` says. It takes time linear in the text that it makes and in the lines that it shows, and
/// logarithmic in the number of lines for each of these, and memory for the text that it makes.
#[derive(Drop)]
pub struct SpannedDiagnosticFormatter<'a> {
    pub(crate) source: Source<'a>,
    pub(crate) path: &'a str,
}

impl<'a> Model for SpannedDiagnosticFormatter<'a> {
    ghost use Rattle.lrpar_diagnostics.specs.Subject.{Subject};

    ghost Value = { Subject };

    ghost view = { λ f. record { text = f.source.lines; path = f.path.now } };
}

impl<'a> SpannedDiagnosticFormatter<'a> {
    /// The formatter of a text and its path. Takes time linear in the text, and memory for each of its lines.
    pub fn new(alloc: Global, src: &'a str, path: &'a str) -> Result<Self, AllocError>
        ensures text { IfOk result (HasSource src.now) }
        ensures path { IfOk result (HasPath path.now) }
    {
        let source = Source::new(alloc, src)?;
        Ok(SpannedDiagnosticFormatter { source, path })
    }

    /// The lines of the text.
    pub fn nlc(&self) -> &NewlineCache
        ensures { result.now ≡ line_table (self.now).text }
    {
        self.source.lines.cache()
    }

    /// The number as an ordinal: `1st`, `2nd`, `3rd`, `4th`, and so on by the last digit, but `th` if it ends in 11, 12 or 13.
    pub fn ordinal(alloc: Global, v: usize) -> Result<String, AllocError>
        ensures { IfOk result (HasText (ordinal_text v)) }
    {
        let suffix = ordinal_suffix(v);
        format!(in alloc; "{v}{suffix}")
    }

    /// The message, and the place at which the span starts: `MESSAGE at PATH:LINE:COLUMN`, or `MESSAGE in PATH` if there is no
    /// span. Columns count characters, from 1. Line and column are 0 if the start is after the text's end or inside a character.
    pub fn file_location_msg(
        &self,
        alloc: Global,
        msg: &str,
        span: Option<Span>,
    ) -> Result<String, AllocError>
        ensures { IfOk result (λ text. IsLocationText self.now msg.now span (string_bytes text)) }
    {
        let mut out = String::new(alloc);
        out.push_str(msg)?;
        match span {
            Some(span) => self.push_position(&mut out, span.start())?,
            None => self.push_path(&mut out)?,
        }
        Ok(out)
    }

    /// The lines that the span touches, each as `LINE| TEXT`, and below each one the part of the span in it, underlined by
    /// `underline_c`, once for each column, and at least once. The message comes after the last underline. The last of several
    /// lines is left out if it has no text. Columns are those of `unicode_width`.
    pub fn underline_span_with_text(
        &self,
        alloc: Global,
        span: Span,
        s: String,
        underline_c: char,
    ) -> Result<String, AllocError>
        requires { IsPartOf (self.now).text span }
        ensures { IfOk result (HasText (shown_block self.now [] span s underline_c)) }
    {
        self.prefixed_underline_span_with_text(alloc, "", span, s, underline_c)
    }

    /// The lines of the span with the message, and a prefix of at most 3 bytes, in place of spaces, before each underline.
    pub fn prefixed_underline_span_with_text(
        &self,
        alloc: Global,
        prefix: &str,
        span: Span,
        s: String,
        underline_c: char,
    ) -> Result<String, AllocError>
        requires span { IsPartOf (self.now).text span }
        requires prefix { length prefix.now ≤ 3 }
        ensures { IfOk result (HasText (shown_block self.now prefix.now span s underline_c)) }
    {
        let mut out = String::new(alloc);
        self.source
            .push_block(&mut out, prefix, span, s.as_str(), underline_c)?;
        Ok(out)
    }

    /// Whether each span starts and ends between two characters of the text, the spans are in order and don't overlap, and all
    /// lie on one line. Spans for which this is true can be underlined by `underline_spans_on_line_with_text`. It takes time
    /// linear in the spans and logarithmic in the number of lines for each, and allocates nothing.
    pub fn spans_follow(&self, spans: &[Span]) -> bool
        ensures { IsTrue result ↔ SpansFollow self.now spans.now }
    {
        self.source.follow_on_line(spans)
    }

    /// The line of the first span, as `LINE| TEXT`, and below it the underline of each span, with as many spaces between two as
    /// the text between them has columns, and then the message. The spans have to be in order, and not to overlap; all should lie
    /// on that line. `spans_follow` says whether they do. The text is empty if there are none.
    pub fn underline_spans_on_line_with_text(
        &self,
        alloc: Global,
        spans: &[Span],
        msg: String,
        underline_c: char,
    ) -> Result<String, AllocError>
        requires { FollowInOrder (self.now).text 0 spans.now }
        ensures { IfOk result (HasText (shown_on_line self.now spans.now msg underline_c)) }
    {
        let mut out = String::new(alloc);
        self.source
            .push_on_line(&mut out, spans, msg.as_str(), underline_c)?;
        Ok(out)
    }

    // Adds the path with the line and the column of a byte.
    pub(crate) fn push_position(&self, out: &mut String, byte: usize) -> Result<(), AllocError>
        ensures { OnOk result (IsPlaceText self.now (string_bytes out.old) byte (string_bytes out.new)) }
    {
        let (line, column) = self.source.position(byte);
        let path = self.path;
        write!(out, " at {path}:{line}:{column}")
    }

    // Adds the path.
    fn push_path(&self, out: &mut String) -> Result<(), AllocError>
        ensures { OnOk result (Appends out.old out.new (codes " in " ++ (self.now).path)) }
    {
        let path = self.path;
        write!(out, " in {path}")
    }
}

// The suffix of an ordinal.
fn ordinal_suffix(v: usize) -> &'static str
    ensures { result.now ≡ (if is_teen v then codes "th" else suffix_of_digit (v % 10)) }
{
    match v % 100 {
        11..=13 => "th",
        _ => match v % 10 {
            1 => "st",
            2 => "nd",
            3 => "rd",
            _ => "th",
        },
    }
}
