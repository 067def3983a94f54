//! Cases of messages that show places of a text.
ghost use Rattle.std.specs.Prelude.{◌≡◌, IfOk, IsTrue};
ghost use Rattle.std.specs.List.{AllByRecursion};
ghost use Rattle.lrpar_grammar.specs.SpansFit.{IsPartOf};

use lrpar_diagnostics::{
    DiagnosticError, DiagnosticFault, DiagnosticFormatter, SpannedDiagnosticFormatter,
};
use lrpar_grammar::span::{Span, Spanned, SpansKind};
use std::alloc::Global;
use std::error::Error;
use std::fmt;
use test_case_lines::cases::Case;
use test_case_lines::fault::Fault;
use test_case_lines::printed::Printed;
use test_case_lines::values::{number_at, span_of};

/// The keys of the lines that say what is done.
pub const INPUTS: &[&str] = &[
    "text", "path", "show", "spans", "kind", "number", "message", "prefix", "sign",
];

/// A message about places.
#[derive(Debug, Drop)]
struct Notice<'a> {
    spans: Vec<Span>,
    kind: SpansKind,
    message: &'a str,
}

impl<'a> Spanned for Notice<'a> {
    ghost places = { λ notice. notice.spans.items };

    ghost kind = { λ notice. notice.kind };

    fn spans(&self) -> &[Span] {
        &self.spans
    }

    fn spanskind(&self) -> SpansKind {
        self.kind
    }
}

impl<'a> fmt::Display for Notice<'a> {
    ghost use Rattle.std.specs.Prelude.{Some};

    ghost output = { λ notice. Some notice.message.now };

    fn fmt<W: fmt::Write>(&self, f: &mut fmt::Formatter<W>) -> fmt::Result {
        let message = self.message;
        write!(f, "{message}")
    }
}

impl<'a> Error for Notice<'a> {}

/// What the case asks of the places of the text.
pub fn outcome(out: &mut Printed, alloc: Global, case: Case<'_, '_>) -> Result<(), Fault> {
    let text = case.text(alloc, "text")?;
    let spans = spans_of(alloc, case)?;
    match SpannedDiagnosticFormatter::new(alloc, text.as_str(), case.value_or_nothing("path")) {
        Ok(formatter) => {
            let places = Places {
                case,
                text: text.as_str(),
                formatter: &formatter,
                spans: &spans,
            };
            places.push_shown(out, alloc)
        }
        Err(_) => Err(Fault::Memory),
    }
}

// The places of a case.
fn spans_of(alloc: Global, case: Case<'_, '_>) -> Result<Vec<Span>, Fault> {
    let mut spans = Vec::new(alloc);
    for word in case.value_or_nothing("spans").split(' ') {
        if let Some(span) = span_of(word) {
            spans.push(span)?;
        }
    }
    Ok(spans)
}

/// The places of a case in its text, and the formatter over that text.
#[derive(Clone, Copy)]
struct Places<'a, 'k, 'c, 'f> {
    case: Case<'k, 'c>,
    text: &'a str,
    formatter: &'a SpannedDiagnosticFormatter<'f>,
    spans: &'a [Span],
}

impl<'a, 'k, 'c, 'f> Places<'a, 'k, 'c, 'f> {
    // What the case asks for.
    fn push_shown(&self, out: &mut Printed, alloc: Global) -> Result<(), Fault>
        requires { (self.now.formatter.now).text ≡ self.now.text.now }
    {
        match self.case.value_or_nothing("show") {
            "ordinal" => push_ordinal(out, alloc, self.case),
            "lines" => {
                self.push_lines(out);
                Ok(())
            }
            "location" => self.push_location(out, alloc),
            "block" => self.push_block(out, alloc),
            "row" => self.push_row(out, alloc),
            "follow" => {
                let follow = self.formatter.spans_follow(self.spans);
                out.field("follow", if follow { "yes" } else { "no" });
                Ok(())
            }
            "error" => self.push_error(out, alloc),
            "warning" => self.push_warning(out, alloc),
            "memory" => {
                out.line("fault ", &DiagnosticFault::Memory);
                Ok(())
            }
            _ => Err(self.fault("what is shown isn't known")),
        }
    }

    // The fault of the case's line.
    fn fault(&self, wanted: &'static str) -> Fault {
        Fault::Line(self.case.number, wanted)
    }

    // The number of the last line.
    fn push_lines(&self, out: &mut Printed) {
        if let Some(line) = self.formatter.nlc().byte_to_line_num(self.text.len()) {
            out.line("lines ", &line);
        }
    }

    // The line and the column of the first place.
    fn push_location(&self, out: &mut Printed, alloc: Global) -> Result<(), Fault> {
        let message = self.case.value_or_nothing("message");
        let first = self.spans.first().copied();
        let location = self.formatter.file_location_msg(alloc, message, first)?;
        out.field("location", location.as_str());
        Ok(())
    }

    // The first place, underlined.
    fn push_block(&self, out: &mut Printed, alloc: Global) -> Result<(), Fault>
        requires { (self.now.formatter.now).text ≡ self.now.text.now }
    {
        let message = self.case.text(alloc, "message")?;
        let prefix = self.case.value_or_nothing("prefix");
        let sign = self.sign();
        match self.spans.first() {
            Some(span) if is_part(self.text, *span) => {
                let block = if prefix.is_empty() || prefix.len() > 3 {
                    self.formatter
                        .underline_span_with_text(alloc, *span, message, sign)?
                } else {
                    self.formatter
                        .prefixed_underline_span_with_text(alloc, prefix, *span, message, sign)?
                };
                out.field("block", block.as_str());
                Ok(())
            }
            _ => Err(self.fault("a place in the text is wanted")),
        }
    }

    // All places on one line, underlined.
    fn push_row(&self, out: &mut Printed, alloc: Global) -> Result<(), Fault> {
        if !self.formatter.spans_follow(self.spans) {
            return Err(self.fault("places in order are wanted"));
        }
        let message = self.case.text(alloc, "message")?;
        let row = self
            .formatter
            .underline_spans_on_line_with_text(alloc, self.spans, message, self.sign())?;
        out.field("row", row.as_str());
        Ok(())
    }

    // The places as those of an error.
    fn push_error(&self, out: &mut Printed, alloc: Global) -> Result<(), Fault>
        requires { (self.now.formatter.now).text ≡ self.now.text.now }
    {
        if !are_parts(self.text, self.spans) {
            return Err(self.fault("places in the text are wanted"));
        }
        match self.formatter.format_error(alloc, self.notice(alloc)?) {
            Ok(error) => push_error_text(out, alloc, &error),
            Err(fault) => push_fault(out, fault),
        }
        Ok(())
    }

    // The places as those of a warning.
    fn push_warning(&self, out: &mut Printed, alloc: Global) -> Result<(), Fault>
        requires { (self.now.formatter.now).text ≡ self.now.text.now }
    {
        if !are_parts(self.text, self.spans) {
            return Err(self.fault("places in the text are wanted"));
        }
        match self.formatter.format_warning(alloc, self.notice(alloc)?) {
            Ok(warning) => out.field("warning", warning.as_str()),
            Err(fault) => push_fault(out, fault),
        }
        Ok(())
    }

    // The message about the places, of the kind that the case names.
    fn notice(&self, alloc: Global) -> Result<Notice<'c>, Fault>
        ensures { IfOk result (λ notice. notice.spans.items ≡ self.now.spans.now) }
    {
        let kind = match self.case.value_or_nothing("kind") {
            "error" => SpansKind::Error,
            "duplicates" => SpansKind::DuplicationError,
            _ => SpansKind::Other,
        };
        Ok(Notice {
            spans: Vec::from_slice(alloc, self.spans)?,
            kind,
            message: self.case.value_or_nothing("message"),
        })
    }

    // The character that underlines.
    fn sign(&self) -> char {
        self.case
            .value_or_nothing("sign")
            .chars()
            .next()
            .unwrap_or('^')
    }
}

// The ordinal.
fn push_ordinal(out: &mut Printed, alloc: Global, case: Case<'_, '_>) -> Result<(), Fault> {
    let ordinal = SpannedDiagnosticFormatter::ordinal(alloc, number_at(case, "number", 0)?)?;
    out.field("ordinal", ordinal.as_str());
    Ok(())
}

// The text of an error, and whether it prints as another one.
fn push_error_text(out: &mut Printed, alloc: Global, error: &DiagnosticError) {
    out.field("error", error.text());
    let Ok(printed) = error.to_string(alloc) else {
        return out.lack_memory();
    };
    if printed.as_str() != error.text() {
        out.text("differs\n");
    }
}

// The fault.
fn push_fault(out: &mut Printed, fault: DiagnosticFault) {
    match fault {
        DiagnosticFault::SeveralSpans => out.line("fault ", &fault),
        DiagnosticFault::Memory => out.lack_memory(),
    }
}

// Whether the place starts and ends between two characters of the text.
fn is_part(text: &str, span: Span) -> bool
    ensures { IsTrue result → IsPartOf text.now span }
{
    text.is_char_boundary(span.start()) && text.is_char_boundary(span.end())
}

// Whether all places do.
fn are_parts(text: &str, spans: &[Span]) -> bool
    ensures { IsTrue result → AllByRecursion (IsPartOf text.now) spans.now }
{
    let mut rest = spans;
    while let Some((span, others)) = rest.split_first() {
        if !is_part(text, *span) {
            return false;
        }
        rest = others;
    }
    true
}
