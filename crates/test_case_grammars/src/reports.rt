//! Cases of reports about a text.
use lrpar_grammar_places::span::Span;
use lrpar_report_json::JsonReporter;
use lrpar_report_lines::{Fix, Level, Look, Report, Reporter};
use std::alloc::{AllocError, Global};
use test_case_lines::cases::Case;
use test_case_lines::fault::Fault;
use test_case_lines::line::{Content, Line};
use test_case_lines::printed::Printed;
use test_case_lines::text::unescaped;
use test_case_lines::values::span_of;

/// The keys of the lines that say what is done.
pub const INPUTS: &[&str] = &[
    "text", "path", "level", "message", "label", "note", "fix", "edit", "look", "show",
];

/// The report of the case, about its text.
pub fn outcome(out: &mut Printed, alloc: Global, case: Case<'_, '_>) -> Result<(), Fault> {
    let text = case.text(alloc, "text")?;
    let report = report_of(alloc, case)?;
    match case.value_or_nothing("show") {
        "" => out.field(
            "report",
            shown(alloc, case, text.as_str(), &report)?.as_str(),
        ),
        "escaped" => push_escaped(
            out,
            alloc,
            shown(alloc, case, text.as_str(), &report)?.as_str(),
        )?,
        "json" => out.field("json", json(alloc, case, text.as_str(), &report)?.as_str()),
        "applied" => push_applied(out, alloc, text.as_str(), &report)?,
        _ => return Err(Fault::Line(case.number, "what is shown isn't known")),
    }
    Ok(())
}

// The report as it is shown.
fn shown(
    alloc: Global,
    case: Case<'_, '_>,
    text: &str,
    report: &Report,
) -> Result<String, AllocError> {
    let look = match case.value_or_nothing("look") {
        "colours" => Look::Coloured,
        _ => Look::Plain,
    };
    let reporter = Reporter::new(alloc, text, case.value_or_nothing("path"), look)?;
    let mut out = String::new(alloc);
    reporter.push(&mut out, alloc, report)?;
    Ok(out)
}

// The report as JSON.
fn json(
    alloc: Global,
    case: Case<'_, '_>,
    text: &str,
    report: &Report,
) -> Result<String, AllocError> {
    let reporter = JsonReporter::new(alloc, text, case.value_or_nothing("path"))?;
    let mut out = String::new(alloc);
    reporter.push(&mut out, alloc, report)?;
    Ok(out)
}

// The text after the edits of the first fix.
fn push_applied(
    out: &mut Printed,
    alloc: Global,
    text: &str,
    report: &Report,
) -> Result<(), AllocError> {
    let Some(fix) = report.fixes.first() else {
        return Ok(());
    };
    match fix.apply(alloc, text)? {
        Some(after) => out.field("applied", after.as_str()),
        None => out.line("applied ", &"none"),
    }
    Ok(())
}

// The report of a case.
fn report_of(alloc: Global, case: Case<'_, '_>) -> Result<Report, Fault> {
    let message = case.text(alloc, "message")?;
    let mut report = Report::new(alloc, level_of(case), message.as_str())?;
    for line in case.lines {
        report = with_line(alloc, report, *line)?;
    }
    Ok(report)
}

// The level of the report.
fn level_of(case: Case<'_, '_>) -> Level {
    match case.value_or_nothing("level") {
        "warning" => Level::Warning,
        "note" => Level::Note,
        _ => Level::Error,
    }
}

// The report with what the line adds to it.
fn with_line(alloc: Global, report: Report, line: Line<'_>) -> Result<Report, Fault> {
    let Content::Field { key, value } = line.content else {
        return Ok(report);
    };
    match key {
        "label" => {
            let (span, text) = part_and_text(alloc, value, line.number)?;
            Ok(report.label(span, text.as_str())?)
        }
        "note" => {
            let text = value_text(alloc, value, line.number)?;
            Ok(report.note(text.as_str())?)
        }
        "fix" => {
            let message = value_text(alloc, value, line.number)?;
            Ok(report.fix(Fix::new(alloc, message.as_str())?)?)
        }
        "edit" => with_edit(alloc, report, value, line.number),
        _ => Ok(report),
    }
}

// The report, with one more edit in its last fix.
fn with_edit(
    alloc: Global,
    mut report: Report,
    value: &str,
    number: usize,
) -> Result<Report, Fault> {
    let (span, text) = part_and_text(alloc, value, number)?;
    match report.fixes.pop() {
        Some(fix) => Ok(report.fix(fix.edit(span, text.as_str())?)?),
        None => Err(Fault::Line(number, "a fix is wanted above")),
    }
}

// The span and the text of a value `START..END TEXT`.
fn part_and_text(alloc: Global, value: &str, number: usize) -> Result<(Span, String), Fault> {
    let (place, text) = value.split_once(' ').unwrap_or((value, ""));
    match span_of(place) {
        Some(span) => Ok((span, value_text(alloc, text, number)?)),
        None => Err(Fault::Line(number, "a span is wanted")),
    }
}

// The text of a value, in which escapes are read.
fn value_text(alloc: Global, value: &str, number: usize) -> Result<String, Fault> {
    match String::from_utf8(unescaped(alloc, value, number)?) {
        Ok(text) => Ok(text),
        Err(_) => Err(Fault::Line(number, "a text that isn't UTF-8")),
    }
}

// The report on one line: a line feed as `\n`, and all but visible characters of ASCII and spaces by their numbers.
fn push_escaped(out: &mut Printed, alloc: Global, text: &str) -> Result<(), AllocError> {
    let mut line = String::new(alloc);
    for c in text.chars() {
        let number = u32::from(c);
        match c {
            '\n' => line.push_str("\\n")?,
            ' ' => line.push(c)?,
            c if c.is_ascii_graphic() => line.push(c)?,
            _ => write!(line, "\\u{{{number:04X}}}")?,
        }
    }
    out.line("report ", &line);
    Ok(())
}
