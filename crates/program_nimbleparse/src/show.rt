//! Reports on standard error.
use crate::printer::Printer;
use lrpar_report::Report;
use program_files::fault::Fault;
use std::alloc::{AllocError, Global};
use std::io::Write;

/// Writes the text to standard error, after `out` is flushed. A failure of `err` is ignored.
pub fn write_messages<O: Write, E: Write>(
    out: &mut O,
    err: &mut E,
    text: &str,
) -> Result<(), Fault> {
    out.flush()?;
    if err.write_all(text.as_bytes()).is_ok() {
        let _ = err.flush();
    }
    Ok(())
}

/// The fault that shows this report about a text.
pub(crate) fn fault_of_report(
    alloc: Global,
    printer: &Printer<'_>,
    report: Result<Report, AllocError>,
) -> Fault {
    match shown(alloc, printer, report) {
        Ok(text) => Fault::of_message(text),
        Err(_) => Fault::Memory,
    }
}

// The text of a report.
fn shown(
    alloc: Global,
    printer: &Printer<'_>,
    report: Result<Report, AllocError>,
) -> Result<String, AllocError> {
    let report = report?;
    let mut text = String::new(alloc);
    printer.push(&mut text, alloc, &report)?;
    Ok(text)
}

/// Adds the reports.
pub fn push_reports(
    out: &mut String,
    alloc: Global,
    printer: &Printer<'_>,
    reports: &[Report],
) -> Result<(), AllocError> {
    for report in reports {
        printer.push(out, alloc, report)?;
    }
    Ok(())
}

/// The report with this text at its last label, if it has one.
pub fn with_label_text(report: Report, text: &str) -> Result<Report, AllocError> {
    let mut report = report;
    match report.labels.pop() {
        Some(label) => report.label(label.span, text),
        None => Ok(report),
    }
}
