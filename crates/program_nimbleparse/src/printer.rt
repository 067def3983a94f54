//! How reports about a text are written: as lines for people, or as JSON.
use lrpar_report::{Level, Look, Report, Reporter};
use lrpar_report_json::JsonReporter;
use std::alloc::{AllocError, Global};

/// The form of messages.
#[derive(Clone, Copy, Debug, PartialEq, Eq)]
pub enum MessageForm {
    /// Lines for people, with the lines of the text that they are about.
    Text,
    /// A JSON object on a line for each message.
    Json,
}

/// Writes reports about a text.
#[derive(Drop)]
pub enum Printer<'a> {
    Lines(Reporter<'a>),
    Json(JsonReporter<'a>),
}

impl<'a> Printer<'a> {
    /// The printer of a text and its path, in this form and with this look.
    pub fn new(
        alloc: Global,
        text: &'a str,
        path: &'a str,
        form: MessageForm,
        look: Look,
    ) -> Result<Self, AllocError> {
        match form {
            MessageForm::Text => Ok(Printer::Lines(Reporter::new(alloc, text, path, look)?)),
            MessageForm::Json => Ok(Printer::Json(JsonReporter::new(alloc, text, path)?)),
        }
    }

    /// Adds the report.
    pub fn push(&self, out: &mut String, alloc: Global, report: &Report) -> Result<(), AllocError> {
        match self {
            Printer::Lines(reporter) => reporter.push(out, alloc, report),
            Printer::Json(reporter) => reporter.push(out, alloc, report),
        }
    }

    /// Adds a longer text: as it is, or as a note under this title.
    pub fn push_text(
        &self,
        out: &mut String,
        alloc: Global,
        title: &str,
        text: &str,
    ) -> Result<(), AllocError> {
        match self {
            Printer::Lines(_) => out.push_str(text),
            Printer::Json(reporter) => {
                let report = Report::new(alloc, Level::Note, title)?.note(text)?;
                reporter.push(out, alloc, &report)
            }
        }
    }
}
