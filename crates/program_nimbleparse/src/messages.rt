//! The messages file: names of tokens and rules for people, and messages for errors.
use crate::printer::Printer;
use crate::show::fault_of_report;
use lrpar_grammar::grammar::YaccGrammar;
use lrpar_grammar::span::Span;
use lrpar_messages::{MessageFault, MessageFaultKind, Messages};
use lrpar_names::{Names, NamesFault};
use lrpar_report::Report;
use lrpar_table::check::ParserData;
use program_files::fault::Fault;
use std::alloc::{AllocError, Global};

/// What a messages file says.
pub(crate) struct FileMessages {
    pub(crate) names: Names,
    pub(crate) messages: Messages<u32>,
}

// Hand-written, so that code that drops one needs the proof of one call only.
impl Drop for FileMessages {
    fn drop(self) {
        let FileMessages { names, messages } = self;
        drop(names);
        drop(messages);
    }
}

impl FileMessages {
    // The names and the messages.
    pub(crate) fn into_parts(self) -> (Names, Messages<u32>) {
        let FileMessages { names, messages } = self;
        (names, messages)
    }
}

/// What a messages file says about the table.
pub(crate) fn read_messages(
    alloc: Global,
    printer: &Printer<'_>,
    data: &ParserData<u32>,
    text: &str,
) -> Result<FileMessages, Fault> {
    let names = read_names(alloc, printer, data.grm(), text)?;
    match Messages::read(alloc, data, text) {
        Ok(messages) => Ok(FileMessages { names, messages }),
        Err(fault) => {
            let report = message_report(alloc, &fault);
            Err(fault_of_report(alloc, printer, report))
        }
    }
}

/// The names of a messages file.
pub(crate) fn read_names(
    alloc: Global,
    printer: &Printer<'_>,
    grm: &YaccGrammar<u32>,
    text: &str,
) -> Result<Names, Fault> {
    match Names::read(alloc, grm, text) {
        Ok(names) => Ok(names),
        Err(fault) => Err(fault_of_report(alloc, printer, name_report(alloc, &fault))),
    }
}

/// The report of a fault of a message.
pub(crate) fn message_report(alloc: Global, fault: &MessageFault) -> Result<Report, AllocError> {
    match fault {
        MessageFault::At { kind, span } => {
            let message = format!(in alloc; "{kind}")?;
            let report = Report::error(alloc, message.as_str())?.label(*span, "")?;
            match kind {
                MessageFaultKind::Repeated { first } => report.label(*first, "here"),
                _ => Ok(report),
            }
        }
        MessageFault::Memory => Err(AllocError),
    }
}

// The report of a fault of a name.
fn name_report(alloc: Global, fault: &NamesFault) -> Result<Report, AllocError> {
    match fault {
        NamesFault::Unread(span) => labelled(
            alloc,
            "this is no line of a messages file",
            *span,
            "expected NAME: WORDS",
        ),
        NamesFault::Unknown(span) => labelled(
            alloc,
            "unknown name",
            *span,
            "the grammar has no rule or token of this name",
        ),
        NamesFault::Repeated(span) => labelled(
            alloc,
            "repeated name",
            *span,
            "this has words already",
        ),
        NamesFault::Empty(span) => labelled(
            alloc,
            "a name without words",
            *span,
            "expected words after the colon",
        ),
        NamesFault::Memory => Err(AllocError),
    }
}

// The report of a fault at a place.
fn labelled(alloc: Global, message: &str, span: Span, label: &str) -> Result<Report, AllocError> {
    Report::error(alloc, message)?.label(span, label)
}
