//! The errors that a text can have, and the messages of a file for them.
use crate::messages::{FileMessages, message_report};
use crate::plan::Plan;
use crate::printer::Printer;
use crate::show::write_messages;
use crate::wording::wording_of;
use lrpar_messages::{ErrorExample, Messages, error_examples, error_groups, push_example};
use lrpar_report::Report;
use lrpar_report_fixes::Wording;
use lrpar_table_stops::ErrorStates;
use program_files::fault::Fault;
use program_files::streams::Status;
use std::alloc::{AllocError, Global};
use std::io::Write;

/// A messages file.
#[derive(Clone, Copy)]
pub(crate) struct Catalogue<'a> {
    pub(crate) path: &'a str,
    pub(crate) text: &'a str,
}

/// Prints for each error that a text can have what may come there, a line that shows it, and an empty line for a message.
pub(crate) fn list_errors<O: Write>(
    alloc: Global,
    plan: &Plan<'_>,
    messages: Option<FileMessages>,
    out: &mut O,
) -> Result<Status, Fault> {
    let data = plan.data();
    let wording = wording_of(alloc, plan, messages)?;
    let stops = ErrorStates::new(alloc, data)?;
    let groups = error_groups(alloc, data, &stops)?;
    let mut text = String::from_str(alloc, "%%\n")?;
    for example in &error_examples(alloc, data, &groups)? {
        push_entry(&mut text, alloc, plan, &wording, example)?;
    }
    out.write_all(text.as_bytes())?;
    Ok(Status::Success)
}

// Adds the entry of an error, without a message.
fn push_entry(
    out: &mut String,
    alloc: Global,
    plan: &Plan<'_>,
    wording: &Wording<u32>,
    example: &ErrorExample<u32>,
) -> Result<(), AllocError> {
    let grm = plan.data().grm();
    out.push('\n')?;
    if let Some(sentence) = &example.sentence {
        if let Some((_, before)) = sentence.split_last() {
            out.push_str("// ")?;
            wording.push_expected(out, alloc, plan.data(), before)?;
            out.push('\n')?;
        }
    }
    if !example.elsewhere.is_empty() {
        out.push_str("// elsewhere ")?;
        wording.push_tokens(out, alloc, grm, &example.elsewhere)?;
        out.push('\n')?;
    }
    push_example(out, grm, example)?;
    out.push('\n')
}

/// Writes messages of what is wrong with a catalogue, and of the errors that have no message in it. It's a success if there are none.
pub(crate) fn check_errors<O: Write, E: Write>(
    alloc: Global,
    plan: &Plan<'_>,
    catalogue: Catalogue<'_>,
    out: &mut O,
    err: &mut E,
) -> Result<Status, Fault> {
    let data = plan.data();
    let form = plan.grammar.asked.form;
    let printer = Printer::new(alloc, catalogue.text, catalogue.path, form, plan.look)?;
    let stops = ErrorStates::new(alloc, data)?;
    let (messages, faults) = Messages::check(alloc, data, &stops, catalogue.text)?;
    let mut text = String::new(alloc);
    for fault in &faults {
        printer.push(&mut text, alloc, &message_report(alloc, fault)?)?;
    }
    let mut is_complete = true;
    let groups = error_groups(alloc, data, &stops)?;
    for example in &error_examples(alloc, data, &groups)? {
        if messages.of(data.sgraph(), example.state).is_none() {
            printer.push(&mut text, alloc, &missing(alloc, plan, example)?)?;
            is_complete = false;
        }
    }
    write_messages(out, err, text.as_str())?;
    Ok(Status::of(is_complete && faults.is_empty()))
}

// The report of an error without a message.
fn missing(
    alloc: Global,
    plan: &Plan<'_>,
    example: &ErrorExample<u32>,
) -> Result<Report, AllocError> {
    let mut message = String::from_str(alloc, "no message for ")?;
    push_example(&mut message, plan.data().grm(), example)?;
    Report::error(alloc, message.as_str())
}
