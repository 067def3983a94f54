//! The numbers of conflicts that a file expects.
use crate::counts::Counts;
use crate::declared::Declared;
use crate::printer::Printer;
use crate::show::fault_of_report;
use lrpar_grammar::span::Span;
use lrpar_grammar_yacc::declarations::Number;
use lrpar_report::Report;
use program_files::fault::Fault;
use std::alloc::{AllocError, Global};

/// Whether a file says how many conflicts it expects.
pub(crate) fn expects_conflicts(declared: &Declared<'_>) -> bool {
    declared.expected.is_some() || declared.expected_rr.is_some()
}

/// Whether these are the conflicts that the file expects. A file that expects nothing expects none.
pub(crate) fn has_expected(declared: &Declared<'_>, counts: Counts) -> bool {
    number_in(declared.expected) == counts.shift_reduce
        && number_in(declared.expected_rr) == counts.reduce_reduce
}

// The number, or 0 if there is none.
fn number_in(number: Option<Number>) -> usize {
    match number {
        Some(number) => number.number,
        None => 0,
    }
}

/// Refuses other numbers of conflicts than the file expects. A file that expects conflicts of one kind alone expects none of
/// the other kind; if it says nothing, any number of conflicts is right.
pub(crate) fn expect(
    alloc: Global,
    printer: &Printer<'_>,
    declared: &Declared<'_>,
    counts: Counts,
) -> Result<(), Fault> {
    expect_number(
        alloc,
        printer,
        "shift/reduce",
        declared.expected.as_ref(),
        declared.expected_rr.as_ref(),
        counts.shift_reduce,
    )?;
    expect_number(
        alloc,
        printer,
        "reduce/reduce",
        declared.expected_rr.as_ref(),
        declared.expected.as_ref(),
        counts.reduce_reduce,
    )
}

// Refuses another number of conflicts of a kind than the expected one; or any, if a number of the other kind alone is expected.
fn expect_number(
    alloc: Global,
    printer: &Printer<'_>,
    kind: &str,
    expected: Option<&Number>,
    other: Option<&Number>,
    count: usize,
) -> Result<(), Fault> {
    let (number, span, label) = match (expected, other) {
        (Some(expected), _) => (expected.number, expected.span, "this number is expected"),
        (None, Some(other)) => (
            0,
            other.span,
            "conflicts of the other kind alone are expected",
        ),
        (None, None) => return Ok(()),
    };
    if number == count {
        return Ok(());
    }
    let report = count_report(alloc, kind, number, count, span, label);
    Err(fault_of_report(alloc, printer, report))
}

// The report of another number of conflicts than the expected one.
fn count_report(
    alloc: Global,
    kind: &str,
    number: usize,
    count: usize,
    span: Span,
    label: &str,
) -> Result<Report, AllocError> {
    let message = format!(in alloc; "the number of {kind} conflicts is {count}, not {number}")?;
    Report::error(alloc, message.as_str())?.label(span, label)
}
