//! Errors of inputs.
use crate::plan::Recovery;
use crate::show::with_label_text;
use lrpar_lexer::NoToken;
use lrpar_parse_lexemes::lex_api::LexError;
use lrpar_report::{Report, lexing_report};
use std::alloc::{AllocError, Global};

/// The report of a lexing error.
pub(crate) fn report_of_lexing(
    alloc: Global,
    input: &str,
    error: &NoToken,
) -> Result<Report, AllocError> {
    with_label_text(lexing_report(alloc, input, error)?, cause_of(error))
}

// Why there is a lexing error. One with a match pops the last start state.
fn cause_of(error: &NoToken) -> &'static str {
    if error.span().is_empty() {
        "no line of LEXER matches here"
    } else {
        "the match that begins here pops the last start state"
    }
}

/// The report with a note that no repairs were found, or that none were looked for.
pub(crate) fn with_no_repairs(
    alloc: Global,
    recovery: Recovery,
    report: Report,
) -> Result<Report, AllocError> {
    match recovery {
        Recovery::Nothing => report.note("no repairs were looked for"),
        Recovery::Cheapest { limit } | Recovery::Complete { limit } => {
            let note = format!(in alloc;
                "no repair was found within --limit {limit}; a larger limit may find one"
            )?;
            report.note(note.as_str())
        }
    }
}
