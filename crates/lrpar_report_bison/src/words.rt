//! Words of a `.y` file in the messages of reports.
ghost use Rattle.std.specs.Prelude.{◌≡◌, IfOk};
ghost use Rattle.lrpar_report_lines.specs.Labels.{HasOneLabel};
ghost use Rattle.lrpar_report_lines.specs.declared.levels.Level.TheVariants.{Error};

use lrpar_grammar_places::span::Span;
use lrpar_report::push_quoted;
use lrpar_report_lines::Report;
use std::alloc::{AllocError, Global};

/// The part of the text at this place, or an empty one if the text has no such place.
pub(crate) fn part(text: &str, span: Span) -> &str {
    text.get(span.start()..span.end()).unwrap_or("")
}

/// A report with this message, and one label.
pub(crate) fn labelled(
    alloc: Global,
    message: &str,
    span: Span,
    label: &str,
) -> Result<Report, AllocError>
    ensures level { IfOk result (λ report. report.level ≡ Error) }
    ensures span { IfOk result (HasOneLabel span) }
{
    Report::error(alloc, message)?.label(span, label)
}

/// A report about the word at a place, which is between these two parts of the message, and one label.
pub(crate) fn about_word(
    alloc: Global,
    text: &str,
    span: Span,
    front: &str,
    back: &str,
    label: &str,
) -> Result<Report, AllocError>
    ensures level { IfOk result (λ report. report.level ≡ Error) }
    ensures span { IfOk result (HasOneLabel span) }
{
    let mut message = String::from_str(alloc, front)?;
    push_word(&mut message, part(text, span))?;
    message.push_str(back)?;
    labelled(alloc, message.as_str(), span, label)
}

/// Adds a word between quotes. A literal has its own.
pub(crate) fn push_word(out: &mut String, word: &str) -> Result<(), AllocError> {
    if word.starts_with(['\'', '"']) {
        out.push_str(word)
    } else {
        push_quoted(out, word)
    }
}
