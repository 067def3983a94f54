//! Reports of faults in the rules of a lexer.
ghost use Rattle.std.specs.Prelude.{◌≡◌, IfOk};
ghost use Rattle.lrpar_report.specs.FaultPlaces.{AreRulesSpans, IsOnLine, IsOne, IsWithin};
ghost use Rattle.lrpar_report_lines.specs.Labels.{HasOneLabel, label_spans};
ghost use Rattle.lrpar_report_lines.specs.declared.levels.Level.TheVariants.{Error};

use crate::choices::push_quoted;
use crate::near::push_nearest;
use lrpar_grammar::grammar::YaccGrammar;
use lrpar_grammar::span::Span;
use lrpar_lexer::{LineFault, RulesFault};
use lrpar_report_lines::Report;
use std::alloc::{AllocError, Global};

/// The report of the fault in a text of rules for a lexer: the cause, and where it is. `text` should be the text that has the fault, and
/// `grm` its grammar; else the places in the report mean nothing.
///
/// Takes time linear in the text, and in the tokens of the grammar times the length of the name in question. `Err`: out of memory, also
/// if that is the fault.
pub fn rules_report(
    alloc: Global,
    grm: &YaccGrammar<u32>,
    text: &str,
    fault: &RulesFault,
) -> Result<Report, AllocError>
    ensures level { IfOk result (λ report. report.level ≡ Error) }
    ensures spans { IfOk result (λ report. AreRulesSpans text.now fault.now (label_spans report)) }
{
    match fault {
        RulesFault::Line(number, fault) => line_report(alloc, grm, text, *number, *fault),
        RulesFault::Memory => Err(AllocError),
    }
}

// The report of a fault in the line of this number, counted from 1.
fn line_report(
    alloc: Global,
    grm: &YaccGrammar<u32>,
    text: &str,
    number: usize,
    fault: LineFault,
) -> Result<Report, AllocError>
    ensures level { IfOk result (λ report. report.level ≡ Error) }
    ensures span { IfOk result (λ report. IsOne (IsOnLine text.now number) (label_spans report)) }
{
    let whole = line_of(text, number);
    let core = core_of(text, whole);
    let line = text.get(core.start()..core.end()).unwrap_or("");
    match fault {
        LineFault::Unread => unread(alloc, core),
        LineFault::Unnamed => unnamed(alloc, grm, line, core),
        LineFault::Pattern(error) => refused(alloc, &error, core),
    }
}

// The place of the line of this number, counted from 1, without its line feed. It is empty at the text's end, if there is no such line.
fn line_of(text: &str, number: usize) -> Span
    ensures { IsOnLine text.now number result }
{
    let mut line = 1;
    let mut start = 0;
    'bytes: for (at, byte) in text.as_bytes().iter().enumerate() {
        if *byte == b'\n' {
            if line == number {
                return Span::new(start, at);
            }
            line += 1;
            start = at + 1;
        }
    }
    let end = text.len();
    if line == number {
        Span::new(start, end)
    } else {
        Span::new(end, end)
    }
}

// The part of a line without spaces, tabs and carriage returns at its ends.
fn core_of(text: &str, line: Span) -> Span
    ensures { IsWithin line result }
{
    let whole = text.get(line.start()..line.end()).unwrap_or("");
    let after = whole.trim_start_matches([' ', '\t', '\r']);
    let core = after.trim_end_matches([' ', '\t', '\r']);
    let front = whole.len() - after.len();
    part_within(line, front, front + core.len())
}

// The report of a line that isn't written as a rule.
fn unread(alloc: Global, core: Span) -> Result<Report, AllocError>
    ensures level { IfOk result (λ report. report.level ≡ Error) }
    ensures span { IfOk result (HasOneLabel core) }
{
    let label = "expected PATTERN 'NAME' for a token, or PATTERN ; for what is skipped";
    labelled(alloc, "this line is no rule", core, label)
}

// The report of a line that names no token.
fn unnamed(
    alloc: Global,
    grm: &YaccGrammar<u32>,
    line: &str,
    core: Span,
) -> Result<Report, AllocError>
    ensures level { IfOk result (λ report. report.level ≡ Error) }
    ensures span { IfOk result (λ report. IsOne (IsWithin core) (label_spans report)) }
{
    let quoted = line.strip_suffix('\'').unwrap_or(line);
    let (front, name) = quoted.rsplit_once('\'').unwrap_or(("", quoted));
    let at = front.len().saturating_add(1);
    no_token(
        alloc,
        grm,
        name,
        part_within(core, at, at.saturating_add(name.len())),
    )
}

/// The report of a name of which the grammar has no token.
pub(crate) fn no_token(
    alloc: Global,
    grm: &YaccGrammar<u32>,
    name: &str,
    span: Span,
) -> Result<Report, AllocError>
    ensures level { IfOk result (λ report. report.level ≡ Error) }
    ensures span { IfOk result (HasOneLabel span) }
{
    let mut message = String::from_str(alloc, "the grammar has no token ")?;
    push_quoted(&mut message, name)?;
    let mut label = String::new(alloc);
    push_near_token(&mut label, alloc, grm, name)?;
    labelled(alloc, message.as_str(), span, label.as_str())
}

/// The report with this message, and one label.
pub(crate) fn labelled(
    alloc: Global,
    message: &str,
    span: Span,
    label: &str,
) -> Result<Report, AllocError>
    ensures level { IfOk result (λ report. report.level ≡ Error) }
    ensures span { IfOk result (HasOneLabel span) }
{
    Report::error(alloc, message)?.label(span, label)
}

// Adds the token that somebody may have meant, or what would be right.
fn push_near_token(
    label: &mut String,
    alloc: Global,
    grm: &YaccGrammar<u32>,
    name: &str,
) -> Result<(), AllocError> {
    let mut names = Vec::new(alloc);
    for (token, _) in grm.tokens_map(alloc)? {
        names.push(token)?;
    }
    let otherwise = "a token is in quotes in the grammar, or is declared by %token";
    push_nearest(label, name, &names, otherwise)
}

// The report of a pattern that is refused.
fn refused(alloc: Global, error: &regex::Error, core: Span) -> Result<Report, AllocError>
    ensures level { IfOk result (λ report. report.level ≡ Error) }
    ensures span { IfOk result (λ report. IsOne (IsWithin core) (label_spans report)) }
{
    bad_pattern(alloc, refused_part(error, core), error)
}

/// The report of a pattern that is refused, at this place.
pub(crate) fn bad_pattern(
    alloc: Global,
    span: Span,
    error: &regex::Error,
) -> Result<Report, AllocError>
    ensures level { IfOk result (λ report. report.level ≡ Error) }
    ensures span { IfOk result (HasOneLabel span) }
{
    let mut message = String::from_str(alloc, "bad pattern: ")?;
    push_refusal(&mut message, error)?;
    let label = "patterns are those of the crate `regex`";
    labelled(alloc, message.as_str(), span, label)
}

// Adds why a pattern is refused.
fn push_refusal(text: &mut String, error: &regex::Error) -> Result<(), AllocError> {
    match error {
        regex::Error::Syntax(error) => text.push_str(error.kind.message()),
        error => write!(text, "{error}"),
    }
}

// The part of a line that the error of its pattern is about. The line begins with the pattern.
fn refused_part(error: &regex::Error, core: Span) -> Span
    ensures { IsWithin core result }
{
    match error {
        regex::Error::Syntax(error) => part_within(core, error.span.start, error.span.end),
        _ => part_within(core, 0, core.len()),
    }
}

// The part of a line from one byte of it to another, as far as the line has them.
fn part_within(line: Span, start: usize, end: usize) -> Span
    ensures { IsWithin line result }
{
    let from = line.start().saturating_add(start).min(line.end());
    let to = line.start().saturating_add(end).min(line.end());
    Span::new(from, to.max(from))
}
