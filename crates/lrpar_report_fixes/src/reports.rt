//! Reports of parse errors.
ghost use Rattle.std.specs.Prelude.{◌≡◌, IfOk};
ghost use Rattle.lrpar_report_lines.specs.declared.levels.Level.TheVariants.{Error};

use crate::changes::Change;
use crate::expected::no_choices;
use crate::filling::push_filled;
use crate::fixes::fix_of;
use crate::openers::closed_bracket;
use crate::scene::Scene;
use crate::subject::Subject;
use crate::ways::{repairing_ways, ways_of};
use crate::words::{push_shortened, push_tokens, text_at};
use lrpar_grammar::span::{Span, StIdx, StorageIndex, TIdx};
use lrpar_names::{Choices, push_choices};
use lrpar_parse_errors::errors::ParseError;
use lrpar_parse_lexemes::lex_api::Lexeme;
use lrpar_report::{Fix, Report};
use std::alloc::{AllocError, Global};

/// How many fixes a report has at most.
const MOST_FIXES: usize = 3;

/// How many choices are named at most where a token with a text of its own is missing.
const MOST_CHOICES: usize = 5;

/// The report of an error at a place, at which these may come, with fixes.
pub(crate) fn report_with_fixes<LexemeT: Lexeme<StorageT>, StorageT: StorageIndex>(
    alloc: Global,
    subject: Subject<'_, StorageT>,
    choices: &Choices<StorageT>,
    place: usize,
    error: &ParseError<LexemeT, StorageT>,
) -> Result<Report, AllocError>
    ensures level { IfOk result (λ report. report.level ≡ Error) }
{
    let lexeme = error.lexeme();
    let found = Found::new(subject, place, TIdx(lexeme.tok_id()), lexeme.span());
    let scene = Scene::new(alloc, subject, place)?;
    let ways = ways_of(alloc, &scene, error.repairs())?;
    let report = match ways.first() {
        Some(first) => titled(alloc, subject, choices, found, first)?,
        None => unexpected(alloc, subject, choices, found)?,
    };
    let state = error.stidx();
    let found = Found::new(subject, place, TIdx(lexeme.tok_id()), lexeme.span());
    let report = with_message(alloc, subject, choices, found, state, report)?;
    match ways.first() {
        Some(first) => {
            let report = with_opener(&scene, first, report)?;
            with_fixes(alloc, subject, &ways, report)
        }
        None => Ok(report),
    }
}

/// The report of an error at a place with its first repairs as fixes, without what may come.
pub(crate) fn report_with_repairs<LexemeT: Lexeme<StorageT>, StorageT: StorageIndex>(
    alloc: Global,
    subject: Subject<'_, StorageT>,
    place: usize,
    error: &ParseError<LexemeT, StorageT>,
) -> Result<Report, AllocError>
    ensures level { IfOk result (λ report. report.level ≡ Error) }
{
    let unknown = no_choices(alloc);
    let lexeme = error.lexeme();
    let found = Found::new(subject, place, TIdx(lexeme.tok_id()), lexeme.span());
    let ways = repairing_ways(alloc, subject, place, error.repairs())?;
    match ways.first() {
        Some(first) => {
            let report = titled(alloc, subject, &unknown, found, first)?;
            with_fixes(alloc, subject, &ways, report)
        }
        None => unexpected(alloc, subject, &unknown, found),
    }
}

/// The lexeme of an error.
#[derive(Clone, Copy)]
struct Found {
    /// Its place among all.
    place: usize,
    span: Span,
    is_end: bool,
    is_unmatched: bool,
}

impl Found {
    // The lexeme at this place among all, with this token and part of the text.
    fn new<StorageT: StorageIndex>(
        subject: Subject<'_, StorageT>,
        place: usize,
        token: TIdx<StorageT>,
        span: Span,
    ) -> Found {
        Found {
            place,
            span,
            is_end: token == subject.grm().eof_token_idx(),
            is_unmatched: subject.wording.unmatched == Some(token),
        }
    }

    // Adds the lexeme.
    fn push(self, out: &mut String, text: &str) -> Result<(), AllocError> {
        if !self.is_end {
            return push_shortened(out, text_at(text, self.span));
        }
        if text.is_empty() {
            out.push_str("end of input, as it is empty")
        } else if self.span.start() == 0 {
            out.push_str("end of input, as it has no token")
        } else {
            out.push_str("end of input")
        }
    }
}

// The report of an error for which this is the first way to mend the text, without fixes.
fn titled<StorageT: StorageIndex>(
    alloc: Global,
    subject: Subject<'_, StorageT>,
    choices: &Choices<StorageT>,
    found: Found,
    changes: &Vec<Change<StorageT>>,
) -> Result<Report, AllocError>
    ensures level { IfOk result (λ report. report.level ≡ Error) }
{
    match changes.as_slice() {
        [change] if !change.deletes => {
            let byte = change.first.start();
            if byte >= subject.byte_before(found.place) {
                missing(alloc, subject, choices, found, change)
            } else {
                missing_earlier(alloc, subject, change)
            }
        }
        _ => unexpected(alloc, subject, choices, found),
    }
}

// The report with the message that the catalogue has for an error in this state, if it has one, in place of its own. A text that no rule of
// the lexer takes keeps its own.
fn with_message<StorageT: StorageIndex>(
    alloc: Global,
    subject: Subject<'_, StorageT>,
    choices: &Choices<StorageT>,
    found: Found,
    state: StIdx<StorageT>,
    report: Report,
) -> Result<Report, AllocError>
    ensures level { IfOk result (λ new. new.level ≡ report.level) }
{
    let Some(messages) = &subject.wording.messages else {
        return Ok(report);
    };
    match messages.of(subject.data.sgraph(), state) {
        Some(text) if !found.is_unmatched => {
            let mut report = report;
            report.message = filled(alloc, subject, choices, found, text)?;
            Ok(report)
        }
        Some(_) | None => Ok(report),
    }
}

// The text of a message with the lexeme in place of `{found}`, what is expected in place of `{expected}`, and the lexeme before in place of
// `{before}`.
fn filled<StorageT: StorageIndex>(
    alloc: Global,
    subject: Subject<'_, StorageT>,
    choices: &Choices<StorageT>,
    found: Found,
    text: &str,
) -> Result<String, AllocError> {
    let place = found.place;
    let mut lexeme = String::new(alloc);
    found.push(&mut lexeme, subject.text)?;
    let mut expected = String::new(alloc);
    push_choices(
        &mut expected,
        subject.grm(),
        &subject.wording.names,
        choices,
    )?;
    let mut before = String::new(alloc);
    push_before(&mut before, subject, place)?;
    let expected = expected.as_str();
    let expected = expected.strip_prefix("expected ").unwrap_or(expected);
    let mut out = String::new(alloc);
    push_filled(&mut out, text, lexeme.as_str(), expected, before.as_str())?;
    Ok(out)
}

// Adds the lexeme before this place.
fn push_before<StorageT: StorageIndex>(
    out: &mut String,
    subject: Subject<'_, StorageT>,
    place: usize,
) -> Result<(), AllocError> {
    if place == 0 {
        return out.push_str("the start of the input");
    }
    let span = subject.span_at(place.saturating_sub(1));
    push_shortened(out, text_at(subject.text, span))
}

// The report of a lexeme that can't be where it is.
fn unexpected<StorageT: StorageIndex>(
    alloc: Global,
    subject: Subject<'_, StorageT>,
    choices: &Choices<StorageT>,
    found: Found,
) -> Result<Report, AllocError>
    ensures level { IfOk result (λ report. report.level ≡ Error) }
{
    let (front, label) = match found.is_unmatched {
        true => ("unknown text ", "the lexer gives no token here"),
        false => ("unexpected ", ""),
    };
    let mut message = String::from_str(alloc, front)?;
    found.push(&mut message, subject.text)?;
    if found.is_unmatched {
        push_number(&mut message, text_at(subject.text, found.span))?;
    }
    if !is_nothing(choices) {
        message.push_str(", ")?;
        push_choices(&mut message, subject.grm(), &subject.wording.names, choices)?;
    }
    Report::error(alloc, message.as_str())?.label(found.span, label)
}

// Adds the number of the first character of the text, if it isn't a visible one of ASCII.
fn push_number(out: &mut String, text: &str) -> Result<(), AllocError> {
    match text.chars().next() {
        Some(c) if !c.is_ascii_graphic() => {
            let number = u32::from(c);
            write!(out, " (U+{number:04X})")
        }
        Some(_) | None => Ok(()),
    }
}

// The report of tokens that are missing before the error's lexeme.
fn missing<StorageT: StorageIndex>(
    alloc: Global,
    subject: Subject<'_, StorageT>,
    choices: &Choices<StorageT>,
    found: Found,
    change: &Change<StorageT>,
) -> Result<Report, AllocError>
    ensures level { IfOk result (λ report. report.level ≡ Error) }
{
    let mut message = String::new(alloc);
    if is_nothing(choices) || is_clear(subject, choices, change) {
        message.push_str("expected ")?;
        push_tokens(&mut message, subject, &change.tokens)?;
    } else {
        push_choices(&mut message, subject.grm(), &subject.wording.names, choices)?;
    }
    message.push_str(" before ")?;
    found.push(&mut message, subject.text)?;
    Report::error(alloc, message.as_str())?.label(change.span(), "")
}

// The report of tokens that are missing before an earlier lexeme.
fn missing_earlier<StorageT: StorageIndex>(
    alloc: Global,
    subject: Subject<'_, StorageT>,
    change: &Change<StorageT>,
) -> Result<Report, AllocError>
    ensures level { IfOk result (λ report. report.level ≡ Error) }
{
    let mut message = String::from_str(alloc, "expected ")?;
    push_tokens(&mut message, subject, &change.tokens)?;
    message.push_str(" before ")?;
    let next = subject.lexemes.first_from(change.first.start());
    push_shortened(&mut message, text_at(subject.text, subject.span_at(next)))?;
    Report::error(alloc, message.as_str())?.label(change.span(), "")
}

// Whether it says more what is inserted than what may come.
fn is_clear<StorageT: StorageIndex>(
    subject: Subject<'_, StorageT>,
    choices: &Choices<StorageT>,
    change: &Change<StorageT>,
) -> bool {
    let many = choices.rules.len().saturating_add(choices.tokens.len()) > MOST_CHOICES;
    many && change
        .tokens
        .iter()
        .all(|token| subject.token_text(*token).is_some())
}

// Whether there are no choices.
fn is_nothing<StorageT: StorageIndex>(choices: &Choices<StorageT>) -> bool {
    choices.rules.is_empty() && choices.tokens.is_empty()
}

// The report with a label at the bracket that the first change closes, if it closes one.
fn with_opener<StorageT: StorageIndex>(
    scene: &Scene<'_, StorageT>,
    changes: &Vec<Change<StorageT>>,
    report: Report,
) -> Result<Report, AllocError>
    ensures level { IfOk result (λ new. new.level ≡ report.level) }
{
    let Some(change) = changes.first() else {
        return Ok(report);
    };
    let place = scene.subject.lexemes.first_from(change.first.start());
    match closed_bracket(scene, place, change.tokens.as_slice()) {
        Some(span) => report.label(span, "this isn't closed"),
        None => Ok(report),
    }
}

// The report with a fix for each of the first ways that differ.
fn with_fixes<StorageT: StorageIndex>(
    alloc: Global,
    subject: Subject<'_, StorageT>,
    ways: &Vec<Vec<Change<StorageT>>>,
    report: Report,
) -> Result<Report, AllocError>
    ensures level { IfOk result (λ new. new.level ≡ report.level) }
{
    let mut report = report;
    for changes in ways {
        if report.fixes.len() >= MOST_FIXES {
            break;
        }
        let fix = fix_of(alloc, subject, changes)?;
        if !is_among(&fix, &report.fixes) {
            report = report.fix(fix)?;
        }
    }
    Ok(report)
}

// Whether a fix says what one of others says.
fn is_among(fix: &Fix, others: &[Fix]) -> bool {
    others
        .iter()
        .any(|other| other.message.as_str() == fix.message.as_str())
}
