//! Reports of words that aren't allowed where they are, and of files that end too early.
ghost use Rattle.std.specs.Prelude.{◌≡◌, ◌<◌, IfOk};
ghost use Rattle.lrpar_report.specs.FaultPlaces.{IsOne};
ghost use Rattle.lrpar_report_bison.specs.BisonPlaces.{IsFrontOf, end_of};
ghost use Rattle.lrpar_report_lines.specs.Labels.{HasOneLabel, label_spans};
ghost use Rattle.lrpar_report_lines.specs.declared.levels.Level.TheVariants.{Error};

use crate::directives::{directive_of, unknown_directive};
use crate::expected::{begins_rules, expected_text, is_in_rules, lacks_sections};
use crate::words::{about_word, labelled, part};
use lrpar_grammar_bison::words::{WordKind, piece_at};
use lrpar_grammar_bison_rules::signs::Sign;
use lrpar_grammar_bison_rules::word_order::Expected;
use lrpar_grammar_places::span::Span;
use lrpar_report_lines::Report;
use std::alloc::{AllocError, Global};

/// The report of the word at a place where this is expected.
pub(crate) fn unexpected_report(
    alloc: Global,
    text: &str,
    span: Span,
    expected: Expected,
) -> Result<Report, AllocError>
    ensures level { IfOk result (λ report. report.level ≡ Error) }
    ensures span { IfOk result (λ report. IsOne (IsFrontOf span) (label_spans report)) }
{
    let word = part(text, span);
    match kind_of(word) {
        Some(WordKind::Directive) if directive_of(word).is_none() => {
            unknown_directive(alloc, text, span)
        }
        Some(WordKind::Name) if begins_rules(expected) => {
            let label = "expected ':' after the name of a rule";
            about_word(alloc, text, span, "rule ", " without a ':'", label)
        }
        Some(WordKind::Name) if lacks_sections(expected) && is_before_colon(text, span) => {
            let label = "rules come after %%";
            about_word(alloc, text, span, "rule ", " before %%", label)
        }
        Some(kind) => unexpected_kind(alloc, text, span, kind, expected),
        None => about_word(
            alloc,
            text,
            span,
            "unexpected ",
            "",
            expected_text(expected),
        ),
    }
}

// The kind of the word.
fn kind_of(word: &str) -> Option<WordKind> {
    piece_at(word.as_bytes())?.word
}

// Whether a `:` comes after the place.
fn is_before_colon(text: &str, span: Span) -> bool {
    let after = text.get(span.end()..).unwrap_or("");
    after.trim_start().starts_with(':')
}

// The report of the word of this kind at a place where this is expected. Of code the opening sign is shown, since it may have many lines.
fn unexpected_kind(
    alloc: Global,
    text: &str,
    span: Span,
    kind: WordKind,
    expected: Expected,
) -> Result<Report, AllocError>
    ensures level { IfOk result (λ report. report.level ≡ Error) }
    ensures span { IfOk result (λ report. IsOne (IsFrontOf span) (label_spans report)) }
{
    let label = if is_in_rules(expected) && is_declaration(kind, part(text, span)) {
        "it has to be before the first %%"
    } else {
        expected_text(expected)
    };
    match kind {
        WordKind::Code => labelled(alloc, "unexpected code", front(span, 1), label),
        WordKind::Prologue => labelled(alloc, "unexpected prologue", front(span, 2), label),
        WordKind::Predicate => labelled(alloc, "unexpected predicate", front(span, 2), label),
        _ => about_word(alloc, text, span, "unexpected ", "", label),
    }
}

// The first bytes of a word, or all if it has no more.
fn front(span: Span, len: usize) -> Span
    requires { 0 < len }
    ensures { IsFrontOf span result }
{
    let end = span.start().saturating_add(len).min(span.end());
    Span::new(span.start(), end)
}

// Whether the word of this kind begins a declaration.
fn is_declaration(kind: WordKind, word: &str) -> bool {
    match kind {
        WordKind::Prologue => true,
        WordKind::Directive => directive_of(word).is_some_and(|directive| {
            Expected::Declaration
                .after(Sign::Directive(directive))
                .is_some()
        }),
        _ => false,
    }
}

/// The report of a file that ends where this is expected.
pub(crate) fn early_end(alloc: Global, text: &str, expected: Expected) -> Result<Report, AllocError>
    ensures level { IfOk result (λ report. report.level ≡ Error) }
    ensures span { IfOk result (HasOneLabel (end_of text.now)) }
{
    let message = if lacks_sections(expected) {
        "no %% before the end of the file"
    } else {
        "unexpected end of the file"
    };
    let end = Span::new(text.len(), text.len());
    labelled(alloc, message, end, expected_text(expected))
}
