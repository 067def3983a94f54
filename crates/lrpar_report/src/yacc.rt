//! Reports of faults in `.y` files.
ghost use Rattle.std.specs.Prelude.{◌≡◌, ℕ, List, IfOk, IfSome, string_bytes};
ghost use Rattle.lrpar_grammar_yacc.specs.Erasure.{erasure};
ghost use Rattle.lrpar_report.specs.FaultPlaces.{AreDeclaredSpans, AreGrammarSpans, AreYaccSpans, IsStartOf};
ghost use Rattle.lrpar_report_lines.specs.Labels.{HasOneLabel, label_spans};
ghost use Rattle.lrpar_report_lines.specs.declared.levels.Level.TheVariants.{Error};

use crate::grammar::{grammar_report, named, outline_of, part, push_names};
use crate::near::push_nearest;
use lrpar_grammar::grammar::GrammarFault;
use lrpar_grammar::span::Span;
use lrpar_grammar_words::word_order::Expected;
use lrpar_grammar_words::words::{Word, WordKind};
use lrpar_grammar_yacc::faults::{YaccFault, YaccText};
use lrpar_grammar_yacc::file::YaccFileFault;
use lrpar_grammar_yacc::parts::{YaccKind, part_at};
use lrpar_report_lines::Report;
use std::alloc::{AllocError, Global};

// What would be right in place of a name that is no token.
const NO_TOKEN: &str = "a token is in quotes in a rule, or declared by %token";

/// The report of the fault in a `.y` file that is read as one of this kind: what is wrong and where, and what would be right there. A fault
/// of the grammar text that is left of the file has the report that `grammar_report` makes of it, unless a part of the file isn't closed.
/// `text` should be the text that has the fault; else the places in the report mean nothing.
///
/// Takes time linear in the text, and in its names times the length of the one in question. `Err`: out of memory, also if that is the
/// fault.
pub fn yacc_report(
    alloc: Global,
    kind: YaccKind,
    text: &str,
    fault: &YaccFileFault,
) -> Result<Report, AllocError>
    ensures level { IfOk result (λ report. report.level ≡ Error) }
    ensures spans { IfOk result (λ report. AreYaccSpans kind text.now fault.now (label_spans report)) }
{
    match fault {
        YaccFileFault::Declared(fault) => declared_report(alloc, text, fault),
        YaccFileFault::Text(fault) => text_report(alloc, kind, text, fault),
        YaccFileFault::UnknownToken(span) => unknown_token(alloc, kind, text, *span),
        YaccFileFault::Memory => Err(AllocError),
    }
}

// The report of a fault of what a grammar text doesn't have.
fn declared_report(alloc: Global, text: &str, fault: &YaccFault) -> Result<Report, AllocError>
    ensures level { IfOk result (λ report. report.level ≡ Error) }
    ensures spans { IfOk result (λ report. AreDeclaredSpans fault.now (label_spans report)) }
{
    match fault {
        YaccFault::RepeatedPrec(span) => {
            let label = "there can be one %prec; leave this one out";
            let what = "is the second of its production";
            named(alloc, text, *span, "%prec", what, label)
        }
        YaccFault::RepeatedPrecedence(span) => {
            let label = "an earlier %left, %right or %nonassoc has it, too";
            named(alloc, text, *span, "name", "has two precedences", label)
        }
        YaccFault::MidRuleAction(span) => {
            let label = "it can be at the end, or in a rule of its own that has no symbols";
            let start = start_of(*span);
            Report::error(alloc, "action before the end of its production")?.label(start, label)
        }
        YaccFault::BadNumber(span) => bad_number(alloc, text, *span),
        YaccFault::Memory => Err(AllocError),
    }
}

// The first byte of a part, if it has one.
fn start_of(span: Span) -> Span
    ensures { IsStartOf span result }
{
    let end = span.start().saturating_add(1).min(span.end());
    Span::new(span.start(), end)
}

// The report of a number of conflicts that is none.
fn bad_number(alloc: Global, text: &str, span: Span) -> Result<Report, AllocError>
    ensures level { IfOk result (λ report. report.level ≡ Error) }
    ensures span { IfOk result (HasOneLabel span) }
{
    if span.is_empty() {
        let label = "expected the number of conflicts";
        Report::error(alloc, "%expect without a number")?.label(span, label)
    } else {
        let label = "no grammar has as many conflicts";
        named(alloc, text, span, "number", "is too large", label)
    }
}

// The report of a fault in the grammar text that is left of the file.
fn text_report(
    alloc: Global,
    kind: YaccKind,
    text: &str,
    fault: &GrammarFault,
) -> Result<Report, AllocError>
    ensures level { IfOk result (λ report. report.level ≡ Error) }
    ensures spans { IfOk result (λ report. AreGrammarSpans (erasure kind text.now) fault.now (label_spans report)) }
{
    if let Some(what) = broken_part(kind, text, fault) {
        return unread(alloc, fault, what);
    }
    match read(alloc, kind, text)? {
        Some(read) => grammar_report(alloc, read.erased.as_str(), fault),
        None => unread(alloc, fault, "fault of another text"),
    }
}

// The file without its fault, if it has none before its grammar text is read.
fn read(alloc: Global, kind: YaccKind, text: &str) -> Result<Option<YaccText<'_>>, AllocError>
    ensures { IfOk result (λ found. IfSome found (λ y. string_bytes y.erased ≡ erasure kind text.now)) }
{
    match YaccText::read(alloc, kind, text) {
        Ok(read) => Ok(Some(read)),
        Err(YaccFault::Memory) => Err(AllocError),
        Err(_) => Ok(None),
    }
}

// A report with this message, at the place of the fault.
fn unread(alloc: Global, fault: &GrammarFault, message: &str) -> Result<Report, AllocError>
    ensures level { IfOk result (λ report. report.level ≡ Error) }
    ensures spans { (text : List ℕ) → IfOk result (λ report. AreGrammarSpans text fault.now (label_spans report)) }
{
    let report = Report::error(alloc, message)?;
    match fault {
        GrammarFault::Syntax(at) => report.label(Span::new(*at, at.saturating_add(1)), ""),
        GrammarFault::UnknownRule(span)
        | GrammarFault::UnknownToken(span)
        | GrammarFault::TokenIsRule(span)
        | GrammarFault::RepeatedStart(span)
        | GrammarFault::RepeatedEpp(span) => report.label(*span, ""),
        GrammarFault::NoRules
        | GrammarFault::StorageTooSmall
        | GrammarFault::BadSymbol
        | GrammarFault::BadStart
        | GrammarFault::Memory => Ok(report),
    }
}

// What is wrong with the part of a `.y` file at which the text can't be read on, if one begins there and isn't whole.
fn broken_part(kind: YaccKind, text: &str, fault: &GrammarFault) -> Option<&'static str> {
    let GrammarFault::Syntax(at) = fault else {
        return None;
    };
    let rest = text.get(*at..)?;
    if rest.starts_with('{') {
        let what = "action without its '}', or with a quote or a comment that isn't closed";
        return unless_whole(kind, Expected::NextSymbol, rest, what);
    }
    if rest.starts_with("%prec") {
        let what = "%prec without the name of a token";
        return unless_whole(kind, Expected::NextSymbol, rest, what);
    }
    if rest.starts_with("%grmtools") {
        let what = "%grmtools without its '{' and '}'";
        return unless_whole(kind, Expected::Declaration, rest, what);
    }
    if !rest.starts_with("->") {
        return None;
    }
    match kind {
        YaccKind::Grmtools => {
            let what = "type of a rule without the ':' after it";
            unless_whole(kind, Expected::RuleColon, rest, what)
        }
        YaccKind::Original => Some("rules have types only in files of the kind Grmtools"),
    }
}

// What is wrong, unless a whole part begins there.
fn unless_whole(
    kind: YaccKind,
    expected: Expected,
    rest: &str,
    what: &'static str,
) -> Option<&'static str> {
    match part_at(kind, expected, rest.as_bytes()) {
        Some(_) => None,
        None => Some(what),
    }
}

// The report of a name after `%prec` or `%avoid_insert` that is no token.
fn unknown_token(
    alloc: Global,
    kind: YaccKind,
    text: &str,
    span: Span,
) -> Result<Report, AllocError>
    ensures level { IfOk result (λ report. report.level ≡ Error) }
    ensures span { IfOk result (HasOneLabel span) }
{
    let mut label = String::new(alloc);
    push_token_label(&mut label, alloc, kind, text, part(text, span))?;
    named(alloc, text, span, "name", "is no token", label.as_str())
}

// Adds the token of the file that somebody may have meant by this name, or what would be right.
fn push_token_label(
    label: &mut String,
    alloc: Global,
    kind: YaccKind,
    text: &str,
    name: &str,
) -> Result<(), AllocError> {
    match read(alloc, kind, text)? {
        Some(read) => push_near_token(label, alloc, name, &read),
        None => label.push_str(NO_TOKEN),
    }
}

// Adds the name of a token or of a level that somebody may have meant, or what would be right.
fn push_near_token(
    label: &mut String,
    alloc: Global,
    name: &str,
    read: &YaccText<'_>,
) -> Result<(), AllocError> {
    let Some(outline) = outline_of(alloc, read.erased.as_str())? else {
        return label.push_str(NO_TOKEN);
    };
    let mut names = Vec::new(alloc);
    for level in &read.declarations.levels {
        push_names(&mut names, &level.names)?;
    }
    push_names(&mut names, &outline.declared)?;
    for alternative in &outline.alternatives {
        push_quoted_names(&mut names, &alternative.symbols)?;
    }
    push_nearest(label, name, &names, NO_TOKEN)
}

// Adds the names of those words that are in quotes.
fn push_quoted_names<'a>(names: &mut Vec<&'a str>, words: &[Word<'a>]) -> Result<(), AllocError> {
    for word in words {
        if matches!(word.kind, WordKind::Quoted) {
            names.push(word.name)?;
        }
    }
    Ok(())
}
