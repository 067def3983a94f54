//! Reports of faults in grammar texts.
ghost use Rattle.std.specs.Prelude.{◌≡◌, IfOk};
ghost use Rattle.lrpar_report.specs.FaultPlaces.{AreGrammarSpans, IsOne, StartsAt};
ghost use Rattle.lrpar_report_lines.specs.Labels.{HasOneLabel, label_spans};
ghost use Rattle.lrpar_report_lines.specs.declared.levels.Level.TheVariants.{Error};

use crate::choices::{push_all, push_quoted};
use crate::near::push_nearest;
use crate::shape::push_expected;
use lrpar_grammar::grammar::GrammarFault;
use lrpar_grammar::span::Span;
use lrpar_grammar_words::outline::{Outline, OutlineFault};
use lrpar_grammar_words::words::Word;
use lrpar_report_lines::Report;
use std::alloc::{AllocError, Global};

/// The report of the fault in a grammar text: what is wrong and where, with the name in question, and what would be right there: what
/// may come at that place, or a rule or token with a similar name. `text` should be the text that has the fault; else the places in the
/// report mean nothing.
///
/// Takes time linear in the text, and in its names times the length of the one in question. `Err`: out of memory, also if that is the
/// fault.
pub fn grammar_report(alloc: Global, text: &str, fault: &GrammarFault) -> Result<Report, AllocError>
    ensures level { IfOk result (λ report. report.level ≡ Error) }
    ensures spans { IfOk result (λ report. AreGrammarSpans text.now fault.now (label_spans report)) }
{
    match fault {
        GrammarFault::Syntax(at) => syntax_report(alloc, text, *at),
        GrammarFault::UnknownRule(span) => unknown_rule(alloc, text, *span),
        GrammarFault::UnknownToken(span) => unknown_token(alloc, text, *span),
        GrammarFault::TokenIsRule(span) => {
            let label = "%token declares this name, so no rule can have it";
            named(alloc, text, *span, "rule", "has the name of a token", label)
        }
        GrammarFault::RepeatedStart(span) => {
            let label = "there can be one %start; leave this one out";
            named(alloc, text, *span, "start rule", "is a second one", label)
        }
        GrammarFault::RepeatedEpp(span) => {
            let label = "this token has a printed text already";
            named(alloc, text, *span, "token", "has a second %epp", label)
        }
        GrammarFault::NoRules => Report::error(alloc, "no rules: a grammar needs one after its %%"),
        GrammarFault::StorageTooSmall => Report::error(
            alloc,
            "more rules, tokens or productions than can be numbered",
        ),
        GrammarFault::BadSymbol | GrammarFault::BadStart => Report::error(
            alloc,
            "parts that don't fit one another",
        ),
        GrammarFault::Memory => Err(AllocError),
    }
}

/// A report about a name: `KIND 'NAME' WHAT`.
pub(crate) fn named(
    alloc: Global,
    text: &str,
    span: Span,
    kind: &str,
    what: &str,
    label: &str,
) -> Result<Report, AllocError>
    ensures level { IfOk result (λ report. report.level ≡ Error) }
    ensures span { IfOk result (HasOneLabel span) }
{
    let mut message = String::new(alloc);
    push_subject(&mut message, kind, part(text, span), what)?;
    Report::error(alloc, message.as_str())?.label(span, label)
}

// Adds `KIND 'NAME' WHAT`.
fn push_subject(out: &mut String, kind: &str, name: &str, what: &str) -> Result<(), AllocError> {
    push_all(out, &[kind, " "])?;
    push_quoted(out, name)?;
    push_all(out, &[" ", what])
}

/// The part of the text at this place, or an empty one if the text has no such place.
pub(crate) fn part(text: &str, span: Span) -> &str {
    text.get(span.start()..span.end()).unwrap_or("")
}

// The report of a name that is neither a rule nor a declared token.
fn unknown_rule(alloc: Global, text: &str, span: Span) -> Result<Report, AllocError>
    ensures level { IfOk result (λ report. report.level ≡ Error) }
    ensures span { IfOk result (HasOneLabel span) }
{
    let mut label = String::new(alloc);
    push_near_symbol(&mut label, alloc, text, part(text, span))?;
    let what = "is neither a rule nor declared by %token";
    named(alloc, text, span, "name", what, label.as_str())
}

// The report of a name after `%epp` that is no token.
fn unknown_token(alloc: Global, text: &str, span: Span) -> Result<Report, AllocError>
    ensures level { IfOk result (λ report. report.level ≡ Error) }
    ensures span { IfOk result (HasOneLabel span) }
{
    let mut label = String::new(alloc);
    push_near_token(&mut label, alloc, text, part(text, span))?;
    named(alloc, text, span, "name", "is no token", label.as_str())
}

// Adds the rule or token of the text that somebody may have meant by this name, or what would be right.
fn push_near_symbol(
    label: &mut String,
    alloc: Global,
    text: &str,
    name: &str,
) -> Result<(), AllocError> {
    let otherwise = "define it, declare it by %token, or put it in quotes";
    let Some(outline) = outline_of(alloc, text)? else {
        return label.push_str(otherwise);
    };
    let mut names = Vec::new(alloc);
    push_names(&mut names, &outline.defined)?;
    push_names(&mut names, &outline.declared)?;
    push_nearest(label, name, &names, otherwise)
}

// Adds the token of the text that somebody may have meant by this name, or what would be right.
fn push_near_token(
    label: &mut String,
    alloc: Global,
    text: &str,
    name: &str,
) -> Result<(), AllocError> {
    let otherwise = "no rule uses it, and no %token declares it";
    let Some(outline) = outline_of(alloc, text)? else {
        return label.push_str(otherwise);
    };
    let mut names = Vec::new(alloc);
    push_names(&mut names, &outline.declared)?;
    push_nearest(label, name, &names, otherwise)
}

/// The declarations and rules of the text, if it has that shape.
pub(crate) fn outline_of(alloc: Global, text: &str) -> Result<Option<Outline<'_>>, AllocError> {
    match Outline::read(alloc, text) {
        Ok(outline) => Ok(Some(outline)),
        Err(OutlineFault::Memory) => Err(AllocError),
        Err(_) => Ok(None),
    }
}

/// Adds the names of these words.
pub(crate) fn push_names<'a>(
    names: &mut Vec<&'a str>,
    words: &[Word<'a>],
) -> Result<(), AllocError> {
    for word in words {
        names.push(word.name)?;
    }
    Ok(())
}

// The report of a text that isn't a grammar's from byte `at` on.
fn syntax_report(alloc: Global, text: &str, at: usize) -> Result<Report, AllocError>
    ensures level { IfOk result (λ report. report.level ≡ Error) }
    ensures span { IfOk result (λ report. IsOne (StartsAt text.now at) (label_spans report)) }
{
    let (front, rest) = text.split_at_checked(at).unwrap_or((text, ""));
    let what = unclosed(rest);
    let word = match what {
        Some(_) => rest.get(..1).unwrap_or(""),
        None => first_word(rest),
    };
    let mut message = String::new(alloc);
    push_syntax(&mut message, alloc, front, word, what)?;
    let span = Span::new(front.len(), front.len().saturating_add(word.len()));
    Report::error(alloc, message.as_str())?.label(span, "")
}

// Adds what is wrong with what isn't closed, or that the word after `front` is unexpected, and what may come there.
fn push_syntax(
    out: &mut String,
    alloc: Global,
    front: &str,
    word: &str,
    what: Option<&str>,
) -> Result<(), AllocError> {
    match what {
        Some(what) => out.push_str(what),
        None => {
            push_unexpected(out, word)?;
            push_expected(out, alloc, front)
        }
    }
}

// What is wrong with the comment or quote with which the text begins, if it isn't closed.
fn unclosed(text: &str) -> Option<&'static str> {
    if text.starts_with("/*") {
        Some("comment without its `*/`")
    } else if text.starts_with(['\'', '"']) && quoted_len(text).is_none() {
        Some("quote that isn't closed on its line, or has nothing in it")
    } else {
        None
    }
}

// Adds the word that is unexpected, or that it is the end if there is none.
fn push_unexpected(message: &mut String, word: &str) -> Result<(), AllocError> {
    message.push_str("unexpected ")?;
    if word.is_empty() {
        message.push_str("end of the grammar")
    } else {
        push_quoted(message, word)
    }
}

// How many bytes the name in quotes has that the text begins with, with its quotes.
fn quoted_len(text: &str) -> Option<usize> {
    let quote = text.chars().next()?;
    let (_, after) = text.split_once(quote)?;
    let (name, _) = after.split_once(quote)?;
    if name.is_empty() || name.contains('\n') {
        None
    } else {
        Some(name.len().saturating_add(2))
    }
}

// The word with which the text begins: a name in quotes, letters and digits, or one character.
fn first_word(text: &str) -> &str {
    let len = match text.chars().next() {
        Some('\'' | '"') => quoted_len(text).unwrap_or(1),
        Some(c) if is_in_name(c) => text.find(|c| !is_in_name(c)).unwrap_or(text.len()),
        Some('%') => sign_len(text),
        Some(c) => c.len_utf8(),
        None => 0,
    };
    text.get(..len).unwrap_or(text)
}

// Whether the character may be part of a name.
fn is_in_name(c: char) -> bool {
    c.is_ascii_alphanumeric() || c == '_' || c == '.'
}

// How many bytes the sign has that the text begins with.
fn sign_len(text: &str) -> usize {
    if text.starts_with("%%") {
        return 2;
    }
    let after = text.get(1..).unwrap_or("");
    after
        .find(|c| !is_in_name(c))
        .unwrap_or(after.len())
        .saturating_add(1)
}
