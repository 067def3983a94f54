//! Earlier words that a fault is about, too.
ghost use Rattle.std.specs.Prelude.{◌≡◌, ◌≤◌, ◌++◌, IfOk, IfSome, IsTrue};
ghost use Rattle.std.specs.Option.{option_to_list};
ghost use Rattle.lrpar_report_bison.specs.BisonPlaces.{AreWithEarlier};
ghost use Rattle.lrpar_report_lines.specs.Labels.{label_spans};
ghost use Rattle.lrpar_report_lines.specs.declared.levels.Level.TheVariants.{Error};

use crate::names::rules_of;
use crate::words::{about_word, part};
use lrpar_grammar_bison::words::Word;
use lrpar_grammar_bison_rules::rules::RankedWord;
use lrpar_grammar_places::span::Span;
use lrpar_report_lines::Report;
use std::alloc::{AllocError, Global};

/// The report of a token that is in two levels of precedence, with the first of them.
pub(crate) fn repeated_level(alloc: Global, text: &str, span: Span) -> Result<Report, AllocError>
    ensures level { IfOk result (λ report. report.level ≡ Error) }
    ensures spans { IfOk result (λ report. AreWithEarlier span (label_spans report)) }
{
    let earlier = earlier_level(alloc, text, span)?;
    let label = "a token can be in one level; leave this one out";
    let report = about_word(alloc, text, span, "token ", " has two precedences", label)?;
    with_earlier(report, earlier, "it is in a level here")
}

/// The report of a rule that has the name of a token, with the place where the token is declared.
pub(crate) fn token_is_rule(alloc: Global, text: &str, span: Span) -> Result<Report, AllocError>
    ensures level { IfOk result (λ report. report.level ≡ Error) }
    ensures spans { IfOk result (λ report. AreWithEarlier span (label_spans report)) }
{
    let earlier = earlier_token(alloc, text, span)?;
    let label = if earlier.is_none() && part(text, span) == "YYEOF" {
        "this is the token of the end, also without a declaration"
    } else {
        "a name is a token if it is in %token, %left and the like, or %prec"
    };
    let what = " has the name of a token";
    let report = about_word(alloc, text, span, "rule ", what, label)?;
    with_earlier(report, earlier, "it is declared here")
}

// The report with one more label, at the earlier word, if there is one.
fn with_earlier(report: Report, earlier: Option<Span>, label: &str) -> Result<Report, AllocError>
    ensures level { IfOk result (λ labelled. labelled.level ≡ report.level) }
    ensures spans { IfOk result (λ labelled. label_spans labelled ≡ label_spans report ++ option_to_list earlier) }
{
    match earlier {
        Some(span) => report.label(span, label),
        None => Ok(report),
    }
}

// The place where the token at the place is in a level of precedence before.
fn earlier_level(alloc: Global, text: &str, span: Span) -> Result<Option<Span>, AllocError>
    ensures { IfOk result (λ place. IfSome place (λ earlier. earlier.end ≤ span.start)) }
{
    match rules_of(alloc, text)? {
        Some(rules) => {
            let name = ranked_name(&rules.ranked, text, span);
            Ok(ranked_before(&rules.ranked, name, span))
        }
        None => Ok(None),
    }
}

// The name of the token of a level at the place, which may be spelled in another way there.
fn ranked_name<'a>(words: &[RankedWord<'a>], text: &'a str, span: Span) -> &'a str {
    for ranked in words {
        if ranked.word.span() == span {
            return ranked.word.name;
        }
    }
    part(text, span)
}

// The place where the token at the place is declared before.
fn earlier_token(alloc: Global, text: &str, span: Span) -> Result<Option<Span>, AllocError>
    ensures { IfOk result (λ place. IfSome place (λ earlier. earlier.end ≤ span.start)) }
{
    let Some(rules) = rules_of(alloc, text)? else {
        return Ok(None);
    };
    match word_before(&rules.tokens, part(text, span), span) {
        Some(earlier) => Ok(Some(earlier)),
        None => Ok(ranked_before(&rules.ranked, part(text, span), span)),
    }
}

// The place of the first word with the name that ends before the place.
fn word_before(words: &[Word], name: &str, span: Span) -> Option<Span>
    ensures { IfSome result (λ earlier. earlier.end ≤ span.start) }
{
    for word in words {
        if is_before(word, name, span) {
            return Some(word.span());
        }
    }
    None
}

// The place of the first token of a level with the name that ends before the place.
fn ranked_before(words: &[RankedWord], name: &str, span: Span) -> Option<Span>
    ensures { IfSome result (λ earlier. earlier.end ≤ span.start) }
{
    for ranked in words {
        if is_before(&ranked.word, name, span) {
            return Some(ranked.word.span());
        }
    }
    None
}

// Whether the word has the name, and ends before the place.
fn is_before(word: &Word, name: &str, span: Span) -> bool
    ensures { IsTrue result → (word.now).end ≤ span.start }
{
    word.name == name && word.end <= span.start()
}
