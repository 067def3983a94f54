//! Warnings of rules and tokens that are of no use.
use crate::declared::Declared;
use lrpar_grammar::grammar::YaccGrammar;
use lrpar_grammar::span::{PIdx, Span, Symbol, TIdx};
use lrpar_report::{Report, push_quoted, rule_warnings_but};
use lrpar_table_sentences::reachable::Reachable;
use std::alloc::{AllocError, Global};

/// Warnings of rules that are of no use, and if the grammar is looked at, of declared tokens that no reachable rule uses; but not of those
/// that the file says are unused. A token that a production has its precedence from is used.
pub(crate) fn useless_reports(
    alloc: Global,
    grm: &YaccGrammar<u32>,
    declared: &Declared<'_>,
    is_looked_at: bool,
) -> Result<Vec<Report>, AllocError> {
    let mut reports = rule_warnings_but(alloc, grm, &declared.unused)?;
    if is_looked_at {
        push_unused_tokens(&mut reports, alloc, grm, declared)?;
    }
    Ok(reports)
}

// Adds a warning for each declared token that no reachable rule uses, but for those that may be unused or that have a precedence for a
// production.
fn push_unused_tokens(
    reports: &mut Vec<Report>,
    alloc: Global,
    grm: &YaccGrammar<u32>,
    declared: &Declared<'_>,
) -> Result<(), AllocError> {
    let marks = token_marks(alloc, grm)?;
    for token in grm.iter_tidxs() {
        if let Some(false) = marks.get(usize::from(token)) {
            push_unused_token(reports, alloc, grm, token, declared)?;
        }
    }
    Ok(())
}

// For each token but the end token, whether a reachable rule uses it, or nothing declares it.
fn token_marks(alloc: Global, grm: &YaccGrammar<u32>) -> Result<Vec<bool>, AllocError> {
    let reached = Reachable::new(alloc, grm)?;
    let mut marks = vec![in alloc; false; grm.tokens_len().saturating_sub(1)]?;
    for prod in grm.iter_pidxs() {
        mark_tokens_of(&mut marks, grm, &reached, prod);
    }
    Ok(marks)
}

// Marks the tokens of a production: all, if its rule is reachable, and otherwise those that it names first, which nothing declares.
fn mark_tokens_of(
    marks: &mut [bool],
    grm: &YaccGrammar<u32>,
    reached: &Reachable,
    prod: PIdx<u32>,
) {
    if usize::from(prod) >= grm.prods_len() {
        return;
    }
    let is_reachable = reached.is_reachable(grm.prod_to_rule(prod));
    for (symbol, place) in grm.prod(prod).iter().zip(grm.symbol_spans(prod)) {
        if let Symbol::Token(token) = symbol {
            if is_reachable || is_first_at(grm, *token, *place) {
                mark_token(marks, *token);
            }
        }
    }
}

// Whether the token is declared or used first at this place.
fn is_first_at(grm: &YaccGrammar<u32>, token: TIdx<u32>, place: Span) -> bool {
    usize::from(token) < grm.tokens_len() && grm.token_span(token) == Some(place)
}

// Marks the token, if it isn't the end token.
fn mark_token(marks: &mut [bool], token: TIdx<u32>) {
    if let Some(mark) = marks.get_mut(usize::from(token)) {
        *mark = true;
    }
}

// Adds the warning of a token that isn't used, unless it may be unused or has a precedence for a production.
fn push_unused_token(
    reports: &mut Vec<Report>,
    alloc: Global,
    grm: &YaccGrammar<u32>,
    token: TIdx<u32>,
    declared: &Declared<'_>,
) -> Result<(), AllocError> {
    if usize::from(token) >= grm.tokens_len() {
        return Ok(());
    }
    let (Some(name), Some(place)) = (grm.token_name(token), grm.token_span(token)) else {
        return Ok(());
    };
    if is_among(name, &declared.unused) || is_among(name, &declared.prec_names) {
        return Ok(());
    }
    let mut message = String::from_str(alloc, "token ")?;
    push_quoted(&mut message, name)?;
    message.push_str(" isn't used")?;
    let label = "no rule that is reached from the start rule has it";
    let report = Report::warning(alloc, message.as_str())?.label(place, label)?;
    reports.push(report)?;
    Ok(())
}

// Whether the name is one of these.
fn is_among(name: &str, names: &[&str]) -> bool {
    names.iter().any(|other| *other == name)
}
