//! Warnings of rules and tokens that are of no use.
use crate::choices::{push_quoted, push_token};
use lrpar_grammar::grammar::YaccGrammar;
use lrpar_grammar::span::{RIdx, Span, StorageIndex, TIdx};
use lrpar_lexer::LexRule;
use lrpar_report_lines::Report;
use lrpar_table_sentences::reachable::Reachable;
use lrpar_table_sentences::shortest::Shortest;
use std::alloc::{AllocError, Global};

/// A warning for each rule that isn't reachable, and for each other one that isn't productive, in the order of the rules.
///
/// Takes the time of [`Reachable::new`] and [`Shortest::new`]. `Err`: out of memory.
pub fn rule_warnings<StorageT: StorageIndex>(
    alloc: Global,
    grm: &YaccGrammar<StorageT>,
) -> Result<Vec<Report>, AllocError> {
    rule_warnings_but(alloc, grm, &[])
}

/// The warnings of rules that are of no use, but not of a rule that isn't reachable and has one of these names, as those after `%expect-unused`.
///
/// Takes the time of [`rule_warnings`], and that of a comparison with each name for each rule that isn't reachable. `Err`: out of memory.
pub fn rule_warnings_but<StorageT: StorageIndex>(
    alloc: Global,
    grm: &YaccGrammar<StorageT>,
    names: &[&str],
) -> Result<Vec<Report>, AllocError> {
    let reached = Reachable::new(alloc, grm)?;
    let shortest = Shortest::new(alloc, grm)?;
    let mut reports = Vec::new(alloc);
    for rule in grm.iter_rules() {
        if !reached.is_reachable(rule) {
            if !has_name(grm, rule, names) {
                push_unreachable(&mut reports, alloc, grm, rule)?;
            }
        } else if !shortest.derives_text(rule) {
            push_unproductive(&mut reports, alloc, grm, rule)?;
        }
    }
    Ok(reports)
}

// Whether the rule has one of these names.
fn has_name<StorageT: StorageIndex>(
    grm: &YaccGrammar<StorageT>,
    rule: RIdx<StorageT>,
    names: &[&str],
) -> bool {
    if usize::from(rule) >= grm.rules_len() {
        return false;
    }
    let own = grm.rule_name_str(rule);
    names.iter().any(|name| *name == own)
}

// Adds the warning of a rule that isn't reachable.
fn push_unreachable<StorageT: StorageIndex>(
    reports: &mut Vec<Report>,
    alloc: Global,
    grm: &YaccGrammar<StorageT>,
    rule: RIdx<StorageT>,
) -> Result<(), AllocError> {
    let what = " isn't reached from the start rule";
    push_rule(reports, alloc, grm, rule, what, "nothing comes of it")
}

// Adds the warning of a rule that isn't productive.
fn push_unproductive<StorageT: StorageIndex>(
    reports: &mut Vec<Report>,
    alloc: Global,
    grm: &YaccGrammar<StorageT>,
    rule: RIdx<StorageT>,
) -> Result<(), AllocError> {
    let label = "each of its productions needs a rule that derives none";
    push_rule(reports, alloc, grm, rule, " derives no text", label)
}

// Adds a warning about a rule, if it is one of the grammar.
fn push_rule<StorageT: StorageIndex>(
    reports: &mut Vec<Report>,
    alloc: Global,
    grm: &YaccGrammar<StorageT>,
    rule: RIdx<StorageT>,
    what: &str,
    label: &str,
) -> Result<(), AllocError> {
    if usize::from(rule) >= grm.rules_len() {
        return Ok(());
    }
    let mut message = String::from_str(alloc, "rule ")?;
    push_quoted(&mut message, grm.rule_name_str(rule))?;
    message.push_str(what)?;
    push_warning(
        reports,
        alloc,
        message.as_str(),
        Some(grm.rule_name_span(rule)),
        label,
    )
}

// Adds a warning, with a label if it has a place.
fn push_warning(
    reports: &mut Vec<Report>,
    alloc: Global,
    message: &str,
    place: Option<Span>,
    label: &str,
) -> Result<(), AllocError> {
    let report = Report::warning(alloc, message)?;
    let report = match place {
        Some(span) => report.label(span, label)?,
        None => report,
    };
    reports.push(report)?;
    Ok(())
}

/// A warning for each token of the grammar that no rule of the lexer gives, in the order of the tokens.
///
/// Takes time linear in the tokens, the rules and the reports. `Err`: out of memory.
pub fn token_warnings(
    alloc: Global,
    grm: &YaccGrammar<u32>,
    rules: &[LexRule],
) -> Result<Vec<Report>, AllocError> {
    let given = given_tokens(alloc, grm, rules)?;
    let mut reports = Vec::new(alloc);
    for token in grm.iter_tidxs() {
        if let Some(false) = given.get(usize::from(token)) {
            push_never_given(&mut reports, alloc, grm, token)?;
        }
    }
    Ok(reports)
}

// For each token of the grammar but the end token, whether a rule of the lexer gives it.
fn given_tokens(
    alloc: Global,
    grm: &YaccGrammar<u32>,
    rules: &[LexRule],
) -> Result<Vec<bool>, AllocError> {
    let mut given = vec![in alloc; false; grm.tokens_len().saturating_sub(1)]?;
    for rule in rules {
        if let Some(token) = rule.token() {
            if let Some(mark) = given.get_mut(usize::from(token)) {
                *mark = true;
            }
        }
    }
    Ok(given)
}

// Adds the warning of a token that no rule gives.
fn push_never_given(
    reports: &mut Vec<Report>,
    alloc: Global,
    grm: &YaccGrammar<u32>,
    token: TIdx<u32>,
) -> Result<(), AllocError> {
    if usize::from(token) >= grm.tokens_len() {
        return Ok(());
    }
    let mut message = String::from_str(alloc, "the lexer never gives ")?;
    push_token(&mut message, grm, token)?;
    let label = "no rule of the lexer names this token";
    push_warning(
        reports,
        alloc,
        message.as_str(),
        grm.token_span(token),
        label,
    )
}
