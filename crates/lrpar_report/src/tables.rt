//! Reports of why a grammar has no table, or none that can be used.
ghost use Rattle.std.specs.Prelude.{◌≡◌, IfOk, IfSome};
ghost use Rattle.lrpar_report_lines.specs.declared.levels.Level.TheVariants.{Error};

use crate::choices::push_token;
use crate::conflicts::push_rule_of;
use crate::loops::{LoopKind, LoopStep, loop_of};
use lrpar_grammar::grammar::YaccGrammar;
use lrpar_grammar::span::{RIdx, Span, StorageIndex, TIdx};
use lrpar_report_lines::Report;
use lrpar_table::build::BuildFault;
use std::alloc::{AllocError, Global};

/// The report of why no table is built of a grammar: that it would have more than `max_states` states, or that the start rule derives
/// itself, with the rules by way of which it does. `grm` should be the grammar that has the fault.
///
/// In the second case it computes minimal sentences of all rules, and looks for a loop of rules. `Err`: out of memory, also if that is
/// the fault.
pub fn build_report<StorageT: StorageIndex>(
    alloc: Global,
    grm: &YaccGrammar<StorageT>,
    fault: &BuildFault,
    max_states: usize,
) -> Result<Report, AllocError>
    ensures { IfOk result (λ report. report.level ≡ Error) }
{
    match fault {
        BuildFault::Memory => Err(AllocError),
        BuildFault::TooManyStates | BuildFault::StorageTooSmall => {
            let message = format!(in alloc; "the table would have more than {max_states} states")?;
            Report::error(alloc, message.as_str())
        }
        BuildFault::AcceptReduceConflict(_) => {
            let rule = Some(grm.start_rule_idx());
            match loop_report(alloc, grm, LoopKind::DerivesItself, rule)? {
                Some(report) => Ok(report),
                None => Report::error(alloc, "the start rule derives itself"),
            }
        }
    }
}

/// The report of a chain of more than `cap` reductions, in the state and at the token of these numbers: that a rule derives itself, or
/// that there is hidden left recursion, with the rules by way of which it is; or else in which state the chain is, and at which token.
/// `grm` should be the grammar of the table.
///
/// It computes minimal sentences of all rules, and looks for a loop of rules. `Err`: out of memory.
pub fn chain_report<StorageT: StorageIndex>(
    alloc: Global,
    grm: &YaccGrammar<StorageT>,
    state: usize,
    token: usize,
    cap: u16,
) -> Result<Report, AllocError>
    ensures { IfOk result (λ report. report.level ≡ Error) }
{
    match any_loop_report(alloc, grm)? {
        Some(report) => Ok(report),
        None => plain_chain_report(alloc, grm, state, token, cap),
    }
}

// The report of a loop of rules, if there is one.
fn any_loop_report<StorageT: StorageIndex>(
    alloc: Global,
    grm: &YaccGrammar<StorageT>,
) -> Result<Option<Report>, AllocError>
    ensures { IfOk result (λ found. IfSome found (λ report. report.level ≡ Error)) }
{
    match loop_report(alloc, grm, LoopKind::DerivesItself, None)? {
        Some(report) => Ok(Some(report)),
        None => loop_report(alloc, grm, LoopKind::IsHiddenLeft, None),
    }
}

// The report of a chain of reductions without a loop of rules.
fn plain_chain_report<StorageT: StorageIndex>(
    alloc: Global,
    grm: &YaccGrammar<StorageT>,
    state: usize,
    token: usize,
    cap: u16,
) -> Result<Report, AllocError>
    ensures { IfOk result (λ report. report.level ≡ Error) }
{
    let mut message = format!(in alloc;
        "state {state} makes more than {cap} reductions in a row at "
    )?;
    push_token_of(&mut message, grm, token)?;
    Report::error(alloc, message.as_str())
}

// Adds the token of this number, as reports name it.
fn push_token_of<StorageT: StorageIndex>(
    out: &mut String,
    grm: &YaccGrammar<StorageT>,
    token: usize,
) -> Result<(), AllocError> {
    match StorageT::from_index(token) {
        Some(number) => push_token(out, grm, TIdx(number)),
        None => out.push_str("no token"),
    }
}

// The report of a loop of this kind, if there is one. If a rule is named, the loop begins with it.
fn loop_report<StorageT: StorageIndex>(
    alloc: Global,
    grm: &YaccGrammar<StorageT>,
    kind: LoopKind,
    rule: Option<RIdx<StorageT>>,
) -> Result<Option<Report>, AllocError>
    ensures { IfOk result (λ found. IfSome found (λ report. report.level ≡ Error)) }
{
    match loop_of(alloc, grm, kind, rule)? {
        Some(steps) => Ok(Some(report_of(alloc, grm, kind, &steps)?)),
        None => Ok(None),
    }
}

// The report of a loop.
fn report_of<StorageT: StorageIndex>(
    alloc: Global,
    grm: &YaccGrammar<StorageT>,
    kind: LoopKind,
    steps: &[LoopStep<StorageT>],
) -> Result<Report, AllocError>
    ensures { IfOk result (λ report. report.level ≡ Error) }
{
    let mut message = String::new(alloc);
    push_loop(&mut message, grm, kind, steps)?;
    let mut label = String::new(alloc);
    push_loop_label(&mut label, grm, kind, steps)?;
    error_at(
        alloc,
        message.as_str(),
        position_of(grm, steps),
        label.as_str(),
    )
}

// The report of an error, with a label if it has a place.
fn error_at(
    alloc: Global,
    message: &str,
    place: Option<Span>,
    label: &str,
) -> Result<Report, AllocError>
    ensures { IfOk result (λ report. report.level ≡ Error) }
{
    let report = Report::error(alloc, message)?;
    match place {
        Some(span) => report.label(span, label),
        None => Ok(report),
    }
}

// The place of the first production of a loop.
fn position_of<StorageT: StorageIndex>(
    grm: &YaccGrammar<StorageT>,
    steps: &[LoopStep<StorageT>],
) -> Option<Span> {
    match steps.first() {
        Some(first) if usize::from(first.prod) < grm.prods_len() => {
            Some(grm.prod_span(first.prod))
        }
        _ => None,
    }
}

// Adds what is wrong about a loop, with its rules.
fn push_loop<StorageT: StorageIndex>(
    out: &mut String,
    grm: &YaccGrammar<StorageT>,
    kind: LoopKind,
    steps: &[LoopStep<StorageT>],
) -> Result<(), AllocError> {
    match kind {
        LoopKind::DerivesItself => {
            out.push_str("rule ")?;
            push_loop_rules(out, grm, " derives itself", steps)?;
            out.push_str(", so that each of its texts has trees without end")
        }
        LoopKind::IsHiddenLeft => {
            out.push_str("hidden left recursion: rule ")?;
            push_loop_rules(out, grm, " begins with itself", steps)?;
            out.push_str(", after what may derive nothing")
        }
    }
}

// Adds what would be right in place of the first production of a loop.
fn push_loop_label<StorageT: StorageIndex>(
    out: &mut String,
    grm: &YaccGrammar<StorageT>,
    kind: LoopKind,
    steps: &[LoopStep<StorageT>],
) -> Result<(), AllocError> {
    match kind {
        LoopKind::DerivesItself => {
            out.push_str(if steps.len() > 1 {
                "leave out this production, or another one on the way"
            } else {
                "leave out this production"
            })
        }
        LoopKind::IsHiddenLeft => {
            out.push_str("leave out what comes before ")?;
            if let Some(next) = steps.get(1).or(steps.first()) {
                push_rule_of(out, grm, next.prod)?;
            }
            out.push_str(", or write one production with it and one without")
        }
    }
}

// Adds the first rule of a loop, what it does, and the other rules of the loop.
fn push_loop_rules<StorageT: StorageIndex>(
    out: &mut String,
    grm: &YaccGrammar<StorageT>,
    does: &str,
    steps: &[LoopStep<StorageT>],
) -> Result<(), AllocError> {
    for (place, step) in steps.iter().enumerate() {
        out.push_str(before_rule(place, steps.len()))?;
        push_rule_of(out, grm, step.prod)?;
        out.push_str(if place == 0 { does } else { "" })?;
    }
    Ok(())
}

// What comes before the rule at a place of a loop of so many rules.
fn before_rule(place: usize, rules: usize) -> &'static str {
    match place {
        0 => "",
        1 => " by way of ",
        _ if place.saturating_add(1) == rules => " and ",
        _ => ", ",
    }
}
