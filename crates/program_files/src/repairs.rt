//! Sequences of repairs as a text.
use crate::fault::Fault;
use lrpar_grammar::grammar::YaccGrammar;
use lrpar_parse_repair::repair::{FixedRecoverer, RepairStep};
use std::alloc::Global;

/// A step, and the text after it.
type StepAndRest<'a> = (RepairStep<u32>, &'a str);

/// The recoverer of a text: each line is a repair sequence. Its steps are `insert 'NAME'` or `insert "NAME"`, `delete` and `shift`,
/// with spaces or tabs between them. Spaces, tabs and carriage returns at both ends of a line are skipped, and so is a line that
/// has nothing else.
///
/// Returns [`Fault::Repairs`] with the number of the first line that is no sequence.
pub fn recoverer_of(
    alloc: Global,
    grm: &YaccGrammar<u32>,
    text: &str,
) -> Result<FixedRecoverer<u32>, Fault> {
    let mut sequences = Vec::new(alloc);
    let mut number = 0usize;
    for line in text.split('\n') {
        number = number.saturating_add(1);
        let line = line.trim_matches([' ', '\t', '\r']);
        if !line.is_empty() {
            sequences.push(sequence_of(alloc, grm, line, number)?)?;
        }
    }
    Ok(FixedRecoverer::new(sequences))
}

// The sequence of a line, which has this number.
fn sequence_of(
    alloc: Global,
    grm: &YaccGrammar<u32>,
    line: &str,
    number: usize,
) -> Result<Vec<RepairStep<u32>>, Fault> {
    let mut steps = Vec::new(alloc);
    let mut rest = line;
    for _ in 0..line.len() {
        if rest.is_empty() {
            break;
        }
        let Some((step, after)) = step_of(grm, rest) else {
            return Err(Fault::Repairs(number));
        };
        steps.push(step)?;
        rest = after;
    }
    Ok(steps)
}

// The step with which a text begins, and the text after it and its gap.
fn step_of<'a>(grm: &YaccGrammar<u32>, text: &'a str) -> Option<StepAndRest<'a>> {
    let (step, after) = named_step(grm, text)?;
    Some((step, after_step(after)?))
}

// The step with which a text begins, and the text right after it.
fn named_step<'a>(grm: &YaccGrammar<u32>, text: &'a str) -> Option<StepAndRest<'a>> {
    if let Some(after) = text.strip_prefix("insert") {
        return insertion(grm, after_gap(after)?);
    }
    match text.strip_prefix("delete") {
        Some(after) => Some((RepairStep::Delete, after)),
        None => Some((RepairStep::Shift, text.strip_prefix("shift")?)),
    }
}

// The insertion of the token whose quoted name a text begins with, and the text after it.
fn insertion<'a>(grm: &YaccGrammar<u32>, text: &'a str) -> Option<StepAndRest<'a>> {
    let (name, after) = quoted(text)?;
    Some((RepairStep::Insert(grm.token_idx(name)?), after))
}

// The text between the quotes with which a text begins, and the text after them.
fn quoted(text: &str) -> Option<(&str, &str)> {
    match text.strip_prefix('\'') {
        Some(inside) => inside.split_once('\''),
        None => text.strip_prefix('"')?.split_once('"'),
    }
}

// What comes after a step, without its gap: nothing, or other steps.
fn after_step(text: &str) -> Option<&str> {
    if text.is_empty() {
        Some(text)
    } else {
        after_gap(text)
    }
}

// What comes after the spaces and tabs with which a text begins. It has to begin with one.
fn after_gap(text: &str) -> Option<&str> {
    let after = text.trim_start_matches([' ', '\t']);
    if after.len() < text.len() {
        Some(after)
    } else {
        None
    }
}
