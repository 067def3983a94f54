//! The conflicts of a table, with a counterexample of each.
ghost use Rattle.lrpar_conflict_examples.specs.ExamplesFit.{ExamplesFit};
ghost use Rattle.lrpar_grammar.specs.Grammar.{Grammar};

use crate::printer::Printer;
use crate::show::push_reports;
use lrpar_conflict_examples::examples::{
    ConflictExample, MergedConflicts, NoExamples, UnmetConflict, conflict_examples_by,
    format_examples,
};
use lrpar_grammar::grammar::YaccGrammar;
use lrpar_report::{Level, Report, conflict_reports, push_token};
use lrpar_table::table::StateTable;
use lrpar_table_precedence::precedences::Precedences;
use std::alloc::{AllocError, Global};

/// The bound of the search for a unifying counterexample of a conflict.
const BOUND: usize = 1_000;

/// How many conflicts of a grammar are shown at most, and how many counterexamples.
const MOST: usize = 10;

/// What the counterexamples are called where they are a message of their own.
const EXAMPLES: &str = "counterexamples";

/// Adds a warning for each of the first conflicts of the table, the first counterexamples, and a note of each of the first conflicts that have
/// none. If a reachable rule derives no text, there are no counterexamples, and one warning says so; and so there are if the canonical table
/// has more states than that.
pub(crate) fn push_conflicts(
    out: &mut String,
    alloc: Global,
    printer: &Printer<'_>,
    grm: &YaccGrammar<u32>,
    precedences: &Precedences,
    stable: &StateTable<u32>,
    max_states: usize,
) -> Result<(), AllocError> {
    if stable.conflicts().is_none() {
        return Ok(());
    }
    match conflict_examples_by(alloc, grm, precedences, stable, max_states, BOUND) {
        Ok(found) => push_found(out, alloc, printer, grm, stable, &found),
        Err(NoExamples::Memory) => Err(AllocError),
        Err(NoExamples::Unproductive(_)) => {
            push_count(out, alloc, printer, stable, "a rule derives no text")
        }
        Err(NoExamples::Unbuilt(_)) => {
            let why = "the canonical table, in which they are looked for, is too large";
            push_count(out, alloc, printer, stable, why)
        }
    }
}

// Adds warnings and counterexamples of conflicts. If some have no counterexample, the warnings don't say that there are examples, and notes
// say which.
fn push_found(
    out: &mut String,
    alloc: Global,
    printer: &Printer<'_>,
    grm: &YaccGrammar<u32>,
    stable: &StateTable<u32>,
    found: &MergedConflicts<u32>,
) -> Result<(), AllocError>
    requires { ExamplesFit grm.now found.now.examples.items }
{
    if found.unmet.is_empty() && found.merged.is_empty() {
        return push_with_examples(out, alloc, printer, grm, stable, &found.examples);
    }
    let reports = conflict_reports(alloc, grm, stable)?;
    let shown = reports.get(..MOST).unwrap_or(&reports);
    push_reports(out, alloc, printer, shown)?;
    let first = first_of(&found.examples);
    let text = format_examples(alloc, grm, first)?;
    printer.push_text(out, alloc, EXAMPLES, text.as_str())?;
    push_notes(out, alloc, printer, grm, found)?;
    push_more(out, alloc, printer, reports.len(), found.examples.len())
}

// Adds notes of the first conflicts that have no counterexample.
fn push_notes(
    out: &mut String,
    alloc: Global,
    printer: &Printer<'_>,
    grm: &YaccGrammar<u32>,
    found: &MergedConflicts<u32>,
) -> Result<(), AllocError> {
    for conflict in found.unmet.iter().take(MOST) {
        let why = ": precedences take away each way there";
        push_note(out, alloc, printer, grm, conflict, "no parse meets", why)?;
    }
    for conflict in found.merged.iter().take(MOST) {
        let why = ", with --minimise canonical there is none";
        push_note(
            out,
            alloc,
            printer,
            grm,
            conflict,
            "merging alone makes",
            why,
        )?;
    }
    Ok(())
}

// Adds a note of a conflict.
fn push_note(
    out: &mut String,
    alloc: Global,
    printer: &Printer<'_>,
    grm: &YaccGrammar<u32>,
    conflict: &UnmetConflict<u32>,
    what: &str,
    why: &str,
) -> Result<(), AllocError> {
    let mut message = String::from_str(alloc, what)?;
    message.push_str(" the conflict at ")?;
    push_token(&mut message, grm, conflict.token)?;
    let state = usize::from(conflict.state);
    write!(message, " in state {state}{why}")?;
    printer.push(
        out,
        alloc,
        &Report::new(alloc, Level::Note, message.as_str())?,
    )
}

// Adds how many conflicts there are, if none has a counterexample.
fn push_count(
    out: &mut String,
    alloc: Global,
    printer: &Printer<'_>,
    stable: &StateTable<u32>,
    why: &str,
) -> Result<(), AllocError> {
    let Some(conflicts) = stable.conflicts() else {
        return Ok(());
    };
    let count = conflicts.rr_len().saturating_add(conflicts.sr_len());
    let text = format!(in alloc; "conflicts without examples, as {why}: {count}")?;
    printer.push(out, alloc, &Report::warning(alloc, text.as_str())?)
}

// Adds the first warnings, the first counterexamples, and how many more there are.
fn push_with_examples(
    out: &mut String,
    alloc: Global,
    printer: &Printer<'_>,
    grm: &YaccGrammar<u32>,
    stable: &StateTable<u32>,
    examples: &[ConflictExample<u32>],
) -> Result<(), AllocError>
    requires { ExamplesFit grm.now examples.now }
{
    let mut reports = conflict_reports(alloc, grm, stable)?;
    let first = first_of(examples);
    name_examples(&mut reports, first)?;
    let shown = reports.get(..MOST).unwrap_or(&reports);
    push_reports(out, alloc, printer, shown)?;
    let text = format_examples(alloc, grm, first)?;
    printer.push_text(out, alloc, EXAMPLES, text.as_str())?;
    push_more(out, alloc, printer, reports.len(), examples.len())
}

// The counterexamples that are shown: the first ones.
fn first_of(examples: &[ConflictExample<u32>]) -> &[ConflictExample<u32>]
    ensures { (g : Grammar) → ExamplesFit g examples.now → ExamplesFit g result.now }
{
    &examples[..examples.len().min(MOST)]
}

// Adds to the first warnings that there are examples: to as many as there are different conflicts among these examples.
fn name_examples(
    reports: &mut [Report],
    examples: &[ConflictExample<u32>],
) -> Result<(), AllocError> {
    for report in reports.iter_mut().take(distinct(examples)) {
        if let Some(label) = report.labels.first_mut() {
            label.text.push_str("; an example is below")?;
        }
    }
    Ok(())
}

// How many of these conflicts differ in more than their states.
fn distinct(examples: &[ConflictExample<u32>]) -> usize {
    let mut count = 0usize;
    for (place, example) in examples.iter().enumerate() {
        let before = examples.get(..place).unwrap_or(&[]);
        if !before.iter().any(|other| are_alike(example, other)) {
            count = count.saturating_add(1);
        }
    }
    count
}

// Whether two conflicts differ in their states at most.
fn are_alike(one: &ConflictExample<u32>, other: &ConflictExample<u32>) -> bool {
    one.token() == other.token() && one.first() == other.first() && one.second() == other.second()
}

// Adds a note of how many conflicts and counterexamples aren't shown, if there are any.
fn push_more(
    out: &mut String,
    alloc: Global,
    printer: &Printer<'_>,
    conflicts: usize,
    examples: usize,
) -> Result<(), AllocError> {
    let conflicts = conflicts.saturating_sub(MOST);
    let examples = examples.saturating_sub(MOST);
    let text = match (conflicts, examples) {
        (0, 0) => return Ok(()),
        (_, 0) => format!(in alloc; "conflicts that aren't shown: {conflicts}")?,
        (0, _) => format!(in alloc; "examples that aren't shown: {examples}")?,
        (_, _) => format!(in alloc;
            "conflicts that aren't shown: {conflicts}, and examples: {examples}"
        )?,
    };
    printer.push(out, alloc, &Report::new(alloc, Level::Note, text.as_str())?)
}
