//! Checks of tables by hand: whether each passes, why it is refused, and what a refusal returns.
use crate::hand::{By, Hand};
use crate::rows::{push_agreed, push_table};
use crate::subject::Subject;
use lrpar_grammar::grammar::YaccGrammar;
use lrpar_grammar::span::StorageIndex;
use lrpar_table::check::{CheckFault, CompleteFault, ParserData, Refused, ViableFault};
use lrpar_table::table::{StateGraph, StateTable};
use std::alloc::Global;
use test_case_lines::cases::Case;
use test_case_lines::fault::Fault;
use test_case_lines::printed::Printed;
use test_case_lines::values::CAP;

/// The keys that say what is done.
pub const INPUTS: &[&str] = &[
    "text", "states", "sets", "tokens", "rules", "items", "without", "actions", "gotos", "cap",
    "then-cap",
];

/// What comes of the check of the table that the case is about, with the lines of the case in place of its own; or of the table
/// that the case has itself, if it is about none.
pub fn outcome(
    out: &mut Printed,
    alloc: Global,
    subject: Option<Subject<'_, '_, '_>>,
    case: Case<'_, '_>,
) -> Result<(), Fault> {
    let hand = match subject {
        None => Hand::of(case),
        Some(subject) => Hand {
            table: subject.case,
            changes: case.lines,
        },
    };
    let cap = hand.cap("cap", CAP)?;
    let then = hand.cap("then-cap", Hand::of(hand.table).cap("cap", CAP)?)?;
    let (mut by_rows, mut by_entries) = (Printed::new(alloc), Printed::new(alloc));
    push_made(
        &mut by_rows,
        alloc,
        Trial {
            hand,
            by: By::Rows,
            cap,
            then,
        },
    )?;
    push_made(
        &mut by_entries,
        alloc,
        Trial {
            hand,
            by: By::Entries,
            cap,
            then,
        },
    )?;
    push_agreed(out, &by_rows, &by_entries);
    Ok(())
}

// What is tried: a table by hand, made by this call; the cap of its check, and the cap of the check of what a refusal returns.
#[derive(Clone, Copy)]
struct Trial<'t, 'a> {
    hand: Hand<'t, 'a>,
    by: By,
    cap: u16,
    then: u16,
}

// What comes of the check of the table that is made.
fn push_made(out: &mut Printed, alloc: Global, trial: Trial<'_, '_>) -> Result<(), Fault> {
    let grm = trial.hand.grammar(alloc)?;
    let graph = trial.hand.graph(alloc, &grm)?;
    let table = trial.hand.table(alloc, &grm, trial.by)?;
    push_checked(out, alloc, trial, grm, graph, table)
}

// What comes of the check of these parts.
fn push_checked(
    out: &mut Printed,
    alloc: Global,
    trial: Trial<'_, '_>,
    grm: YaccGrammar<u32>,
    graph: StateGraph<u32>,
    table: StateTable<u32>,
) -> Result<(), Fault> {
    let mut was = Printed::new(alloc);
    push_table(&mut was, &grm, &graph, &table);
    match ParserData::new(alloc, grm, graph, table, trial.cap) {
        Ok(data) => {
            push_taken(out, alloc, &data, &was);
            Ok(())
        }
        Err(refused) => push_refusal(out, alloc, trial, &was, refused),
    }
}

// That the table passes, whether it is complete and whether it is viable, and whether it keeps its parts.
fn push_taken(out: &mut Printed, alloc: Global, data: &ParserData<u32>, was: &Printed) {
    out.text("checked\n");
    match data.check_complete(alloc) {
        Ok(()) => out.text("complete\n"),
        Err(CompleteFault::Memory) => out.lack_memory(),
        Err(fault) => out.line("incomplete ", &fault),
    }
    push_viable(out, alloc, data);
    push_kept(out, alloc, data.grm(), data.sgraph(), data.stable(), was);
}

// Whether the table is viable.
fn push_viable(out: &mut Printed, alloc: Global, data: &ParserData<u32>) {
    match data.check_viable(alloc) {
        Ok(()) => out.text("viable\n"),
        Err(ViableFault::Memory) => out.lack_memory(),
        Err(fault) => out.line("unviable ", &fault),
    }
}

// Adds a line if the parts aren't as they were.
fn push_kept(
    out: &mut Printed,
    alloc: Global,
    grm: &YaccGrammar<u32>,
    graph: &StateGraph<u32>,
    table: &StateTable<u32>,
    was: &Printed,
) {
    let mut is = Printed::new(alloc);
    push_table(&mut is, grm, graph, table);
    if !out.agree(&is, was) {
        out.text("lost\n");
    }
}

// Why the table is refused, and what comes of the parts that the refusal returns, after what was changed is mended.
fn push_refusal(
    out: &mut Printed,
    alloc: Global,
    trial: Trial<'_, '_>,
    was: &Printed,
    refused: Refused<u32>,
) -> Result<(), Fault> {
    push_fault(out, "refused ", refused.fault());
    let (grm, mut graph, mut table) = refused.into_parts();
    push_kept(out, alloc, &grm, &graph, &table, was);
    let mended = mend(alloc, trial.hand, trial.by, &grm, &mut graph, &mut table);
    let second = checked(alloc, grm, graph, table, trial.then).err();
    match second {
        None => out.text("then checked\n"),
        Some(fault) => push_fault(out, "then refused ", fault),
    }
    mended
}

/// The parts, checked with the cap, or why they are refused.
pub(crate) fn checked<S: StorageIndex>(
    alloc: Global,
    grm: YaccGrammar<S>,
    graph: StateGraph<S>,
    table: StateTable<S>,
    cap: u16,
) -> Result<ParserData<S>, CheckFault> {
    match ParserData::new(alloc, grm, graph, table, cap) {
        Ok(data) => Ok(data),
        Err(refused) => Err(refused.fault()),
    }
}

/// Adds the fault after these words. A failed allocation says nothing of a table, and is noted apart.
pub(crate) fn push_fault(out: &mut Printed, words: &str, fault: CheckFault) {
    match fault {
        CheckFault::Memory => out.lack_memory(),
        fault => out.line(words, &fault),
    }
}

// Puts the table's own parts in the place of those that were changed.
fn mend(
    alloc: Global,
    hand: Hand<'_, '_>,
    by: By,
    grm: &YaccGrammar<u32>,
    graph: &mut StateGraph<u32>,
    table: &mut StateTable<u32>,
) -> Result<(), Fault> {
    if hand.has_changed(&["states", "sets", "items", "without"]) {
        *graph = Hand::of(hand.table).graph(alloc, grm)?;
    }
    if hand.has_changed(&["states", "tokens", "rules", "actions", "gotos"]) {
        *table = Hand::of(hand.table).table(alloc, grm, by)?;
    }
    Ok(())
}
