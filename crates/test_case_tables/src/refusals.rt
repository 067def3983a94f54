//! Full rows, stored entries and item sets, with which a table or a graph is made or refused.
use crate::actions::action_of;
use lrpar_grammar::span::{RIdx, StIdx, TIdx};
use lrpar_table::table::{Action, SparseRows, StateGraph, StateTable, TableFault, TableRows};
use std::alloc::Global;
use test_case_lines::cases::Case;
use test_case_lines::fault::Fault;
use test_case_lines::line::{Content, Line, in_two};
use test_case_lines::printed::Printed;
use test_case_lines::values::{index_of, number_at};

/// The keys that say what is done.
pub const INPUTS: &[&str] = &["start", "states", "tokens", "rules", "actions", "gotos"];

/// Whether there is a table of the full rows.
pub fn outcome_of_rows(out: &mut Printed, alloc: Global, case: Case<'_, '_>) -> Result<(), Fault> {
    let rows = full_rows(alloc, case)?;
    push_made(out, StateTable::from_rows(alloc, rows));
    Ok(())
}

/// Whether there is a table of the stored entries.
pub fn outcome_of_entries(
    out: &mut Printed,
    alloc: Global,
    case: Case<'_, '_>,
) -> Result<(), Fault> {
    let rows = stored(alloc, case)?;
    push_made(out, StateTable::from_sparse(alloc, rows));
    Ok(())
}

/// Whether there is a graph of this number of item sets, all empty.
pub fn outcome_of_sets(out: &mut Printed, alloc: Global, case: Case<'_, '_>) -> Result<(), Fault> {
    let mut rows = Vec::new(alloc);
    for _ in 0..number_at(case, "states", 0)? {
        rows.push(Vec::new(alloc))?;
    }
    match StateGraph::<u8>::from_rows(alloc, rows) {
        Ok(graph) => push_len(out, graph.states_len()),
        Err(fault) => push_fault(out, fault),
    }
    Ok(())
}

// How many states the table has, or why there is none.
fn push_made(out: &mut Printed, made: Result<StateTable<u8>, TableFault>) {
    match made {
        Ok(table) => push_len(out, table.states_len()),
        Err(fault) => push_fault(out, fault),
    }
}

fn push_len(out: &mut Printed, states: usize) {
    out.number("made ", states);
    out.text(" states\n");
}

fn push_fault(out: &mut Printed, fault: TableFault) {
    match fault {
        TableFault::Memory => out.lack_memory(),
        TableFault::BadIndex => out.line("fault ", &fault),
    }
}

// The full rows of the case: one of each kind for each of its lines, and then the bare ones that it asks for.
fn full_rows(alloc: Global, case: Case<'_, '_>) -> Result<TableRows<u8>, Fault> {
    let mut rows = TableRows {
        start: StIdx(start_of(case)?),
        tokens: number_at(case, "tokens", 3)?,
        rules: number_at(case, "rules", 3)?,
        actions: Vec::new(alloc),
        gotos: Vec::new(alloc),
        conflicts: None,
    };
    add_rows(&mut rows, alloc, case.lines)?;
    add_bare(&mut rows, alloc, number_at(case, "states", 0)?)?;
    Ok(rows)
}

// The start state.
fn start_of(case: Case<'_, '_>) -> Result<u8, Fault> {
    match u8::try_from(number_at(case, "start", 0)?) {
        Ok(start) => Ok(start),
        Err(_) => Err(Fault::Line(case.number, "a smaller start is wanted")),
    }
}

// Adds the rows that the lines have.
fn add_rows(rows: &mut TableRows<u8>, alloc: Global, lines: &[Line<'_>]) -> Result<(), Fault> {
    for line in lines {
        match line.content {
            Content::Field {
                key: "actions",
                value,
            } => rows.actions.push(action_row(alloc, value, line.number)?)?,
            Content::Field {
                key: "gotos",
                value,
            } => rows.gotos.push(goto_row(alloc, value, line.number)?)?,
            _ => {}
        }
    }
    Ok(())
}

// A row of actions.
fn action_row(alloc: Global, value: &str, line: usize) -> Result<Vec<Action<u8>>, Fault> {
    let mut row = Vec::new(alloc);
    for entry in value.split(',') {
        row.push(action_of(entry, line)?)?;
    }
    Ok(row)
}

// A row of states, or none for each.
fn goto_row(alloc: Global, value: &str, line: usize) -> Result<Vec<Option<StIdx<u8>>>, Fault> {
    let mut row = Vec::new(alloc);
    for entry in value.split(',') {
        row.push(match entry.trim() {
            "none" => None,
            number => Some(StIdx(index_of(number, line)?)),
        })?;
    }
    Ok(row)
}

// Adds this number of rows that have no action and no goto.
fn add_bare(rows: &mut TableRows<u8>, alloc: Global, states: usize) -> Result<(), Fault> {
    let (tokens, rules) = (rows.tokens, rows.rules);
    for _ in 0..states {
        rows.actions.push(vec![in alloc; Action::Error; tokens]?)?;
        rows.gotos.push(vec![in alloc; None; rules]?)?;
    }
    Ok(())
}

// The stored entries of the case: those of a state in each line.
fn stored(alloc: Global, case: Case<'_, '_>) -> Result<SparseRows<u8>, Fault> {
    let mut rows = SparseRows {
        start: StIdx(start_of(case)?),
        states: number_at(case, "states", 1)?,
        tokens: number_at(case, "tokens", 3)?,
        rules: number_at(case, "rules", 3)?,
        actions: Vec::new(alloc),
        gotos: Vec::new(alloc),
        conflicts: None,
    };
    add_entries(&mut rows, alloc, case.lines)?;
    Ok(rows)
}

// Adds the entries that the lines have.
fn add_entries(rows: &mut SparseRows<u8>, alloc: Global, lines: &[Line<'_>]) -> Result<(), Fault> {
    for line in lines {
        match line.content {
            Content::Field {
                key: "actions",
                value,
            } => rows
                .actions
                .push(stored_actions(alloc, value, line.number)?)?,
            Content::Field {
                key: "gotos",
                value,
            } => rows.gotos.push(stored_gotos(alloc, value, line.number)?)?,
            _ => {}
        }
    }
    Ok(())
}

// The actions of a state, each after the number of its token.
fn stored_actions(
    alloc: Global,
    value: &str,
    line: usize,
) -> Result<Vec<(TIdx<u8>, Action<u8>)>, Fault> {
    let mut row = Vec::new(alloc);
    for entry in value.split(',') {
        let (token, action) = in_two(entry);
        if !token.is_empty() {
            row.push((TIdx(index_of(token, line)?), action_of(action, line)?))?;
        }
    }
    Ok(row)
}

// The gotos of a state, each after the number of its rule.
fn stored_gotos(
    alloc: Global,
    value: &str,
    line: usize,
) -> Result<Vec<(RIdx<u8>, StIdx<u8>)>, Fault> {
    let mut row = Vec::new(alloc);
    for entry in value.split(',') {
        let (rule, state) = in_two(entry);
        if !rule.is_empty() {
            row.push((RIdx(index_of(rule, line)?), StIdx(index_of(state, line)?)))?;
        }
    }
    Ok(row)
}
