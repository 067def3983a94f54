//! Cases `completable`: whether each stack of a table can be completed, or which can't.
use lrpar_grammar::span::{StIdx, Symbol};
use lrpar_table::check::ParserData;
use lrpar_table_pops::check_completable::{Incompletable, check_completable};
use std::alloc::Global;
use test_case_lines::cases::Case;
use test_case_lines::fault::Fault;
use test_case_lines::names::{rule_name, token_name};
use test_case_lines::printed::Printed;
use test_case_tables::precedences::built_by_precedences;

/// The keys of the lines that say what is done.
pub const INPUTS: &[&str] = &["text", "kind", "cap", "minimiser", "stacks"];

/// How many stacks are told apart at most, if the case doesn't say it.
const MAX_STACKS: usize = 1_000;

/// Whether each stack of the table of the case's file can be completed.
pub fn outcome(out: &mut Printed, alloc: Global, case: Case<'_, '_>) -> Result<(), Fault> {
    let text = case.text(alloc, "text")?;
    let data = built_by_precedences(alloc, case, text.as_str())?;
    match check_completable(alloc, &data, max_stacks(case)?) {
        Ok(()) => out.text("completable\n"),
        Err(Incompletable::Stuck(states)) => push_stack(out, &data, &states),
        Err(Incompletable::TooMany) => out.text("too-many\n"),
        Err(Incompletable::Memory) => return Err(Fault::Memory),
    }
    Ok(())
}

// How many stacks are told apart at most.
fn max_stacks(case: Case<'_, '_>) -> Result<usize, Fault> {
    match case.value("stacks") {
        None => Ok(MAX_STACKS),
        Some((value, number)) => value
            .parse()
            .map_err(|_| Fault::Line(number, "a number is wanted")),
    }
}

// Adds the symbols of the stack that can't be completed.
fn push_stack(out: &mut Printed, data: &ParserData<u32>, states: &[StIdx<u32>]) {
    out.text("stuck");
    for state in states {
        match symbol_before(data, *state) {
            Some(Symbol::Rule(rule)) => out.texts(" ", rule_name(data.grm(), rule)),
            Some(Symbol::Token(token)) => {
                out.texts(" '", token_name(data.grm(), token));
                out.text("'");
            }
            None => {}
        }
    }
    out.text("\n");
}

// The symbol before the dot of each kernel item of the state; none, if it is the start state.
fn symbol_before(data: &ParserData<u32>, state: StIdx<u32>) -> Option<Symbol<u32>> {
    if usize::from(state) >= data.sgraph().states_len() {
        return None;
    }
    let (prod, dot) = *data.sgraph().begun_cores(state).first()?;
    if usize::from(prod) >= data.grm().prods_len() {
        return None;
    }
    data.grm().prod(prod).get(dot.checked_sub(1)?).copied()
}
