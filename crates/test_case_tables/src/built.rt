//! Tables that are built of grammar texts, and texts without a table.
use crate::checks::{checked, push_fault};
use crate::faults::of_grammar;
use crate::rows::{push_conflicts, push_data};
use lrpar_grammar::grammar::YaccGrammar;
use lrpar_grammar::span::StorageIndex;
use lrpar_table::build::{BuildFault, Unbuilt, from_yacc, parser_data};
use lrpar_table::check::{ParserData, Refused};
use lrpar_table::table::{StateGraph, StateTable};
use std::alloc::{AllocError, Global};
use test_case_lines::cases::Case;
use test_case_lines::fault::Fault;
use test_case_lines::printed::Printed;
use test_case_lines::values::{cap_of, number_at, number_of};

/// The keys that say what is done.
pub const INPUTS: &[&str] = &["text", "symbols", "storage", "most", "cap", "then-cap"];

// What is allowed.
#[derive(Clone, Copy)]
struct Limits {
    // The most states.
    most: usize,
    // The cap of the check, if there is one.
    cap: Option<u16>,
    // The cap of the check of what a refusal returns, if there is one.
    then: Option<u16>,
}

/// What is built of the text: in the smallest storage type, or in the one that the case names.
pub fn outcome(out: &mut Printed, alloc: Global, case: Case<'_, '_>) -> Result<(), Fault> {
    let limits = limits_of(case)?;
    let text = source(alloc, case)?;
    match case.value_or_nothing("storage") {
        "u16" => push_built::<u16>(out, alloc, case, text.as_str(), limits),
        _ => push_built::<u8>(out, alloc, case, text.as_str(), limits),
    }
}

// What the case allows.
fn limits_of(case: Case<'_, '_>) -> Result<Limits, Fault> {
    Ok(Limits {
        most: number_at(case, "most", 100)?,
        cap: cap_beside(case, "cap")?,
        then: cap_beside(case, "then-cap")?,
    })
}

// The cap beside this key, if there is one.
fn cap_beside(case: Case<'_, '_>, key: &str) -> Result<Option<u16>, Fault> {
    match case.value(key) {
        None => Ok(None),
        Some((value, line)) => Ok(Some(cap_of(number_of(value, line)?, line)?)),
    }
}

// The text, or that of one rule of this number of symbols.
fn source(alloc: Global, case: Case<'_, '_>) -> Result<String, Fault> {
    match case.value("symbols") {
        None => case.text(alloc, "text"),
        Some((value, line)) => Ok(long_rule(alloc, number_of(value, line)?)?),
    }
}

// The text of one rule of this number of symbols.
fn long_rule(alloc: Global, symbols: usize) -> Result<String, AllocError> {
    let mut text = String::from_str(alloc, "%% S:")?;
    for _ in 0..symbols {
        text.push_str(" 'a'")?;
    }
    text.push(';')?;
    Ok(text)
}

// The grammar of the text.
fn grammar<S: StorageIndex>(
    alloc: Global,
    case: Case<'_, '_>,
    text: &str,
) -> Result<YaccGrammar<S>, Fault> {
    match YaccGrammar::new_with_storaget(alloc, text) {
        Ok(grm) => Ok(grm),
        Err(fault) => Err(of_grammar(fault, case.number, "the text is no grammar")),
    }
}

// What is built of the text, and if a cap is named, what comes of the check with it.
fn push_built<S: StorageIndex>(
    out: &mut Printed,
    alloc: Global,
    case: Case<'_, '_>,
    text: &str,
    limits: Limits,
) -> Result<(), Fault> {
    let grm = grammar::<S>(alloc, case, text)?;
    push_tables(out, alloc, grm, limits);
    Ok(())
}

// Adds the tables that are built of the grammar.
fn push_tables<S: StorageIndex>(
    out: &mut Printed,
    alloc: Global,
    grm: YaccGrammar<S>,
    limits: Limits,
) {
    push_table_of(out, alloc, &grm, limits.most);
    if let Some(cap) = limits.cap {
        push_checked(out, alloc, grm, cap, limits);
    }
}

// What is built of the grammar.
fn push_table_of<S: StorageIndex>(
    out: &mut Printed,
    alloc: Global,
    grm: &YaccGrammar<S>,
    most: usize,
) {
    match from_yacc(alloc, grm, most) {
        Ok((graph, table)) => push_table(out, grm, &graph, &table),
        Err(fault) => push_build_fault(out, "fault ", fault),
    }
}

// Adds the fault after these words. A failed allocation says nothing of a table, and is noted apart.
fn push_build_fault(out: &mut Printed, words: &str, fault: BuildFault) {
    match fault {
        BuildFault::Memory => out.lack_memory(),
        fault => out.line(words, &fault),
    }
}

// How many states there are, and the conflicts.
fn push_table<S: StorageIndex>(
    out: &mut Printed,
    grm: &YaccGrammar<S>,
    graph: &StateGraph<S>,
    table: &StateTable<S>,
) {
    out.number("built ", table.states_len());
    out.number(" states, ", graph.states_len());
    out.text(" item sets\n");
    push_conflicts(out, grm, table);
}

// What comes of the check with the cap.
fn push_checked<S: StorageIndex>(
    out: &mut Printed,
    alloc: Global,
    grm: YaccGrammar<S>,
    cap: u16,
    limits: Limits,
) {
    match parser_data(alloc, grm, limits.most, cap) {
        Ok(data) => push_as_built(out, alloc, &data),
        Err(Unbuilt::Table(fault, _)) => push_build_fault(out, "refused table: ", fault),
        Err(Unbuilt::Chains(refused)) => push_refusal(out, alloc, refused, limits.then),
    }
}

// That the table is checked; and its states and conflicts, if they aren't those that were built.
fn push_as_built<S: StorageIndex>(out: &mut Printed, alloc: Global, data: &ParserData<S>) {
    let mut text = Printed::new(alloc);
    push_table(&mut text, data.grm(), data.sgraph(), data.stable());
    let is_as_built = out.so_far() == text.so_far();
    out.text("checked\n");
    if !is_as_built {
        out.append(&text);
    }
}

// Which chain is too long, and if another cap is named, what comes of the check of the parts that the refusal returns.
fn push_refusal<S: StorageIndex>(
    out: &mut Printed,
    alloc: Global,
    refused: Refused<S>,
    then: Option<u16>,
) {
    push_fault(out, "refused chains: ", refused.fault());
    if let Some(cap) = then {
        push_second(out, alloc, refused, cap);
    }
}

// What comes of the check of the parts that the refusal returns, with this cap.
fn push_second<S: StorageIndex>(out: &mut Printed, alloc: Global, refused: Refused<S>, cap: u16) {
    let (grm, graph, table) = refused.into_parts();
    match checked(alloc, grm, graph, table, cap) {
        Ok(data) => push_rows(out, &data),
        Err(fault) => push_fault(out, "then refused ", fault),
    }
}

// That the table is checked with the other cap, and its rows.
fn push_rows<S: StorageIndex>(out: &mut Printed, data: &ParserData<S>) {
    out.text("then checked\n");
    push_data(out, data);
}
