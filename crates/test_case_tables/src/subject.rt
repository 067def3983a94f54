//! What cases of parses and of tables are about: a grammar, and its checked table.
use crate::faults::{of_check, of_grammar, of_rows};
use crate::hand::tables_by_hand;
use lrpar_grammar::grammar::YaccGrammar;
use lrpar_grammar::span::{RIdx, StIdx, TIdx};
use lrpar_table::build::{BuildFault, Unbuilt, parser_data};
use lrpar_table::check::ParserData;
use lrpar_table::table::{Action, Item, StateGraph, StateTable, TableRows};
use std::alloc::Global;
use test_case_lines::cases::Case;
use test_case_lines::fault::Fault;
use test_case_lines::values::cap_at;

/// How many states a table may have.
pub(crate) const MAX_STATES: usize = 10_000;

const UNBUILT: &str = "the grammar has no checked table";

/// What cases are about.
#[derive(Clone, Copy)]
pub struct Subject<'d, 't, 'a> {
    /// The case that says what it is.
    pub case: Case<'t, 'a>,
    /// The checked tables.
    pub tables: &'d Tables,
}

/// One checked table, made by each of the two calls.
#[derive(Drop)]
pub struct Tables {
    /// Of full rows.
    pub by_rows: ParserData<u32>,
    /// Of stored entries.
    pub by_entries: ParserData<u32>,
}

/// The tables of a case that is a subject.
pub fn tables_of(alloc: Global, case: Case<'_, '_>) -> Result<Tables, Fault> {
    match case.kind {
        "table" => tables_by_hand(alloc, case),
        _ => tables_of_grammar(alloc, case),
    }
}

// The tables of a case `grammar`: `text` is the grammar's text, and `cap` the cap.
fn tables_of_grammar(alloc: Global, case: Case<'_, '_>) -> Result<Tables, Fault> {
    let (text, cap) = (case.text(alloc, "text")?, cap_at(case, "cap")?);
    tables_of_text(alloc, case, text.as_str(), cap)
}

// The tables of a grammar text.
fn tables_of_text(
    alloc: Global,
    case: Case<'_, '_>,
    text: &str,
    cap: u16,
) -> Result<Tables, Fault> {
    let by_entries = built(alloc, case, text, cap)?;
    let by_rows = read_back(alloc, case, grammar_of(alloc, case, text)?, &by_entries);
    tables_made(by_rows, Ok(by_entries))
}

/// Both tables, if they were made.
pub(crate) fn tables_made(
    by_rows: Result<ParserData<u32>, Fault>,
    by_entries: Result<ParserData<u32>, Fault>,
) -> Result<Tables, Fault> {
    Ok(Tables {
        by_rows: by_rows?,
        by_entries: by_entries?,
    })
}

/// The grammar of a text.
pub(crate) fn grammar_of(
    alloc: Global,
    case: Case<'_, '_>,
    text: &str,
) -> Result<YaccGrammar<u32>, Fault> {
    match YaccGrammar::new_with_storaget(alloc, text) {
        Ok(grm) => Ok(grm),
        Err(fault) => Err(of_grammar(fault, case.number, "the text is no grammar")),
    }
}

// The table that is built of a text.
fn built(
    alloc: Global,
    case: Case<'_, '_>,
    text: &str,
    cap: u16,
) -> Result<ParserData<u32>, Fault> {
    let grm = grammar_of(alloc, case, text)?;
    match parser_data(alloc, grm, MAX_STATES, cap) {
        Ok(data) => Ok(data),
        Err(unbuilt) => Err(of_unbuilt(&unbuilt, case.number)),
    }
}

/// Why no checked table is built.
pub(crate) fn of_unbuilt(unbuilt: &Unbuilt<u32>, line: usize) -> Fault {
    match unbuilt {
        Unbuilt::Table(BuildFault::Memory, _) => Fault::Memory,
        Unbuilt::Table(..) => Fault::Line(line, UNBUILT),
        Unbuilt::Chains(refused) => of_check(refused.fault(), line, UNBUILT),
    }
}

/// The checked table once more, of its rows and of this grammar, which is its own.
pub(crate) fn read_back(
    alloc: Global,
    case: Case<'_, '_>,
    grm: YaccGrammar<u32>,
    data: &ParserData<u32>,
) -> Result<ParserData<u32>, Fault> {
    let sgraph = graph_of(alloc, case, data.sgraph())?;
    let stable = table_of(alloc, case, data.stable())?;
    checked(alloc, case, grm, sgraph, stable, data.cap())
}

// The item sets once more, of their items.
fn graph_of(
    alloc: Global,
    case: Case<'_, '_>,
    graph: &StateGraph<u32>,
) -> Result<StateGraph<u32>, Fault> {
    match StateGraph::from_rows(alloc, items_of(alloc, graph)?) {
        Ok(graph) => Ok(graph),
        Err(fault) => Err(of_rows(fault, case.number, "the items make no item sets")),
    }
}

/// The table once more, made of its full rows.
pub(crate) fn table_of(
    alloc: Global,
    case: Case<'_, '_>,
    table: &StateTable<u32>,
) -> Result<StateTable<u32>, Fault> {
    match StateTable::from_rows(alloc, rows_of(alloc, table)?) {
        Ok(table) => Ok(table),
        Err(fault) => Err(of_rows(fault, case.number, "the rows make no table")),
    }
}

/// The checked table of these parts.
pub(crate) fn checked(
    alloc: Global,
    case: Case<'_, '_>,
    grm: YaccGrammar<u32>,
    sgraph: StateGraph<u32>,
    stable: StateTable<u32>,
    cap: u16,
) -> Result<ParserData<u32>, Fault> {
    match ParserData::new(alloc, grm, sgraph, stable, cap) {
        Ok(data) => Ok(data),
        Err(refused) => Err(of_check(refused.fault(), case.number, "the table is refused")),
    }
}

// The full rows of a table, without its conflicts.
fn rows_of(alloc: Global, table: &StateTable<u32>) -> Result<TableRows<u32>, Fault> {
    let (mut actions, mut gotos) = (Vec::new(alloc), Vec::new(alloc));
    for number in 0..table.states_len() {
        if let Ok(state) = u32::try_from(number) {
            actions.push(action_row(alloc, table, StIdx(state))?)?;
            gotos.push(goto_row(alloc, table, StIdx(state))?)?;
        }
    }
    Ok(TableRows {
        start: table.start_state(),
        tokens: table.tokens_len(),
        rules: table.rules_len(),
        actions,
        gotos,
        conflicts: None,
    })
}

// What the state does at each token.
fn action_row(
    alloc: Global,
    table: &StateTable<u32>,
    state: StIdx<u32>,
) -> Result<Vec<Action<u32>>, Fault> {
    let mut row = Vec::new(alloc);
    for token in 0..table.tokens_len() {
        row.push(action_at(table, state, token))?;
    }
    Ok(row)
}

// What the state does at the token of this number.
fn action_at(table: &StateTable<u32>, state: StIdx<u32>, token: usize) -> Action<u32> {
    match u32::try_from(token) {
        Ok(number) if token < table.tokens_len() && usize::from(state) < table.states_len() => {
            table.action(state, TIdx(number))
        }
        _ => Action::Error,
    }
}

// Where the state goes by each rule.
fn goto_row(
    alloc: Global,
    table: &StateTable<u32>,
    state: StIdx<u32>,
) -> Result<Vec<Option<StIdx<u32>>>, Fault> {
    let mut row = Vec::new(alloc);
    for rule in 0..table.rules_len() {
        row.push(goto_at(table, state, rule))?;
    }
    Ok(row)
}

// Where the state goes by the rule of this number.
fn goto_at(table: &StateTable<u32>, state: StIdx<u32>, rule: usize) -> Option<StIdx<u32>> {
    match u32::try_from(rule) {
        Ok(number) if rule < table.rules_len() && usize::from(state) < table.states_len() => {
            table.goto(state, RIdx(number))
        }
        _ => None,
    }
}

// The items of each state of a graph.
fn items_of(alloc: Global, graph: &StateGraph<u32>) -> Result<Vec<Vec<Item<u32>>>, Fault> {
    let mut rows = Vec::new(alloc);
    for number in 0..graph.states_len() {
        rows.push(items_at(alloc, graph, number)?)?;
    }
    Ok(rows)
}

// The items of the state of this number.
fn items_at(
    alloc: Global,
    graph: &StateGraph<u32>,
    number: usize,
) -> Result<Vec<Item<u32>>, Fault> {
    let mut row = Vec::new(alloc);
    match u32::try_from(number) {
        Ok(state) if number < graph.states_len() => {
            for item in graph.items(StIdx(state)) {
                row.push(item)?;
            }
        }
        _ => {}
    }
    Ok(row)
}
