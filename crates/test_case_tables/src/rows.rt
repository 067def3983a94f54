//! The item sets and the rows of a table, as text.
use crate::subject::Subject;
use lrpar_grammar::grammar::YaccGrammar;
use lrpar_grammar::span::{StIdx, StorageIndex, TIdx};
use lrpar_table::check::ParserData;
use lrpar_table::table::{Action, Conflicts, StateGraph, StateTable};
use std::alloc::Global;
use test_case_lines::names::{rule_name, token_name};
use test_case_lines::printed::Printed;

/// The item sets and the rows of the tables that the case is about.
pub fn outcome(out: &mut Printed, alloc: Global, subject: Subject<'_, '_, '_>) {
    let (mut by_rows, mut by_entries) = (Printed::new(alloc), Printed::new(alloc));
    push_data(&mut by_rows, &subject.tables.by_rows);
    push_data(&mut by_entries, &subject.tables.by_entries);
    push_agreed(out, &by_rows, &by_entries);
}

/// Adds what comes by full rows; and below it what comes by stored entries, if that is something else.
pub fn push_agreed(out: &mut Printed, by_rows: &Printed, by_entries: &Printed) {
    out.append(by_rows);
    if !out.agree(by_rows, by_entries) {
        out.text("by-entries\n");
        out.append(by_entries);
    }
}

/// Adds the item sets and the rows of a checked table.
pub fn push_data<S: StorageIndex>(out: &mut Printed, data: &ParserData<S>) {
    push_table(out, data.grm(), data.sgraph(), data.stable());
}

/// Adds the item sets and the rows of a table: how many there are of each, and a line for the items, the actions and the gotos of each
/// state, if it has any.
pub fn push_table<S: StorageIndex>(
    out: &mut Printed,
    grm: &YaccGrammar<S>,
    graph: &StateGraph<S>,
    table: &StateTable<S>,
) {
    push_counts(out, graph, table);
    for number in 0..graph.states_len().max(table.states_len()) {
        if let Some(state) = S::from_index(number) {
            push_items(out, grm, graph, StIdx(state));
            push_actions(out, grm, table, StIdx(state));
            push_gotos(out, grm, table, StIdx(state));
        }
    }
}

// How many there are of each.
fn push_counts<S: StorageIndex>(out: &mut Printed, graph: &StateGraph<S>, table: &StateTable<S>) {
    out.number("has ", graph.states_len());
    out.number(" item sets, ", table.states_len());
    out.number(" states, ", table.tokens_len());
    out.number(" tokens, ", table.rules_len());
    out.text(" rules\n");
    out.text("has ");
    out.show(&table.entries());
    out.line(" entries, start ", &usize::from(table.start_state()));
}

// The items of the state.
fn push_items<S: StorageIndex>(
    out: &mut Printed,
    grm: &YaccGrammar<S>,
    graph: &StateGraph<S>,
    state: StIdx<S>,
) {
    if usize::from(state) >= graph.states_len() {
        return;
    }
    let mut line = Entries::new("items", usize::from(state));
    for (prod, dot, token) in graph.items(state) {
        line.begin(out);
        out.number(" ", usize::from(prod));
        out.number(".", dot);
        push_token(out, grm, token);
    }
    line.end(out);
}

// What the state does at tokens.
fn push_actions<S: StorageIndex>(
    out: &mut Printed,
    grm: &YaccGrammar<S>,
    table: &StateTable<S>,
    state: StIdx<S>,
) {
    if usize::from(state) >= table.states_len() {
        return;
    }
    let mut line = Entries::new("actions", usize::from(state));
    let (tokens, actions) = table.actions_of(state);
    for (token, action) in tokens.iter().zip(actions) {
        line.begin(out);
        push_token(out, grm, *token);
        push_action(out, *action);
    }
    line.end(out);
}

// Where the state goes by rules.
fn push_gotos<S: StorageIndex>(
    out: &mut Printed,
    grm: &YaccGrammar<S>,
    table: &StateTable<S>,
    state: StIdx<S>,
) {
    if usize::from(state) >= table.states_len() {
        return;
    }
    let mut line = Entries::new("gotos", usize::from(state));
    let (rules, states) = table.gotos_of(state);
    for (rule, next) in rules.iter().zip(states) {
        line.begin(out);
        out.texts(" ", rule_name(grm, *rule));
        out.number(" ", usize::from(*next));
    }
    line.end(out);
}

// A line of entries of a state, as far as it is written.
#[derive(Clone, Copy)]
struct Entries {
    key: &'static str,
    state: usize,
    is_begun: bool,
}

impl Entries {
    fn new(key: &'static str, state: usize) -> Self {
        Entries {
            key,
            state,
            is_begun: false,
        }
    }

    // What comes before an entry.
    fn begin(&mut self, out: &mut Printed) {
        if self.is_begun {
            out.text(",");
        } else {
            self.is_begun = true;
            out.texts(self.key, " ");
            out.show(&self.state);
            out.text(":");
        }
    }

    // The end of the line, if there is one.
    fn end(self, out: &mut Printed) {
        if self.is_begun {
            out.text("\n");
        }
    }
}

// The token; its number out of range.
fn push_token<S: StorageIndex>(out: &mut Printed, grm: &YaccGrammar<S>, token: TIdx<S>) {
    let name = token_name(grm, token);
    if name.is_empty() {
        out.number(" ", usize::from(token));
    } else {
        out.texts(" ", name);
    }
}

// What a state does at a token.
fn push_action<S: StorageIndex>(out: &mut Printed, action: Action<S>) {
    match action {
        Action::Shift(state) => out.number(" shift ", usize::from(state)),
        Action::Reduce(prod) => out.number(" reduce ", usize::from(prod)),
        Action::Accept => out.text(" accept"),
        Action::Error => out.text(" error"),
    }
}

/// Adds the conflicts of a table, a line each; `conflicts none` if it has none.
pub fn push_conflicts<S: StorageIndex>(
    out: &mut Printed,
    grm: &YaccGrammar<S>,
    table: &StateTable<S>,
) {
    match table.conflicts() {
        None => out.text("conflicts none\n"),
        Some(conflicts) => {
            push_reductions(out, grm, conflicts);
            push_shifts(out, grm, conflicts);
        }
    }
}

// The conflicts between two reductions.
fn push_reductions<S: StorageIndex>(
    out: &mut Printed,
    grm: &YaccGrammar<S>,
    conflicts: &Conflicts<S>,
) {
    for (token, kept, other, state) in conflicts.rr_conflicts() {
        push_place(out, "conflict", grm, *state, *token);
        out.number(": reduce ", usize::from(*kept));
        out.line(" or ", &usize::from(*other));
    }
}

// The conflicts between a shift and a reduction.
fn push_shifts<S: StorageIndex>(out: &mut Printed, grm: &YaccGrammar<S>, conflicts: &Conflicts<S>) {
    for (token, prod, state) in conflicts.sr_conflicts() {
        push_place(out, "conflict", grm, *state, *token);
        out.line(": shift or reduce ", &usize::from(*prod));
    }
}

/// Adds this key, and in which state and at which token a conflict is.
pub(crate) fn push_place<S: StorageIndex>(
    out: &mut Printed,
    key: &str,
    grm: &YaccGrammar<S>,
    state: StIdx<S>,
    token: TIdx<S>,
) {
    out.texts(key, " state ");
    out.show(&usize::from(state));
    out.texts(", ", token_name(grm, token));
}
