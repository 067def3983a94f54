//! Tables by hand: item sets and rows that are lines of a case, and what another case has in their place.
use crate::actions::action_of;
use crate::faults::of_rows;
use crate::subject::{Tables, checked, grammar_of, table_of, tables_made};
use lrpar_grammar::grammar::YaccGrammar;
use lrpar_grammar::span::{PIdx, RIdx, StIdx, TIdx};
use lrpar_table::check::ParserData;
use lrpar_table::table::{Action, Item, SparseRows, StateGraph, StateTable};
use std::alloc::Global;
use test_case_lines::cases::{Case, from_key, value_of};
use test_case_lines::fault::Fault;
use test_case_lines::line::{Content, Line, in_two};
use test_case_lines::names::{rule_name, token_name, token_of};
use test_case_lines::values::{CAP, cap_of, index_of, number_at, number_of};

/// By which call a table is made: of its full rows, or of its stored entries.
#[derive(Clone, Copy)]
pub enum By {
    Rows,
    Entries,
}

// The actions of a state that aren't `Error`, each after its token.
type ActionEntries = Vec<(TIdx<u32>, Action<u32>)>;

// The gotos of a state, each after its rule.
type GotoEntries = Vec<(RIdx<u32>, StIdx<u32>)>;

/// A table by hand.
#[derive(Clone, Copy)]
pub struct Hand<'t, 'a> {
    /// The case whose lines it is.
    pub table: Case<'t, 'a>,
    /// The lines in their place.
    pub changes: &'t [Line<'a>],
}

impl<'t, 'a> Hand<'t, 'a> {
    /// The table of the case, as it is.
    pub fn of(table: Case<'t, 'a>) -> Self {
        Hand {
            table,
            changes: &table.lines[..0],
        }
    }

    /// The number of this key, or `other` if there is none.
    pub fn number(self, key: &str, other: usize) -> Result<usize, Fault> {
        match value_of(from_key(self.changes, key)) {
            Some((value, line)) => number_of(value, line),
            None => number_at(self.table, key, other),
        }
    }

    /// The cap of this key, or `other` if there is none.
    pub fn cap(self, key: &str, other: u16) -> Result<u16, Fault> {
        cap_of(self.number(key, usize::from(other))?, self.table.number)
    }

    /// Whether one of these keys is changed.
    pub fn has_changed(self, keys: &[&str]) -> bool {
        keys.iter()
            .any(|key| !from_key(self.changes, key).is_empty())
    }

    // What follows the name in the list of this key and this state, and the number of its line.
    fn said(self, key: &str, state: usize, name: &str) -> Option<(&'a str, usize)> {
        match said_in(self.changes, key, state, name) {
            Some(said) => Some(said),
            None => said_in(self.table.lines, key, state, name),
        }
    }

    /// The grammar.
    pub fn grammar(self, alloc: Global) -> Result<YaccGrammar<u32>, Fault> {
        let text = self.table.text(alloc, "text")?;
        grammar_of(alloc, self.table, text.as_str())
    }

    /// The item sets.
    pub fn graph(self, alloc: Global, grm: &YaccGrammar<u32>) -> Result<StateGraph<u32>, Fault> {
        let sets = self.number("sets", self.number("states", 0)?)?;
        match StateGraph::from_rows(alloc, self.item_rows(alloc, grm, sets)?) {
            Ok(graph) => Ok(graph),
            Err(fault) => Err(of_rows(fault, self.table.number, "there are no item sets")),
        }
    }

    // The items of this number of states.
    fn item_rows(
        self,
        alloc: Global,
        grm: &YaccGrammar<u32>,
        sets: usize,
    ) -> Result<Vec<Vec<Item<u32>>>, Fault> {
        let mut rows = Vec::new(alloc);
        for state in 0..sets {
            let mut row = Vec::new(alloc);
            self.push_items(&mut row, grm, self.table.lines, state)?;
            self.push_items(&mut row, grm, self.changes, state)?;
            rows.push(row)?;
        }
        Ok(rows)
    }

    // The items that these lines have in the state.
    fn push_items(
        self,
        row: &mut Vec<Item<u32>>,
        grm: &YaccGrammar<u32>,
        lines: &[Line<'_>],
        state: usize,
    ) -> Result<(), Fault> {
        for line in lines {
            if let Some(list) = list_of(*line, "items", state) {
                self.push_list(row, grm, list, state, line.number)?;
            }
        }
        Ok(())
    }

    // The items of a list, but those that the changes take away.
    fn push_list(
        self,
        row: &mut Vec<Item<u32>>,
        grm: &YaccGrammar<u32>,
        list: &str,
        state: usize,
        line: usize,
    ) -> Result<(), Fault> {
        for entry in list.split(',') {
            let (core, token) = in_two(entry);
            if !is_said(self.changes, "without", state, core, token) {
                row.push(item_of(grm, core, token, line)?)?;
            }
        }
        Ok(())
    }

    /// The table, made by this call.
    pub fn table(
        self,
        alloc: Global,
        grm: &YaccGrammar<u32>,
        by: By,
    ) -> Result<StateTable<u32>, Fault> {
        let stored = self.table_of_entries(alloc, grm)?;
        match by {
            By::Entries => Ok(stored),
            By::Rows => table_of(alloc, self.table, &stored),
        }
    }

    // The table, made of its stored entries.
    fn table_of_entries(
        self,
        alloc: Global,
        grm: &YaccGrammar<u32>,
    ) -> Result<StateTable<u32>, Fault> {
        match StateTable::from_sparse(alloc, self.stored(alloc, grm)?) {
            Ok(table) => Ok(table),
            Err(fault) => Err(of_rows(fault, self.table.number, "the entries make no table")),
        }
    }

    // The stored entries of the table.
    fn stored(self, alloc: Global, grm: &YaccGrammar<u32>) -> Result<SparseRows<u32>, Fault> {
        let states = self.number("states", 0)?;
        let tokens = self.number("tokens", grm.tokens_len())?;
        let rules = self.number("rules", grm.rules_len())?;
        let actions = self.action_rows(alloc, grm, states, tokens)?;
        let gotos = self.goto_rows(alloc, grm, states, rules)?;
        Ok(SparseRows {
            start: StIdx(0),
            states,
            tokens,
            rules,
            actions,
            gotos,
            conflicts: None,
        })
    }

    // What the first `states` states do at the first `tokens` tokens.
    fn action_rows(
        self,
        alloc: Global,
        grm: &YaccGrammar<u32>,
        states: usize,
        tokens: usize,
    ) -> Result<Vec<ActionEntries>, Fault> {
        let mut rows = Vec::new(alloc);
        for state in 0..states {
            rows.push(self.actions(alloc, grm, state, tokens)?)?;
        }
        Ok(rows)
    }

    // Where the first `states` states go by the first `rules` rules.
    fn goto_rows(
        self,
        alloc: Global,
        grm: &YaccGrammar<u32>,
        states: usize,
        rules: usize,
    ) -> Result<Vec<GotoEntries>, Fault> {
        let mut rows = Vec::new(alloc);
        for state in 0..states {
            rows.push(self.gotos(alloc, grm, state, rules)?)?;
        }
        Ok(rows)
    }

    // What the state does at the first `tokens` tokens.
    fn actions(
        self,
        alloc: Global,
        grm: &YaccGrammar<u32>,
        state: usize,
        tokens: usize,
    ) -> Result<ActionEntries, Fault> {
        let mut row = Vec::new(alloc);
        for token in grm.iter_tidxs().take(tokens) {
            match self.said("actions", state, token_name(grm, token)) {
                Some((text, line)) if text != "error" => {
                    row.push((token, action_of(text, line)?))?
                }
                _ => {}
            }
        }
        Ok(row)
    }

    // Where the state goes by the first `rules` rules.
    fn gotos(
        self,
        alloc: Global,
        grm: &YaccGrammar<u32>,
        state: usize,
        rules: usize,
    ) -> Result<GotoEntries, Fault> {
        let mut row = Vec::new(alloc);
        for rule in grm.iter_rules().take(rules) {
            match self.said("gotos", state, rule_name(grm, rule)) {
                Some((text, line)) if text != "none" => {
                    row.push((rule, StIdx(index_of(text, line)?)))?
                }
                _ => {}
            }
        }
        Ok(row)
    }

    // The checked table, made by this call.
    fn data(self, alloc: Global, by: By) -> Result<ParserData<u32>, Fault> {
        let cap = self.cap("cap", CAP)?;
        let grm = self.grammar(alloc)?;
        let graph = self.graph(alloc, &grm)?;
        let table = self.table(alloc, &grm, by)?;
        checked(alloc, self.table, grm, graph, table, cap)
    }
}

/// The checked table of the lines of a case, made by each of the two calls.
pub(crate) fn tables_by_hand(alloc: Global, case: Case<'_, '_>) -> Result<Tables, Fault> {
    let by_rows = Hand::of(case).data(alloc, By::Rows);
    tables_made(by_rows, Hand::of(case).data(alloc, By::Entries))
}

// What follows this name in the first of these lines that is a list of this key and this state with an entry of the name, and the
// number of that line.
fn said_in<'a>(
    lines: &[Line<'a>],
    key: &str,
    state: usize,
    name: &str,
) -> Option<(&'a str, usize)> {
    for line in lines {
        if let Some(list) = list_of(*line, key, state) {
            if let Some(text) = beside(list, name) {
                return Some((text, line.number));
            }
        }
    }
    None
}

// Whether one of these lines is a list of this key and this state with this entry.
fn is_said(lines: &[Line<'_>], key: &str, state: usize, name: &str, text: &str) -> bool {
    match said_in(lines, key, state, name) {
        Some((found, _)) => found == text,
        None => false,
    }
}

// What follows the name in the list.
fn beside<'a>(list: &'a str, name: &str) -> Option<&'a str> {
    for entry in list.split(',') {
        let (word, text) = in_two(entry);
        if word == name {
            return Some(text);
        }
    }
    None
}

// The list of the line, if it has this key and this state: `STATE: LIST`.
fn list_of<'a>(line: Line<'a>, name: &str, state: usize) -> Option<&'a str> {
    let Content::Field { key, value } = line.content else {
        return None;
    };
    let (number, list) = value.split_once(':')?;
    match number.parse::<usize>() {
        Ok(number) if key == name && number == state => Some(list),
        _ => None,
    }
}

// The item `PRODUCTION.DOT TOKEN`.
fn item_of(
    grm: &YaccGrammar<u32>,
    core: &str,
    token: &str,
    line: usize,
) -> Result<Item<u32>, Fault> {
    let (prod, dot) = core.split_once('.').unwrap_or((core, ""));
    Ok((
        PIdx(index_of(prod, line)?),
        number_of(dot, line)?,
        token_of(grm, token, line)?,
    ))
}
