//! Tables by the precedences of `.y` files, and how they resolve conflicts.
use crate::faults::of_file;
use crate::rows::{push_conflicts, push_place};
use crate::subject::{MAX_STATES, Tables, of_unbuilt, read_back};
use lrpar_grammar::grammar::YaccGrammar;
use lrpar_grammar::span::{PIdx, TIdx};
use lrpar_grammar_yacc::file::YaccFile;
use lrpar_table::check::ParserData;
use lrpar_table::table::StateTable;
use lrpar_table_levels::precedences_of_declarations;
use lrpar_table_options::{Minimiser, TableOptions};
use lrpar_table_precedence::precedences::Resolution;
use std::alloc::Global;
use test_case_lines::cases::Case;
use test_case_lines::fault::Fault;
use test_case_lines::names::token_name;
use test_case_lines::printed::Printed;
use test_case_lines::values::{cap_at, kind_of};

/// The checked table of the file's text, by the precedences that it declares.
pub fn built_by_precedences(
    alloc: Global,
    case: Case<'_, '_>,
    text: &str,
) -> Result<ParserData<u32>, Fault> {
    let cap = cap_at(case, "cap")?;
    let (grammar, text) = file_of(alloc, case, text)?.into_parts();
    let precedences = precedences_of_declarations(alloc, &grammar, &text.declarations)?;
    let minimiser = match case.value_or_nothing("minimiser") {
        "pager" => Minimiser::Pager,
        _ => Minimiser::Canonical,
    };
    let options = TableOptions::new()
        .precedences(&precedences)
        .minimiser(minimiser)
        .max_states(MAX_STATES)
        .cap(cap);
    match options.build(alloc, grammar) {
        Ok(data) => Ok(data),
        Err(unbuilt) => Err(of_unbuilt(&unbuilt, case.number)),
    }
}

/// That table, and the same one made of its rows.
pub fn tables_by_precedences(
    alloc: Global,
    case: Case<'_, '_>,
    text: &str,
    by_entries: ParserData<u32>,
) -> Result<Tables, Fault> {
    let (grammar, _) = file_of(alloc, case, text)?.into_parts();
    let by_rows = read_back(alloc, case, grammar, &by_entries)?;
    Ok(Tables {
        by_rows,
        by_entries,
    })
}

// The grammar of the file's text, with what the file declares.
fn file_of<'a>(
    alloc: Global,
    case: Case<'_, '_>,
    text: &'a str,
) -> Result<YaccFile<'a, u32>, Fault> {
    match YaccFile::new_with_kind(alloc, kind_of(case), text) {
        Ok(file) => Ok(file),
        Err(fault) => Err(of_file(&fault, case.number, "the text is no grammar")),
    }
}

/// Adds how many states the table has, how many conflicts were resolved in each way, and how many are listed. If the case asks, it
/// adds each of them by its state, or how many there are of each token and production, so that no number of a state is seen.
pub fn push_by_precedences(out: &mut Printed, case: Case<'_, '_>, data: &ParserData<u32>) {
    let table = data.stable();
    out.line("states ", &table.states_len());
    push_counts(out, table);
    match case.value_or_nothing("show") {
        "conflicts" => {
            push_resolved(out, data.grm(), table);
            push_conflicts(out, data.grm(), table);
        }
        "pairs" => push_pairs(out, data.grm(), table),
        _ => {}
    }
}

// How many conflicts were resolved in each way, and how many are listed.
fn push_counts(out: &mut Printed, table: &StateTable<u32>) {
    let mut counts = Counts::default();
    for (_, _, _, resolution) in table.resolved().as_slice() {
        counts.add(*resolution);
    }
    let (shifts, reductions) = match table.conflicts() {
        Some(conflicts) => (conflicts.sr_len(), conflicts.rr_len()),
        None => (0, 0),
    };
    out.number("resolved shifts ", counts.shifts);
    out.number(", reduces ", counts.reduces);
    out.number(", fails ", counts.fails);
    out.number("\nlisted shift/reduce ", shifts);
    out.line(", reduce/reduce ", &reductions);
}

// The resolved conflicts, a line each.
fn push_resolved(out: &mut Printed, grm: &YaccGrammar<u32>, table: &StateTable<u32>) {
    for (token, prod, state, resolution) in table.resolved().as_slice() {
        push_place(out, "resolved", grm, *state, *token);
        out.number(": shift or reduce ", usize::from(*prod));
        out.text(match resolution {
            Resolution::Shift => ", shifts\n",
            Resolution::Reduce => ", reduces\n",
            Resolution::Error => ", fails\n",
        });
    }
}

// For each token and production with conflicts, in how many states they were resolved in each way, and in how many they are listed.
fn push_pairs(out: &mut Printed, grm: &YaccGrammar<u32>, table: &StateTable<u32>) {
    for token in grm.iter_tidxs() {
        for prod in grm.iter_pidxs() {
            push_pair(out, grm, table, token, prod);
        }
    }
}

// Adds what is decided of one token and one production, if both have a precedence.
fn push_pair(
    out: &mut Printed,
    grm: &YaccGrammar<u32>,
    table: &StateTable<u32>,
    token: TIdx<u32>,
    prod: PIdx<u32>,
) {
    let counts = Counts::of(table, token, prod);
    if counts == Counts::default() {
        return;
    }
    out.texts("pair ", token_name(grm, token));
    out.number(" ", usize::from(prod));
    out.number(": shifts ", counts.shifts);
    out.number(", reduces ", counts.reduces);
    out.number(", fails ", counts.fails);
    out.line(", listed ", &counts.listed);
}

// In how many states the conflicts of a token and a production were resolved in each way, and in how many they are listed.
#[derive(Clone, Copy, Default, PartialEq, Eq)]
struct Counts {
    shifts: usize,
    reduces: usize,
    fails: usize,
    listed: usize,
}

impl Counts {
    // Those of this table.
    fn of(table: &StateTable<u32>, token: TIdx<u32>, prod: PIdx<u32>) -> Self {
        let mut counts = Counts::default();
        for (at, by, _, resolution) in table.resolved().as_slice() {
            if *at == token && *by == prod {
                counts.add(*resolution);
            }
        }
        if let Some(conflicts) = table.conflicts() {
            for (at, by, _) in conflicts.sr_conflicts() {
                if *at == token && *by == prod {
                    counts.listed = counts.listed.saturating_add(1);
                }
            }
        }
        counts
    }

    // Counts one that was resolved in this way.
    fn add(&mut self, resolution: Resolution) {
        match resolution {
            Resolution::Shift => self.shifts = self.shifts.saturating_add(1),
            Resolution::Reduce => self.reduces = self.reduces.saturating_add(1),
            Resolution::Error => self.fails = self.fails.saturating_add(1),
        }
    }
}
