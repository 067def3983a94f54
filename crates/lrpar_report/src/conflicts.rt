//! Reports of the conflicts of a table.
use crate::choices::{push_more, push_quoted, push_token};
use lrpar_grammar::grammar::YaccGrammar;
use lrpar_grammar::span::{PIdx, StIdx, StorageIndex, TIdx};
use lrpar_report_lines::Report;
use lrpar_table::table::{Conflicts, StateTable};
use std::alloc::{AllocError, Global};
use std::collections::BTreeMap;

/// How many states of a conflict are named at most.
const MOST_STATES: usize = 8;

/// A conflict of a grammar, and the states in which it is.
struct Group<StorageT: StorageIndex> {
    token: TIdx<StorageT>,
    /// The production that can be reduced; of two, the first one.
    prod: PIdx<StorageT>,
    /// The other production that can be reduced; `None` if the token can be shifted.
    other: Option<PIdx<StorageT>>,
    states: Vec<usize>,
}

// Hand-written, so that code that drops one needs the proof of one call only.
impl<StorageT: StorageIndex> Drop for Group<StorageT> {
    fn drop(self) {
        let Group {
            token: _,
            prod: _,
            other: _,
            states,
        } = self;
        drop(states);
    }
}

/// The groups so far, and the place of each by token and productions.
struct Groups<StorageT: StorageIndex> {
    groups: Vec<Group<StorageT>>,
    places: BTreeMap<(usize, usize, usize), usize>,
}

// Hand-written, as above.
impl<StorageT: StorageIndex> Drop for Groups<StorageT> {
    fn drop(self) {
        let Groups { groups, places } = self;
        drop(groups);
        drop(places);
    }
}

/// A warning for each conflict of the grammar: first those between two reductions, then those between a shift and a reduction, in the
/// order in which the table lists the first state of each. A conflict that is in several states, with the same token and the same
/// productions, is one report, which names the states. There are none if the table has no conflicts.
///
/// `grm` should be the grammar of the table. A conflict whose productions it doesn't have is a report without places.
///
/// Takes time O(n log n) for n conflicts, and time linear in the reports. `Err`: out of memory.
pub fn conflict_reports<StorageT: StorageIndex>(
    alloc: Global,
    grm: &YaccGrammar<StorageT>,
    stable: &StateTable<StorageT>,
) -> Result<Vec<Report>, AllocError> {
    match stable.conflicts() {
        Some(conflicts) => {
            let mut groups = Groups::new(alloc);
            groups.add_all(alloc, conflicts)?;
            reports_of(alloc, grm, &groups.groups)
        }
        None => Ok(Vec::new(alloc)),
    }
}

// A warning for each of these conflicts.
fn reports_of<StorageT: StorageIndex>(
    alloc: Global,
    grm: &YaccGrammar<StorageT>,
    groups: &[Group<StorageT>],
) -> Result<Vec<Report>, AllocError> {
    let mut reports = Vec::new(alloc);
    for group in groups {
        push_report(&mut reports, alloc, grm, group)?;
    }
    Ok(reports)
}

impl<StorageT: StorageIndex> Groups<StorageT> {
    // No groups so far.
    fn new(alloc: Global) -> Self {
        Groups {
            groups: Vec::new(alloc),
            places: BTreeMap::new(alloc),
        }
    }

    // Adds the states of these conflicts.
    fn add_all(
        &mut self,
        alloc: Global,
        conflicts: &Conflicts<StorageT>,
    ) -> Result<(), AllocError> {
        for (token, first, second, state) in conflicts.rr_conflicts() {
            self.add(alloc, *token, *first, Some(*second), *state)?;
        }
        for (token, prod, state) in conflicts.sr_conflicts() {
            self.add(alloc, *token, *prod, None, *state)?;
        }
        Ok(())
    }

    // Adds a state of a conflict.
    fn add(
        &mut self,
        alloc: Global,
        token: TIdx<StorageT>,
        prod: PIdx<StorageT>,
        other: Option<PIdx<StorageT>>,
        state: StIdx<StorageT>,
    ) -> Result<(), AllocError> {
        let key = key_of(token, prod, other);
        let place = match self.places.get(&key) {
            Some(place) => *place,
            None => self.groups.len(),
        };
        match self.groups.get_mut(place) {
            Some(group) => group.states.push(usize::from(state))?,
            None => {
                self.places.insert(key, place)?;
                let states = vec![in alloc; usize::from(state)]?;
                self.groups.push(Group {
                    token,
                    prod,
                    other,
                    states,
                })?;
            }
        }
        Ok(())
    }
}

// The numbers of the token and the productions.
fn key_of<StorageT: StorageIndex>(
    token: TIdx<StorageT>,
    prod: PIdx<StorageT>,
    other: Option<PIdx<StorageT>>,
) -> (usize, usize, usize) {
    let other = match other {
        Some(other) => usize::from(other),
        None => usize::MAX,
    };
    (usize::from(token), usize::from(prod), other)
}

// Adds the warning of a conflict.
fn push_report<StorageT: StorageIndex>(
    reports: &mut Vec<Report>,
    alloc: Global,
    grm: &YaccGrammar<StorageT>,
    group: &Group<StorageT>,
) -> Result<(), AllocError> {
    let mut message = String::new(alloc);
    push_message(&mut message, grm, group)?;
    let report = Report::warning(alloc, message.as_str())?;
    reports.push(with_labels(report, grm, group)?)?;
    Ok(())
}

// Adds the message of the warning of a conflict.
fn push_message<StorageT: StorageIndex>(
    out: &mut String,
    grm: &YaccGrammar<StorageT>,
    group: &Group<StorageT>,
) -> Result<(), AllocError> {
    out.push_str("conflict at ")?;
    push_token(out, grm, group.token)?;
    push_states(out, &group.states)?;
    out.push_str(": ")?;
    push_moves(out, grm, group)
}

// The report with labels at the productions of the conflict.
fn with_labels<StorageT: StorageIndex>(
    report: Report,
    grm: &YaccGrammar<StorageT>,
    group: &Group<StorageT>,
) -> Result<Report, AllocError> {
    match group.other {
        None => labelled(report, grm, group.prod, "this could be reduced instead"),
        Some(other) => {
            let report = labelled(
                report,
                grm,
                group.prod,
                "this comes first, so it is preferred",
            )?;
            labelled(report, grm, other, "this could be reduced instead")
        }
    }
}

// The report with a label at the production, if the grammar has it.
fn labelled<StorageT: StorageIndex>(
    report: Report,
    grm: &YaccGrammar<StorageT>,
    prod: PIdx<StorageT>,
    text: &str,
) -> Result<Report, AllocError> {
    if usize::from(prod) < grm.prods_len() {
        report.label(grm.prod_span(prod), text)
    } else {
        Ok(report)
    }
}

// Adds the states: ` in state 1`, or ` in states 1, 2 and 3`, or the first ones and how many more there are.
fn push_states(out: &mut String, states: &[usize]) -> Result<(), AllocError> {
    let named = states.get(..MOST_STATES).unwrap_or(states);
    let more = states.len().saturating_sub(named.len());
    for (place, state) in named.iter().enumerate() {
        let left = named.len().saturating_sub(place).saturating_add(more);
        out.push_str(before_state(place, left))?;
        write!(out, "{state}")?;
    }
    push_more(out, " and ", more)
}

// What comes before the state at a place of a list, if `left` states are left with it.
fn before_state(place: usize, left: usize) -> &'static str {
    match (place, left) {
        (0, 1) => " in state ",
        (0, _) => " in states ",
        (_, 1) => " and ",
        _ => ", ",
    }
}

// Adds what the parser can do at the token.
fn push_moves<StorageT: StorageIndex>(
    out: &mut String,
    grm: &YaccGrammar<StorageT>,
    group: &Group<StorageT>,
) -> Result<(), AllocError> {
    match group.other {
        None => {
            out.push_str("the token is shifted, and ")?;
            push_rule_of(out, grm, group.prod)?;
            out.push_str(" isn't reduced")
        }
        Some(other) => {
            push_rule_of(out, grm, group.prod)?;
            out.push_str(" or ")?;
            push_rule_of(out, grm, other)?;
            out.push_str(" can be reduced")
        }
    }
}

/// Adds the name of the rule of a production, in quotes.
pub(crate) fn push_rule_of<StorageT: StorageIndex>(
    out: &mut String,
    grm: &YaccGrammar<StorageT>,
    prod: PIdx<StorageT>,
) -> Result<(), AllocError> {
    if usize::from(prod) < grm.prods_len() {
        push_quoted(out, grm.rule_name_str(grm.prod_to_rule(prod)))
    } else {
        Ok(())
    }
}
