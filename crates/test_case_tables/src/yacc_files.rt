//! Grammars of `.y` files as bison reads them, and how many states and conflicts their tables have.
use crate::faults::of_grammar;
use crate::subject::MAX_STATES;
use lrpar_grammar::grammar::YaccGrammar;
use lrpar_grammar::span::{PIdx, Symbol, TIdx};
use lrpar_grammar_bison_parts::faults::BisonFault;
use lrpar_grammar_bison_parts::grammar::BisonGrammar;
use lrpar_table::build::BuildFault;
use lrpar_table::table::StateTable;
use lrpar_table_options::{Minimiser, TableOptions};
use lrpar_table_precedence::precedences::{AssocKind, Precedence, Precedences};
use std::alloc::Global;
use test_case_lines::cases::Case;
use test_case_lines::fault::Fault;
use test_case_lines::names::{rule_name, token_name};
use test_case_lines::printed::Printed;

/// The keys that say what is done.
pub const INPUTS: &[&str] = &["file"];

/// The grammar of the file, and the sizes of its tables; or why there is none.
pub fn outcome(out: &mut Printed, alloc: Global, case: Case<'_, '_>) -> Result<(), Fault> {
    let file = case.text(alloc, "file")?;
    match BisonGrammar::<u32>::read(alloc, file.as_str()) {
        Ok(BisonGrammar { parts, precedences }) => {
            match YaccGrammar::from_parts(alloc, parts) {
                Ok(grm) => push_grammar(out, alloc, case, &grm, &precedences),
                Err(fault) => Err(of_grammar(fault, case.number, "the parts are no grammar")),
            }
        }
        Err(BisonFault::Memory) => Err(Fault::Memory),
        Err(fault) => {
            out.text("fault ");
            out.debug(&fault);
            out.text("\n");
            Ok(())
        }
    }
}

// The rules, tokens and productions of the grammar, and the sizes of its tables.
fn push_grammar(
    out: &mut Printed,
    alloc: Global,
    case: Case<'_, '_>,
    grm: &YaccGrammar<u32>,
    precedences: &Precedences,
) -> Result<(), Fault> {
    push_rules(out, grm);
    push_tokens(out, grm);
    for prod in grm.iter_pidxs() {
        push_prod(out, grm, prod, precedences);
    }
    let merged = table_of(alloc, case, grm, precedences, Minimiser::Pager)?;
    let canonical = table_of(alloc, case, grm, precedences, Minimiser::Canonical)?;
    push_sizes(out, &merged, &canonical);
    Ok(())
}

// A line with the names of the rules, of which the added one is the first.
fn push_rules(out: &mut Printed, grm: &YaccGrammar<u32>) {
    out.text("rules");
    for rule in grm.iter_rules() {
        out.texts(" ", rule_name(grm, rule));
    }
    out.text("\n");
}

// A line with the tokens but for the end token.
fn push_tokens(out: &mut Printed, grm: &YaccGrammar<u32>) {
    out.text("tokens");
    for token in grm.iter_tidxs() {
        if token != grm.eof_token_idx() {
            push_token(out, grm, token);
        }
    }
    out.text("\n");
}

// The name of a token, and its printed text, if that is something else.
fn push_token(out: &mut Printed, grm: &YaccGrammar<u32>, token: TIdx<u32>) {
    let name = token_name(grm, token);
    out.text(" ");
    out.push_quoted('\'', name);
    if usize::from(token) < grm.tokens_len() {
        match grm.token_epp(token) {
            Some(epp) if epp != name => {
                out.text("=");
                out.push_quoted('"', epp);
            }
            _ => {}
        }
    }
}

// A production: its rule, its symbols, and its precedence, if it has one.
fn push_prod(
    out: &mut Printed,
    grm: &YaccGrammar<u32>,
    prod: PIdx<u32>,
    precedences: &Precedences,
) {
    if usize::from(prod) < grm.prods_len() {
        out.texts("production ", rule_name(grm, grm.prod_to_rule(prod)));
        out.text(":");
        push_symbols(out, grm, grm.prod(prod));
        push_precedence(out, precedences.prod_precedence(prod));
        out.text("\n");
    }
}

// Symbols; the names of tokens in quotes.
fn push_symbols(out: &mut Printed, grm: &YaccGrammar<u32>, symbols: &[Symbol<u32>]) {
    for symbol in symbols {
        out.text(" ");
        match symbol {
            Symbol::Rule(rule) => out.text(rule_name(grm, *rule)),
            Symbol::Token(token) => out.push_quoted('\'', token_name(grm, *token)),
        }
    }
}

// A precedence, if there is one: how its level associates, and the number of the level.
fn push_precedence(out: &mut Printed, precedence: Option<Precedence>) {
    if let Some(Precedence { level, kind }) = precedence {
        out.text(match kind {
            AssocKind::Left => ", left",
            AssocKind::Right => ", right",
            AssocKind::Nonassoc => ", nonassoc",
            AssocKind::Undeclared => ", precedence",
        });
        out.number(" ", level);
    }
}

// The table of the grammar, with merged item sets or canonical ones.
fn table_of(
    alloc: Global,
    case: Case<'_, '_>,
    grm: &YaccGrammar<u32>,
    precedences: &Precedences,
    minimiser: Minimiser,
) -> Result<StateTable<u32>, Fault> {
    let options = TableOptions::new()
        .precedences(precedences)
        .minimiser(minimiser)
        .max_states(MAX_STATES);
    match options.state_table(alloc, grm) {
        Ok((_, table)) => Ok(table),
        Err(BuildFault::Memory) => Err(Fault::Memory),
        Err(_) => Err(Fault::Line(case.number, "the grammar has no table")),
    }
}

// How many states both tables have, and how many conflicts the merged one.
fn push_sizes(out: &mut Printed, merged: &StateTable<u32>, canonical: &StateTable<u32>) {
    let (shifts, reductions) = match merged.conflicts() {
        Some(conflicts) => (conflicts.sr_len(), conflicts.rr_len()),
        None => (0, 0),
    };
    out.number("states ", merged.states_len());
    out.number(", canonical ", canonical.states_len());
    out.number("; shift/reduce ", shifts);
    out.number(", reduce/reduce ", reductions);
    out.text("\n");
}
