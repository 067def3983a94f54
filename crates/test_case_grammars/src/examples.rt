//! Cases of the counterexamples of conflicts.
ghost use Rattle.lrpar_table_build.specs.Built.{IsBuilt};
ghost use Rattle.lrpar_conflict_examples.specs.ExamplesFit.{ExamplesFit};

use lrpar_conflict_examples::examples::{
    ConflictExample, ExampleFault, conflict_examples, format_examples,
};
use lrpar_grammar::grammar::{GrammarFault, YaccGrammar};
use lrpar_table_build::build::{BuildFault, from_yacc};
use lrpar_table_rows::table::{StateGraph, StateTable};
use std::alloc::Global;
use std::rt::Files;
use std::{fs, io};
use test_case_lines::cases::Case;
use test_case_lines::fault::Fault;
use test_case_lines::printed::Printed;
use test_case_lines::values::number_at;

/// The keys of the lines that say what is done.
pub const INPUTS: &[&str] = &["text", "grammar", "bound", "show"];

/// The counterexamples of the conflicts of the grammar's table.
pub fn outcome<R: Files>(
    printed: &mut Printed,
    rt: &R,
    alloc: Global,
    case: Case<'_, '_>,
) -> Result<(), Fault> {
    let text = source(rt, alloc, case)?;
    match YaccGrammar::<u16>::new_with_storaget(alloc, text.as_str()) {
        Ok(grm) => push_of_grammar(printed, alloc, case, &grm),
        Err(GrammarFault::Memory) => Err(Fault::Memory),
        Err(_) => Err(Fault::Line(case.number, "the text is no grammar")),
    }
}

// The grammar's text: that of the case, or of the file that it names.
fn source<R: Files>(rt: &R, alloc: Global, case: Case<'_, '_>) -> Result<String, Fault> {
    match case.value("grammar") {
        None => case.text(alloc, "text"),
        Some((path, _)) => Ok(io::read_to_string(alloc, fs::open(rt, path)?)?),
    }
}

// The counterexamples of the table that is built of the grammar.
fn push_of_grammar(
    printed: &mut Printed,
    alloc: Global,
    case: Case<'_, '_>,
    grm: &YaccGrammar<u16>,
) -> Result<(), Fault> {
    match from_yacc(alloc, grm, 10_000) {
        Ok((graph, table)) => push_of_table(printed, alloc, case, grm, &graph, &table),
        Err(BuildFault::Memory) => Err(Fault::Memory),
        Err(_) => Err(Fault::Line(case.number, "the grammar has no table")),
    }
}

// The counterexamples of a table.
fn push_of_table(
    printed: &mut Printed,
    alloc: Global,
    case: Case<'_, '_>,
    grm: &YaccGrammar<u16>,
    graph: &StateGraph<u16>,
    table: &StateTable<u16>,
) -> Result<(), Fault>
    requires { IsBuilt grm.now graph.now table.now }
{
    let bound = number_at(case, "bound", 1000)?;
    match conflict_examples(alloc, grm, graph, table, bound) {
        Ok(examples) => push_shown(printed, alloc, case, grm, table, &examples),
        Err(ExampleFault::Memory) => printed.lack_memory(),
        Err(fault) => printed.line("fault ", &fault),
    }
    Ok(())
}

// What the case asks for: the text of the counterexamples, or how many there are.
fn push_shown(
    printed: &mut Printed,
    alloc: Global,
    case: Case<'_, '_>,
    grm: &YaccGrammar<u16>,
    table: &StateTable<u16>,
    examples: &[ConflictExample<u16>],
)
    requires { ExamplesFit grm.now examples.now }
{
    let Ok(text) = format_examples(alloc, grm, examples) else {
        return printed.lack_memory();
    };
    if case.value_or_nothing("show") == "count" {
        push_count(printed, table, examples, text.as_str());
    } else {
        printed.field("examples", text.as_str());
    }
}

// How many conflicts, counterexamples and texts of them there are, and how many of these have one text with two derivations.
fn push_count(
    printed: &mut Printed,
    table: &StateTable<u16>,
    examples: &[ConflictExample<u16>],
    text: &str,
) {
    let conflicts = match table.conflicts() {
        Some(conflicts) => conflicts.rr_len().saturating_add(conflicts.sr_len()),
        None => 0,
    };
    printed.number("count ", conflicts);
    printed.number(" conflicts, ", examples.len());
    printed.number(" examples, ", text.matches("\n\n").count());
    printed.number(
        " texts, ",
        text.matches("one text, two derivations\n").count(),
    );
    printed.text(" ambiguous\n");
}
