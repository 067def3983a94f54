//! Cases `precedence`: the table of a `.y` file by the precedences that it declares, and a parse by it.
use crate::parse::push_parsed;
use std::alloc::Global;
use std::rt::Files;
use std::{fs, io};
use test_case_lines::cases::Case;
use test_case_lines::fault::Fault;
use test_case_lines::printed::Printed;
use test_case_tables::precedences::{
    built_by_precedences, push_by_precedences, tables_by_precedences,
};

/// The keys of the lines that say what is done.
pub const INPUTS: &[&str] = &[
    "text",
    "file",
    "kind",
    "cap",
    "minimiser",
    "show",
    "lexemes",
    "shifts",
    "repairs",
    "recoverer",
    "costs",
    "avoid",
    "at-most",
    "list",
    "hide",
];

/// The table of the case's file, and what comes of its lexemes, if it has any.
pub fn outcome<R: Files>(
    out: &mut Printed,
    rt: &R,
    alloc: Global,
    case: Case<'_, '_>,
) -> Result<(), Fault> {
    let text = source(rt, alloc, case)?;
    let data = built_by_precedences(alloc, case, text.as_str())?;
    push_by_precedences(out, case, &data);
    match case.value("lexemes") {
        None => Ok(()),
        Some(_) => {
            let tables = tables_by_precedences(alloc, case, text.as_str(), data)?;
            push_parsed(out, alloc, &tables, case)
        }
    }
}

// The text of the case, or of the file that it names.
fn source<R: Files>(rt: &R, alloc: Global, case: Case<'_, '_>) -> Result<String, Fault> {
    match case.value("file") {
        None => case.text(alloc, "text"),
        Some((path, _)) => Ok(io::read_to_string(alloc, fs::open(rt, path)?)?),
    }
}
