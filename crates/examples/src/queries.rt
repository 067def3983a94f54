//! A linter of queries: the errors of a file, with fixes, and what may be wrong with its statements. The grammar is in `queries.y`, of which
//! `nimbleparse --rust` makes `syntax.rt`.
mod language;
mod lints;
pub(crate) mod tree;
mod values;

use crate::language::{Failed, language_of, push_reports};
use crate::queries::language::LEXER;
use crate::queries::lints::push_lints;
use crate::queries::values::Queries;
use crate::syntax::{GRAMMAR, has_syntax, parse_file};
use lrpar::RTParserBuilder;
use lrpar::repair::CpctPlus;
use lrpar_language::Language;
use std::alloc::Global;

/// The reports about the file: its errors, and what may be wrong with the statements of the file as repaired.
pub(crate) fn run(alloc: Global, text: &str) -> Result<String, Failed> {
    let queries = language_of(alloc, GRAMMAR, LEXER)?;
    lint(alloc, &queries, text)
}

fn lint(alloc: Global, queries: &Language, text: &str) -> Result<String, Failed> {
    if !has_syntax(queries.data()) {
        return Err(Failed::OtherGrammar);
    }
    let lexer = queries.lexer(alloc, text)?;
    let parser = RTParserBuilder::new(queries.data()).recoverer(CpctPlus::new(10_000));
    let (file, errors) = parse_file(alloc, &parser, &lexer, &Queries)?;
    let mut reports = queries.error_reports(alloc, text, &errors)?;
    if let Some(file) = &file {
        push_lints(&mut reports, alloc, file)?;
    }
    let mut out = String::new(alloc);
    push_reports(&mut out, alloc, "input", text, &reports)?;
    Ok(out)
}
