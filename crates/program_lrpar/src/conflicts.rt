//! The command `conflicts`: the conflicts of the table of a grammar, and how they were resolved. The table isn't checked.
ghost use Rattle.lrpar_grammar.specs.SpansFit.{SpansFit};
ghost use Rattle.lrpar_table_rows.specs.ConflictsFit.{ConflictsFit};

use lrpar_diagnostics::SpannedDiagnosticFormatter;
use lrpar_grammar::grammar::YaccGrammar;
use lrpar_table::build::from_yacc;
use lrpar_table::table::{Conflicts, StateGraph, StateTable};
use program_files::fault::Fault;
use program_files::tables::MAX_STATES;
use std::alloc::{AllocError, Global};
use std::io::Write;

/// Prints the conflicts of the table of the grammar with this path and text; nothing, if there are none.
pub(crate) fn print_conflicts<O: Write>(
    alloc: Global,
    path: &str,
    grammar: &str,
    out: &mut O,
) -> Result<(), Fault> {
    let grm = YaccGrammar::<u32>::new_with_storaget(alloc, grammar)?;
    let text = text_of_grammar(alloc, path, grammar, &grm)?;
    out.write_all(text.as_bytes())?;
    Ok(())
}

// The text of the conflicts of a grammar.
fn text_of_grammar(
    alloc: Global,
    path: &str,
    grammar: &str,
    grm: &YaccGrammar<u32>,
) -> Result<String, Fault>
    requires { SpansFit grm.now grammar.now }
{
    let (sgraph, stable) = from_yacc(alloc, grm, MAX_STATES)?;
    match stable.conflicts() {
        Some(conflicts) => Ok(text_of_conflicts(
            alloc, path, grammar, grm, conflicts, &sgraph, &stable,
        )?),
        None => Ok(String::new(alloc)),
    }
}

// The text of these conflicts.
fn text_of_conflicts(
    alloc: Global,
    path: &str,
    grammar: &str,
    grm: &YaccGrammar<u32>,
    conflicts: &Conflicts<u32>,
    sgraph: &StateGraph<u32>,
    stable: &StateTable<u32>,
) -> Result<String, AllocError>
    requires spans { SpansFit grm.now grammar.now }
    requires conflicts { ConflictsFit grm.now conflicts.now }
{
    match SpannedDiagnosticFormatter::new(alloc, grammar, path) {
        Ok(formatter) => formatter.format_conflicts(alloc, grm, conflicts, sgraph, stable),
        Err(error) => Err(error),
    }
}
