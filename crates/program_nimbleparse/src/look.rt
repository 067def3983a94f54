//! A look at a grammar alone.
use crate::grammar::{GrammarFile, GrammarTable, make_table};
use crate::sizes::{push_sizes, push_table};
use crate::source::source_of;
use program_files::fault::Fault;
use program_files::streams::Status;
use std::alloc::{AllocError, Global};
use std::io::Write;

/// Looks at a grammar: writes messages of what is warned of, and prints how large the grammar and its table are and how many conflicts are
/// left, unless the program is to be quiet. It's a success if nothing is warned of.
pub(crate) fn look_at<O: Write, E: Write>(
    alloc: Global,
    file: GrammarFile<'_>,
    out: &mut O,
    err: &mut E,
) -> Result<Status, Fault> {
    let printer = file.printer(alloc)?;
    let source = source_of(alloc, &printer, file.text, file.asked.kind)?;
    let table = make_table(alloc, file, &printer, source, None, out, err)?;
    if !file.asked.is_quiet {
        print_table(alloc, file, &table, out)?;
    }
    Ok(Status::of(!table.has_warnings))
}

// Prints what is to be said of a grammar and its table.
fn print_table<O: Write>(
    alloc: Global,
    file: GrammarFile<'_>,
    table: &GrammarTable,
    out: &mut O,
) -> Result<(), Fault> {
    let text = table_text(alloc, file, table)?;
    out.write_all(text.as_bytes())?;
    Ok(())
}

// What is to be said of a grammar and its table: how large they are, how many conflicts are left, and more of the table if it is asked for.
fn table_text(
    alloc: Global,
    file: GrammarFile<'_>,
    table: &GrammarTable,
) -> Result<String, AllocError> {
    let mut text = String::new(alloc);
    push_sizes(&mut text, table)?;
    text.push('\n')?;
    push_conflicts_left(&mut text, table)?;
    if file.asked.is_verbose {
        push_table(&mut text, &table.data, file.asked.minimiser)?;
        text.push('\n')?;
    }
    Ok(text)
}

// Adds a line of how many conflicts of each kind are left, and whether the file says so.
fn push_conflicts_left(out: &mut String, table: &GrammarTable) -> Result<(), AllocError> {
    let shifts = table.counts.shift_reduce;
    let reductions = table.counts.reduce_reduce;
    let expected = if table.expects_conflicts {
        ", as expected"
    } else {
        ""
    };
    writeln!(
        out,
        "shift/reduce conflicts {shifts}, reduce/reduce conflicts {reductions}{expected}"
    )
}
