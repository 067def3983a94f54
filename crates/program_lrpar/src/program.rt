//! The whole program: it reads its words as a command, and writes the answer to standard output, or one line about a fault to
//! standard error.
ghost use Rattle.std.specs.Prelude.{◌≤◌};

use crate::arguments::{Command, TreePaths, command_of};
use crate::calc::run_calc;
use crate::check::run_check;
use crate::conflicts::print_conflicts;
use crate::demo::run_demo;
use crate::fault_line::FaultLine;
use crate::tree::{TreeTexts, run_tree};
use program_files::fault::Fault;
use program_files::files::{file_text, text_if_any};
use program_files::streams::{Status, exit_status, flush_answer, words};
use std::alloc::Global;
use std::io::{BufWriter, Read, Write};
use std::rt::Files;

/// Runs the program on the process's own arguments and streams, and returns its exit status, as [`run`] does. An argument that
/// isn't UTF-8 is a wrong one.
pub fn run_of_process(rt: &HostRuntime) -> u8
    ensures status { result ≤ 2 }
{
    match words(rt) {
        Ok(args) => run(rt, rt.alloc(), &args, rt.stdin(), rt.stdout(), rt.stderr()),
        Err(error) => exit_status(
            Err(FaultLine(Fault::of_arguments(&error))),
            &mut rt.stderr(),
        ),
    }
}

/// Runs the program and returns its exit status: 0 for an answer, 1 for an answer on an input with errors, 2 for no
/// answer. `args` are the words after the program's name, and `rt` reads the files that they name.
///
/// Answers are written to `out`. A command without an answer writes one line to `err` that says why: its words are wrong,
/// an allocation failed or `out` failed, say. A failure of `err` is ignored.
///
/// `out` is buffered: it is flushed before something is written to `err`, and at the end.
pub fn run<R: Files, I: Read + Drop, O: Write + Drop, E: Write + Drop>(
    rt: &R,
    alloc: Global,
    args: &[String],
    input: I,
    out: O,
    mut err: E,
) -> u8
    ensures status { result ≤ 2 }
{
    let ending = run_buffered(rt, alloc, args, input, out, &mut err);
    exit_status(ending.map_err(FaultLine), &mut err)
}

// Runs the command over a buffered `out`, and returns its status after `out` is flushed.
fn run_buffered<R: Files, I: Read + Drop, O: Write + Drop, E: Write>(
    rt: &R,
    alloc: Global,
    args: &[String],
    input: I,
    out: O,
    err: &mut E,
) -> Result<Status, Fault> {
    match BufWriter::new(alloc, out) {
        Ok(mut out) => {
            let status = run_command(rt, alloc, args, input, &mut out, err);
            flush_answer(status, out)
        }
        Err(_) => Err(Fault::Memory),
    }
}

// Runs the command, which prints its answer, and returns its status.
fn run_command<R: Files, I: Read + Drop, O: Write, E: Write>(
    rt: &R,
    alloc: Global,
    args: &[String],
    input: I,
    out: &mut O,
    err: &mut E,
) -> Result<Status, Fault> {
    match command_of(args)? {
        Command::Demo { text } => Ok(Status::of(run_demo(alloc, text, out)?)),
        Command::Tree { shifts, paths } => {
            Ok(Status::of(tree_files(rt, alloc, paths, shifts, out)?))
        }
        Command::Check { grammar, cap } => check_file(rt, alloc, grammar, cap, out),
        Command::Conflicts { grammar } => {
            print_file_conflicts(rt, alloc, grammar, out)?;
            Ok(Status::Success)
        }
        Command::Calc { shifts, repairs } => {
            let clean = compute_standard_input(rt, alloc, repairs, shifts, input, out, err)?;
            Ok(Status::of(clean))
        }
    }
}

// Prints the errors and the tree of a file. Returns whether there is a tree, and no error.
fn tree_files<R: Files, O: Write>(
    rt: &R,
    alloc: Global,
    paths: TreePaths<'_>,
    shifts: Option<usize>,
    out: &mut O,
) -> Result<bool, Fault> {
    let texts = tree_texts(rt, alloc, paths)?;
    run_tree(alloc, &texts, shifts, out)
}

// The texts of the files that `tree` reads.
fn tree_texts<R: Files>(rt: &R, alloc: Global, paths: TreePaths<'_>) -> Result<TreeTexts, Fault> {
    Ok(TreeTexts {
        grammar: file_text(rt, alloc, paths.grammar)?,
        lexer: file_text(rt, alloc, paths.lexer)?,
        input: file_text(rt, alloc, paths.input)?,
        repairs: text_if_any(rt, alloc, paths.repairs)?,
    })
}

// Checks the table of a file's grammar, and prints what the check says. There is no answer if it doesn't pass.
fn check_file<R: Files, O: Write>(
    rt: &R,
    alloc: Global,
    grammar: &str,
    cap: u16,
    out: &mut O,
) -> Result<Status, Fault> {
    let grammar = file_text(rt, alloc, grammar)?;
    if run_check(alloc, grammar.as_str(), cap, out)? {
        Ok(Status::Success)
    } else {
        Ok(Status::NoAnswer)
    }
}

// Prints the conflicts of the table of a file's grammar.
fn print_file_conflicts<R: Files, O: Write>(
    rt: &R,
    alloc: Global,
    path: &str,
    out: &mut O,
) -> Result<(), Fault> {
    let grammar = file_text(rt, alloc, path)?;
    print_conflicts(alloc, path, grammar.as_str(), out)
}

// Computes the lines of standard input, with the repairs of a file. Returns whether each has a number, and no error.
fn compute_standard_input<R: Files, I: Read + Drop, O: Write, E: Write>(
    rt: &R,
    alloc: Global,
    repairs: Option<&str>,
    shifts: Option<usize>,
    input: I,
    out: &mut O,
    err: &mut E,
) -> Result<bool, Fault> {
    let repairs = text_if_any(rt, alloc, repairs)?;
    run_calc(alloc, repairs.as_str(), shifts, input, out, err)
}
