//! Small programs over texts, as a user of the library writes them: a calculator, a completer, a formatter, and two linters. Its words are
//! the name of an example and a file, and then, if you like, more such pairs. If the last example has no file, it reads standard input.
#![tactic(auto)]

mod calculator;
mod completer;
mod example;
mod formatter;
mod language;
mod linter;
mod queries;
mod syntax;

use crate::example::Example;
use crate::language::Failed;
use std::process::ExitCode;
use std::{env, fs, io};

const USAGE: &str =
    "usage: examples EXAMPLE [FILE] .., where EXAMPLE is calculator, completer, formatter, linter or queries";

fn main(rt: HostRuntime) -> Result<ExitCode, Failed> {
    let words: Vec<String> = env::args(&rt)?.skip(1).collect(rt.alloc())?;
    if words.is_empty() || !words.chunks(2).all(names_example) {
        eprintln!(rt; "{USAGE}")?;
        return Ok(ExitCode::from(2));
    }
    for pair in words.chunks(2) {
        run(&rt, pair)?;
    }
    Ok(ExitCode::SUCCESS)
}

// Whether the first of these words is the name of an example.
fn names_example(pair: &[String]) -> bool {
    Example::of_words(pair).is_some()
}

// Prints what an example makes of its file, or of standard input if it has none.
fn run(rt: &HostRuntime, pair: &[String]) -> Result<(), Failed> {
    let Some(example) = Example::of_words(pair) else {
        return Ok(());
    };
    let text = match pair.get(1) {
        Some(file) => fs::read_to_string(rt, file.as_str())?,
        None => io::read_to_string(rt.alloc(), rt.stdin())?,
    };
    let out = example.output(rt.alloc(), text.as_str())?;
    print!(rt; "{out}")?;
    Ok(())
}
