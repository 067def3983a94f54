//! Cases of the programs `lrpar` and `nimbleparse`: what they write and end with, by words, files and standard input.
use crate::streams::push_rounds;
use program_lrpar::run;
use program_nimbleparse::{Look, Terminal};
use std::alloc::Global;
use std::fs;
use std::rt::Files;
use test_case_lines::cases::{Case, bytes_below};
use test_case_lines::fault::Fault;
use test_case_lines::line::{Content, Line, in_two};
use test_case_lines::printed::Printed;
use test_case_lines::text::unescaped;

/// The keys of the lines that say what is done: words, one more word, a file, and standard input.
pub const INPUTS: &[&str] = &["words", "word", "file", "stdin"];

/// Streams that aren't those of a terminal.
const NO_TERMINAL: Terminal = Terminal {
    look: Look::Plain,
    shows_progress: false,
};

/// What a case says of a stream that may have any text.
const ANYTHING: &str = "..";

/// What the program of the case's kind writes to its two streams, and its status; or the same if its streams fail. The files of the
/// case are there while it runs.
pub fn outcome<R: Files>(
    out: &mut Printed,
    rt: &R,
    alloc: Global,
    case: Case<'_, '_>,
) -> Result<(), Fault> {
    write_files(rt, alloc, case.lines)?;
    let ran = push_run(out, rt, alloc, case);
    remove_files(rt, case.lines)?;
    ran
}

// Runs the command with the files in their places, and adds what it writes.
fn push_run<R: Files>(
    out: &mut Printed,
    rt: &R,
    alloc: Global,
    case: Case<'_, '_>,
) -> Result<(), Fault> {
    let words = words_of(alloc, case.lines)?;
    let input = case.bytes(alloc, "stdin")?;
    match case.kind {
        "streams" => push_rounds(out, rt, alloc, case, &words, &input),
        _ => {
            push_ending(out, rt, alloc, case, &words, &input);
            Ok(())
        }
    }
}

// Runs the command with these words and this input, and adds what it writes.
fn push_ending<R: Files>(
    out: &mut Printed,
    rt: &R,
    alloc: Global,
    case: Case<'_, '_>,
    words: &[String],
    input: &[u8],
) {
    let (mut stdout, mut stderr) = (Vec::new(alloc), Vec::new(alloc));
    let status = match case.kind {
        "nimble" => program_nimbleparse::run(
            rt,
            alloc,
            words,
            NO_TERMINAL,
            input,
            &mut stdout,
            &mut stderr,
        ),
        _ => run(rt, alloc, words, input, &mut stdout, &mut stderr),
    };
    push_stream(out, case, "out", &stdout);
    push_stream(out, case, "err", &stderr);
    out.line("status ", &status);
}

// Adds what was written to a stream, under its key.
fn push_stream(out: &mut Printed, case: Case<'_, '_>, key: &str, bytes: &[u8]) {
    match str::from_utf8(bytes) {
        Ok(_) if case.value_or_nothing(key) == ANYTHING => out.field(key, ANYTHING),
        Ok(text) => out.field(key, text),
        Err(_) => out.texts(key, " has bytes that aren't UTF-8\n"),
    }
}

// The words of these lines.
fn words_of(alloc: Global, lines: &[Line<'_>]) -> Result<Vec<String>, Fault> {
    let mut words = Vec::new(alloc);
    for line in lines {
        push_words(alloc, *line, &mut words)?;
    }
    Ok(words)
}

// Adds the words of a line, if it has any.
fn push_words(alloc: Global, line: Line<'_>, words: &mut Vec<String>) -> Result<(), Fault> {
    match line.content {
        Content::Field {
            key: "words",
            value,
        } => push_parts(alloc, value, words),
        Content::Field { key: "word", value } => {
            Ok(words.push(word_of(alloc, value, line.number)?)?)
        }
        Content::Field { .. } | Content::Header { .. } | Content::Text(_) => Ok(()),
    }
}

// Adds the words of a text, which have single spaces between them.
fn push_parts(alloc: Global, text: &str, words: &mut Vec<String>) -> Result<(), Fault> {
    for word in text.split(' ') {
        words.push(String::from_str(alloc, word)?)?;
    }
    Ok(())
}

// The word that a value with escapes spells.
fn word_of(alloc: Global, value: &str, number: usize) -> Result<String, Fault> {
    match String::from_utf8(unescaped(alloc, value, number)?) {
        Ok(word) => Ok(word),
        Err(_) => Err(Fault::Line(number, "a word that isn't UTF-8")),
    }
}

// Writes the files of these lines.
fn write_files<R: Files>(rt: &R, alloc: Global, lines: &[Line<'_>]) -> Result<(), Fault> {
    let mut rest = lines;
    for line in lines {
        rest = rest.get(1..).unwrap_or(&[]);
        write_file(rt, alloc, *line, rest)?;
    }
    Ok(())
}

// Writes the file of a line with those below it, if it names one.
fn write_file<R: Files>(
    rt: &R,
    alloc: Global,
    line: Line<'_>,
    below: &[Line<'_>],
) -> Result<(), Fault> {
    if let Some((path, value)) = file_of(line) {
        let bytes = bytes_below(alloc, value, line.number, below)?;
        fs::write(rt, path, bytes.as_slice())?;
    }
    Ok(())
}

// Removes the files of these lines.
fn remove_files<R: Files>(rt: &R, lines: &[Line<'_>]) -> Result<(), Fault> {
    for line in lines {
        if let Some((path, _)) = file_of(*line) {
            fs::remove_file(rt, path)?;
        }
    }
    Ok(())
}

// The path of the file that a line names, and what follows it in the line.
fn file_of<'a>(line: Line<'a>) -> Option<(&'a str, &'a str)> {
    match line.content {
        Content::Field { key: "file", value } => Some(in_two(value)),
        Content::Field { .. } | Content::Header { .. } | Content::Text(_) => None,
    }
}
