//! The code of typed grammars.
use crate::grammar::GrammarFile;
use crate::show::fault_of_report;
use crate::typed::{read_typed, report_at};
use lrpar_grammar_typed::typed::TypedGrammar;
use lrpar_report::Report;
use lrpar_typed_code::{CodeFault, rust_of, spec_of};
use program_files::fault::Fault;
use program_files::files::file_text;
use program_files::streams::Status;
use std::alloc::{AllocError, Global};
use std::fs;
use std::io::Write;
use std::path::Path;
use std::rt::Files;

// Where the code and its spec are in the folder of a crate.
const CODE: &str = "src/syntax.rt";

const SPEC: &str = "specs/Syntax.antt";

/// What is to be done with the code of a grammar.
#[derive(Clone, Copy, Debug, PartialEq, Eq)]
pub(crate) enum CodeTask {
    /// Write it.
    Write,
    /// Say whether the files have it.
    Check,
}

/// Writes the code of a typed grammar to the files of its crate, or names each file that is out of date. The crate is the
/// folder of the grammar, or that around it if it's called `src`; its name is that of the folder, unless it is said.
pub(crate) fn run_code<R: Files, O: Write>(
    rt: &R,
    alloc: Global,
    file: GrammarFile<'_>,
    task: CodeTask,
    name: Option<&str>,
    out: &mut O,
) -> Result<Status, Fault> {
    let folder = crate_folder(file.path);
    let name = match name.or_else(|| crate_name(folder)) {
        Some(name) => name,
        None => return Err(Fault::Words(String::from_str(alloc, NO_NAME)?)),
    };
    let printer = file.printer(alloc)?;
    let grammar = read_typed(alloc, &printer, file.text)?;
    let code = match rust_of(alloc, name, file.text, &grammar) {
        Ok(code) => code,
        Err(fault) => return Err(fault_of_report(alloc, &printer, code_report(alloc, &fault))),
    };
    let files = Generated {
        folder,
        code: code.as_str(),
        grammar: &grammar,
        name,
    };
    match task {
        CodeTask::Write => write_files(rt, alloc, files),
        CodeTask::Check => check_files(rt, alloc, files, out),
    }
}

// What is wrong with words that don't say what the crate is called.
const NO_NAME: &str = "cannot tell the crate's name from this path: add --crate NAME";

// What is generated from a grammar.
#[derive(Clone, Copy)]
struct Generated<'a> {
    folder: Path<'a>,
    code: &'a str,
    grammar: &'a TypedGrammar,
    name: &'a str,
}

// The folder of the crate that has the file at this path.
fn crate_folder(path: &str) -> Path<'_> {
    let folder = folder_of(Path::new(path));
    if folder.file_name() == Some("src") {
        folder_of(folder)
    } else {
        folder
    }
}

// The folder of a file or of a folder.
fn folder_of(path: Path<'_>) -> Path<'_> {
    path.parent().unwrap_or(path)
}

// The name of a crate by its folder, if it can be one.
fn crate_name(folder: Path<'_>) -> Option<&str> {
    let name = folder.file_name()?;
    let is_name = name.starts_with(|letter: char| letter.is_ascii_lowercase())
        && name.chars().all(|letter| letter.is_ascii_lowercase()
            || letter.is_ascii_digit()
            || letter == '_');
    if is_name { Some(name) } else { None }
}

// The report of a grammar without code.
fn code_report(alloc: Global, fault: &CodeFault) -> Result<Report, AllocError> {
    match fault {
        CodeFault::OtherAction(span) => {
            let label =
                "an earlier production with this label has other arguments, or another type of value";
            report_at(alloc, "one label for two actions", *span, label)
        }
        CodeFault::SameName(span) => {
            let label = "in code it has the same name as an earlier rule";
            report_at(alloc, "two rules of one name", *span, label)
        }
        CodeFault::Memory(_) => Err(AllocError),
    }
}

// Writes the files.
fn write_files<R: Files>(rt: &R, alloc: Global, generated: Generated<'_>) -> Result<Status, Fault> {
    let spec = spec_of(alloc, generated.name, generated.grammar)?;
    write_file(rt, alloc, generated.folder, CODE, generated.code)?;
    write_file(rt, alloc, generated.folder, SPEC, spec.as_str())?;
    Ok(Status::Success)
}

// Writes a file of the crate.
fn write_file<R: Files>(
    rt: &R,
    alloc: Global,
    folder: Path<'_>,
    name: &str,
    text: &str,
) -> Result<(), Fault> {
    let path = folder.join(alloc, name)?;
    let path = path.as_str();
    match fs::write(rt, path, text) {
        Ok(()) => Ok(()),
        Err(_) => Err(Fault::Words(format!(in alloc; "cannot write {path}")?)),
    }
}

// Names the files that are out of date.
fn check_files<R: Files, O: Write>(
    rt: &R,
    alloc: Global,
    generated: Generated<'_>,
    out: &mut O,
) -> Result<Status, Fault> {
    let spec = spec_of(alloc, generated.name, generated.grammar)?;
    let is_code = check_file(rt, alloc, generated.folder, CODE, generated.code, out)?;
    let is_spec = check_file(rt, alloc, generated.folder, SPEC, spec.as_str(), out)?;
    Ok(Status::of(is_code && is_spec))
}

// Whether a file of the crate has the text. A line says it if it doesn't.
fn check_file<R: Files, O: Write>(
    rt: &R,
    alloc: Global,
    folder: Path<'_>,
    name: &str,
    text: &str,
    out: &mut O,
) -> Result<bool, Fault> {
    let path = folder.join(alloc, name)?;
    let path = path.as_str();
    let found = text_if_readable(rt, alloc, path)?;
    let is_same = match &found {
        Some(found) => found.as_str() == text,
        None => false,
    };
    if !is_same {
        let line = format!(in alloc; "{path} is out of date\n")?;
        out.write_all(line.as_bytes())?;
    }
    Ok(is_same)
}

// The text of a file, if it can be read.
fn text_if_readable<R: Files>(rt: &R, alloc: Global, path: &str) -> Result<Option<String>, Fault> {
    match file_text(rt, alloc, path) {
        Ok(text) => Ok(Some(text)),
        Err(Fault::Memory) => Err(Fault::Memory),
        Err(fault) => {
            drop(fault);
            Ok(None)
        }
    }
}
