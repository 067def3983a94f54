//! Case files: each is read, and its cases are run and counted.
use crate::kinds::{inputs_of, outcome};
use std::alloc::Global;
use std::process::ExitCode;
use std::rt::Files;
use std::{env, fs, io};
use test_case_lines::cases::{Case, case_at, section_after};
use test_case_lines::fault::Fault;
use test_case_lines::line::{Line, lines_of};
use test_case_lines::printed::Printed;
use test_case_lines::verdict::wrong_of;
use test_case_tables::subject::{Subject, Tables, tables_of};

/// What came of the cases so far.
#[derive(Drop)]
struct Report {
    /// How many cases of the file were run.
    cases: usize,
    /// What is wrong, a line each.
    wrong: String,
}

/// Runs the case files that the process's arguments name. Prints for each how many cases it has, and on standard error what is wrong.
/// The status is a success if nothing is.
pub(crate) fn run_of_process(rt: &HostRuntime) -> ExitCode {
    match run_files(rt) {
        Ok(wrong) if wrong.is_empty() => ExitCode::SUCCESS,
        Ok(wrong) => print_wrong(rt, wrong.as_str()),
        Err(fault) => print_fault(rt, &fault),
    }
}

// Prints on standard error what is wrong.
fn print_wrong(rt: &HostRuntime, wrong: &str) -> ExitCode {
    let _ = eprint!(rt; "{wrong}");
    ExitCode::FAILURE
}

// Prints on standard error why there are no more cases.
fn print_fault(rt: &HostRuntime, fault: &Fault) -> ExitCode {
    let _ = eprintln!(rt; "{fault}");
    ExitCode::FAILURE
}

// What is wrong in the files that the process's arguments name.
fn run_files(rt: &HostRuntime) -> Result<String, Fault> {
    let mut wrong = String::new(rt.alloc());
    for name in env::args(rt)?.skip(1) {
        let report = run_file(rt, rt.alloc(), name.as_str())?;
        let cases = report.cases;
        println!(rt; "{name}: {cases} cases")?;
        wrong.push_str(report.wrong.as_str())?;
    }
    Ok(wrong)
}

// What comes of the cases of a file.
fn run_file<R: Files>(rt: &R, alloc: Global, name: &str) -> Result<Report, Fault> {
    let text = io::read_to_string(alloc, fs::open(rt, name)?)?;
    let lines = lines_of(alloc, text.as_str())?;
    run_lines(rt, alloc, name, &lines)
}

// What comes of the cases of a file's lines.
fn run_lines<R: Files>(
    rt: &R,
    alloc: Global,
    name: &str,
    lines: &[Line<'_>],
) -> Result<Report, Fault> {
    let mut report = Report {
        cases: 0,
        wrong: String::new(alloc),
    };
    let mut has_subject = false;
    for at in 0..lines.len() {
        if let Some(case) = case_at(lines, at) {
            has_subject = has_subject || case.is_subject();
            if case.is_subject() {
                let section = section_after(lines, at.saturating_add(case.lines.len()));
                run_section(rt, alloc, name, case, section, &mut report)?;
            } else if !has_subject {
                run_case(rt, alloc, name, None, case, &mut report)?;
            }
        }
    }
    Ok(report)
}

// Runs the cases whose subject is this case.
fn run_section<R: Files>(
    rt: &R,
    alloc: Global,
    name: &str,
    case: Case<'_, '_>,
    section: &[Line<'_>],
    report: &mut Report,
) -> Result<(), Fault> {
    match tables_of(alloc, case) {
        Ok(tables) => run_about(rt, alloc, name, case, &tables, section, report),
        Err(fault) => {
            let text = format!(in alloc; "{fault}")?;
            report.add(name, case, text.as_str())
        }
    }
}

// Runs the cases that are about these tables.
fn run_about<R: Files>(
    rt: &R,
    alloc: Global,
    name: &str,
    case: Case<'_, '_>,
    tables: &Tables,
    section: &[Line<'_>],
    report: &mut Report,
) -> Result<(), Fault> {
    let subject = Subject { case, tables };
    for at in 0..section.len() {
        if let Some(about) = case_at(section, at) {
            run_case(rt, alloc, name, Some(subject), about, report)?;
        }
    }
    Ok(())
}

// Runs a case.
fn run_case<R: Files>(
    rt: &R,
    alloc: Global,
    name: &str,
    subject: Option<Subject<'_, '_, '_>>,
    case: Case<'_, '_>,
    report: &mut Report,
) -> Result<(), Fault> {
    report.cases = report.cases.saturating_add(1);
    let mut out = Printed::new(alloc);
    let came = match outcome(&mut out, rt, alloc, subject, case) {
        Ok(()) => out.end(),
        Err(fault) => Err(fault),
    };
    match wrong_of(alloc, case, inputs_of(case.kind), came)? {
        None => Ok(()),
        Some(text) => report.add(name, case, text.as_str()),
    }
}

impl Report {
    // Adds what is wrong with a case.
    fn add(&mut self, file: &str, case: Case<'_, '_>, text: &str) -> Result<(), Fault> {
        let (line, kind, name) = (case.number, case.kind, case.name);
        Ok(writeln!(self.wrong, "{file}:{line}: {kind} {name}: {text}")?)
    }
}
