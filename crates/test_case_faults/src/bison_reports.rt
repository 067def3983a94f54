//! Reports of faults in `.y` files that are read as bison reads them.
use lrpar_grammar_bison_parts::faults::BisonFault;
use lrpar_grammar_bison_parts::grammar::BisonGrammar;
use lrpar_report::{Look, Reporter};
use lrpar_report_bison::bison_report;
use std::alloc::Global;
use test_case_lines::cases::Case;
use test_case_lines::fault::Fault;
use test_case_lines::printed::Printed;

/// The keys of the lines that say what is done.
pub const INPUTS: &[&str] = &["file"];

/// The report of the fault in the file, which is named `g.y`, or that it has none.
pub fn outcome(out: &mut Printed, alloc: Global, case: Case<'_, '_>) -> Result<(), Fault> {
    let file = case.text(alloc, "file")?;
    match fault_of(alloc, file.as_str()) {
        Some(fault) => push_report(out, alloc, file.as_str(), &fault),
        None => {
            out.text("no fault\n");
            Ok(())
        }
    }
}

// Why the file has no grammar in the smallest storage type, if it has none.
fn fault_of(alloc: Global, text: &str) -> Option<BisonFault> {
    match BisonGrammar::<u8>::read(alloc, text) {
        Ok(grammar) => {
            let BisonGrammar { parts, precedences } = grammar;
            drop(parts);
            drop(precedences);
            None
        }
        Err(fault) => Some(fault),
    }
}

// Adds the report of a fault, as it is shown.
fn push_report(
    out: &mut Printed,
    alloc: Global,
    text: &str,
    fault: &BisonFault,
) -> Result<(), Fault> {
    let report = bison_report(alloc, text, fault)?;
    let reporter = Reporter::new(alloc, text, "g.y", Look::Plain)?;
    let mut shown = String::new(alloc);
    reporter.push(&mut shown, alloc, &report)?;
    out.field("report", shown.as_str());
    Ok(())
}
