//! The kinds of cases: what says what is done in each, and what comes of it.
use crate::{commands, streams};
use std::alloc::Global;
use std::rt::Files;
use test_case_faults::{bison_reports, faults};
use test_case_grammars::{bison, examples, grammars, parts, reports, spelled, underlines, yacc};
use test_case_lexers::lrlex;
use test_case_lines::cases::Case;
use test_case_lines::fault::Fault;
use test_case_lines::printed::Printed;
use test_case_parses::{chain, completable, expected, parse, precedence};
use test_case_tables::subject::Subject;
use test_case_tables::{built, checks, refusals, rows, stacks, yacc_files};

/// The keys of the lines that say what is done in a case of this kind. All others say what has to come.
pub(crate) fn inputs_of(kind: &str) -> &'static [&'static str] {
    match kind {
        "parse" => parse::INPUTS,
        "run" | "nimble" => commands::INPUTS,
        "streams" => streams::INPUTS,
        "text" | "cuts" => grammars::INPUTS,
        "yacc" | "yacc_cuts" => yacc::INPUTS,
        "bison" => bison::INPUTS,
        "yacc-file" => yacc_files::INPUTS,
        "lrlex" | "lrlex_cuts" => lrlex::INPUTS,
        "parts" => parts::INPUTS,
        "spelled" => spelled::INPUTS,
        "build" => built::INPUTS,
        "check" => checks::INPUTS,
        "stack" => stacks::INPUTS,
        "expected" => expected::INPUTS,
        "chain" => chain::INPUTS,
        "precedence" => precedence::INPUTS,
        "completable" => completable::INPUTS,
        "full" | "stored" | "sets" => refusals::INPUTS,
        "underlines" => underlines::INPUTS,
        "report" => reports::INPUTS,
        "fault" => faults::INPUTS,
        "bison_report" => bison_reports::INPUTS,
        "examples" => examples::INPUTS,
        _ => &[],
    }
}

/// Writes what comes of the case, a line `KEY VALUE` for each thing, in the order in which the case has to expect them.
pub(crate) fn outcome<R: Files>(
    out: &mut Printed,
    rt: &R,
    alloc: Global,
    subject: Option<Subject<'_, '_, '_>>,
    case: Case<'_, '_>,
) -> Result<(), Fault> {
    match case.kind {
        "parse" => parse::outcome(out, alloc, subject, case),
        "run" | "nimble" | "streams" => commands::outcome(out, rt, alloc, case),
        "nothing" => Ok(()),
        "text" => grammars::outcome(out, alloc, case),
        "cuts" => grammars::outcome_of_cuts(out, alloc, case),
        "yacc" => yacc::outcome(out, alloc, case),
        "yacc_cuts" => yacc::outcome_of_cuts(out, alloc, case),
        "bison" => bison::outcome(out, alloc, case),
        "yacc-file" => yacc_files::outcome(out, alloc, case),
        "lrlex" => lrlex::outcome(out, alloc, case),
        "lrlex_cuts" => lrlex::outcome_of_cuts(out, alloc, case),
        "parts" => parts::outcome(out, alloc, case),
        "spelled" => spelled::outcome(out, alloc, case),
        "build" => built::outcome(out, alloc, case),
        "check" => checks::outcome(out, alloc, subject, case),
        "rows" | "stack" | "expected" | "chain" => match subject {
            Some(subject) => outcome_of_table(out, alloc, subject, case),
            None => Err(Fault::Line(case.number, "a table in front is wanted")),
        },
        "precedence" => precedence::outcome(out, rt, alloc, case),
        "completable" => completable::outcome(out, alloc, case),
        "full" => refusals::outcome_of_rows(out, alloc, case),
        "stored" => refusals::outcome_of_entries(out, alloc, case),
        "sets" => refusals::outcome_of_sets(out, alloc, case),
        "underlines" => underlines::outcome(out, alloc, case),
        "report" => reports::outcome(out, alloc, case),
        "fault" => faults::outcome(out, alloc, case),
        "bison_report" => bison_reports::outcome(out, alloc, case),
        "examples" => examples::outcome(out, rt, alloc, case),
        _ => Err(Fault::Line(case.number, "a kind of case that isn't known")),
    }
}

// Writes what comes of a case about the table in front of it.
fn outcome_of_table(
    out: &mut Printed,
    alloc: Global,
    subject: Subject<'_, '_, '_>,
    case: Case<'_, '_>,
) -> Result<(), Fault> {
    match case.kind {
        "rows" => {
            rows::outcome(out, alloc, subject);
            Ok(())
        }
        "stack" => stacks::outcome(out, alloc, subject, case),
        "expected" => expected::outcome(out, alloc, subject, case),
        _ => chain::outcome(out, alloc, subject, case),
    }
}
