//! Cases of faults that are shown where they are in a text.
ghost use Rattle.lrpar_grammar.specs.SpansFit.{IsPartOf};

use lrpar::build::parser_data;
use lrpar::diagnostics::{
    DiagnosticError, DiagnosticFault, DiagnosticFormatter, SpannedDiagnosticFormatter,
};
use lrpar::grammar::YaccGrammar;
use lrpar::{ParserData, RTParserBuilder};
use lrpar_lexer::{LexRule, RuleLexer, rules_of};
use lrpar_report::{PlacedFault, placed_error, placed_grammar_fault, placed_rules_fault};
use std::alloc::Global;
use std::error::Error;
use test_case_lines::cases::Case;
use test_case_lines::fault::Fault;
use test_case_lines::printed::Printed;

/// The keys of the lines that say what is done.
pub const INPUTS: &[&str] = &["grammar", "rules", "input", "over"];

/// The fault of the grammar, or else that of the rules, or else each error of the input.
pub fn outcome(out: &mut Printed, alloc: Global, case: Case<'_, '_>) -> Result<(), Fault> {
    let text = case.text(alloc, "grammar")?;
    match YaccGrammar::<u32>::new_with_storaget(alloc, text.as_str()) {
        Ok(grm) => by_rules(out, alloc, case, grm),
        Err(fault) => {
            let text = over(case, text.as_str());
            push_placed(out, alloc, text, placed_grammar_fault(alloc, text, fault)?)
        }
    }
}

// The fault of the rules, or else each error of the input.
fn by_rules(
    out: &mut Printed,
    alloc: Global,
    case: Case<'_, '_>,
    grm: YaccGrammar<u32>,
) -> Result<(), Fault> {
    let text = case.text(alloc, "rules")?;
    match rules_of(alloc, &grm, text.as_str()) {
        Ok(rules) => by_input(out, alloc, case, grm, &rules),
        Err(fault) => {
            let text = over(case, text.as_str());
            push_placed(
                out,
                alloc,
                text,
                placed_rules_fault(alloc, &grm, text, fault)?,
            )
        }
    }
}

// Each error of the input.
fn by_input(
    out: &mut Printed,
    alloc: Global,
    case: Case<'_, '_>,
    grm: YaccGrammar<u32>,
    rules: &[LexRule],
) -> Result<(), Fault> {
    let text = case.text(alloc, "input")?;
    match parser_data(alloc, grm, 100, 100) {
        Ok(data) => push_errors(out, alloc, case, &data, rules, text.as_str()),
        Err(_) => Err(Fault::Line(case.number, "a table is wanted")),
    }
}

// Adds each error of the input.
fn push_errors(
    out: &mut Printed,
    alloc: Global,
    case: Case<'_, '_>,
    data: &ParserData<u32>,
    rules: &[LexRule],
    text: &str,
) -> Result<(), Fault> {
    let lexer = RuleLexer::new(alloc, rules, text)?;
    let Ok(errors) = RTParserBuilder::new(data).parse_noaction(alloc, &lexer) else {
        return Err(Fault::Line(case.number, "a parse is wanted"));
    };
    let text = over(case, text);
    for error in errors {
        push_placed(out, alloc, text, placed_error(alloc, data, text, error)?)?;
    }
    Ok(())
}

// The text in which a fault is shown: that of the case, or else its own.
fn over<'a>(case: Case<'_, 'a>, own: &'a str) -> &'a str {
    match case.value("over") {
        Some((text, _)) => text,
        None => own,
    }
}

// Adds a fault at its place in the text.
fn push_placed<E: Error>(
    out: &mut Printed,
    alloc: Global,
    text: &str,
    placed: PlacedFault<E>,
) -> Result<(), Fault>
    requires { IsPartOf text.now placed.place }
{
    let formatter = SpannedDiagnosticFormatter::new(alloc, text, "")?;
    push_shown(out, &formatter.format_error(alloc, placed));
    Ok(())
}

// Adds an error as it is shown.
fn push_shown(out: &mut Printed, shown: &Result<DiagnosticError, DiagnosticFault>) {
    match shown {
        Ok(error) => out.lines("shown", error.text()),
        Err(DiagnosticFault::Memory) => out.lack_memory(),
        Err(fault) => out.line("fault ", fault),
    }
}
