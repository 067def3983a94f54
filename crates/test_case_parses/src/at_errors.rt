//! What is expected at the errors of a parse.
use crate::calls::Parser;
use crate::expected::push_tokens;
use crate::lexemes::ListLexer;
use crate::shown::CaseError;
use lrpar_parse::parser::ParseFault;
use lrpar_parse_errors::errors::LexParseError;
use lrpar_table::check::ParserData;
use std::alloc::Global;
use test_case_lines::cases::Case;
use test_case_lines::printed::Printed;
use test_case_tables::rows::push_agreed;
use test_case_tables::subject::Tables;

/// Adds what is expected at each parse error, if the case asks. Both tables say the same.
pub(crate) fn push_expected_at_errors(
    out: &mut Printed,
    alloc: Global,
    case: Case<'_, '_>,
    tables: &Tables,
    parser: &Parser<'_>,
    lexer: &ListLexer<'_>,
) {
    if case.value_or_nothing("show") != "expected" {
        return;
    }
    let (mut by_rows, mut by_entries) = (Printed::new(alloc), Printed::new(alloc));
    match parser.parse_noaction(alloc, lexer) {
        Err(ParseFault::Memory) => out.lack_memory(),
        Err(_) => {}
        Ok(errors) => {
            push_expected_by(&mut by_rows, &tables.by_rows, &errors);
            push_expected_by(&mut by_entries, &tables.by_entries, &errors);
        }
    }
    push_agreed(out, &by_rows, &by_entries);
}

// Adds the tokens that the table's states expect at the errors.
fn push_expected_by(out: &mut Printed, data: &ParserData<u32>, errors: &[CaseError]) {
    for error in errors {
        if let LexParseError::ParseError(error) = error {
            push_tokens(out, data.grm(), "expected", error.expected(data));
        }
    }
}
