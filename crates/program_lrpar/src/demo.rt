//! The command `demo`: sums of names.
use crate::lexer::SumLexer;
use lrpar_parse_repair::repair::FixedRecoverer;
use lrpar_table::check::ParserData;
use program_files::fault::Fault;
use program_files::parsing::{Parser, parser_by, print_tree, printed_names};
use program_files::tables::data_of;
use std::alloc::Global;
use std::io::Write;

/// The grammar of sums. Its first token is `+`, and its second one is `ID`.
const GRAMMAR: &str = "%% E: T '+' E | T; T: 'ID';";

/// Parses the text as a sum, and prints its errors and its tree. Returns whether there is a tree, and no error.
pub(crate) fn run_demo<O: Write>(alloc: Global, text: &str, out: &mut O) -> Result<bool, Fault> {
    let data = data_of(alloc, GRAMMAR)?;
    parse_sum(alloc, &data, text, out)
}

// Parses the text by the table of sums, and prints its errors and its tree.
fn parse_sum<O: Write>(
    alloc: Global,
    data: &ParserData<u32>,
    text: &str,
    out: &mut O,
) -> Result<bool, Fault> {
    let names = printed_names(alloc, data.grm())?;
    let parser = parser_by(data, FixedRecoverer::new(Vec::new(alloc)), None)?;
    let lexer = SumLexer::new(alloc, text)?;
    print_tree(alloc, &parser, &names, &lexer, text, out)
}
