//! The command `tree`: the tree of a text by a grammar and a lexer of files.
use lrpar_lexer::RuleLexer;
use lrpar_table::check::ParserData;
use program_files::fault::Fault;
use program_files::parsing::{print_tree, text_parser_of};
use program_files::tables::data_of;
use std::alloc::Global;
use std::io::Write;

/// The texts that `tree` reads.
#[derive(Drop)]
pub(crate) struct TreeTexts {
    pub(crate) grammar: String,
    pub(crate) lexer: String,
    pub(crate) input: String,
    pub(crate) repairs: String,
}

/// Prints the errors and the tree of the input. Returns whether there is a tree, and no error.
pub(crate) fn run_tree<O: Write>(
    alloc: Global,
    texts: &TreeTexts,
    shifts: Option<usize>,
    out: &mut O,
) -> Result<bool, Fault> {
    let data = data_of(alloc, texts.grammar.as_str())?;
    parse_input(alloc, &data, texts, shifts, out)
}

// Parses the input by the table of the grammar, and prints its errors and its tree.
fn parse_input<O: Write>(
    alloc: Global,
    data: &ParserData<u32>,
    texts: &TreeTexts,
    shifts: Option<usize>,
    out: &mut O,
) -> Result<bool, Fault> {
    let lexer = texts.lexer.as_str();
    let text_parser = text_parser_of(alloc, data, lexer, texts.repairs.as_str(), shifts)?;
    let input = texts.input.as_str();
    let lexer = RuleLexer::new(alloc, &text_parser.rules, input)?;
    print_tree(
        alloc,
        &text_parser.parser,
        &text_parser.names,
        &lexer,
        input,
        out,
    )
}
