//! The example of the README: a language of settings, and the report about a file of them.
use lrpar::build::{Unbuilt, parser_data};
use lrpar::grammar::{GrammarFault, YaccGrammar};
use lrpar::parser::ParseFault;
use lrpar::{ParserData, RTParserBuilder};
use lrpar_lexer::{LexRule, RuleLexer, RulesFault, rules_of};
use std::alloc::{AllocError, Global};
use std::io::{self, Write};
use thiserror::Error;

const GRAMMAR: &str =
    "%% File: | File Setting; Setting: 'NAME' '=' Value ';'; Value: 'NUMBER' | 'TEXT';";

const LEXER: &str = "[a-z_]+ 'NAME'\n= '='\n; ';'\n[0-9]+ 'NUMBER'\n\"[^\"]*\" 'TEXT'\n[ \\n]+ ;";

/// Why there is no report.
#[derive(Debug, Drop, Error)]
pub(crate) enum Failed {
    #[error("grammar: {0}")]
    Grammar(#[from] GrammarFault),
    #[error("lexer: {0}")]
    Lexer(#[from] RulesFault),
    #[error("table: {0}")]
    Table(#[from] Unbuilt<u32>),
    #[error("parse: {0}")]
    Parse(#[from] ParseFault),
    #[error("out of memory")]
    Memory(#[from] AllocError),
    #[error("output: {0}")]
    Output(#[from] io::Error),
}

/// The table of settings, and the rules of their lexer.
pub(crate) fn language(alloc: Global) -> Result<(ParserData<u32>, Vec<LexRule>), Failed> {
    let grm = YaccGrammar::<u32>::new_with_storaget(alloc, GRAMMAR)?;
    let rules = rules_of(alloc, &grm, LEXER)?;
    Ok((parser_data(alloc, grm, 10_000, 1_000)?, rules))
}

/// Writes the errors of a file of settings, and its tree.
pub(crate) fn report<W: Write>(
    alloc: Global,
    data: &ParserData<u32>,
    rules: &[LexRule],
    input: &str,
    out: &mut W,
) -> Result<(), Failed> {
    let lexer = RuleLexer::new(alloc, rules, input)?;
    let (tree, errors) = RTParserBuilder::new(data).parse_generictree(alloc, &lexer)?;
    for error in &errors {
        writeln!(out, "{}", error.message(alloc, data.grm(), &lexer)?)?;
    }
    if let Some(tree) = &tree {
        tree.write(alloc, data.grm(), input, out)?;
    }
    Ok(())
}
