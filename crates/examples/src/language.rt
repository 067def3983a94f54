//! What the examples share: a language without messages of its own, and why an example has no answer.
use lrpar::parser::ParseFault;
use lrpar_language::{Language, LanguageFault, LanguageTexts};
use lrpar_report::{Look, Report, Reporter};
use std::alloc::{AllocError, Global};
use std::io;
use thiserror::Error;

/// Why an example has no answer.
#[derive(Debug, Drop, Error)]
pub(crate) enum Failed {
    #[error("streams: {0}")]
    Streams(#[from] io::Error),
    #[error("language: {0}")]
    Language(#[from] LanguageFault),
    #[error("the grammar isn't the one that syntax.rt was generated from")]
    OtherGrammar,
    #[error("parse: {0}")]
    Parse(#[from] ParseFault),
    #[error("out of memory")]
    Memory(#[from(alloc)] AllocError),
}

/// The language of a grammar and a lexer.
pub(crate) fn language_of(
    alloc: Global,
    grammar: &str,
    lexer: &str,
) -> Result<Language, LanguageFault> {
    let texts = LanguageTexts {
        grammar,
        lexer,
        messages: "",
    };
    Language::new(alloc, texts)
}

/// Adds reports of a text that has this name.
pub(crate) fn push_reports(
    out: &mut String,
    alloc: Global,
    name: &str,
    text: &str,
    reports: &[Report],
) -> Result<(), AllocError> {
    let reporter = Reporter::new(alloc, text, name, Look::Plain)?;
    for report in reports {
        reporter.push(out, alloc, report)?;
    }
    Ok(())
}
