//! A language of settings, to start from: its grammar, its lexer, its values, and reports of what is wrong in a text.
#![tactic(auto)]

mod language;
mod syntax;
#[cfg(test)]
mod tests;
mod values;

use crate::language::{Failed, new_language};
use crate::syntax::{has_syntax, parse_file};
use crate::values::{Setting, Settings};
use lrpar::RTParserBuilder;
use lrpar::repair::CpctPlus;
use lrpar_language::Language;
use lrpar_report::{Look, Reporter};
use std::alloc::{AllocError, Global};
use std::io;

fn main(rt: HostRuntime) -> Result<(), Failed> {
    let text = io::read_to_string(rt.alloc(), rt.stdin())?;
    let settings = new_language(rt.alloc())?;
    let out = shown(rt.alloc(), &settings, text.as_str())?;
    print!(rt; "{out}")?;
    Ok(())
}

/// A report for each error of a text, and then a line for each setting, if the repairs make it a text of settings.
pub(crate) fn shown(alloc: Global, language: &Language, text: &str) -> Result<String, Failed> {
    if !has_syntax(language.data()) {
        return Err(Failed::OtherGrammar);
    }
    let lexer = language.lexer(alloc, text)?;
    let parser = RTParserBuilder::new(language.data()).recoverer(CpctPlus::new(10_000));
    let (file, errors) = parse_file(alloc, &parser, &lexer, &Settings)?;
    let reporter = Reporter::new(alloc, text, "input", Look::Plain)?;
    let mut out = String::new(alloc);
    for report in &language.error_reports(alloc, text, &errors)? {
        reporter.push(&mut out, alloc, report)?;
    }
    if let Some(settings) = &file {
        push_settings(&mut out, settings)?;
    }
    Ok(out)
}

/// Adds a line for each setting.
fn push_settings(out: &mut String, settings: &[Setting<'_>]) -> Result<(), AllocError> {
    for Setting { name, value } in settings {
        writeln!(out, "{name} is {value}")?;
    }
    Ok(())
}
