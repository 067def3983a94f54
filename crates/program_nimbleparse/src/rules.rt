//! The rules of the lexer, or why there are none.
use crate::printer::Printer;
use crate::show::fault_of_report;
use lrpar_grammar::grammar::YaccGrammar;
use lrpar_lexer::{LexRule, rules_of};
use lrpar_lexer_lrlex::{LrlexRules, rules_of_lrlex};
use lrpar_report::{lrlex_report, rules_report};
use program_files::fault::Fault;
use std::alloc::Global;

/// The rules of a lexer.
pub enum LexerRules {
    /// Those of a text with a rule on each line.
    Lines(Vec<LexRule>),
    /// Those of a `.l` file of lrlex, with start states.
    States(LrlexRules),
}

// Hand-written, so that code that drops rules needs the proof of one call only.
impl Drop for LexerRules {
    fn drop(self) {
        match self {
            LexerRules::Lines(rules) => drop(rules),
            LexerRules::States(rules) => drop(rules),
        }
    }
}

impl LexerRules {
    /// The patterns and tokens of the rules.
    pub fn rules(&self) -> &[LexRule] {
        match self {
            LexerRules::Lines(rules) => rules,
            LexerRules::States(rules) => rules.rules(),
        }
    }
}

/// The rules of a lexer's text. One with a line `%%` is a `.l` file of lrlex: no rule of the other form is such a line.
pub fn lexer_rules(
    alloc: Global,
    printer: &Printer<'_>,
    grm: &YaccGrammar<u32>,
    text: &str,
) -> Result<LexerRules, Fault> {
    if has_rules_sign(text) {
        state_rules(alloc, printer, grm, text)
    } else {
        line_rules(alloc, printer, grm, text)
    }
}

// Whether the text has a line `%%`.
fn has_rules_sign(text: &str) -> bool {
    text.split('\n')
        .any(|line| line.trim_matches([' ', '\t', '\r']) == "%%")
}

// The rules of a text with a rule on each line.
fn line_rules(
    alloc: Global,
    printer: &Printer<'_>,
    grm: &YaccGrammar<u32>,
    text: &str,
) -> Result<LexerRules, Fault> {
    match rules_of(alloc, grm, text) {
        Ok(rules) => Ok(LexerRules::Lines(rules)),
        Err(fault) => {
            let report = rules_report(alloc, grm, text, &fault);
            Err(fault_of_report(alloc, printer, report))
        }
    }
}

// The rules of a `.l` file.
fn state_rules(
    alloc: Global,
    printer: &Printer<'_>,
    grm: &YaccGrammar<u32>,
    text: &str,
) -> Result<LexerRules, Fault> {
    match rules_of_lrlex(alloc, grm, text) {
        Ok(rules) => Ok(LexerRules::States(rules)),
        Err(fault) => {
            let report = lrlex_report(alloc, grm, text, &fault);
            Err(fault_of_report(alloc, printer, report))
        }
    }
}
