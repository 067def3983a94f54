//! Directives that bison doesn't know.
ghost use Rattle.std.specs.Prelude.{◌≡◌, IfOk};
ghost use Rattle.lrpar_report_lines.specs.Labels.{HasOneLabel};
ghost use Rattle.lrpar_report_lines.specs.declared.levels.Level.TheVariants.{Error};

use crate::names::push_nearest;
use crate::words::{about_word, part};
use lrpar_grammar_bison_rules::directives::{Directive, directive_named};
use lrpar_grammar_places::span::Span;
use lrpar_report_lines::Report;
use std::alloc::{AllocError, Global};

// The directives of bison, each in one spelling.
const DIRECTIVES: [&str; 45] = [
    "%token",
    "%type",
    "%start",
    "%nterm",
    "%left",
    "%right",
    "%nonassoc",
    "%precedence",
    "%prec",
    "%empty",
    "%union",
    "%code",
    "%define",
    "%destructor",
    "%printer",
    "%param",
    "%parse-param",
    "%lex-param",
    "%initial-action",
    "%require",
    "%language",
    "%skeleton",
    "%name-prefix",
    "%file-prefix",
    "%output",
    "%header",
    "%defines",
    "%dprec",
    "%merge",
    "%expect",
    "%expect-rr",
    "%default-prec",
    "%no-default-prec",
    "%locations",
    "%debug",
    "%verbose",
    "%yacc",
    "%no-lines",
    "%token-table",
    "%pure-parser",
    "%error-verbose",
    "%fixed-output-files",
    "%glr-parser",
    "%nondeterministic-parser",
    "%term",
];

/// The directive of bison that the word is, if it is one.
pub(crate) fn directive_of(word: &str) -> Option<Directive> {
    directive_named(word.strip_prefix('%')?)
}

/// The report of a directive that bison doesn't know.
pub(crate) fn unknown_directive(alloc: Global, text: &str, span: Span) -> Result<Report, AllocError>
    ensures level { IfOk result (λ report. report.level ≡ Error) }
    ensures span { IfOk result (HasOneLabel span) }
{
    let mut label = String::new(alloc);
    let otherwise = "bison has no directive of this name";
    push_nearest(&mut label, part(text, span), &DIRECTIVES, otherwise)?;
    about_word(alloc, text, span, "unknown directive ", "", label.as_str())
}
