//! Reports of faults in `.y` files that are read as bison reads them.
ghost use Rattle.std.specs.Prelude.{◌≡◌, IfOk};
ghost use Rattle.lrpar_report_bison.specs.BisonPlaces.{AreBisonSpans, AreNamesSpans, AreRulesSpans};
ghost use Rattle.lrpar_report_lines.specs.Labels.{HasOneLabel, label_spans};
ghost use Rattle.lrpar_report_lines.specs.declared.levels.Level.TheVariants.{Error};

use crate::earlier::{repeated_level, token_is_rule};
use crate::names::push_near_symbol;
use crate::unclosed::unread_report;
use crate::word_order::{early_end, unexpected_report};
use crate::words::{about_word, labelled, part};
use lrpar_grammar_bison_parts::faults::BisonFault;
use lrpar_grammar_bison_rules::rules::RulesFault;
use lrpar_grammar_places::span::Span;
use lrpar_grammar_reader::parts::GrammarFault;
use lrpar_report::grammar_report;
use lrpar_report_lines::Report;
use std::alloc::{AllocError, Global};

/// The report of the fault in a `.y` file that is read as bison reads it: what is wrong and where, and what would be right there, or a
/// directive or symbol with a similar name. `text` should be the file that has the fault; else the places in the report mean nothing.
///
/// Takes time linear in the text, and in its names times the length of the one in question. `Err`: out of memory, also if that is the
/// fault.
pub fn bison_report(alloc: Global, text: &str, fault: &BisonFault) -> Result<Report, AllocError>
    ensures level { IfOk result (λ report. report.level ≡ Error) }
    ensures spans { IfOk result (λ report. AreBisonSpans text.now fault.now (label_spans report)) }
{
    match fault {
        BisonFault::Rules(fault) => rules_report(alloc, text, *fault),
        BisonFault::RepeatedPrec(span) => {
            let label = "there can be one %prec; leave this one out";
            let what = " is the second of its production";
            about_word(alloc, text, *span, "%prec ", what, label)
        }
        BisonFault::RepeatedEmpty(span) => {
            let label = "there can be one %empty; leave this one out";
            let what = "%empty is the second of its production";
            labelled(alloc, what, *span, label)
        }
        BisonFault::NotEmpty(span) => {
            let label = "leave it out, or leave out the symbols";
            labelled(
                alloc,
                "%empty in a production that has symbols",
                *span,
                label,
            )
        }
        BisonFault::BadNumber(span) => {
            let label = "expected a decimal number, or 0x and digits, below 2147483647";
            about_word(alloc, text, *span, "", " is no number of a token", label)
        }
        BisonFault::RepeatedNumber(span) => {
            let label = "leave it out; a literal has the number of its character";
            let what = " is another number of its token";
            about_word(alloc, text, *span, "", what, label)
        }
        BisonFault::RepeatedPrecedence(span) => repeated_level(alloc, text, *span),
        BisonFault::Grammar(fault) => names_report(alloc, text, fault),
        BisonFault::Memory => Err(AllocError),
    }
}

// The report of a fault in the words of the file, or in their order.
fn rules_report(alloc: Global, text: &str, fault: RulesFault) -> Result<Report, AllocError>
    ensures level { IfOk result (λ report. report.level ≡ Error) }
    ensures spans { IfOk result (λ report. AreRulesSpans text.now fault (label_spans report)) }
{
    match fault {
        RulesFault::Unread(place, what) => unread_report(alloc, text, place, what),
        RulesFault::Unexpected(span, expected) => unexpected_report(alloc, text, span, expected),
        RulesFault::End(expected) => early_end(alloc, text, expected),
        RulesFault::Memory => Err(AllocError),
    }
}

// The report of a fault in what the declarations and rules say.
fn names_report(alloc: Global, text: &str, fault: &GrammarFault) -> Result<Report, AllocError>
    ensures level { IfOk result (λ report. report.level ≡ Error) }
    ensures spans { IfOk result (λ report. AreNamesSpans text.now fault.now (label_spans report)) }
{
    match fault {
        GrammarFault::UnknownRule(span) => unknown_symbol(alloc, text, *span),
        GrammarFault::TokenIsRule(span) => token_is_rule(alloc, text, *span),
        fault => grammar_report(alloc, text, fault),
    }
}

// The report of a symbol that is neither a token nor a rule.
fn unknown_symbol(alloc: Global, text: &str, span: Span) -> Result<Report, AllocError>
    ensures level { IfOk result (λ report. report.level ≡ Error) }
    ensures span { IfOk result (HasOneLabel span) }
{
    let mut label = String::new(alloc);
    push_near_symbol(&mut label, alloc, text, part(text, span))?;
    let what = " is no token, and no rule has this name";
    about_word(alloc, text, span, "", what, label.as_str())
}
