//! Reports of faults in `.l` files of lrlex.
ghost use Rattle.std.specs.Prelude.{◌≡◌, IfOk};
ghost use Rattle.lrpar_report.specs.FaultPlaces.{AreLrlexSpans, IsOne, IsStartOf};
ghost use Rattle.lrpar_report_lines.specs.Labels.{HasOneLabel, label_spans};
ghost use Rattle.lrpar_report_lines.specs.declared.levels.Level.TheVariants.{Error};

use crate::grammar::{named, part};
use crate::lexer::{bad_pattern, labelled, no_token};
use crate::near::push_nearest;
use lrpar_grammar::grammar::YaccGrammar;
use lrpar_grammar::span::Span;
use lrpar_lexer_lrlex::LrlexFault;
use lrpar_report_lines::Report;
use std::alloc::{AllocError, Global};

/// The flags that a `.l` file may set.
const FLAGS: [&str; 7] = [
    "case_insensitive",
    "dot_matches_new_line",
    "multi_line",
    "octal",
    "swap_greed",
    "unicode",
    "allow_wholeline_comments",
];

// What would be right in place of a line, or of the end of one.
const DECLARES: &str = "expected %x NAMES, %s NAMES or %%";

const RULE: &str = "expected PATTERN NAME for a token, or PATTERN ; for what is skipped";

const NAMED: &str = "expected the name of a token, or ;";

const QUOTED: &str = "a name in quotes ends with the same quote, and has no blanks";

/// The report of the fault in a `.l` file of lrlex: the cause, and where it is, and a flag, a start state or a token with a similar name.
/// `text` should be the text that has the fault, and `grm` its grammar; else the places in the report mean nothing.
///
/// Takes time linear in the text, and in the start states of the text and the tokens of the grammar times the length of the name in
/// question. `Err`: out of memory, also if that is the fault.
pub fn lrlex_report(
    alloc: Global,
    grm: &YaccGrammar<u32>,
    text: &str,
    fault: &LrlexFault,
) -> Result<Report, AllocError>
    ensures level { IfOk result (λ report. report.level ≡ Error) }
    ensures spans { IfOk result (λ report. AreLrlexSpans fault.now (label_spans report)) }
{
    match fault {
        LrlexFault::Header(span) => open_header(alloc, *span),
        LrlexFault::Flag(span) => bad_flag(alloc, text, *span),
        LrlexFault::Declaration(span) => labelled(alloc, "unknown declaration", *span, DECLARES),
        LrlexFault::StateName(span) => bad_name(alloc, text, *span),
        LrlexFault::RepeatedState(span) => repeated_state(alloc, text, *span),
        LrlexFault::NoRules => Report::error(alloc, "no rules, as there is no line %%"),
        LrlexFault::OpenState(span) => labelled(alloc, "'<' without its '>'", *span, ""),
        LrlexFault::NoPattern(span) => labelled(alloc, "this line is no rule", *span, RULE),
        LrlexFault::OpenQuote(span) => labelled(alloc, "quote that isn't closed", *span, QUOTED),
        LrlexFault::NoName(span) => labelled(alloc, "target without a name", *span, NAMED),
        LrlexFault::UnknownState(span) => unknown_state(alloc, text, *span),
        LrlexFault::UnknownToken(span) => no_token(alloc, grm, part(text, *span), *span),
        LrlexFault::Pattern(span, error) => bad_pattern(alloc, *span, error),
        LrlexFault::Memory => Err(AllocError),
    }
}

// The report of `%grmtools` without its braces, which goes to the end of the text.
fn open_header(alloc: Global, span: Span) -> Result<Report, AllocError>
    ensures level { IfOk result (λ report. report.level ≡ Error) }
    ensures span { IfOk result (λ report. IsOne (IsStartOf span) (label_spans report)) }
{
    let sign = sign_of(span);
    labelled(alloc, "%grmtools without its '{' and '}'", sign, "")
}

// The `%grmtools` with which a part begins.
fn sign_of(span: Span) -> Span
    ensures { IsStartOf span result }
{
    let end = span.start().saturating_add(9).min(span.end());
    Span::new(span.start(), end)
}

// The report of a flag that isn't honoured.
fn bad_flag(alloc: Global, text: &str, span: Span) -> Result<Report, AllocError>
    ensures level { IfOk result (λ report. report.level ≡ Error) }
    ensures span { IfOk result (HasOneLabel span) }
{
    let flag = part(text, span);
    let mut label = String::new(alloc);
    push_nearest(
        &mut label,
        flag.strip_prefix('!').unwrap_or(flag),
        &FLAGS,
        "",
    )?;
    named(alloc, text, span, "flag", "isn't supported", label.as_str())
}

// The report of a name that no start state can have.
fn bad_name(alloc: Global, text: &str, span: Span) -> Result<Report, AllocError>
    ensures level { IfOk result (λ report. report.level ≡ Error) }
    ensures span { IfOk result (HasOneLabel span) }
{
    let what = "can't be that of a start state";
    let label = "expected ASCII letters, digits, '_' and '.', and a letter first";
    named(alloc, text, span, "name", what, label)
}

// The report of a start state that is declared already.
fn repeated_state(alloc: Global, text: &str, span: Span) -> Result<Report, AllocError>
    ensures level { IfOk result (λ report. report.level ≡ Error) }
    ensures span { IfOk result (HasOneLabel span) }
{
    let label = "an earlier line has it, or it is INITIAL, which is always there";
    named(alloc, text, span, "start state", "is declared twice", label)
}

// The report of a start state that isn't declared.
fn unknown_state(alloc: Global, text: &str, span: Span) -> Result<Report, AllocError>
    ensures level { IfOk result (λ report. report.level ≡ Error) }
    ensures span { IfOk result (HasOneLabel span) }
{
    let mut label = String::new(alloc);
    let names = declared_states(alloc, text)?;
    push_nearest(
        &mut label,
        part(text, span),
        &names,
        "declare it by %x or %s",
    )?;
    named(
        alloc,
        text,
        span,
        "start state",
        "isn't declared",
        label.as_str(),
    )
}

// The start states that the lines before `%%` declare.
fn declared_states(alloc: Global, text: &str) -> Result<Vec<&str>, AllocError> {
    let mut names = vec![in alloc; "INITIAL"]?;
    for line in text.split('\n') {
        let line = line.trim_matches([' ', '\t', '\r']);
        if line == "%%" {
            break;
        }
        if let Some(others) = line.strip_prefix("%x").or(line.strip_prefix("%s")) {
            for name in others.split_ascii_whitespace() {
                names.push(name)?;
            }
        }
    }
    Ok(names)
}
