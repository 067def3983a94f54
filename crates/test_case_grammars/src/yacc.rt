//! Grammars of `.y` files: why there is none, or the erased file, what it declares, and what the case asks of the grammar.
use crate::grammars::push_shown;
use lrpar_grammar::span::Span;
use lrpar_grammar_words::words::Word;
use lrpar_grammar_yacc::declarations::{Declarations, Level, Number, Prec};
use lrpar_grammar_yacc::faults::{YaccFault, YaccText};
use lrpar_grammar_yacc::file::{YaccFile, YaccFileFault};
use lrpar_grammar_yacc::parts::YaccKind;
use lrpar_table_precedence::precedence::AssocKind;
use std::alloc::Global;
use test_case_lines::cases::Case;
use test_case_lines::fault::Fault;
use test_case_lines::printed::Printed;
use test_case_lines::values::kind_of;

/// The keys that say what is done.
pub const INPUTS: &[&str] = &["text", "kind", "show", "find"];

/// The grammar of the file, in the smallest storage type.
pub fn outcome(out: &mut Printed, alloc: Global, case: Case<'_, '_>) -> Result<(), Fault> {
    let text = case.text(alloc, "text")?;
    match YaccFile::<u8>::new_with_kind(alloc, kind_of(case), text.as_str()) {
        Ok(file) => {
            push_text(out, &file.text);
            if case.value("show").is_some() {
                push_shown(out, alloc, case, &file.grammar)?;
            }
        }
        Err(fault) => push_fault(out, &fault),
    }
    Ok(())
}

/// Why there is no grammar of each beginning of a file.
pub fn outcome_of_cuts(out: &mut Printed, alloc: Global, case: Case<'_, '_>) -> Result<(), Fault> {
    let text = case.text(alloc, "text")?;
    let kind = kind_of(case);
    for (len, _) in text.as_str().char_indices() {
        out.number("cut ", len);
        out.text(": ");
        push_cut(out, alloc, kind, text.as_str().get(..len).unwrap_or(""));
    }
    Ok(())
}

// Why there is no grammar of the file.
fn push_cut(out: &mut Printed, alloc: Global, kind: YaccKind, cut: &str) {
    let fault = YaccFile::<u8>::new_with_kind(alloc, kind, cut).err();
    match &fault {
        None => out.text("a grammar\n"),
        Some(fault) => push_fault(out, fault),
    }
}

// The fault, and the end of its span, if it has one.
fn push_fault(out: &mut Printed, fault: &YaccFileFault) {
    out.text("fault ");
    out.show(fault);
    match fault {
        YaccFileFault::Declared(
            YaccFault::RepeatedPrec(span)
            | YaccFault::RepeatedPrecedence(span)
            | YaccFault::MidRuleAction(span)
            | YaccFault::BadNumber(span),
        )
        | YaccFileFault::UnknownToken(span) => out.line("..", &span.end()),
        YaccFileFault::Memory => out.lack_memory(),
        _ => out.text("\n"),
    }
}

// The lines of the erased file that aren't empty, with `_` for each space and `~` for each CR, and what it declares.
fn push_text(out: &mut Printed, text: &YaccText) {
    for line in text.erased.as_str().split('\n') {
        if !line.is_empty() {
            push_line(out, line);
        }
    }
    push_declarations(out, &text.declarations);
}

// A line of an erased file.
fn push_line(out: &mut Printed, line: &str) {
    out.text("erased ");
    for part in line.chars() {
        out.show(&shown(part));
    }
    out.text("\n");
}

// How a character of an erased file is shown.
fn shown(part: char) -> char {
    match part {
        ' ' => '_',
        '\r' => '~',
        _ => part,
    }
}

// A line for each level, `%prec`, avoided or unused name, and number.
fn push_declarations(out: &mut Printed, declared: &Declarations) {
    for level in &declared.levels {
        push_level(out, level);
    }
    for prec in &declared.precs {
        push_prec(out, prec);
    }
    push_words(out, "avoided", &declared.avoided);
    push_words(out, "unused", &declared.unused);
    push_numbers(out, "expect", &declared.expected);
    push_numbers(out, "expect-rr", &declared.expected_rr);
}

// A level, with its names.
fn push_level(out: &mut Printed, level: &Level) {
    out.text(match level.kind {
        AssocKind::Left => "left",
        AssocKind::Right => "right",
        AssocKind::Nonassoc => "nonassoc",
        AssocKind::Undeclared => "precedence",
    });
    push_names(out, &level.names);
}

// The production of a `%prec`, and its name.
fn push_prec(out: &mut Printed, prec: &Prec) {
    out.number("prec ", prec.prod);
    push_name(out, &prec.name);
    out.text("\n");
}

// A line with these words, if there are any.
fn push_words(out: &mut Printed, key: &str, words: &[Word]) {
    if !words.is_empty() {
        out.text(key);
        push_names(out, words);
    }
}

// Names, each with its place, and the end of the line.
fn push_names(out: &mut Printed, words: &[Word]) {
    for word in words {
        push_name(out, word);
    }
    out.text("\n");
}

// A name with its place.
fn push_name(out: &mut Printed, word: &Word) {
    out.texts(" ", word.name);
    push_span(out, word.span());
}

// A line for each number.
fn push_numbers(out: &mut Printed, key: &str, numbers: &[Number]) {
    for number in numbers {
        out.text(key);
        out.number(" ", number.number);
        push_span(out, number.span);
        out.text("\n");
    }
}

// A span.
fn push_span(out: &mut Printed, span: Span) {
    out.number(" ", span.start());
    out.number("..", span.end());
}
