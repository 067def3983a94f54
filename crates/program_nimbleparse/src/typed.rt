//! Typed grammars: what they are, or what is wrong with them.
use crate::printer::Printer;
use crate::show::{fault_of_report, push_reports};
use lrpar_grammar::grammar::{GrammarFault, YaccGrammar};
use lrpar_grammar::span::Span;
use lrpar_grammar_typed::expand::expand;
use lrpar_grammar_typed::file::MAX_DEPTH;
use lrpar_grammar_typed::notation::{LEXER, NAMES, Notation, NotationFault};
use lrpar_grammar_typed::typed::{TypedFault, TypedGrammar, word_at};
use lrpar_lexer::TokenTypes;
use lrpar_names::Names;
use lrpar_parse::parser::LexParseError;
use lrpar_parse_lexemes::lex_api::Lexer;
use lrpar_report::{Report, grammar_report, lexing_report};
use lrpar_report_fixes::{TextReports, Wording, read_token_texts};
use program_files::fault::Fault;
use std::alloc::{AllocError, Global};

/// The typed grammar that the text is.
pub(crate) fn read_typed(
    alloc: Global,
    printer: &Printer<'_>,
    text: &str,
) -> Result<TypedGrammar, Fault> {
    match Notation::new(alloc) {
        Ok(notation) => read_by(alloc, printer, &notation, text),
        Err(fault) => Err(fault_of(alloc, printer, &fault)),
    }
}

// The typed grammar that the text is by this notation.
fn read_by(
    alloc: Global,
    printer: &Printer<'_>,
    notation: &Notation,
    text: &str,
) -> Result<TypedGrammar, Fault> {
    let lexer = notation.lexer(alloc, text)?;
    let (file, errors) = match notation.read(alloc, &lexer) {
        Ok(read) => read,
        Err(fault) => return Err(fault_of(alloc, printer, &fault)),
    };
    if let (Some(file), true) = (&file, errors.is_empty()) {
        return match expand(alloc, text, file) {
            Ok(grammar) => Ok(grammar),
            Err(fault) => Err(fault_of_report(alloc, printer, typed_report(alloc, text, &fault))),
        };
    }
    let reports = error_reports(alloc, notation, text, &errors)?;
    let mut message = String::new(alloc);
    push_reports(&mut message, alloc, printer, &reports)?;
    Err(Fault::of_message(message))
}

/// The grammar that a typed one is.
pub(crate) fn grammar_of(
    alloc: Global,
    printer: &Printer<'_>,
    text: &str,
) -> Result<YaccGrammar<u32>, Fault> {
    let typed = read_typed(alloc, printer, text)?;
    match YaccGrammar::from_parts(alloc, typed.parts(alloc)?) {
        Ok(grammar) => Ok(grammar),
        Err(fault) => {
            let report = grammar_report(alloc, text, &fault);
            Err(fault_of_report(alloc, printer, report))
        }
    }
}

// The fault of a text that isn't read, or of the notation itself.
fn fault_of(alloc: Global, printer: &Printer<'_>, fault: &NotationFault) -> Fault {
    if let NotationFault::TooDeep(span) = fault {
        return fault_of_report(alloc, printer, deep_report(alloc, *span));
    }
    match format!(in alloc; "{fault}") {
        Ok(text) => Fault::Message(text),
        Err(_) => Fault::Memory,
    }
}

// The report of groups that are nested too deeply.
fn deep_report(alloc: Global, span: Span) -> Result<Report, AllocError> {
    let label = format!(in alloc; "at most {MAX_DEPTH} may be nested")?;
    report_at(alloc, "groups are nested too deeply", span, label.as_str())
}

// The reports of errors in the text of a typed grammar.
fn error_reports(
    alloc: Global,
    notation: &Notation,
    text: &str,
    errors: &[LexParseError<u32, TokenTypes<u32>>],
) -> Result<Vec<Report>, AllocError> {
    let wording = wording_of(alloc, notation)?;
    let answers = notation.lexer(alloc, text)?.iter(alloc)?;
    let mut reports = TextReports::new(alloc, notation.data(), &wording, text, &answers)?;
    let mut found = Vec::new(alloc);
    for error in errors {
        let report = match error {
            LexParseError::LexError(error) => lexing_report(alloc, text, error)?,
            LexParseError::ParseError(error) => reports.report(alloc, error)?,
        };
        found.push(report)?;
    }
    Ok(found)
}

// What reports call the tokens of the notation.
fn wording_of(alloc: Global, notation: &Notation) -> Result<Wording<u32>, AllocError> {
    let grm = notation.data().grm();
    let names = match Names::read(alloc, grm, NAMES) {
        Ok(names) => names,
        Err(_) => Names::new(alloc, grm)?,
    };
    let texts = read_token_texts(alloc, grm, notation.lex_rules(), LEXER)?;
    Ok(Wording::new(alloc, grm, names, texts)?.unmatched(notation.unmatched()))
}

// The report of a typed grammar without a meaning.
fn typed_report(alloc: Global, text: &str, fault: &TypedFault) -> Result<Report, AllocError> {
    match fault {
        TypedFault::Grammar(GrammarFault::TokenIsRule(span)) => {
            let name = word_at(text, *span);
            let message = format!(in alloc; "token '{name}' has the name of a rule")?;
            report_at(alloc, message.as_str(), *span, "rename one of them")
        }
        TypedFault::Grammar(fault) => grammar_report(alloc, text, fault),
        TypedFault::Memory(_) => Err(AllocError),
        TypedFault::RepeatedType(span) => {
            let label = "an earlier %type has this rule";
            report_at(alloc, "repeated type", *span, label)
        }
        TypedFault::TakenName(span) => {
            let label = "the rule for this would have the name of another one";
            report_at(alloc, "taken name", *span, label)
        }
        TypedFault::TooDeep(span) => deep_report(alloc, *span),
    }
}

/// The report of an error at a place.
pub(crate) fn report_at(
    alloc: Global,
    message: &str,
    span: Span,
    label: &str,
) -> Result<Report, AllocError> {
    Report::error(alloc, message)?.label(span, label)
}
