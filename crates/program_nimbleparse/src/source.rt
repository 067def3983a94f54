//! Grammar files: a grammar, and what its file declares beside it, or why there is none.
ghost use Rattle.lrpar_grammar_bison_rules.specs.Rules.{AreOfDefinedRules, HaveOrderedItems, rules_in};

use crate::declared::Declared;
use crate::header::{Named, named_kind};
use crate::kind::{GrammarKind, kind_by_look, looks_like_bison};
use crate::printer::Printer;
use crate::show::fault_of_report;
use crate::typed::grammar_of;
use lrpar_grammar::grammar::{GrammarFault, YaccGrammar};
use lrpar_grammar::span::Span;
use lrpar_grammar_bison_parts::faults::BisonFault;
use lrpar_grammar_bison_parts::grammar::BisonGrammar;
use lrpar_grammar_bison_rules::rules::FileRules;
use lrpar_grammar_yacc::file::{YaccFile, YaccFileFault};
use lrpar_grammar_yacc::parts::YaccKind;
use lrpar_report::{Report, grammar_report, push_quoted, yacc_report};
use lrpar_report_bison::bison_report;
use program_files::fault::Fault;
use std::alloc::{AllocError, Global};

/// The grammar of a file, and what the file declares beside it.
#[derive(Drop)]
pub(crate) struct Source<'a> {
    pub(crate) grammar: YaccGrammar<u32>,
    pub(crate) declared: Declared<'a>,
}

/// The grammar of a file of this kind. If no kind is named, it is the one that the file's header names; otherwise the file is a grammar text
/// if it can be read as one; otherwise it is of the kind that it looks like.
pub(crate) fn source_of<'a>(
    alloc: Global,
    printer: &Printer<'_>,
    text: &'a str,
    kind: Option<GrammarKind>,
) -> Result<Source<'a>, Fault> {
    match kind {
        Some(kind) => by_kind(alloc, printer, text, kind),
        None => match named_kind(alloc, text)? {
            Named::Kind(kind) => by_kind(alloc, printer, text, kind),
            Named::Nothing => by_look(alloc, printer, text),
            Named::Unknown(span) => {
                let report = unknown_kind(alloc, text, span);
                Err(fault_of_report(alloc, printer, report))
            }
        },
    }
}

// The grammar of a file of this kind.
fn by_kind<'a>(
    alloc: Global,
    printer: &Printer<'_>,
    text: &'a str,
    kind: GrammarKind,
) -> Result<Source<'a>, Fault> {
    match kind {
        GrammarKind::Yacc(kind) => by_yacc(alloc, printer, text, kind),
        GrammarKind::Bison => by_bison(alloc, printer, text),
        GrammarKind::Typed => Ok(plain(alloc, grammar_of(alloc, printer, text)?)),
        GrammarKind::Profile => match YaccGrammar::new_with_storaget(alloc, text) {
            Ok(grammar) => Ok(plain(alloc, grammar)),
            Err(fault) => Err(refused(alloc, printer, text, &fault)),
        },
    }
}

// The grammar of a file of the kind that it looks like.
fn by_look<'a>(alloc: Global, printer: &Printer<'_>, text: &'a str) -> Result<Source<'a>, Fault> {
    match YaccGrammar::new_with_storaget(alloc, text) {
        Ok(grammar) => Ok(plain(alloc, grammar)),
        Err(GrammarFault::Memory) => Err(Fault::Memory),
        Err(fault) => match kind_by_look(text) {
            Some(kind) => by_yacc_or_bison(alloc, printer, text, kind),
            None => {
                let otherwise = refused(alloc, printer, text, &fault);
                by_bison_or(alloc, printer, text, otherwise)
            }
        },
    }
}

// The grammar of a `.y` file of lrpar, of this kind, or of one of bison. A name that has no precedence is a fault of lrpar's files alone, so
// such a file is one of bison only if it looks like that.
fn by_yacc_or_bison<'a>(
    alloc: Global,
    printer: &Printer<'_>,
    text: &'a str,
    kind: YaccKind,
) -> Result<Source<'a>, Fault> {
    match YaccFile::new_with_kind(alloc, kind, text) {
        Ok(file) => of_yacc(alloc, file),
        Err(YaccFileFault::Memory) => Err(Fault::Memory),
        Err(fault) => {
            let is_name = matches!(fault, YaccFileFault::UnknownToken(_));
            let otherwise = fault_of_report(alloc, printer, yacc_report(alloc, kind, text, &fault));
            if is_name && !looks_like_bison(text) {
                Err(otherwise)
            } else {
                by_bison_or(alloc, printer, text, otherwise)
            }
        }
    }
}

// The grammar of a file of bison; or this fault, if it is no such file and doesn't look like one.
fn by_bison_or<'a>(
    alloc: Global,
    printer: &Printer<'_>,
    text: &'a str,
    otherwise: Fault,
) -> Result<Source<'a>, Fault> {
    match by_bison(alloc, printer, text) {
        Err(Fault::Memory) => Err(Fault::Memory),
        Err(fault) if !looks_like_bison(text) => {
            drop(fault);
            Err(otherwise)
        }
        found => found,
    }
}

// A grammar whose file declares nothing beside it.
fn plain<'a>(alloc: Global, grammar: YaccGrammar<u32>) -> Source<'a> {
    Source {
        grammar,
        declared: Declared::nothing(alloc),
    }
}

// The fault of a grammar text.
fn refused(alloc: Global, printer: &Printer<'_>, text: &str, fault: &GrammarFault) -> Fault {
    fault_of_report(alloc, printer, grammar_report(alloc, text, fault))
}

// The grammar of a `.y` file of lrpar, of this kind.
fn by_yacc<'a>(
    alloc: Global,
    printer: &Printer<'_>,
    text: &'a str,
    kind: YaccKind,
) -> Result<Source<'a>, Fault> {
    match YaccFile::new_with_kind(alloc, kind, text) {
        Ok(file) => of_yacc(alloc, file),
        Err(fault) => {
            let report = yacc_report(alloc, kind, text, &fault);
            Err(fault_of_report(alloc, printer, report))
        }
    }
}

// The grammar of a `.y` file of lrpar that was read.
fn of_yacc<'a>(alloc: Global, file: YaccFile<'a, u32>) -> Result<Source<'a>, Fault> {
    let (grammar, text) = file.into_parts();
    let declared = Declared::of_declarations(alloc, &grammar, &text.declarations)?;
    Ok(Source { grammar, declared })
}

// The grammar of a `.y` file of bison.
fn by_bison<'a>(alloc: Global, printer: &Printer<'_>, text: &'a str) -> Result<Source<'a>, Fault> {
    match FileRules::read(alloc, text) {
        Ok(rules) => by_rules(alloc, printer, text, &rules),
        Err(fault) => Err(refused_by_bison(alloc, printer, text, &BisonFault::from(fault))),
    }
}

// The grammar that the declarations and rules of a file of bison make.
fn by_rules<'a>(
    alloc: Global,
    printer: &Printer<'_>,
    text: &str,
    rules: &FileRules<'a>,
) -> Result<Source<'a>, Fault>
    requires defined { AreOfDefinedRules (rules_in rules.now) }
    requires order { HaveOrderedItems (rules_in rules.now) }
{
    match BisonGrammar::<u32>::of_rules(alloc, rules) {
        Ok(BisonGrammar { parts, precedences }) => {
            let grammar = match YaccGrammar::from_parts(alloc, parts) {
                Ok(grammar) => grammar,
                Err(fault) => return Err(refused(alloc, printer, text, &fault)),
            };
            match Declared::of_rules(alloc, &grammar, rules, precedences)? {
                Ok(declared) => Ok(Source { grammar, declared }),
                Err(word) => {
                    let report = no_number(alloc, word.span());
                    Err(fault_of_report(alloc, printer, report))
                }
            }
        }
        Err(fault) => Err(refused_by_bison(alloc, printer, text, &fault)),
    }
}

// The fault of a `.y` file of bison.
fn refused_by_bison(alloc: Global, printer: &Printer<'_>, text: &str, fault: &BisonFault) -> Fault {
    fault_of_report(alloc, printer, bison_report(alloc, text, fault))
}

// The report of a number of conflicts that is none.
fn no_number(alloc: Global, span: Span) -> Result<Report, AllocError> {
    let label = "expected a decimal number that is no larger than a table can have";
    Report::error(alloc, "not a number of conflicts")?.label(span, label)
}

// The report of a kind that isn't known.
fn unknown_kind(alloc: Global, text: &str, span: Span) -> Result<Report, AllocError> {
    let mut message = String::from_str(alloc, "unknown yacckind ")?;
    push_quoted(
        &mut message,
        text.get(span.start()..span.end()).unwrap_or(""),
    )?;
    let label =
        "expected Typed, Grmtools, or Original with NoAction, UserAction or GenericParseTree in brackets";
    Report::error(alloc, message.as_str())?.label(span, label)
}
