//! Faults with their places, for `DiagnosticFormatter::format_error`.
ghost use Rattle.std.specs.Prelude.{◌≡◌, IfOk};
ghost use Rattle.lrpar_grammar_places.specs.Span.{IsPartOf};
ghost use Rattle.lrpar_report.specs.FaultPlaces.{AreGrammarSpans, AreRulesSpans, IsErrorPlaced, IsPlaceBy};

use crate::errors::error_report;
use crate::grammar::grammar_report;
use crate::lexer::rules_report;
use lrpar_grammar::grammar::{GrammarFault, YaccGrammar};
use lrpar_grammar::span::StorageIndex;
use lrpar_lexer::RulesFault;
use lrpar_parse_errors::errors::LexParseError;
use lrpar_parse_lexemes::lex_api::LexerTypes;
use lrpar_report_lines::PlacedFault;
use lrpar_table::check::ParserData;
use std::alloc::{AllocError, Global};

/// The fault in a grammar text, at the place at which [`grammar_report`] has it. A fault that has none is at the start of the text.
/// `text` should be the text that has the fault; else the place means nothing, but is still a part of the text.
///
/// Takes the time of [`grammar_report`]. `Err`: out of memory, also if that is the fault.
pub fn placed_grammar_fault(
    alloc: Global,
    text: &str,
    fault: GrammarFault,
) -> Result<PlacedFault<GrammarFault>, AllocError>
    ensures fault { IfOk result (λ placed. placed.fault ≡ fault) }
    ensures part { IfOk result (λ placed. IsPartOf text.now placed.place) }
    ensures place { IfOk result (λ placed. IsPlaceBy (AreGrammarSpans text.now fault) text.now placed.place) }
{
    let report = grammar_report(alloc, text, &fault)?;
    Ok(PlacedFault::new(text, &report, fault))
}

/// The fault in a text of rules for a lexer, at the place at which [`rules_report`] has it. `text` should be the text that has the fault,
/// and `grm` its grammar; else the place means nothing, but is still a part of the text.
///
/// Takes the time of [`rules_report`]. `Err`: out of memory, also if that is the fault.
pub fn placed_rules_fault(
    alloc: Global,
    grm: &YaccGrammar<u32>,
    text: &str,
    fault: RulesFault,
) -> Result<PlacedFault<RulesFault>, AllocError>
    ensures fault { IfOk result (λ placed. placed.fault ≡ fault) }
    ensures part { IfOk result (λ placed. IsPartOf text.now placed.place) }
    ensures place { IfOk result (λ placed. IsPlaceBy (AreRulesSpans text.now fault) text.now placed.place) }
{
    let report = rules_report(alloc, grm, text, &fault)?;
    Ok(PlacedFault::new(text, &report, fault))
}

/// The error of a parse, at the place at which [`error_report`] has it. `data` should be the table of the parse, and `text` its input; else
/// the place means nothing, but is still a part of the text.
///
/// Takes the time of [`error_report`]. `Err`: out of memory.
pub fn placed_error<StorageT: StorageIndex, LexerTypesT: LexerTypes<StorageT = StorageT>>(
    alloc: Global,
    data: &ParserData<StorageT>,
    text: &str,
    error: LexParseError<StorageT, LexerTypesT>,
) -> Result<PlacedFault<LexParseError<StorageT, LexerTypesT>>, AllocError>
    ensures fault { IfOk result (λ placed. placed.fault ≡ error) }
    ensures part { IfOk result (λ placed. IsPartOf text.now placed.place) }
    ensures place { IfOk result (IsErrorPlaced LexerTypesT.LexErrorT.place (λ x. (LexerTypesT.LexemeT.parts x).span) text.now error) }
{
    let report = error_report(alloc, data, text, &error)?;
    Ok(PlacedFault::new(text, &report, error))
}
