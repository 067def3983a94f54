//! A law about the states in which parses stop: a function has it as its contract, and does nothing.
ghost use Rattle.lrpar_parse_stops.specs.ErrorsStop.{AreErrorStates};

use lrpar_grammar::span::StorageIndex;
use lrpar_parse_lexemes::lex_api::Lexeme;
use lrpar_parse_repair::repair::Recoverer;

/// Each error of a parse over a safe table is in a state in which a run can stop, whatever the recoverer, later errors after repairs, too. So a
/// catalogue that has a message for each of these states has one for each error of a parse.
pub fn parses_stop_at_error_states<
    StorageT: StorageIndex,
    LexemeT: Lexeme<StorageT>,
    R: Recoverer<StorageT, LexemeT>,
>()
    ensures { AreErrorStates StorageT.index LexemeT.parts R.allows }
{}
