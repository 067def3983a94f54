//! The parse to typed values.
ghost use Rattle.std.specs.Prelude.{IfOk};
ghost use Rattle.lrpar_typed.specs.TypedParse.{GetsTyped, HasRows, IsOfStart, ValueHolds};

use crate::typed::{Typed, Typing};
use lrpar_grammar::span::StorageIndex;
use lrpar_parse::failures::come_out;
use lrpar_parse::parser::{LexParseError, RTParserBuilder};
use lrpar_parse_lexemes::lex_api::{LexerTypes, NonStreamingLexer};
use lrpar_parse_repair::repair::Recoverer;
use std::alloc::Global;

/// Parses the lexemes that the lexer returns, and makes a value: `None` if there was a lexing error, or a parse error without a repair. The
/// value is of the start rule, and what holds of values by `typed` holds of it.
///
/// The errors of the text come beside it, as those of `parse_values` do. `Err`: the error of the first production that had one, if the parse comes to
/// it as its value, or the one that is made of a `ParseFault`. The grammar of the parser has to have the productions of the rows, which
/// [`are_rows_of`](crate::are_rows_of) tells. It costs what `parse_actions` costs.
pub fn parse_typed<
    'a,
    'input,
    StorageT: StorageIndex,
    LexerTypesT: LexerTypes<StorageT = StorageT>,
    R: Recoverer<StorageT, LexerTypesT::LexemeT> + Drop,
    L: NonStreamingLexer<'input, LexerTypesT>,
    T: Typed<StorageT, LexerTypesT::LexemeT, L>,
>(
    parser: &RTParserBuilder<'a, StorageT, LexerTypesT, R>,
    alloc: Global,
    lexer: &L,
    typed: &T,
) -> Result<(Option<T::Value>, Vec<LexParseError<StorageT, LexerTypesT>>), T::Error>
    requires rows { HasRows T.rows T.start parser.now }
    ensures parse { GetsTyped StorageT.index LexerTypesT.LexemeT.parts R.allows parser.now (L.allows lexer.now)
        T.Error.from_gives T.rule (T.holds typed.now) (T.gives typed.now) lexer.now result }
    ensures start { IfOk result (IsOfStart T.rule T.start) }
    ensures holds { IfOk result (ValueHolds (T.holds typed.now)) }
{
    come_out(parser.parse_actions(alloc, lexer, &Typing { typed }, &()))
}
