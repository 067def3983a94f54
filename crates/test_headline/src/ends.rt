//! The parse ends, with its errors or with a fault that its caller can rule out.
ghost use Rattle.std.specs.Prelude.{IfErr};
ghost use Rattle.lrpar_parse_lexemes.specs.Views.{facts_by};
ghost use Rattle.test_headline.specs.Answered.{IsDueRefusal};

use lrpar_grammar::span::StorageIndex;
use lrpar_parse::RTParserBuilder;
use lrpar_parse::parser::{LexParseError, ParseFault};
use lrpar_parse_lexemes::lex_api::{LexerTypes, NonStreamingLexer};
use lrpar_parse_repair::repair::Recoverer;
use std::alloc::Global;

/// The errors of a parse, whatever its recoverer supplies. There is an `Err` only if memory ran out, or if one of the
/// lexer's lexemes has a fault. So a parse over valid lexemes ends with an answer, unless memory runs out.
pub fn errors_of<
    'input,
    StorageT: StorageIndex,
    LexerTypesT: LexerTypes<StorageT = StorageT>,
    L: NonStreamingLexer<'input, LexerTypesT>,
    R: Recoverer<StorageT, LexerTypesT::LexemeT> + Drop,
>(
    alloc: Global,
    parser: &RTParserBuilder<'_, StorageT, LexerTypesT, R>,
    lexer: &L,
) -> Result<Vec<LexParseError<StorageT, LexerTypesT>>, ParseFault>
    ensures { IfErr result (IsDueRefusal (facts_by StorageT.index LexerTypesT.LexemeT.parts) parser.now.checked.grammar (L.allows lexer.now)) }
{
    parser.parse_noaction(alloc, lexer)
}
