//! The faults of lexemes.
ghost use Rattle.lrpar_parse.specs.LexemeFault.{IsLexemeFault};
ghost use Rattle.lrpar_parse_lexemes.specs.Views.{known};

use crate::fault::ParseFault;
use lrpar_grammar::grammar::YaccGrammar;
use lrpar_grammar::span::StorageIndex;
use lrpar_parse_lexemes::lex_api::Lexeme;

/// The first lexeme that has a fault, with its fault: its token is the end token or isn't the grammar's, or else it starts before the
/// start of the lexeme before it.
pub fn lexeme_fault<LexemeT: Lexeme<StorageT>, StorageT: StorageIndex>(
    grm: &YaccGrammar<StorageT>,
    lexemes: &[LexemeT],
) -> Option<ParseFault>
    ensures { IsLexemeFault grm.now (known StorageT.index LexemeT.parts lexemes.now) result }
{
    let end = grm.tokens_len() - 1;
    let mut previous = 0;
    for (i, lexeme) in lexemes.iter().enumerate() {
        if end <= lexeme.tok_id().to_index() {
            return Some(ParseFault::BadToken(i));
        }
        let start = lexeme.span().start();
        if start < previous {
            return Some(ParseFault::StartsDecrease(i));
        }
        previous = start;
    }
    None
}
