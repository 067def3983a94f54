//! An error lists the supplied sequences that work, and nothing else. If nothing is supplied, there is at most one error.
ghost use Rattle.std.specs.Prelude.{◌≡◌, ◌≤◌, IfOk, None, length};
ghost use Rattle.lrpar_parse.specs.Lexed.{first_error, lexemes_of};
ghost use Rattle.lrpar_parse_lexemes.specs.Views.{facts_by};
ghost use Rattle.lrpar_parse_repair.specs.PlainSteps.{plain_sequences};
ghost use Rattle.test_headline.specs.Answered.{OfAnswer};
ghost use Rattle.test_headline.specs.Worked.{EachListsWhatWorks, supplying};

use lrpar_grammar::span::StorageIndex;
use lrpar_parse::RTParserBuilder;
use lrpar_parse::parser::{LexParseError, ParseFault};
use lrpar_parse_lexemes::lex_api::{LexerTypes, NonStreamingLexer};
use lrpar_parse_repair::repair::{FixedRecoverer, RepairStep};
use lrpar_table::check::ParserData;
use std::alloc::Global;

/// The errors of a parse in which these sequences are supplied at each error. If there is no lexing error, each error lists exactly those
/// of the sequences that work at its error point, in the order of the list.
pub fn errors_by<
    'input,
    StorageT: StorageIndex,
    LexerTypesT: LexerTypes<StorageT = StorageT>,
    L: NonStreamingLexer<'input, LexerTypesT>,
>(
    alloc: Global,
    checked: &ParserData<StorageT>,
    lexer: &L,
    sequences: Vec<Vec<RepairStep<StorageT>>>,
) -> Result<Vec<LexParseError<StorageT, LexerTypesT>>, ParseFault>
    ensures { IfOk result (λ errors. OfAnswer (L.allows lexer.now) (λ lexed. first_error lexed ≡ None →
        let supplied = plain_sequences StorageT.index sequences.items in
        EachListsWhatWorks (supplying checked.now (facts_by StorageT.index LexerTypesT.LexemeT.parts) 3 supplied) supplied (lexemes_of lexed) errors.items)) }
{
    let fixed = FixedRecoverer::new(sequences);
    let parser = RTParserBuilder::new(checked).recoverer(fixed);
    parser.parse_noaction(alloc, lexer)
}

/// The errors of a parse in which nothing is supplied: there is at most one.
pub fn errors_without_repairs<
    'input,
    StorageT: StorageIndex,
    LexerTypesT: LexerTypes<StorageT = StorageT>,
    L: NonStreamingLexer<'input, LexerTypesT>,
>(
    alloc: Global,
    checked: &ParserData<StorageT>,
    lexer: &L,
) -> Result<Vec<LexParseError<StorageT, LexerTypesT>>, ParseFault>
    ensures { IfOk result (λ errors. length errors.items ≤ 1) }
{
    RTParserBuilder::new(checked).parse_noaction(alloc, lexer)
}
