//! Over a complete table every sentence has one tree only, and a parse returns it.
ghost use Rattle.std.specs.Prelude.{◌↔◌, ℕ, IfOk, IsTrue, OnOk};
ghost use Rattle.lrpar_parse_run.specs.Folds.{Folds};
ghost use Rattle.lrpar_parse_run.specs.Nodes.{IsNonterm, IsTerm};
ghost use Rattle.lrpar_parse_lexemes.specs.Views.{token_by};
ghost use Rattle.test_headline.specs.Answered.{OfAnswer};
ghost use Rattle.test_headline.specs.Sentences.{AnswersSentence, HasOneTree, IsOfOnlyTree};

use lrpar_grammar::span::StorageIndex;
use lrpar_parse::RTParserBuilder;
use lrpar_parse::parser::{Node, ParseFault};
use lrpar_parse_lexemes::lex_api::{LexerTypes, NonStreamingLexer};
use lrpar_table::check::{CompleteFault, ParserData};
use lrpar_table_check::laws::complete_tables_accept_sentences;
use std::alloc::Global;

/// Why nothing is known about the lexemes.
#[derive(Debug, Drop)]
pub enum Unknown {
    /// The table isn't known to be complete.
    Incomplete(CompleteFault),
    /// The parse returned a fault.
    Refused(ParseFault),
}

/// Whether the lexemes are a sentence of the grammar: a parse by a complete table has no error if and only if they are.
pub fn is_sentence<
    'input,
    StorageT: StorageIndex,
    LexerTypesT: LexerTypes<StorageT = StorageT>,
    L: NonStreamingLexer<'input, LexerTypesT>,
>(alloc: Global, checked: &ParserData<StorageT>, lexer: &L) -> Result<bool, Unknown>
    ensures { IfOk result (λ yes. OfAnswer (L.allows lexer.now) (λ lexed.
        IsTrue yes ↔ AnswersSentence (token_by StorageT.index LexerTypesT.LexemeT.parts) checked.now.grammar lexed)) }
{
    match checked.check_complete(alloc) {
        Ok(()) => match RTParserBuilder::new(checked).parse_noaction(alloc, lexer) {
            Ok(errors) => Ok(errors.is_empty()),
            Err(fault) => Err(Unknown::Refused(fault)),
        },
        Err(fault) => Err(Unknown::Incomplete(fault)),
    }
}

/// The tree of the lexemes by a complete table: there is one if and only if they are a sentence, and each tree over them is this one.
pub fn only_tree<
    'input,
    StorageT: StorageIndex,
    LexerTypesT: LexerTypes<StorageT = StorageT>,
    L: NonStreamingLexer<'input, LexerTypesT>,
>(
    alloc: Global,
    checked: &ParserData<StorageT>,
    lexer: &L,
) -> Result<Option<Node<LexerTypesT::LexemeT, StorageT>>, Unknown>
    ensures { IfOk result (λ tree. OfAnswer (L.allows lexer.now)
        (IsOfOnlyTree (token_by StorageT.index LexerTypesT.LexemeT.parts) checked.now.grammar
        (Folds IsTerm (IsNonterm StorageT.index) checked.now.grammar) tree)) }
{
    match checked.check_complete(alloc) {
        Ok(()) => match RTParserBuilder::new(checked).parse_generictree(alloc, lexer) {
            Ok((tree, _)) => Ok(tree),
            Err(fault) => Err(Unknown::Refused(fault)),
        },
        Err(fault) => Err(Unknown::Incomplete(fault)),
    }
}

/// If the table is complete, two trees of a sentence are equal, over lexemes of any type.
pub fn trees_are_one<StorageT: StorageIndex, LexemeT>(
    alloc: Global,
    checked: &ParserData<StorageT>,
) -> Result<(), CompleteFault>
    ensures { OnOk result ((token : LexemeT → ℕ) → HasOneTree token checked.now.grammar) }
{
    complete_tables_accept_sentences::<LexemeT>();
    let _lemma = checked.stable();
    checked.check_complete(alloc)
}
