//! If the recoverer always repairs, every text has a value, and each error lists a repair.
ghost use Rattle.std.specs.Prelude.{◌≡◌};
ghost use Rattle.lrpar_table_build.specs.Built.{IsBuilt};
ghost use Rattle.lrpar_parse.specs.EveryText.{HasRepairsOfText, HasValueOfText};
ghost use Rattle.lrpar_parse_lexemes.specs.Views.{token_by};
ghost use Rattle.lrpar_parse_repair.specs.AlwaysRepairs.{AlwaysRepairs};

use lrpar_grammar::span::StorageIndex;
use lrpar_parse::RTParserBuilder;
use lrpar_parse::every_text::every_text_has_a_tree;
use lrpar_parse::parser::{LexParseError, Node, ParseFault};
use lrpar_parse_completion::laws::{completions_always_repair, table_completions_always_repair};
use lrpar_parse_completion::{Completion, TableCompletion};
use lrpar_parse_lexemes::lex_api::{LexerTypes, NonStreamingLexer};
use lrpar_parse_repair::laws::or_repairs_where_one_does;
use lrpar_parse_repair::or::Or;
use lrpar_parse_repair::repair::Recoverer;
use std::alloc::Global;

/// The tree and the errors of a parse whose recoverer always repairs. If there is no lexing error, there is a tree, and each error lists a
/// repair.
pub fn tree_of_any_text<
    'input,
    StorageT: StorageIndex,
    LexerTypesT: LexerTypes<StorageT = StorageT>,
    L: NonStreamingLexer<'input, LexerTypesT>,
    R: Recoverer<StorageT, LexerTypesT::LexemeT> + Drop,
>(
    alloc: Global,
    parser: &RTParserBuilder<'_, StorageT, LexerTypesT, R>,
    lexer: &L,
) -> Result<
    (
        Option<Node<LexerTypesT::LexemeT, StorageT>>,
        Vec<LexParseError<StorageT, LexerTypesT>>,
    ),
    ParseFault,
>
    requires { AlwaysRepairs (token_by StorageT.index LexerTypesT.LexemeT.parts) (R.allows parser.now.recoverer) parser.now.checked }
    ensures { HasValueOfText (L.allows lexer.now) result }
{
    every_text_has_a_tree(parser, lexer);
    parser.parse_generictree(alloc, lexer)
}

/// The errors of a parse by two recoverers, of which the second one always repairs: whatever the first one supplies, each error lists a
/// repair, if there is no lexing error.
pub fn errors_of_any_text<
    'input,
    StorageT: StorageIndex,
    LexerTypesT: LexerTypes<StorageT = StorageT>,
    L: NonStreamingLexer<'input, LexerTypesT>,
    A: Recoverer<StorageT, LexerTypesT::LexemeT> + Drop,
    B: Recoverer<StorageT, LexerTypesT::LexemeT> + Drop,
>(
    alloc: Global,
    parser: &RTParserBuilder<'_, StorageT, LexerTypesT, Or<A, B, StorageT, LexerTypesT::LexemeT>>,
    lexer: &L,
) -> Result<Vec<LexParseError<StorageT, LexerTypesT>>, ParseFault>
    requires { AlwaysRepairs (token_by StorageT.index LexerTypesT.LexemeT.parts) (B.allows parser.now.recoverer.second) parser.now.checked }
    ensures { HasRepairsOfText (L.allows lexer.now) result }
{
    or_repairs_where_one_does::<StorageT, LexerTypesT::LexemeT, A, B>();
    every_text_has_a_tree(parser, lexer);
    parser.parse_noaction(alloc, lexer)
}

/// The tree and the errors of a parse by two recoverers, of which the second one is a completion over the table of the parser. If that
/// table is built, and there is no lexing error, there is a tree, and each error lists a repair, whatever the first recoverer supplies.
pub fn completed_tree_of_any_text<
    'input,
    'a,
    StorageT: StorageIndex,
    LexerTypesT: LexerTypes<StorageT = StorageT>,
    L: NonStreamingLexer<'input, LexerTypesT>,
    A: Recoverer<StorageT, LexerTypesT::LexemeT> + Drop,
>(
    alloc: Global,
    parser: &RTParserBuilder<
        'a,
        StorageT,
        LexerTypesT,
        Or<A, Completion<'a, StorageT>, StorageT, LexerTypesT::LexemeT>,
    >,
    lexer: &L,
) -> Result<
    (
        Option<Node<LexerTypesT::LexemeT, StorageT>>,
        Vec<LexParseError<StorageT, LexerTypesT>>,
    ),
    ParseFault,
>
    requires built { IsBuilt parser.now.checked.grammar parser.now.checked.graph parser.now.checked.table }
    requires own { parser.now.recoverer.second.checked ≡ parser.now.checked }
    ensures { HasValueOfText (L.allows lexer.now) result }
{
    completions_always_repair::<LexerTypesT::LexemeT>();
    or_repairs_where_one_does::<StorageT, LexerTypesT::LexemeT, A, Completion<'a, StorageT>>();
    every_text_has_a_tree(parser, lexer);
    parser.parse_generictree(alloc, lexer)
}

/// The tree and the errors of a parse by two recoverers, of which the second one is a completion by the runs of the parser's table. If there
/// is no lexing error, there is a tree, and each error lists a repair, whatever conflicts of the table were resolved, and whatever the first
/// recoverer supplies.
pub fn finished_tree_of_any_text<
    'input,
    'a,
    StorageT: StorageIndex,
    LexerTypesT: LexerTypes<StorageT = StorageT>,
    L: NonStreamingLexer<'input, LexerTypesT>,
    A: Recoverer<StorageT, LexerTypesT::LexemeT> + Drop,
>(
    alloc: Global,
    parser: &RTParserBuilder<
        'a,
        StorageT,
        LexerTypesT,
        Or<A, TableCompletion<'a, StorageT>, StorageT, LexerTypesT::LexemeT>,
    >,
    lexer: &L,
) -> Result<
    (
        Option<Node<LexerTypesT::LexemeT, StorageT>>,
        Vec<LexParseError<StorageT, LexerTypesT>>,
    ),
    ParseFault,
>
    requires own { parser.now.recoverer.second.checked ≡ parser.now.checked }
    ensures { HasValueOfText (L.allows lexer.now) result }
{
    table_completions_always_repair::<LexerTypesT::LexemeT>();
    or_repairs_where_one_does::<StorageT, LexerTypesT::LexemeT, A, TableCompletion<'a, StorageT>>();
    every_text_has_a_tree(parser, lexer);
    parser.parse_generictree(alloc, lexer)
}
