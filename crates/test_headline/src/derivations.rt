//! A value is the fold of a derivation. Its leaves are the lexemes as first repaired; without an error they are the lexemes themselves.
ghost use Rattle.std.specs.Prelude.{◌≡◌, [], IfOk, IfSome, MatchOption};
ghost use Rattle.lrpar_parse_run.specs.Folds.{Folds};
ghost use Rattle.lrpar_parse.specs.Acted.{IsActedValue};
ghost use Rattle.lrpar_parse.specs.Arguments.{TakesAll};
ghost use Rattle.lrpar_parse.specs.Parser.{subject};
ghost use Rattle.lrpar_parse_lexemes.specs.Views.{span_by};
ghost use Rattle.lrpar_parse_run.specs.Made.{made_by};
ghost use Rattle.test_headline.specs.Answered.{OfAnswer};
ghost use Rattle.test_headline.specs.Leaves.{HasLeaves};
ghost use Rattle.test_headline.specs.Repaired.{IsValueOfRepaired};

use lrpar_grammar::span::{RIdx, StorageIndex};
use lrpar_parse::RTParserBuilder;
use lrpar_parse::parser::{Actions, LexParseError, Node, ParseFault};
use lrpar_parse_lexemes::lex_api::{LexerTypes, NonStreamingLexer};
use lrpar_parse_repair::repair::Recoverer;
use std::alloc::Global;

/// The value and the errors of a parse, whatever its recoverer supplies. A tree of the start rule folds to the value by the two functions.
/// The leaves of this tree are the lexemes as first repaired: at each error the first sequence that it lists is replayed.
pub fn folded_value<
    'input,
    StorageT: StorageIndex,
    LexerTypesT: LexerTypes<StorageT = StorageT>,
    L: NonStreamingLexer<'input, LexerTypesT>,
    R: Recoverer<StorageT, LexerTypesT::LexemeT> + Drop,
    V: Drop,
    F: Fn(LexerTypesT::LexemeT) -> V + Drop,
    G: Fn(RIdx<StorageT>, Vec<V>) -> V + Drop,
>(
    alloc: Global,
    parser: &RTParserBuilder<'_, StorageT, LexerTypesT, R>,
    lexer: &L,
    fterm: F,
    fnonterm: G,
) -> Result<(Option<V>, Vec<LexParseError<StorageT, LexerTypesT>>), ParseFault>
    requires fterm { F.IsAlwaysCallable fterm }
    requires fnonterm { G.IsAlwaysCallable fnonterm }
    ensures { IfOk result (λ answer. OfAnswer (L.allows lexer.now) (λ lexed. IfSome answer.0
        (IsValueOfRepaired (subject StorageT.index LexerTypesT.LexemeT.parts R.allows parser.now)
        (Folds (F.post fterm) (made_by StorageT.index (G.post fnonterm)) parser.now.checked.grammar) lexed answer.1.items))) }
{
    parser.parse_map(alloc, lexer, fterm, fnonterm)
}

/// The value and the errors of a parse by actions, whatever its recoverer supplies. The actions make the value of a tree of the
/// start rule, node by node, and it has the fact of that rule. The leaves of this tree are the lexemes as first repaired.
pub fn acted_value<
    'input,
    StorageT: StorageIndex,
    LexerTypesT: LexerTypes<StorageT = StorageT>,
    L: NonStreamingLexer<'input, LexerTypesT>,
    R: Recoverer<StorageT, LexerTypesT::LexemeT> + Drop,
    A: Actions<StorageT, LexerTypesT::LexemeT, L>,
>(
    alloc: Global,
    parser: &RTParserBuilder<'_, StorageT, LexerTypesT, R>,
    lexer: &L,
    actions: &A,
    param: &A::ParamT,
) -> Result<
    (
        Option<A::ActionT>,
        Vec<LexParseError<StorageT, LexerTypesT>>,
    ),
    ParseFault,
>
    requires { TakesAll (A.taken actions.now) parser.now.checked.grammar }
    ensures { IfOk result (λ answer. OfAnswer (L.allows lexer.now) (λ lexed. IfSome answer.0
        (IsValueOfRepaired (subject StorageT.index LexerTypesT.LexemeT.parts R.allows parser.now)
        (IsActedValue (span_by LexerTypesT.LexemeT.parts) (A.answers actions.now) (A.fact actions.now) parser.now.checked.grammar lexer.now param.now)
        lexed answer.1.items))) }
{
    parser.parse_actions(alloc, lexer, actions, param)
}

/// The tree and the errors of a parse, whatever its recoverer supplies. If there is no error, there is a tree, and its leaves
/// are exactly the lexemes, in order.
pub fn tree_of<
    'input,
    StorageT: StorageIndex,
    LexerTypesT: LexerTypes<StorageT = StorageT>,
    L: NonStreamingLexer<'input, LexerTypesT>,
    R: Recoverer<StorageT, LexerTypesT::LexemeT> + Drop,
>(
    alloc: Global,
    parser: &RTParserBuilder<'_, StorageT, LexerTypesT, R>,
    lexer: &L,
) -> Result<
    (
        Option<Node<LexerTypesT::LexemeT, StorageT>>,
        Vec<LexParseError<StorageT, LexerTypesT>>,
    ),
    ParseFault,
>
    ensures { IfOk result (λ answer. OfAnswer (L.allows lexer.now) (λ lexed. answer.1.items ≡ [] → MatchOption answer.0 ⊥ (λ node. HasLeaves node lexed))) }
{
    parser.parse_generictree(alloc, lexer)
}
