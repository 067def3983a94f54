//! There is a value if and only if there is no lexing error and each parse error lists a repair.
ghost use Rattle.std.specs.Prelude.{◌↔◌, All, IfOk, IsSome};
ghost use Rattle.lrpar_parse.specs.EveryText.{ListsRepair};

use lrpar_grammar::span::{RIdx, StorageIndex};
use lrpar_parse::RTParserBuilder;
use lrpar_parse::laws::runs_with_repairs_are_sound;
use lrpar_parse::parser::{LexParseError, ParseFault};
use lrpar_parse_lexemes::lex_api::{LexerTypes, NonStreamingLexer};
use lrpar_parse_repair::repair::Recoverer;
use std::alloc::Global;

/// The value and the errors of a parse, whatever its recoverer supplies. There is a value if and only if each error is a parse
/// error that lists a repair.
pub fn value_of<
    'input,
    StorageT: StorageIndex,
    LexerTypesT: LexerTypes<StorageT = StorageT>,
    L: NonStreamingLexer<'input, LexerTypesT>,
    R: Recoverer<StorageT, LexerTypesT::LexemeT> + Drop,
    V: Drop,
    F: Fn(LexerTypesT::LexemeT) -> V + Drop,
    G: Fn(RIdx<StorageT>, Vec<V>) -> V + Drop,
>(
    alloc: Global,
    parser: &RTParserBuilder<'_, StorageT, LexerTypesT, R>,
    lexer: &L,
    fterm: F,
    fnonterm: G,
) -> Result<(Option<V>, Vec<LexParseError<StorageT, LexerTypesT>>), ParseFault>
    requires fterm { F.IsAlwaysCallable fterm }
    requires fnonterm { G.IsAlwaysCallable fnonterm }
    ensures { IfOk result (λ answer. IsSome answer.0 ↔ All ListsRepair answer.1.items) }
{
    runs_with_repairs_are_sound::<StorageT, LexerTypesT::LexemeT, R>();
    parser.parse_map(alloc, lexer, fterm, fnonterm)
}
