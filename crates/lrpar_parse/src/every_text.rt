//! Laws: if the recoverer of a parser always repairs, each text has a value, and each error lists a repair. A function states the law for
//! the parses whose parser and arguments it is given, and does nothing else.
ghost use Rattle.std.specs.Prelude.{◌<◌};
ghost use Rattle.lrpar_parse_lexemes.specs.Views.{facts_by};
ghost use Rattle.lrpar_parse.specs.EveryText.{AcceptsEveryText, EachTextHasActed, EachTextHasGiven, EachTextHasMapped, EachTextHasRepairs, EachTextHasTree};
ghost use Rattle.lrpar_table_check.specs.Checked.{IsChecked};

use crate::actions::Actions;
use crate::parser::RTParserBuilder;
use crate::values::Values;
use lrpar_grammar::span::{RIdx, StorageIndex};
use lrpar_parse_lexemes::lex_api::{Lexeme, LexerTypes, NonStreamingLexer};
use lrpar_parse_repair::repair::Recoverer;

/// Of runs: over a checked table over which the recoverer always repairs, a run over valid lexemes lists a sequence at each error point,
/// and accepts.
pub fn every_text_is_accepted<
    StorageT: StorageIndex,
    LexemeT: Lexeme<StorageT>,
    R: Recoverer<StorageT, LexemeT>,
>()
    ensures { (r : R) → AcceptsEveryText (facts_by StorageT.index LexemeT.parts) (R.allows r) }
{}

/// Of `parse_generictree` and `parse_noaction`: if the recoverer always repairs over the parser's table, and the lexer returns no lexing
/// error, there is a tree, and each error lists a repair. This holds unless the parse is refused, for memory or for a fault of a lexeme.
pub fn every_text_has_a_tree<
    'input,
    StorageT: StorageIndex,
    LexerTypesT: LexerTypes<StorageT = StorageT>,
    R: Recoverer<StorageT, LexerTypesT::LexemeT> + Drop,
    L: NonStreamingLexer<'input, LexerTypesT>,
>(parser: &RTParserBuilder<'_, StorageT, LexerTypesT, R>, _lexer: &L)
    ensures tree { EachTextHasTree StorageT.index LexerTypesT.LexemeT.parts R.allows parser.now LexerTypesT (L.allows _lexer.now) }
    ensures errors { EachTextHasRepairs StorageT.index LexerTypesT.LexemeT.parts R.allows parser.now LexerTypesT (L.allows _lexer.now) }
{
    is_checked(parser);
}

/// Of `parse_map`, the same for the value.
pub fn every_text_has_a_value<
    'input,
    StorageT: StorageIndex,
    LexerTypesT: LexerTypes<StorageT = StorageT>,
    R: Recoverer<StorageT, LexerTypesT::LexemeT> + Drop,
    L: NonStreamingLexer<'input, LexerTypesT>,
    V,
    F: Fn(LexerTypesT::LexemeT) -> V,
    G: Fn(RIdx<StorageT>, Vec<V>) -> V,
>(parser: &RTParserBuilder<'_, StorageT, LexerTypesT, R>, _lexer: &L, _fterm: &F, _fnonterm: &G)
    ensures { EachTextHasMapped StorageT.index LexerTypesT.LexemeT.parts R.allows parser.now LexerTypesT (L.allows _lexer.now)
        (F.post _fterm.now) (G.post _fnonterm.now) }
{
    is_checked(parser);
}

/// Of `parse_actions`, the same for the value.
pub fn every_text_has_an_acted_value<
    'input,
    StorageT: StorageIndex,
    LexerTypesT: LexerTypes<StorageT = StorageT>,
    R: Recoverer<StorageT, LexerTypesT::LexemeT> + Drop,
    L: NonStreamingLexer<'input, LexerTypesT>,
    A: Actions<StorageT, LexerTypesT::LexemeT, L>,
>(
    parser: &RTParserBuilder<'_, StorageT, LexerTypesT, R>,
    _lexer: &L,
    _actions: &A,
    _param: &A::ParamT,
)
    ensures { EachTextHasActed StorageT.index LexerTypesT.LexemeT.parts R.allows parser.now LexerTypesT (L.allows _lexer.now)
        (A.answers _actions.now) (A.fact _actions.now) _lexer.now _param.now }
{
    is_checked(parser);
}

/// Of `parse_values`, the same for the value, unless the result is an error of `values`.
pub fn every_text_has_a_value_or_an_error<
    'input,
    StorageT: StorageIndex,
    LexerTypesT: LexerTypes<StorageT = StorageT>,
    R: Recoverer<StorageT, LexerTypesT::LexemeT> + Drop,
    L: NonStreamingLexer<'input, LexerTypesT>,
    V: Values<LexerTypesT::LexemeT, L>,
>(parser: &RTParserBuilder<'_, StorageT, LexerTypesT, R>, _lexer: &L, _values: &V)
    ensures { EachTextHasGiven StorageT.index LexerTypesT.LexemeT.parts R.allows parser.now LexerTypesT (L.allows _lexer.now)
        V.Error.from_gives (V.gives _values.now) _lexer.now }
{
    is_checked(parser);
}

// The table of a parser is checked, and some lexeme must follow a repair.
fn is_checked<
    StorageT: StorageIndex,
    LexerTypesT: LexerTypes<StorageT = StorageT>,
    R: Recoverer<StorageT, LexerTypesT::LexemeT> + Drop,
>(parser: &RTParserBuilder<'_, StorageT, LexerTypesT, R>)
    ensures checked { IsChecked parser.now.checked }
    ensures shifts { 0 < parser.now.shifts }
{
    let (_lemma, _second_lemma) = (parser.checked().stable(), parser.shift_count());
}
