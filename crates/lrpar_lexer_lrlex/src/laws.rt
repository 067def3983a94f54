//! Laws of rules with start states.
ghost use Rattle.lrpar_lexer_lrlex.specs.Laws.{LexesAllInAsLexemes, LexesAllInAsRules, LexesAllInOneWay, LexesAsRules, LexesEachTextIn, LexesInOneWay};

/// Rules without start states give what the same rules give without any: the lexemes and errors of `lrpar_lexer::RuleLexer`, with the same
/// token for unmatched characters, or with none.
pub fn rules_without_states_lex_as_rules()
    ensures { LexesAsRules }
{}

/// By the same rules with start states a text has one list of lexemes and errors, from each place on and with each stack of states.
pub fn texts_are_lexed_one_way()
    ensures { LexesInOneWay }
{}

/// By the same rules with start states, and with a token for unmatched characters, a text has exactly one list of lexemes. It has no error. If
/// the rules alone give a list without an error, it is that list.
pub fn texts_are_lexed_without_errors()
    ensures some { LexesEachTextIn }
    ensures one { LexesAllInOneWay }
    ensures lexemes { LexesAllInAsLexemes }
    ensures rules { LexesAllInAsRules }
{}
