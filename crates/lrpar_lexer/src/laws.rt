//! Laws of lexers that use rules, of lexemes, and of rules as a text.
ghost use Rattle.lrpar_grammar_places.specs.Comparisons.{HashesAs};
ghost use Rattle.lrpar_lexer.specs.LexingLaws.{LexesOneWay};
ghost use Rattle.lrpar_lexer.specs.LexingAllLaws.{LexesAllAsLexemes, LexesAllAsRules, LexesAllOneWay, LexesEachText};
ghost use Rattle.lrpar_lexer.specs.RuleLineLaws.{LinesReadOneWay};
ghost use Rattle.lrpar_lexer.specs.TokenTexts.{ComparesTokens, token_input};

use crate::token::Token;
use lrpar_grammar_places::span::StorageIndex;
use std::hash::Hash;

/// With the same rules a text has one list of lexemes and errors, from each place on.
pub fn texts_are_lexed_one_way()
    ensures { LexesOneWay }
{}

/// With the same rules, and a token for unmatched characters, a text has exactly one list of lexemes. It has no error. If the rules alone
/// give a list without an error, it is that list.
pub fn texts_are_lexed_without_errors()
    ensures some { LexesEachText }
    ensures one { LexesAllOneWay }
    ensures lexemes { LexesAllAsLexemes }
    ensures rules { LexesAllAsRules }
{}

/// A line of a text of rules reads as at most one pattern and one name, or no name.
pub fn lines_read_one_way()
    ensures { LinesReadOneWay }
{}

/// Two lexemes are equal if and only if they have the same token and the same place, and both are made by a repair or neither. A
/// hasher is fed what it is fed for the token's number, then both ends, and then whether a repair made the lexeme.
pub fn tokens_are_compared_by_parts<StorageT: StorageIndex>()
    ensures equal { ComparesTokens StorageT.index ⟦<Token<StorageT> as PartialEq>⟧.eq }
    ensures hash { HashesAs (token_input StorageT.hash_input) ⟦<Token<StorageT> as PartialEq>⟧.eq ⟦<Token<StorageT> as Hash>⟧.hash_input }
{}
