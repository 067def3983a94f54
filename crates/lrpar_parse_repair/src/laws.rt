//! Laws about the definitions that contracts cite. Each function states one as its contract, and does nothing.
ghost use Rattle.lrpar_grammar_places.specs.Comparisons.{HashesAs};
ghost use Rattle.lrpar_parse_repair.specs.StepComparisons.{ComparesContents, step_input};
ghost use Rattle.lrpar_parse_repair.specs.Supplied.{RepairsWithFirst, RepairsWithSecond};

use crate::or::Or;
use crate::repair::Recoverer;
use crate::repair_step::RepairStep;
use lrpar_grammar::span::StorageIndex;
use lrpar_parse_lexemes::lex_api::Lexeme;
use std::hash::Hash;

/// Two steps are equal if and only if they are of one kind and, for insertions, have tokens of one number. A step's hash feeds the
/// hasher which of the three kinds it is, and for an insertion then the token's number.
pub fn steps_are_compared_by_contents<StorageT: StorageIndex>()
    ensures equal { ComparesContents StorageT.index ⟦<RepairStep<StorageT> as PartialEq>⟧.eq }
    ensures hash { HashesAs (step_input StorageT.hash_input) ⟦<RepairStep<StorageT> as PartialEq>⟧.eq ⟦<RepairStep<StorageT> as Hash>⟧.hash_input }
{}

/// If one of two recoverers always repairs over a checked table, `first.or(second)` does, whatever the other one is.
pub fn or_repairs_where_one_does<
    StorageT: StorageIndex,
    LexemeT: Lexeme<StorageT>,
    A: Recoverer<StorageT, LexemeT>,
    B: Recoverer<StorageT, LexemeT>,
>()
    ensures second { RepairsWithSecond StorageT.index LexemeT.parts B.allows ⟦<Or<A, B, StorageT, LexemeT> as Recoverer<StorageT, LexemeT>>⟧.allows }
    ensures first { RepairsWithFirst StorageT.index LexemeT.parts A.allows ⟦<Or<A, B, StorageT, LexemeT> as Recoverer<StorageT, LexemeT>>⟧.allows }
{}
