//! Laws about the definitions that contracts cite: each function has one as its contract, and does nothing.
ghost use Rattle.lrpar_grammar_places.specs.Comparisons.{HashesAs};
ghost use Rattle.lrpar_parse_lexemes.specs.FaultText.{ComparesFaults};
ghost use Rattle.lrpar_parse_lexemes.specs.Repairs.{ComparesRepairs, repair_input};

use crate::lex_api::Lexeme;
use crate::pp_fault::PpFault;
use crate::repairs::ParseRepair;
use lrpar_grammar_places::span::StorageIndex;
use std::hash::Hash;

/// Two repairs are equal if and only if they are of one kind and their tokens or lexemes are equal. A repair's hash feeds the hasher
/// which of the three kinds it is, and then the token's number or the lexeme.
pub fn repairs_are_compared_by_contents<StorageT: StorageIndex, LexemeT: Lexeme<StorageT>>()
    ensures equal { ComparesRepairs StorageT.index LexemeT.PartialEq.eq ⟦<ParseRepair<LexemeT, StorageT> as PartialEq>⟧.eq }
    ensures hash { HashesAs (repair_input StorageT.hash_input LexemeT.hash_input) ⟦<ParseRepair<LexemeT, StorageT> as PartialEq>⟧.eq ⟦<ParseRepair<LexemeT, StorageT> as Hash>⟧.hash_input }
{}

/// Two faults of a text are equal if and only if both name one token, or both are `Memory`.
pub fn pp_faults_are_compared_by_contents<StorageT: StorageIndex>()
    ensures { ComparesFaults StorageT.index ⟦<PpFault<StorageT> as PartialEq>⟧.eq }
{}
