//! Building nothing, for a parse that gives errors alone.

use crate::building::Build;
use lrpar_grammar::grammar::YaccGrammar;
use lrpar_grammar::span::{PIdx, StorageIndex};
use lrpar_parse_lexemes::lex_api::Lexeme;
use std::alloc::{AllocError, Global};

/// Builds nothing, and makes no list.
#[derive(Drop)]
pub struct Nothing;

impl<StorageT: StorageIndex, LexemeT: Lexeme<StorageT>> Build<StorageT, LexemeT> for Nothing {
    type Entry = ();

    type Entries = Vec<()>;

    ghost builds = { λ b. record {
      can_build = λ g. Unit {0};
      suits = λ s e. Unit {0};
      leaf = λ x e. Unit {0};
      node = λ g p before es e. Unit {0};
      rises = λ es n. Unit {0};
    } };

    fn shift(&self, _lexeme: LexemeT, entries: &mut Vec<()>) -> Result<(), AllocError> {
        entries.push(())?;
        Ok(())
    }

    fn reduce(
        &self,
        _alloc: Global,
        _grm: &YaccGrammar<StorageT>,
        _pidx: &PIdx<StorageT>,
        count: usize,
        entries: &mut Vec<()>,
    ) -> Result<(), AllocError> {
        entries.truncate(entries.len() - count);
        entries.push(())?;
        Ok(())
    }

    ghost rising = { λ b g. record { with_none = tt; by_leaf = λ es n x e rise low is. tt; by_node = λ kept es n p e rise is. tt } };
}
