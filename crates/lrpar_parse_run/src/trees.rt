//! Building the tree of a parse.
ghost use Rattle.lrpar_grammar.specs.Grammar.{rule_of};
ghost use Rattle.lrpar_parse_run.specs.Nodes.{IsNonterm, IsTerm};

use crate::building::Build;
use lrpar_grammar::grammar::YaccGrammar;
use lrpar_grammar::span::{PIdx, StorageIndex};
use lrpar_parse_lexemes::lex_api::Lexeme;
use lrpar_parse_trees::node::Node;
use std::alloc::{AllocError, Global};

/// Builds the tree of the parse.
#[derive(Drop)]
pub struct Trees;

impl<StorageT: StorageIndex, LexemeT: Lexeme<StorageT>> Build<StorageT, LexemeT> for Trees {
    type Entry = Node<LexemeT, StorageT>;

    type Entries = Vec<Node<LexemeT, StorageT>>;

    ghost builds = { λ b. record {
      can_build = λ g. Unit {0};
      suits = λ s e. Unit {0};
      leaf = λ x e. IsTerm x e;
      node = λ g p before es e. IsNonterm StorageT.index (rule_of g p) es e;
      rises = λ es n. Unit {0};
    } };

    fn shift(
        &self,
        lexeme: LexemeT,
        entries: &mut Vec<Node<LexemeT, StorageT>>,
    ) -> Result<(), AllocError> {
        entries.push(Node::Term { lexeme })?;
        Ok(())
    }

    fn reduce(
        &self,
        _alloc: Global,
        grm: &YaccGrammar<StorageT>,
        pidx: &PIdx<StorageT>,
        count: usize,
        entries: &mut Vec<Node<LexemeT, StorageT>>,
    ) -> Result<(), AllocError> {
        let ridx = grm.prod_to_rule(*pidx);
        let nodes = entries.split_off(entries.len() - count)?;
        entries.push(Node::Nonterm { ridx, nodes })?;
        Ok(())
    }

    ghost rising = { λ b g. record { with_none = tt; by_leaf = λ es n x e rise low is. tt; by_node = λ kept es n p e rise is. tt } };
}
