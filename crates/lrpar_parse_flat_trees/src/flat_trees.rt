//! Building the tree of a parse in one list.
ghost use Rattle.std.specs.Prelude.{◌≡◌};
ghost use Rattle.lrpar_grammar.specs.Tree.{Branch, Leaf};
ghost use Rattle.lrpar_parse_lexemes.specs.Views.{facts_by};
ghost use Rattle.lrpar_parse_flat_trees.specs.Flat.{forest_of, trees_of};
ghost use Rattle.lrpar_parse_flat_trees.specs.Growing.{TreesRise};
ghost use Rattle.lrpar_parse_flat_trees.specs.TreesRising.{trees_rise};

use crate::growing::Growing;
use crate::syntax_tree::SyntaxTree;
use lrpar_grammar::grammar::YaccGrammar;
use lrpar_grammar::span::{PIdx, StorageIndex};
use lrpar_parse_lexemes::lex_api::Lexeme;
use lrpar_parse_run::building::Build;
use lrpar_parse_run::entries::Entries;
use std::alloc::{AllocError, Global};

/// Builds the tree of the parse, in one list.
#[derive(Drop)]
pub struct FlatTrees;

impl<StorageT: StorageIndex> Entries for Growing<StorageT> {
    type Entry = SyntaxTree<StorageT>;

    ghost as_list = { λ trees. trees_of trees };

    fn none(alloc: Global) -> Growing<StorageT> {
        Growing::new(alloc)
    }

    fn into_entry(self) -> SyntaxTree<StorageT> {
        self.into_tree()
    }
}

impl<StorageT: StorageIndex, LexemeT: Lexeme<StorageT>> Build<StorageT, LexemeT> for FlatTrees {
    type Entry = SyntaxTree<StorageT>;

    type Entries = Growing<StorageT>;

    ghost builds = { λ b. record {
      can_build = λ g. Unit {0};
      suits = λ s e. Unit {0};
      leaf = λ x e. e ≡ Leaf (facts_by StorageT.index LexemeT.parts x);
      node = λ g p before es e. e ≡ Branch p (forest_of es);
      rises = λ es n. TreesRise es n;
    } };

    fn shift(&self, lexeme: LexemeT, entries: &mut Growing<StorageT>) -> Result<(), AllocError> {
        entries.push_leaf(lexeme.tok_id(), lexeme.span(), lexeme.faulty())
    }

    fn reduce(
        &self,
        _alloc: Global,
        _grm: &YaccGrammar<StorageT>,
        pidx: &PIdx<StorageT>,
        count: usize,
        entries: &mut Growing<StorageT>,
    ) -> Result<(), AllocError> {
        entries.close(pidx.0, count)
    }

    ghost rising = { λ b g. trees_rise (facts_by StorageT.index LexemeT.parts) };
}
