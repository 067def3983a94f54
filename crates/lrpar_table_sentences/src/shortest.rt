//! Minimal sentences of rules and symbols, and their trees.
ghost use Rattle.std.specs.Prelude.{◌≡◌, IfOk, OnOk};
ghost use Rattle.lrpar_table_sentences.specs.Choices.{AreShortest, AreShortestOf, DecidesTree, IsLenOf, IsLenOfAll, is_kept};
ghost use Rattle.lrpar_table_sentences.specs.Lens.{len_by, len_by_all};
ghost use Rattle.lrpar_table_sentences.specs.Reachable.{IsFirstUnproductiveIfAny};
ghost use Rattle.lrpar_table_sentences.specs.Appended.{AppendsShortestTree, AppendsShortestTrees, AppendsTreesWith, CanStartWith, HasTreeOf, HaveTreesOf};

use crate::descend::push_beginning;
use crate::minimal_sentences::{Choice, choice_of, find_minimal_sentences, len_of, sum_of_lens};
use crate::moves::Move;
use crate::reachable::unproductive;
use crate::unfold::{push_symbol, push_symbols};
use lrpar_grammar::grammar::YaccGrammar;
use lrpar_grammar::span::{RIdx, StorageIndex, Symbol, TIdx};
use std::alloc::{AllocError, Global};
use std::marker::Model;

/// For each rule of a grammar the length of a minimal sentence, in tokens, and the tree of one.
#[derive(Debug)]
pub struct Shortest<StorageT: StorageIndex> {
    choices: Vec<Option<Choice<StorageT>>>,
}

// A drop of its own: code that drops one then has one call to prove.
impl<StorageT: StorageIndex> Drop for Shortest<StorageT> {
    fn drop(self) {
        let Shortest { choices } = self;
        drop(choices);
    }
}

impl<StorageT: StorageIndex> Model for Shortest<StorageT> {
    ghost use Rattle.std.specs.Prelude.{List, Option};
    ghost use Rattle.lrpar_table_sentences.specs.Choices.{ChoiceOf, choices_of};

    ghost Value = { List (Option ChoiceOf) };

    ghost view = { λ shortest. choices_of StorageT.index shortest.choices.items };
}

impl<StorageT: StorageIndex> Shortest<StorageT> {
    /// The minimal sentences of the grammar's rules.
    ///
    /// They are fixed in the order of their lengths (Knuth, 'A Generalization of Dijkstra's Algorithm'), by sweeps over the
    /// productions: few in practice, and at most one more than there are rules. Memory grows with the rules. An `Err` comes if an
    /// allocation fails.
    pub fn new(alloc: Global, grm: &YaccGrammar<StorageT>) -> Result<Self, AllocError>
        ensures { IfOk result (AreShortestOf grm.now) }
    {
        let choices = find_minimal_sentences(alloc, grm)?;
        Ok(Shortest { choices })
    }

    /// The number of tokens of a minimal sentence of the symbol, capped at `usize::MAX`; `None` if the symbol is unproductive.
    pub fn len_of(&self, symbol: Symbol<StorageT>) -> Option<usize>
        ensures len { result ≡ len_by StorageT.index self.now symbol }
        ensures shortest { IsLenOf StorageT.index self.now symbol result }
    {
        len_of(&self.choices, symbol)
    }

    /// Whether the rule is productive. No rule past the grammar's is.
    pub fn derives_text(&self, rule: RIdx<StorageT>) -> bool
        ensures kept { result ≡ is_kept StorageT.index self.now rule }
        ensures exact { DecidesTree StorageT.index self.now rule result }
    {
        choice_of(&self.choices, rule).is_some()
    }

    /// The number of tokens of a minimal sentence of the symbols, capped at `usize::MAX`; `None` if one of the symbols is
    /// unproductive.
    pub fn len_of_all(&self, symbols: &[Symbol<StorageT>]) -> Option<usize>
        ensures len { result ≡ len_by_all StorageT.index self.now symbols.now }
        ensures shortest { IsLenOfAll StorageT.index self.now symbols.now result }
    {
        sum_of_lens(&self.choices, symbols)
    }

    /// Appends the moves of the tree of a minimal sentence of the symbol, which has to be productive.
    ///
    /// Time and memory grow with the moves. An `Err` comes if an allocation fails, as it must for `usize::MAX` tokens; `out` may
    /// then have some of the moves after what it had.
    pub fn push_moves(
        &self,
        alloc: Global,
        out: &mut Vec<Move<StorageT>>,
        grm: &YaccGrammar<StorageT>,
        symbol: Symbol<StorageT>,
    ) -> Result<(), AllocError>
        requires shortest { AreShortest grm.now usize.MAX self.now }
        requires some { HasTreeOf StorageT.index grm.now symbol }
        ensures { OnOk result (AppendsShortestTree StorageT.index grm.now symbol out.old out.new) }
    {
        push_symbol(alloc, grm, &self.choices, out, symbol)
    }

    /// Appends the moves of the trees of a minimal sentence of the symbols, each of which has to be productive.
    ///
    /// Time, memory and `Err` are as with `push_moves`.
    pub fn push_all_moves(
        &self,
        alloc: Global,
        out: &mut Vec<Move<StorageT>>,
        grm: &YaccGrammar<StorageT>,
        symbols: &[Symbol<StorageT>],
    ) -> Result<(), AllocError>
        requires shortest { AreShortest grm.now usize.MAX self.now }
        requires some { HaveTreesOf StorageT.index grm.now symbols.now }
        ensures { OnOk result (AppendsShortestTrees StorageT.index grm.now symbols.now out.old out.new) }
    {
        push_symbols(alloc, grm, &self.choices, out, symbols)
    }

    /// Appends the moves of trees of the symbols, one each, whose first token is `first`. There have to be such trees. In the
    /// nodes around that token, the trees after it are those of minimal sentences.
    ///
    /// It looks for the rules that can begin with the token, by sweeps over the productions. `Err` is as with `push_moves`.
    pub fn push_moves_from(
        &self,
        alloc: Global,
        out: &mut Vec<Move<StorageT>>,
        grm: &YaccGrammar<StorageT>,
        symbols: &[Symbol<StorageT>],
        first: TIdx<StorageT>,
    ) -> Result<(), AllocError>
        requires shortest { AreShortest grm.now usize.MAX self.now }
        requires some { CanStartWith StorageT.index grm.now symbols.now first }
        ensures { OnOk result (AppendsTreesWith StorageT.index grm.now symbols.now first out.old out.new) }
    {
        push_beginning(alloc, grm, &self.choices, out, symbols, first)
    }

    /// The first rule, by its number, that is reachable and unproductive, if there is one.
    ///
    /// It goes over the productions until no more reachable rules are found: few times in practice, and at most one more than
    /// there are rules. Memory grows with the rules. An `Err` comes if an allocation fails.
    pub fn unproductive(
        &self,
        alloc: Global,
        grm: &YaccGrammar<StorageT>,
    ) -> Result<Option<RIdx<StorageT>>, AllocError>
        requires shortest { AreShortest grm.now usize.MAX self.now }
        ensures { IfOk result (IsFirstUnproductiveIfAny StorageT.index grm.now) }
    {
        unproductive(alloc, grm, &self.choices)
    }
}
