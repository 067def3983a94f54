//! The recoverer that completes what is begun.
ghost use Rattle.std.specs.Prelude.{◌≡◌, IfErr, IfOk, OnOk};
ghost use Rattle.lrpar_table_sentences.specs.Reachable.{EachReachableHasTree};
ghost use Rattle.lrpar_parse_lexemes.specs.Views.{token_by};
ghost use Rattle.lrpar_parse_completion.specs.Answer.{HasCompleteTable, IsCompleted, IsCompletedBy};
ghost use Rattle.lrpar_parse_completion.specs.Refused.{IsNoCompletion};
ghost use Rattle.lrpar_parse_completion.specs.declared.fault.NoCompletion.TheVariants.{Memory};

use crate::completer::Completer;
use crate::fault::NoCompletion;
use crate::nearest::Search;
use lrpar_grammar::span::StorageIndex;
use lrpar_parse_lexemes::lex_api::Lexeme;
use lrpar_parse_repair::repair::{Recoverer, RecoveryPoint, RepairStep};
use lrpar_table_check::check::{CompleteFault, ParserData};
use lrpar_table_sentences::shortest::Shortest;
use std::alloc::{AllocError, Global};
use std::marker::Model;

/// How many tokens of a completion are tried at each place, if nothing else is set.
pub(crate) const MOST_TOKENS_TRIED: usize = 8;

/// A recoverer that always repairs, over a table that is complete and viable, as each built table without conflicts is, of a grammar
/// whose reachable rules are productive.
///
/// At an error point it makes a completion of the stack: tokens that, fed from there, lead to a stack that accepts. From the lexeme that
/// has no action on, it looks for the first place at which the parse can go on after the lexemes before it are deleted and some first
/// tokens of the completion are inserted, and there for the fewest tokens. The answer is that one sequence: the insertions, and then the
/// deletions. At the latest it deletes all that is left and inserts the whole completion.
///
/// At each error point it makes the whole completion, once: that takes time linear in the grammar for each state in which it goes down,
/// and in the tokens of the completion. It copies the stack once for each number of tokens that is tried before the end. Then each place
/// before the nearest one takes at most one test for each of these numbers, and a test feeds at most as many lexemes as have to follow a
/// repair. Over another table than its own it may find nothing; what it finds works.
#[derive(Debug)]
pub struct Completion<'a, StorageT: StorageIndex> {
    data: &'a ParserData<StorageT>,
    shortest: Shortest<StorageT>,
    most: usize,
}

impl<StorageT: StorageIndex> Drop for Completion<'_, StorageT> {
    fn drop(self) {
        let Completion {
            data: _,
            shortest,
            most: _,
        } = self;
        drop(shortest);
    }
}

impl<'a, StorageT: StorageIndex> Model for Completion<'a, StorageT> {
    ghost use Rattle.std.below.core.specs.declared.int.usize.TheConstants.{MAX};
    ghost use Rattle.lrpar_parse_completion.specs.Answer.{Completer, IsReady};

    ghost Value = { Completer };

    ghost view = { λ c. record { checked = c.data.now; most = c.most } };

    ghost invariant = { λ c. IsReady MAX c.data.now c.shortest };
}

impl<'a, StorageT: StorageIndex> Completion<'a, StorageT> {
    /// The recoverer over this table. It tries 8 tokens of a completion at each place before the end of the input.
    ///
    /// Refused by the first reachable rule that derives no text; or, if there is none, by the first of the conditions C1 to C5 of a
    /// complete table that fails, at the lowest state at which it does. A table that is built is complete if and only if it has no
    /// conflicts. `Memory` comes if an allocation failed.
    ///
    /// It finds the minimal sentences of the grammar's rules, and checks the table as `check_complete` does, which takes most of the time.
    pub fn new(
        alloc: Global,
        checked: &'a ParserData<StorageT>,
    ) -> Result<Self, NoCompletion<StorageT>>
        ensures made { IfOk result (λ c. c ≡ record { checked = checked.now; most = 8 }) }
        ensures complete { OnOk result (HasCompleteTable checked.now) }
        ensures productive { OnOk result (EachReachableHasTree checked.now.grammar) }
        ensures refused { IfErr result (IsNoCompletion StorageT.index checked.now) }
        ensures exact { HasCompleteTable checked.now → EachReachableHasTree checked.now.grammar → IfErr result (λ e. e ≡ Memory) }
    {
        let _lemma = checked.stable();
        let shortest = Shortest::new(alloc, checked.grm())?;
        if let Some(rule) = shortest.unproductive(alloc, checked.grm())? {
            return Err(NoCompletion::Unproductive(rule));
        }
        match checked.check_complete(alloc) {
            Ok(()) => Ok(Completion {
                data: checked,
                shortest,
                most: MOST_TOKENS_TRIED,
            }),
            Err(CompleteFault::Condition(condition, state)) => {
                Err(NoCompletion::Incomplete(condition, state))
            }
            Err(CompleteFault::Memory) => Err(NoCompletion::Memory),
        }
    }

    /// Tries up to this many tokens of a completion at each place, in place of 8. At the end of the input all are tried.
    pub fn most(self, most: usize) -> Self
        ensures { result ≡ record self.entry { most = most } }
    {
        let Completion {
            data,
            shortest,
            most: _,
        } = self;
        Completion {
            data,
            shortest,
            most,
        }
    }
}

impl<StorageT: StorageIndex, LexemeT: Lexeme<StorageT>> Recoverer<StorageT, LexemeT>
    for Completion<'_, StorageT> {
    ghost allows = { λ own at answer. IsCompleted (token_by StorageT.index LexemeT.parts) own at answer };

    fn recover(
        &self,
        alloc: Global,
        point: &RecoveryPoint<'_, StorageT, LexemeT>,
    ) -> Result<Vec<Vec<RepairStep<StorageT>>>, AllocError>
        ensures allowed { IfOk result (IsCompletedBy StorageT.index LexemeT.parts self.now point.now) }
    {
        let completer = Completer {
            data: self.data,
            shortest: &self.shortest,
        };
        let Some(tokens) = completer.completion(alloc, point.stack())? else {
            return Ok(Vec::new(alloc));
        };
        let search = Search {
            point,
            tokens: &tokens,
            most: self.most,
        };
        search.answer(alloc)
    }
}
