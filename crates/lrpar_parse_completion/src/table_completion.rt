//! The recoverer that completes what is begun, over any table all of whose stacks can be completed.
ghost use Rattle.std.specs.Prelude.{◌≡◌, IfErr, IfOk, OnOk};
ghost use Rattle.lrpar_table_pops.specs.Completable.{AreAllCompletable};
ghost use Rattle.lrpar_table_pops.specs.Stuck.{IsFault};
ghost use Rattle.lrpar_parse_lexemes.specs.Views.{token_by};
ghost use Rattle.lrpar_parse_completion.specs.TableAnswer.{IsFinished, IsFinishedBy};

use crate::completion::MOST_TOKENS_TRIED;
use crate::finder::Finder;
use crate::nearest::Search;
use lrpar_grammar::span::StorageIndex;
use lrpar_parse_lexemes::lex_api::Lexeme;
use lrpar_parse_repair::repair::{Recoverer, RecoveryPoint, RepairStep};
use lrpar_table_check::check::ParserData;
use lrpar_table_pops::check_completable::{Incompletable, check_completable};
use lrpar_table_sentences::shortest::Shortest;
use std::alloc::{AllocError, Global};
use std::marker::Model;

/// How many stacks of a table are told apart at most, if nothing else is set.
const MAX_STACKS: usize = 100_000;

/// A recoverer that always repairs, over any table all of whose stacks can be completed: also over one whose conflicts are resolved, whose
/// states are merged, or whose grammar has rules that derive no text, if no run gets stuck there. `check_completable` says whether a table is
/// such.
///
/// At an error point it finds tokens that finish the stack: fed from there, they lead to a stack that accepts. It tries the fewest that the
/// items of the stack's states ask for, each by a minimal sentence, and then those of `Completion`. A resolved conflict can lead both astray:
/// then it searches stacks that are reached by one token, by two, and so on, up to the first from which one of them is right. Then it goes on
/// as `Completion` does: the answer is one sequence, which inserts some first of these tokens, deletes the lexemes before the nearest one at
/// which the parse can go on after that, and of equally near ones has the fewest tokens.
///
/// Over another table than its own it may find nothing; what it finds works.
#[derive(Debug)]
pub struct TableCompletion<'a, StorageT: StorageIndex> {
    checked: &'a ParserData<StorageT>,
    shortest: Shortest<StorageT>,
    most: usize,
}

impl<StorageT: StorageIndex> Drop for TableCompletion<'_, StorageT> {
    fn drop(self) {
        let TableCompletion {
            checked: _,
            shortest,
            most: _,
        } = self;
        drop(shortest);
    }
}

impl<'a, StorageT: StorageIndex> Model for TableCompletion<'a, StorageT> {
    ghost use Rattle.std.below.core.specs.declared.int.usize.TheConstants.{MAX};
    ghost use Rattle.lrpar_parse_completion.specs.Answer.{Completer};
    ghost use Rattle.lrpar_parse_completion.specs.TableAnswer.{IsReadyByTable};

    ghost Value = { Completer };

    ghost view = { λ c. record { checked = c.checked.now; most = c.most } };

    ghost invariant = { λ c. IsReadyByTable MAX c.checked.now c.shortest };
}

impl<'a, StorageT: StorageIndex> TableCompletion<'a, StorageT> {
    /// The recoverer over this table. It tries 8 tokens of a completion at each place before the end of the input.
    ///
    /// Refused as `check_completable` refuses the table, with at most 100,000 stacks to tell apart; that check takes most of the time.
    pub fn new(
        alloc: Global,
        checked: &'a ParserData<StorageT>,
    ) -> Result<Self, Incompletable<StorageT>>
        ensures made { IfOk result (λ c. c ≡ record { checked = checked.now; most = 8 }) }
        ensures completable { OnOk result (AreAllCompletable checked.now.grammar checked.now.table) }
        ensures refused { IfErr result (IsFault StorageT.index checked.now.grammar checked.now.table) }
    {
        TableCompletion::with_max_stacks(alloc, checked, MAX_STACKS)
    }

    /// The recoverer over this table, as `new` makes it, but for the stacks to tell apart: there may be up to `max_stacks`. With fewer, a large
    /// table is refused sooner.
    pub fn with_max_stacks(
        alloc: Global,
        checked: &'a ParserData<StorageT>,
        max_stacks: usize,
    ) -> Result<Self, Incompletable<StorageT>>
        ensures made { IfOk result (λ c. c ≡ record { checked = checked.now; most = 8 }) }
        ensures completable { OnOk result (AreAllCompletable checked.now.grammar checked.now.table) }
        ensures refused { IfErr result (IsFault StorageT.index checked.now.grammar checked.now.table) }
    {
        let _lemma = checked.stable();
        check_completable(alloc, checked, max_stacks)?;
        let shortest = Shortest::new(alloc, checked.grm())?;
        Ok(TableCompletion {
            checked,
            shortest,
            most: MOST_TOKENS_TRIED,
        })
    }

    /// Tries up to this many tokens of a completion at each place, in place of 8. At the end of the input all are tried.
    pub fn most(self, most: usize) -> Self
        ensures { result ≡ record self.entry { most = most } }
    {
        let TableCompletion {
            checked,
            shortest,
            most: _,
        } = self;
        TableCompletion {
            checked,
            shortest,
            most,
        }
    }
}

impl<StorageT: StorageIndex, LexemeT: Lexeme<StorageT>> Recoverer<StorageT, LexemeT>
    for TableCompletion<'_, StorageT> {
    ghost allows = { λ own at answer. IsFinished (token_by StorageT.index LexemeT.parts) own at answer };

    fn recover(
        &self,
        alloc: Global,
        point: &RecoveryPoint<'_, StorageT, LexemeT>,
    ) -> Result<Vec<Vec<RepairStep<StorageT>>>, AllocError>
        ensures allowed { IfOk result (IsFinishedBy StorageT.index LexemeT.parts self.now point.now) }
    {
        if !self.checked.is_stack(point.stack()) {
            return Ok(Vec::new(alloc));
        }
        let finder = Finder {
            checked: self.checked,
            shortest: &self.shortest,
        };
        let tokens = finder.find(alloc, point.stack())?;
        let search = Search {
            point,
            tokens: &tokens,
            most: self.most,
        };
        search.answer(alloc)
    }
}
