//! Counterexamples of the conflicts of a table that was built of a grammar.
ghost use Rattle.std.specs.Prelude.{◌≡◌, ◌<◌, IfErr, IfOk};
ghost use Rattle.std.specs.List.{Contains};
ghost use Rattle.lrpar_table_rows.specs.PlainConflicts.{reduce_reduce_of, shift_reduce_of};
ghost use Rattle.lrpar_table_build.specs.Built.{IsBuilt};
ghost use Rattle.lrpar_table_build.specs.BuilderLaws.{lists_in};
ghost use Rattle.lrpar_table_sentences.specs.Choices.{AreShortest};
ghost use Rattle.lrpar_table_sentences.specs.Reachable.{EachReachableHasTree};
ghost use Rattle.lrpar_conflict_derivations.specs.Completion.{CanComplete};
ghost use Rattle.lrpar_conflict_derivations.specs.Conflict.{IsConflict, IsExampleOf, IsReduceReduceExample, IsShiftReduceExample, conflict_of};
ghost use Rattle.lrpar_conflict_derivations.specs.Example.{AreExamplesFor, HasSearched, IsFault};
ghost use Rattle.lrpar_conflict_derivations.specs.Search.{FindsFor};
ghost use Rattle.lrpar_conflict_derivations.specs.Stored.{FindsExampleOf, GoesOnBy, IsCalledFor, IsFrontTo, IsStateOf};

use crate::configurations::Conflict;
use crate::context::Context;
use crate::derivations::derive;
pub use crate::example::{Example, tokens_of};
pub use crate::fault::ExampleFault;
use crate::min_lengths::MinLengths;
use crate::predecessors::Predecessors;
use crate::search::Search;
use crate::unifying::find_unifying;
use crate::validation::symbols_of;
use lrpar_grammar::grammar::YaccGrammar;
use lrpar_grammar::span::{PIdx, StIdx, StorageIndex, Symbol, TIdx};
use lrpar_grammar::token_set::TokenSet;
use lrpar_table_first::first::first_sets;
use lrpar_table_rows::table::{StateGraph, StateTable};
use lrpar_table_sentences::access_strings::{AccessStrings, Step};
use lrpar_table_sentences::moves::Move;
use lrpar_table_sentences::shortest::Shortest;
use std::alloc::{AllocError, Global};
use std::marker::Model;

/// What the counterexamples of all conflicts of a table share.
pub struct Examples<StorageT: StorageIndex> {
    firsts: Vec<TokenSet>,
    shortest: Shortest<StorageT>,
    access: AccessStrings<StorageT>,
    lengths: MinLengths,
    predecessors: Predecessors<StorageT>,
}

// A drop of its own, so that code that drops one elsewhere proves one call.
impl<StorageT: StorageIndex> Drop for Examples<StorageT> {
    fn drop(self) {
        let Examples {
            firsts,
            shortest,
            access,
            lengths,
            predecessors,
        } = self;
        drop(firsts);
        drop(shortest);
        drop(access);
        drop(lengths);
        drop(predecessors);
    }
}

impl<StorageT: StorageIndex> Model for Examples<StorageT> {
    ghost use Rattle.lrpar_table_first.specs.FirstRows.{rows_of};
    ghost use Rattle.lrpar_conflict_derivations.specs.Example.{ExamplesOf};

    ghost Value = { ExamplesOf };

    ghost view = { λ x. record { firsts = rows_of x.firsts.items; shortest = x.shortest; access = x.access } };
}

// The steps of a shortest access path of a state, and the moves of minimal sentences' trees of its symbols.
pub(crate) struct Front<StorageT: StorageIndex> {
    pub(crate) steps: Vec<Step<StorageT>>,
    pub(crate) moves: Vec<Move<StorageT>>,
}

// A drop of its own, so that code that drops one elsewhere proves one call.
impl<StorageT: StorageIndex> Drop for Front<StorageT> {
    fn drop(self) {
        let Front { steps, moves } = self;
        drop(steps);
        drop(moves);
    }
}

impl<StorageT: StorageIndex> Examples<StorageT> {
    /// What counterexamples of the conflicts of a table need that was built of the grammar.
    ///
    /// `Unproductive` names the first rule, by its number, that the grammar reaches from its start and that derives no text: with one there
    /// are no counterexamples. `Memory` says that an allocation failed.
    pub fn new(
        alloc: Global,
        grm: &YaccGrammar<StorageT>,
        sgraph: &StateGraph<StorageT>,
        stable: &StateTable<StorageT>,
    ) -> Result<Self, ExampleFault<StorageT>>
        requires built { IsBuilt grm.now sgraph.now stable.now }
        ensures made { IfOk result (AreExamplesFor grm.now sgraph.now stable.now usize.MAX) }
        ensures refused { IfErr result (IsFault StorageT.index grm.now) }
    {
        let firsts = first_sets(alloc, grm)?;
        let shortest = productive(alloc, grm)?;
        let access = AccessStrings::new(alloc, grm, sgraph, stable, &shortest)?;
        let lengths = MinLengths::new(alloc, grm, &shortest)?;
        let predecessors = Predecessors::new(alloc, stable)?;
        Ok(Examples {
            firsts,
            shortest,
            access,
            lengths,
            predecessors,
        })
    }

    /// The counterexample of a conflict between two reductions, as token, productions and state: one derivation reduces the first
    /// production, the other the second.
    ///
    /// If the derivations have different texts, it looks for a unifying counterexample on all access paths of the state, shortest texts
    /// first, and returns that if it finds one. It gives up only after it has tried `bound` configurations and ends of access paths, or all
    /// that there are; with a bound of 0 it doesn't look. Fails only if an allocation does.
    pub fn of_reduce_reduce(
        &self,
        alloc: Global,
        grm: &YaccGrammar<StorageT>,
        sgraph: &StateGraph<StorageT>,
        stable: &StateTable<StorageT>,
        conflict: &(
            TIdx<StorageT>,
            PIdx<StorageT>,
            PIdx<StorageT>,
            StIdx<StorageT>,
        ),
        bound: usize,
    ) -> Result<Example<StorageT>, AllocError>
        requires built { IsBuilt grm.now sgraph.now stable.now }
        requires made { AreExamplesFor grm.now sgraph.now stable.now usize.MAX self.now }
        requires member { Contains (lists_in stable.now.conflicts).reduce_reduce (reduce_reduce_of StorageT.index conflict.now) }
        ensures example { IfOk result (IsReduceReduceExample grm.now sgraph.now (reduce_reduce_of StorageT.index conflict.now)) }
        ensures searched { IfOk result (HasSearched bound) }
        ensures bound { IfOk result (λ x. x.bound ≡ bound) }
    {
        let (token, one, other, state) = *conflict;
        let conflict = Conflict {
            state,
            token,
            one: Move::Make(one),
            other: Move::Make(other),
        };
        self.of_conflict(alloc, grm, sgraph, stable, &conflict, bound)
    }

    /// The counterexample of a conflict between a shift and a reduction, as token, production and state: one derivation reduces the
    /// production, the other shifts the token. `bound` is that of `of_reduce_reduce`, and so is an `Err`.
    pub fn of_shift_reduce(
        &self,
        alloc: Global,
        grm: &YaccGrammar<StorageT>,
        sgraph: &StateGraph<StorageT>,
        stable: &StateTable<StorageT>,
        conflict: &(TIdx<StorageT>, PIdx<StorageT>, StIdx<StorageT>),
        bound: usize,
    ) -> Result<Example<StorageT>, AllocError>
        requires built { IsBuilt grm.now sgraph.now stable.now }
        requires made { AreExamplesFor grm.now sgraph.now stable.now usize.MAX self.now }
        requires member { Contains (lists_in stable.now.conflicts).shift_reduce (shift_reduce_of StorageT.index conflict.now) }
        ensures example { IfOk result (IsShiftReduceExample grm.now sgraph.now (shift_reduce_of StorageT.index conflict.now)) }
        ensures searched { IfOk result (HasSearched bound) }
        ensures bound { IfOk result (λ x. x.bound ≡ bound) }
    {
        let (token, prod, state) = *conflict;
        let conflict = Conflict {
            state,
            token,
            one: Move::Make(prod),
            other: Move::Take(token),
        };
        self.of_conflict(alloc, grm, sgraph, stable, &conflict, bound)
    }

    // The counterexample of a conflict: a unifying one, if one is found within the bound.
    fn of_conflict(
        &self,
        alloc: Global,
        grm: &YaccGrammar<StorageT>,
        sgraph: &StateGraph<StorageT>,
        stable: &StateTable<StorageT>,
        conflict: &Conflict<StorageT>,
        bound: usize,
    ) -> Result<Example<StorageT>, AllocError>
        requires built { IsBuilt grm.now sgraph.now stable.now }
        requires made { AreExamplesFor grm.now sgraph.now stable.now usize.MAX self.now }
        requires conflict { IsConflict grm.now sgraph.now (conflict_of StorageT.index conflict.now) }
        ensures example { IfOk result (IsExampleOf grm.now sgraph.now (conflict_of StorageT.index conflict.now)) }
        ensures searched { IfOk result (HasSearched bound) }
        ensures bound { IfOk result (λ x. x.bound ≡ bound) }
    {
        let front = self.front(alloc, grm, sgraph, stable, conflict.state)?;
        self.of_front(alloc, grm, sgraph, stable, &front, conflict, bound)
    }

    // The counterexample that begins with this access path; if its derivations have two texts, a unifying one that is found within the bound.
    fn of_front(
        &self,
        alloc: Global,
        grm: &YaccGrammar<StorageT>,
        sgraph: &StateGraph<StorageT>,
        stable: &StateTable<StorageT>,
        front: &Front<StorageT>,
        conflict: &Conflict<StorageT>,
        bound: usize,
    ) -> Result<Example<StorageT>, AllocError>
        requires built { IsBuilt grm.now sgraph.now stable.now }
        requires made { AreExamplesFor grm.now sgraph.now stable.now usize.MAX self.now }
        requires conflict { IsConflict grm.now sgraph.now (conflict_of StorageT.index conflict.now) }
        requires front { IsFrontTo StorageT.index grm.now sgraph.now conflict.now.state front.now }
        ensures example { IfOk result (IsExampleOf grm.now sgraph.now (conflict_of StorageT.index conflict.now)) }
        ensures searched { IfOk result (HasSearched bound) }
        ensures bound { IfOk result (λ x. x.bound ≡ bound) }
    {
        let plain = self.plain(alloc, grm, sgraph, front, conflict, bound)?;
        if plain.is_ambiguous() {
            return Ok(plain);
        }
        let (found, search) = self.one_text(alloc, grm, sgraph, stable, front, conflict, bound)?;
        match found {
            Some(found) => Ok(found),
            None => Ok(plain.with_search(search.tried(), search.is_over())),
        }
    }

    // The counterexample that begins with this access path.
    fn plain(
        &self,
        alloc: Global,
        grm: &YaccGrammar<StorageT>,
        sgraph: &StateGraph<StorageT>,
        front: &Front<StorageT>,
        conflict: &Conflict<StorageT>,
        bound: usize,
    ) -> Result<Example<StorageT>, AllocError>
        requires parts { CanComplete grm.now sgraph.now usize.MAX self.now.firsts self.now.shortest }
        requires conflict { IsConflict grm.now sgraph.now (conflict_of StorageT.index conflict.now) }
        requires front { IsFrontTo StorageT.index grm.now sgraph.now conflict.now.state front.now }
        ensures example { IfOk result (IsExampleOf grm.now sgraph.now (conflict_of StorageT.index conflict.now)) }
        ensures bound { IfOk result (λ x. x.bound ≡ bound) }
    {
        let first = self.derivation(alloc, grm, sgraph, front, conflict, conflict.one)?;
        let second = self.derivation(alloc, grm, sgraph, front, conflict, conflict.other)?;
        Example::new(alloc, &front.moves, first, second, true, bound)
    }

    // The derivation that begins with this access path, and goes on with the move at the conflict's token.
    fn derivation(
        &self,
        alloc: Global,
        grm: &YaccGrammar<StorageT>,
        sgraph: &StateGraph<StorageT>,
        front: &Front<StorageT>,
        conflict: &Conflict<StorageT>,
        next: Move<StorageT>,
    ) -> Result<Vec<Move<StorageT>>, AllocError>
        requires parts { CanComplete grm.now sgraph.now usize.MAX self.now.firsts self.now.shortest }
        requires conflict { IsConflict grm.now sgraph.now (conflict_of StorageT.index conflict.now) }
        requires front { IsFrontTo StorageT.index grm.now sgraph.now conflict.now.state front.now }
        requires called { IsCalledFor StorageT.index grm.now sgraph.now conflict.now.state conflict.now.token next }
        ensures { IfOk result (GoesOnBy StorageT.index grm.now front.now conflict.now.token next) }
    {
        derive(
            alloc,
            grm,
            &self.firsts,
            &self.shortest,
            sgraph,
            &front.steps,
            conflict.state,
            &front.moves,
            conflict.token,
            next,
        )
    }

    // A shortest access path of the state, and minimal sentences' trees of its symbols.
    fn front(
        &self,
        alloc: Global,
        grm: &YaccGrammar<StorageT>,
        sgraph: &StateGraph<StorageT>,
        stable: &StateTable<StorageT>,
        state: StIdx<StorageT>,
    ) -> Result<Front<StorageT>, AllocError>
        requires built { IsBuilt grm.now sgraph.now stable.now }
        requires made { AreExamplesFor grm.now sgraph.now stable.now usize.MAX self.now }
        requires state { IsStateOf StorageT.index sgraph.now state }
        ensures { IfOk result (IsFrontTo StorageT.index grm.now sgraph.now state) }
    {
        // The proof needs that the grammar is well-formed and that the table is closed.
        let _lemma = grm.start_prod();
        let _lemma = stable.states_len();
        let mut steps = Vec::new(alloc);
        self.access.push_path(&mut steps, state)?;
        let symbols = symbols_of(alloc, &steps)?;
        let mut moves = Vec::new(alloc);
        self.shortest
            .push_all_moves(alloc, &mut moves, grm, &symbols)?;
        // The proof needs that the moves, and so the access string, are no longer than a number of the machine.
        let _lemma = moves.as_slice();
        let _lemma = moves.len();
        Ok(Front { steps, moves })
    }

    // A unifying counterexample of the conflict, if one is found within the bound, and the search as it ended.
    fn one_text(
        &self,
        alloc: Global,
        grm: &YaccGrammar<StorageT>,
        sgraph: &StateGraph<StorageT>,
        stable: &StateTable<StorageT>,
        front: &Front<StorageT>,
        conflict: &Conflict<StorageT>,
        bound: usize,
    ) -> Result<(Option<Example<StorageT>>, Search<StorageT>), AllocError>
        requires built { IsBuilt grm.now sgraph.now stable.now }
        requires made { AreExamplesFor grm.now sgraph.now stable.now usize.MAX self.now }
        requires conflict { IsConflict grm.now sgraph.now (conflict_of StorageT.index conflict.now) }
        requires front { IsFrontTo StorageT.index grm.now sgraph.now conflict.now.state front.now }
        ensures example { IfOk result (λ found. FindsExampleOf StorageT.index grm.now sgraph.now conflict.now bound found.0) }
        ensures searched { IfOk result (FindsFor StorageT.index conflict.now bound) }
    {
        let context = Context {
            grm,
            graph: sgraph,
            table: stable,
            shortest: &self.shortest,
            access: &self.access,
            lengths: &self.lengths,
            predecessors: &self.predecessors,
        };
        find_unifying(alloc, &context, front, conflict, bound)
    }
}

// Minimal sentences of the grammar's rules, if each reachable rule is productive.
fn productive<StorageT: StorageIndex>(
    alloc: Global,
    grm: &YaccGrammar<StorageT>,
) -> Result<Shortest<StorageT>, ExampleFault<StorageT>>
    ensures shortest { IfOk result (AreShortest grm.now usize.MAX) }
    ensures each { IfOk result (λ _. EachReachableHasTree grm.now) }
    ensures refused { IfErr result (IsFault StorageT.index grm.now) }
{
    let shortest = Shortest::new(alloc, grm)?;
    match shortest.unproductive(alloc, grm)? {
        Some(rule) => Err(ExampleFault::Unproductive(rule)),
        None => Ok(shortest),
    }
}
