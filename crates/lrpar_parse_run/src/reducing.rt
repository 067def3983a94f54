//! The stacks of a run during reductions: a `StateStack` in which each reduction also builds an entry.
ghost use Rattle.std.specs.Prelude.{◌≡◌};

use crate::building::Build;
use crate::run_stack::Stack;
use lrpar_grammar::grammar::YaccGrammar;
use lrpar_grammar::span::{StIdx, StorageIndex};
use lrpar_parse_lexemes::lex_api::Lexeme;
use lrpar_table_stacks::state_stack::{Reduction, StateStack};
use std::alloc::{AllocError, Global};
use std::marker::PhantomData;

/// The stacks, with the grammar of the reductions and the builder of the entries.
#[derive(Drop)]
pub struct Reducing<
    'a,
    StorageT: StorageIndex,
    LexemeT: Lexeme<StorageT>,
    B: Build<StorageT, LexemeT>,
> {
    alloc: Global,
    grm: &'a YaccGrammar<StorageT>,
    build: &'a B,
    stack: &'a mut Stack<StorageT, B::Entries>,
    lexemes: PhantomData<LexemeT>,
}

impl<'a, StorageT: StorageIndex, LexemeT: Lexeme<StorageT>, B: Build<StorageT, LexemeT>> Reducing<
    'a,
    StorageT,
    LexemeT,
    B,
> {
    ghost use Rattle.lrpar_parse_run.specs.ReducingView.{built};

    /// Borrows the stacks to reduce them.
    pub fn new(
        alloc: Global,
        grm: &'a YaccGrammar<StorageT>,
        build: &'a B,
        stack: &'a mut Stack<StorageT, B::Entries>,
    ) -> Self
        ensures { built result ≡ record { grammar = grm.now; build = build.now; stack = stack.old; lender = stack.entry.ghost_name } }
    {
        Reducing {
            alloc,
            grm,
            build,
            stack,
            lexemes: PhantomData,
        }
    }
}

impl<'a, StorageT: StorageIndex, LexemeT: Lexeme<StorageT>, B: Build<StorageT, LexemeT>> StateStack<
    StorageT,
> for Reducing<'a, StorageT, LexemeT, B> {
    ghost use Rattle.std.specs.Prelude.{◌≡◌, ◌<◌, length, OnErr, OnOk};
    ghost use Rattle.lrpar_parse_run.specs.Reducing.{Builds, CanBuild, KeepsRest, SuitsRun, reduced_by};
    ghost use Rattle.lrpar_parse_run.specs.ReducingLaws.{builds_suit, due_can_build};
    ghost use Rattle.lrpar_parse_run.specs.ReducingView.{BuildsBy, CanBuildBy, built};

    ghost states = { λ s. s.stack.now.states };

    ghost suits = { λ g table s. SuitsRun B.builds g table (built s) };

    ghost can_reduce = { λ s p r n. CanBuild B.builds (built s) p r n };

    ghost reduces = { λ old p r n new. Builds B.builds (built old) p r n (built new) };

    ghost fails = { λ old _ new. KeepsRest (built old) (built new) };

    fn height(&self) -> usize {
        self.stack.height()
    }

    fn top(&self) -> StIdx<StorageT> {
        self.stack.top()
    }

    fn state_at(&self, at: usize) -> StIdx<StorageT> {
        self.stack.state_at(at)
    }

    fn reduce(&mut self, by: Reduction<StorageT>) -> Result<(), AllocError>
        requires can { CanBuildBy StorageT.index B.builds self.old by }
        requires deep { by.symbols < length self.old.stack.now.states }
        ensures states { OnOk result (self.new.stack.now.states ≡ reduced_by StorageT.index by self.old.stack.now.states) }
        ensures reduces { OnOk result (BuildsBy StorageT.index B.builds self.old by self.new) }
        ensures unchanged { OnErr result (self.new.stack.now.states ≡ self.old.stack.now.states) }
        ensures fails { OnErr result (KeepsRest (built self.old) (built self.new)) }
    {
        self.stack.reduce(self.alloc, self.build, self.grm, by)
    }

    ghost due_can = { λ g table t s p after suit due. due_can_build B.builds g table t (built s) p after suit due };

    ghost reduced_suits = { λ g table t old p new suit reduces. builds_suit B.builds g table t
        (λ x. (LexemeT.parts x).span.start) B.rising (built old) p (built new) suit reduces.of_states reduces.of_rest };
}
