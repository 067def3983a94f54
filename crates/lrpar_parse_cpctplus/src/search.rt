//! The search at an error point: the configurations, distance by distance, up to the least cost of a repair.
ghost use Rattle.std.specs.Prelude.{◌≡◌, ◌<◌, ◌≤◌, ◌+◌, ◌⊎◌, ◌∷◌, [], length, IfOk, OnOk};
ghost use Rattle.std.specs.List.Sorted.{IsStrictlyIncreasing};
ghost use Rattle.lrpar_table_stacks.specs.Expected.{tokens_of};
ghost use Rattle.lrpar_table_shared_stacks.specs.SharedStacks.{Extends};
ghost use Rattle.lrpar_parse_cpctplus.specs.Costs.{AreCosts, token_cost};
ghost use Rattle.lrpar_parse_cpctplus.specs.SearchRound.{AreWeights};

use crate::cpct_plus::CpctPlus;
use crate::graph::{Configuration, Graph};
use crate::link::{Ending, Linked};
use lrpar_grammar::span::{StorageIndex, TIdx};
use lrpar_parse_lexemes::lex_api::Lexeme;
use lrpar_parse_repair::engine::Engine;
use lrpar_parse_repair::repair::{RecoveryPoint, RepairStep};
use lrpar_table_shared_stacks::shared_stacks::SharedStacks;
use lrpar_table_stacks::state_stack::StateStack;
use std::alloc::{AllocError, Global};

/// How many places past the error point a parse is followed to see how far it goes on after a repair.
const FURTHEST: usize = 250;

/// The most that a token costs.
const DEAREST: usize = 255;

/// An error point, what steps cost there, and how many configurations may be kept.
#[derive(Drop)]
pub(crate) struct Search<'a, 'p, StorageT: StorageIndex, LexemeT: Lexeme<StorageT>> {
    point: &'a RecoveryPoint<'p, StorageT, LexemeT>,
    terms: &'a CpctPlus,
    limit: usize,
}

/// A step that is tried, from the configuration with this number.
#[derive(Clone, Copy)]
pub(crate) struct Attempt<StorageT: Copy> {
    from: usize,
    step: RepairStep<StorageT>,
}

impl<'a, 'p, StorageT: StorageIndex, LexemeT: Lexeme<StorageT>> Search<'a, 'p, StorageT, LexemeT> {
    ghost use Rattle.lrpar_parse_cpctplus.specs.RoundView.{AddsAttemptsAt, AddsAttemptsOf, AddsDelete, AddsEnding, AddsInserts, AreAttemptsBy, AreDueBy, AreEndingsBy, AreHeldBy, AreNextTokens, GrowsByAttempts, GrowsByShifts, GrowsByStep, HasLevels, HasNoShifts, IsAddedLevel, IsDueBy, IsEngineOf, IsFoundIn, IsGrowingBy, IsHeldBy, IsNextLeast, IsReachBy, IsSearchResult, IsRoundBy, IsWithinLimit, LeadsBy, ReachesBy, TellsGoingOn, token_there};

    /// The search at this error point, by these terms, within this limit.
    pub(crate) fn new(
        point: &'a RecoveryPoint<'p, StorageT, LexemeT>,
        terms: &'a CpctPlus,
        limit: usize,
    ) -> Self
        ensures point { result.point.now ≡ point.now }
        ensures terms { result.terms.now ≡ terms.now }
        ensures limit { result.limit ≡ limit }
    {
        Search {
            point,
            terms,
            limit,
        }
    }

    /// Runs the search. It finds nothing if there is no repair, or if more configurations than the limit are nearer than its least cost.
    pub(crate) fn run(&self, alloc: Global) -> Result<Option<Linked<StorageT>>, AllocError>
        ensures { IfOk result (IsFoundIn StorageT.index LexemeT.parts self.now) }
    {
        let weights = self.terms.weights(alloc)?;
        let mut stacks = SharedStacks::new(alloc, self.point.stack())?;
        let stack = stacks.number()?;
        let place = self.point.place();
        let mut graph = Graph::new(alloc, Configuration { stack, place })?;
        // Each token costs something.
        let _lemma = self.limit();
        match self.run_rounds(alloc, &mut stacks, &mut graph, &weights)? {
            Some(endings) => Ok(Some(Linked {
                len: graph.len(),
                links: graph.into_links(),
                endings,
            })),
            None => Ok(None),
        }
    }

    // Adds all that is nearer than the least cost of a repair, and returns the last steps at that cost.
    fn run_rounds(
        &self,
        alloc: Global,
        stacks: &mut SharedStacks<StorageT>,
        graph: &mut Graph<StorageT>,
        weights: &[u8],
    ) -> Result<Option<Vec<Ending<StorageT>>>, AllocError>
        requires round { IsRoundBy StorageT.index LexemeT.parts self.now stacks.old graph.old }
        requires weights { AreWeights self.now.terms.now.costs weights.now }
        ensures { IfOk result (IsSearchResult StorageT.index LexemeT.parts self.now stacks.new graph.new) }
    {
        let limit = self.limit();
        // The point is an error point.
        let _lemma = self.point.shifts();
        if limit < graph.len() {
            return Ok(None);
        }
        let mut empty = 0;
        'rounds: while empty < DEAREST {
            let attempts = self.collect_attempts(alloc, stacks, graph, weights)?;
            let endings = self.collect_endings(alloc, stacks, graph, &attempts)?;
            if !endings.is_empty() {
                return Ok(Some(endings));
            }
            let before = graph.len();
            if !self.add_level(stacks, graph, &attempts)? {
                return Ok(None);
            }
            empty = rounds_without(empty, before, graph.len());
        }
        Ok(None)
    }

    // The steps that lead to what is one further than the greatest distance so far, if it isn't nearer, and aren't Shifts.
    fn collect_attempts(
        &self,
        alloc: Global,
        stacks: &mut SharedStacks<StorageT>,
        graph: &Graph<StorageT>,
        weights: &[u8],
    ) -> Result<Vec<Attempt<StorageT>>, AllocError>
        requires held { AreHeldBy self.now stacks.old graph.now }
        requires levels { HasLevels graph.now }
        requires weights { AreWeights self.now.terms.now.costs weights.now }
        ensures attempts { IfOk result (λ attempts. AreAttemptsBy StorageT.index LexemeT.parts self.now stacks.old graph.now attempts.items) }
        ensures stacks { stacks.new.stacks ≡ stacks.old.stacks }
    {
        let mut attempts = Vec::new(alloc);
        for weight in weights {
            self.add_attempts_at(stacks, graph, *weight, &mut attempts)?;
        }
        Ok(attempts)
    }

    // Adds those that cost as much.
    fn add_attempts_at(
        &self,
        stacks: &mut SharedStacks<StorageT>,
        graph: &Graph<StorageT>,
        weight: u8,
        attempts: &mut Vec<Attempt<StorageT>>,
    ) -> Result<(), AllocError>
        requires held { AreHeldBy self.now stacks.old graph.now }
        requires levels { HasLevels graph.now }
        ensures adds { OnOk result (AddsAttemptsAt StorageT.index LexemeT.parts self.now stacks.old graph.now weight attempts.old attempts.new) }
        ensures stacks { stacks.new.stacks ≡ stacks.old.stacks }
    {
        let (levels, less) = (graph.levels(), usize::from(weight));
        if levels < less {
            return Ok(());
        }
        let distance = levels - less;
        for from in graph.first(distance)..graph.first(distance + 1) {
            self.add_attempts_of(stacks, graph.at(from), from, weight, attempts)?;
        }
        Ok(())
    }

    // Adds those from the configuration with this number.
    fn add_attempts_of(
        &self,
        stacks: &mut SharedStacks<StorageT>,
        at: Configuration,
        from: usize,
        weight: u8,
        attempts: &mut Vec<Attempt<StorageT>>,
    ) -> Result<(), AllocError>
        requires held { IsHeldBy self.now stacks.old at }
        ensures adds { OnOk result (AddsAttemptsOf StorageT.index LexemeT.parts self.now stacks.old at from weight attempts.old attempts.new) }
        ensures stacks { stacks.new.stacks ≡ stacks.old.stacks }
    {
        let tokens = self.find_tokens(stacks, at);
        self.add_inserts(tokens, from, weight, attempts)?;
        self.add_delete(at.place, from, weight, attempts)
    }

    // Adds the Inserts of those of the tokens that cost as much.
    fn add_inserts(
        &self,
        tokens: &[TIdx<StorageT>],
        from: usize,
        weight: u8,
        attempts: &mut Vec<Attempt<StorageT>>,
    ) -> Result<(), AllocError>
        requires ascending { IsStrictlyIncreasing (tokens_of StorageT.index tokens.now) }
        ensures adds { OnOk result (AddsInserts StorageT.index self.now tokens.now from weight attempts.old attempts.new) }
    {
        for token in tokens {
            self.add_insert(*token, from, weight, attempts)?;
        }
        Ok(())
    }

    // Adds the Insert of the token, if it isn't the end token and costs as much.
    fn add_insert(
        &self,
        token: TIdx<StorageT>,
        from: usize,
        weight: u8,
        attempts: &mut Vec<Attempt<StorageT>>,
    ) -> Result<(), AllocError>
        ensures adds { OnOk result (AddsInserts StorageT.index self.now (token ∷ []) from weight attempts.old attempts.new) }
    {
        if usize::from(token) >= usize::from(self.point.data().grm().eof_token_idx()) {
            return Ok(());
        }
        if self.cost_of(token) == weight {
            attempts.push(Attempt {
                from,
                step: RepairStep::Insert(token),
            })?;
        }
        Ok(())
    }

    // Adds the Delete at the place, if a lexeme is left and costs as much.
    fn add_delete(
        &self,
        place: usize,
        from: usize,
        weight: u8,
        attempts: &mut Vec<Attempt<StorageT>>,
    ) -> Result<(), AllocError>
        ensures adds { OnOk result (AddsDelete StorageT.index LexemeT.parts self.now place from weight attempts.old attempts.new) }
    {
        if place >= self.point.lexemes().len() {
            return Ok(());
        }
        if self.cost_of(self.token_at(place)) == weight {
            attempts.push(Attempt {
                from,
                step: RepairStep::Delete,
            })?;
        }
        Ok(())
    }

    // The tokens at which the top state of the configuration's stack has an action.
    fn find_tokens(
        &self,
        stacks: &mut SharedStacks<StorageT>,
        at: Configuration,
    ) -> &'p [TIdx<StorageT>]
        requires held { IsHeldBy self.now stacks.old at }
        ensures tokens { AreNextTokens StorageT.index self.now stacks.old at result.now }
        ensures stacks { stacks.new.stacks ≡ stacks.old.stacks }
    {
        stacks.go_to(at.stack);
        let table = self.point.data().stable();
        let (tokens, _actions) = table.actions_of(stacks.top());
        tokens
    }

    // The last steps of repairs: those of the steps after which a parse can go on, and how far it goes on.
    fn collect_endings(
        &self,
        alloc: Global,
        stacks: &mut SharedStacks<StorageT>,
        graph: &Graph<StorageT>,
        attempts: &[Attempt<StorageT>],
    ) -> Result<Vec<Ending<StorageT>>, AllocError>
        requires held { AreHeldBy self.now stacks.old graph.now }
        requires attempts { AreAttemptsBy StorageT.index LexemeT.parts self.now stacks.old graph.now attempts.now }
        ensures endings { IfOk result (λ endings. AreEndingsBy StorageT.index LexemeT.parts self.now stacks.old graph.now attempts.now endings.items) }
        ensures extends { OnOk result (Extends stacks.old stacks.new) }
    {
        let mut endings = Vec::new(alloc);
        for attempt in attempts {
            self.add_ending(stacks, graph.at(attempt.from), *attempt, &mut endings)?;
        }
        Ok(endings)
    }

    // Adds the step, if a parse can go on after it.
    fn add_ending(
        &self,
        stacks: &mut SharedStacks<StorageT>,
        at: Configuration,
        attempt: Attempt<StorageT>,
        endings: &mut Vec<Ending<StorageT>>,
    ) -> Result<(), AllocError>
        requires held { IsHeldBy self.now stacks.old at }
        ensures adds { OnOk result (AddsEnding StorageT.index LexemeT.parts self.now stacks.old at attempt endings.old endings.new) }
        ensures extends { OnOk result (Extends stacks.old stacks.new) }
    {
        let Attempt { from, step } = attempt;
        match self.reach_after(stacks, at, step)? {
            None => Ok(()),
            Some(reach) => {
                endings.push(Ending { reach, from, step })?;
                Ok(())
            }
        }
    }

    // Adds what is one further than the greatest distance so far. Returns whether the limit allows as many configurations; if not, some may
    // be missing.
    fn add_level(
        &self,
        stacks: &mut SharedStacks<StorageT>,
        graph: &mut Graph<StorageT>,
        attempts: &[Attempt<StorageT>],
    ) -> Result<bool, AllocError>
        requires round { IsRoundBy StorageT.index LexemeT.parts self.now stacks.old graph.old }
        requires attempts { AreAttemptsBy StorageT.index LexemeT.parts self.now stacks.old graph.old attempts.now }
        requires least { IsNextLeast StorageT.index LexemeT.parts self.now (length graph.old.firsts.items) }
        requires within { IsWithinLimit self.now graph.old }
        ensures { IfOk result (IsAddedLevel StorageT.index LexemeT.parts self.now stacks.old graph.old stacks.new graph.new) }
    {
        // Each token costs something.
        let _lemma = self.limit();
        let first = graph.len();
        graph.begin_level()?;
        if self.add_reached(stacks, graph, first, attempts)? {
            self.add_shifts(stacks, graph, first)
        } else {
            Ok(false)
        }
    }

    // Adds the configurations to which the steps lead. Returns whether the limit allows as many.
    fn add_reached(
        &self,
        stacks: &mut SharedStacks<StorageT>,
        graph: &mut Graph<StorageT>,
        first: usize,
        attempts: &[Attempt<StorageT>],
    ) -> Result<bool, AllocError>
        requires growing { IsGrowingBy StorageT.index LexemeT.parts self.now stacks.old graph.old first }
        requires due { AreDueBy StorageT.index LexemeT.parts self.now stacks.old graph.old first attempts.now }
        ensures { IfOk result (GrowsByAttempts StorageT.index LexemeT.parts self.now first attempts.now stacks.old graph.old stacks.new graph.new) }
    {
        for attempt in attempts {
            self.add_step(stacks, graph, first, attempt.from, attempt.step)?;
            if self.limit() < graph.len() {
                return Ok(false);
            }
        }
        Ok(true)
    }

    // Adds the configurations to which Shifts lead from those with numbers from the first one on. Returns whether the limit allows as many.
    fn add_shifts(
        &self,
        stacks: &mut SharedStacks<StorageT>,
        graph: &mut Graph<StorageT>,
        first: usize,
    ) -> Result<bool, AllocError>
        requires growing { IsGrowingBy StorageT.index LexemeT.parts self.now stacks.old graph.old first }
        requires none { HasNoShifts StorageT.index first graph.old }
        ensures { IfOk result (GrowsByShifts StorageT.index LexemeT.parts self.now first stacks.old graph.old stacks.new graph.new) }
    {
        let mut from = first;
        'shifts: while from < graph.len() {
            self.add_step(stacks, graph, first, from, RepairStep::Shift)?;
            if self.limit() < graph.len() {
                return Ok(false);
            }
            from += 1;
        }
        Ok(true)
    }

    // Adds the configuration to which the step leads, with the link.
    fn add_step(
        &self,
        stacks: &mut SharedStacks<StorageT>,
        graph: &mut Graph<StorageT>,
        first: usize,
        from: usize,
        step: RepairStep<StorageT>,
    ) -> Result<(), AllocError>
        requires growing { IsGrowingBy StorageT.index LexemeT.parts self.now stacks.old graph.old first }
        requires due { IsDueBy StorageT.index LexemeT.parts self.now stacks.old graph.old first from step }
        ensures { OnOk result (GrowsByStep StorageT.index LexemeT.parts self.now first from step stacks.old graph.old stacks.new graph.new) }
    {
        if let Some(reached) = self.try_step(stacks, graph.at(from), step)? {
            // No two numbers have the same stack.
            let _lemma = stacks.len();
            graph.link(first, from, step, reached)?;
        }
        Ok(())
    }

    // How far a parse goes on after the step, if the step can be taken, and a parse can go on then.
    fn reach_after(
        &self,
        stacks: &mut SharedStacks<StorageT>,
        at: Configuration,
        step: RepairStep<StorageT>,
    ) -> Result<Option<u128>, AllocError>
        requires held { IsHeldBy self.now stacks.old at }
        ensures reach { IfOk result (IsReachBy StorageT.index LexemeT.parts self.now stacks.old at step) }
        ensures extends { OnOk result (Extends stacks.old stacks.new) }
    {
        let Some(reached) = self.try_step(stacks, at, step)? else {
            return Ok(None);
        };
        if self.can_go_on(stacks, reached)? {
            Ok(Some(self.reach(stacks, reached)?))
        } else {
            Ok(None)
        }
    }

    // The configuration to which the step leads, if it can be taken.
    fn try_step(
        &self,
        stacks: &mut SharedStacks<StorageT>,
        at: Configuration,
        step: RepairStep<StorageT>,
    ) -> Result<Option<Configuration>, AllocError>
        requires held { IsHeldBy self.now stacks.old at }
        ensures leads { IfOk result (LeadsBy StorageT.index LexemeT.parts self.now stacks.old at step stacks.new) }
        ensures extends { OnOk result (Extends stacks.old stacks.new) }
    {
        stacks.go_to(at.stack);
        let engine = self.engine();
        match engine.try_step(stacks, at.place, step)? {
            Some(place) => {
                let stack = stacks.number()?;
                Ok(Some(Configuration { stack, place }))
            }
            None => Ok(None),
        }
    }

    // Whether a parse can go on from the configuration.
    fn can_go_on(
        &self,
        stacks: &mut SharedStacks<StorageT>,
        at: Configuration,
    ) -> Result<bool, AllocError>
        requires held { IsHeldBy self.now stacks.old at }
        ensures goes_on { IfOk result (TellsGoingOn StorageT.index LexemeT.parts self.now stacks.old at) }
        ensures extends { OnOk result (Extends stacks.old stacks.new) }
    {
        stacks.go_to(at.stack);
        let engine = self.engine();
        engine.can_go_on(stacks, at.place)
    }

    // How far a parse goes on from the configuration: to the first lexeme that can't be fed, and at most `FURTHEST` places past the error
    // point; one more if all are fed and the stack then accepts.
    fn reach(
        &self,
        stacks: &mut SharedStacks<StorageT>,
        at: Configuration,
    ) -> Result<u128, AllocError>
        requires held { IsHeldBy self.now stacks.old at }
        ensures reach { IfOk result (ReachesBy StorageT.index LexemeT.parts self.now stacks.old at) }
        ensures extends { OnOk result (Extends stacks.old stacks.new) }
    {
        stacks.go_to(at.stack);
        let most = self.point.place().saturating_add(FURTHEST);
        let end = self.point.lexemes().len();
        let engine = self.engine();
        'feeding: for place in at.place..most.min(end) {
            let Some(_next) = engine.shift(stacks, place)? else {
                return Ok(place as u128);
            };
        }
        if at.place.max(most) < end {
            return Ok(most as u128);
        }
        let ends = engine.try_accept(stacks)?;
        Ok(most.min(end) as u128 + u128::from(ends))
    }

    // How many configurations may be kept.
    fn limit(&self) -> usize
        ensures limit { result ≡ self.now.limit }
        ensures costs { AreCosts self.now.terms.now.costs }
    {
        // Each token costs something.
        let _lemma = self.terms.limit();
        self.limit
    }

    // What the token costs.
    fn cost_of(&self, token: TIdx<StorageT>) -> u8
        ensures { result ≡ token_cost self.now.terms.now.costs (StorageT.index token.0) }
    {
        self.terms.cost_of(usize::from(token))
    }

    // The token of the lexeme at the place; past the last one, the end token.
    fn token_at(&self, place: usize) -> TIdx<StorageT>
        ensures { StorageT.index result.0 ≡ token_there StorageT.index LexemeT.parts self.now place }
    {
        match self.point.lexemes().get(place) {
            Some(lexeme) => TIdx(lexeme.tok_id()),
            None => self.point.data().grm().eof_token_idx(),
        }
    }

    // The engine of the point.
    fn engine(&self) -> Engine<'p, StorageT, LexemeT>
        ensures { IsEngineOf StorageT.index LexemeT.parts self.now result }
    {
        Engine::new(self.point.data(), self.point.lexemes(), self.point.shifts())
    }
}

// How many rounds in a row have added nothing, after one more.
fn rounds_without(empty: usize, before: usize, after: usize) -> usize
    requires { empty < 255 }
    ensures { ((before < after) × (result ≡ 0)) ⊎ ((after ≤ before) × (result ≡ empty + 1)) }
{
    if before < after { 0 } else { empty + 1 }
}
