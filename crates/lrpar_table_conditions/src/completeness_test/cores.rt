//! The conditions of completeness for the items of one core.
ghost use Rattle.std.specs.Prelude.{◌≡◌, ◌<◌, ◌↔◌, IsTrue, length};
ghost use Rattle.lrpar_grammar.specs.Grammar.{Nonterminal, Terminal, rules_len};
ghost use Rattle.lrpar_table_first.specs.FirstRows.{HoldNothing, rows_of};
ghost use Rattle.lrpar_table_conditions.specs.Tested.{AddsLookaheads, CarriesCore, ClosesCoreBy, EndsAt, EndsCore, EndsEach, HasAdvanced, HasCoreIn, HasItemIn, HasRoomIn, HasSetsIn, HasStartsOf, HasWidth, IsDotIn, IsNear, IsProdIn, IsRuleIn, IsStateIn, IsTestable, IsTokenAfter, IsTokenIn, PutsStart, ShiftsCore, StartsCover, StepsOnBy, ClearsStart};

use crate::completeness_test::Completeness;
use crate::completeness_test::sets::WorkSets;
use lrpar_grammar::span::{PIdx, RIdx, StIdx, StorageIndex, Symbol, TIdx};
use lrpar_grammar::token_set::TokenSet;
use lrpar_table_first::after_dot::rule_after;
use lrpar_table_first::first::add_first_before;
use lrpar_table_rows::table::Action;

impl<'a, StorageT: StorageIndex> Completeness<'a, StorageT> {
    // C2, closure: if a rule is after the dot, with the symbols w after it, whether the state has an item with dot 0 for each of its
    // productions, with each token of First(w, t) for the core's lookaheads t. `starts` has the lookaheads of the state's items with
    // dot 0. Only if a rule is after the dot are the core's lookaheads looked for.
    pub(super) fn closes_core(
        &self,
        s: StIdx<StorageT>,
        pidx: PIdx<StorageT>,
        dot: usize,
        sets: &mut WorkSets,
    ) -> bool
        requires known { IsTestable self.now }
        requires core { HasCoreIn StorageT.index self.now s pidx dot }
        requires room { HasRoomIn self.now sets.old }
        ensures room { HasRoomIn self.now sets.new }
        ensures kept { sets.new.starts.items ≡ sets.old.starts.items }
        ensures test { IsTrue result ↔ ClosesCoreBy StorageT.index self.now s pidx dot sets.old.starts.items }
    {
        match rule_after(self.grm, pidx, dot) {
            None => true,
            Some((rule, rest)) => {
                sets.after.clear();
                self.add_lookaheads(s, pidx, dot, &mut sets.after);
                sets.begun.clear();
                add_first_before(
                    self.grm,
                    self.firsts,
                    rest,
                    &sets.after,
                    &mut sets.front,
                    &mut sets.begun,
                );
                self.starts_cover(rule, &sets.begun, &sets.starts)
            }
        }
    }

    // Whether the items with dot 0 of all productions of the rule have each of the tokens as lookahead. `starts` has the lookaheads of
    // these items.
    fn starts_cover(&self, rule: RIdx<StorageT>, tokens: &TokenSet, starts: &[TokenSet]) -> bool
        requires rule { StorageT.index rule.0 < rules_len self.now.grm.now }
        requires tokens { HasWidth self.now tokens.now }
        requires starts { HasSetsIn self.now starts.now }
        ensures { IsTrue result ↔ StartsCover StorageT.index self.now rule tokens.now starts.now }
    {
        for pidx in self.grm.rule_to_prods(rule) {
            let prod = usize::from(*pidx);
            let start = &starts[prod];
            if !start.covers(tokens) {
                return false;
            }
        }
        true
    }

    // Adds to each production's set, which is empty, the lookaheads of the state's items with dot 0.
    pub(super) fn put_starts(&self, s: StIdx<StorageT>, starts: &mut [TokenSet])
        requires known { IsTestable self.now }
        requires state { IsStateIn StorageT.index self.now s }
        requires room { HasSetsIn self.now starts.old }
        requires none { HoldNothing (rows_of starts.old) }
        ensures room { HasSetsIn self.now starts.new }
        ensures starts { HasStartsOf StorageT.index self.now s starts.new }
    {
        for (pidx, dot) in self.sgraph.cores(s) {
            self.put_start(s, *pidx, *dot, starts);
        }
    }

    // Adds the lookaheads of the core to its production's set, if its dot is 0.
    fn put_start(
        &self,
        s: StIdx<StorageT>,
        pidx: PIdx<StorageT>,
        dot: usize,
        starts: &mut [TokenSet],
    )
        requires known { IsTestable self.now }
        requires core { HasCoreIn StorageT.index self.now s pidx dot }
        requires room { HasSetsIn self.now starts.old }
        ensures room { HasSetsIn self.now starts.new }
        ensures put { PutsStart StorageT.index self.now s pidx dot starts.old starts.new }
    {
        if dot == 0 {
            let prod = usize::from(pidx);
            self.add_lookaheads(s, pidx, dot, &mut starts[prod]);
        }
    }

    // Empties the sets, which have the lookaheads of the state's items with dot 0.
    pub(super) fn clear_starts(&self, s: StIdx<StorageT>, starts: &mut [TokenSet])
        requires known { IsTestable self.now }
        requires state { IsStateIn StorageT.index self.now s }
        requires room { HasSetsIn self.now starts.old }
        requires starts { HasStartsOf StorageT.index self.now s starts.old }
        ensures room { HasSetsIn self.now starts.new }
        ensures none { HoldNothing (rows_of starts.new) }
    {
        for (pidx, dot) in self.sgraph.cores(s) {
            self.clear_start(s, *pidx, *dot, starts);
        }
    }

    // Empties the set of the core's production, if its dot is 0.
    fn clear_start(
        &self,
        s: StIdx<StorageT>,
        pidx: PIdx<StorageT>,
        dot: usize,
        starts: &mut [TokenSet],
    )
        requires known { IsTestable self.now }
        requires core { HasCoreIn StorageT.index self.now s pidx dot }
        requires room { HasSetsIn self.now starts.old }
        ensures room { HasSetsIn self.now starts.new }
        ensures left { ClearsStart StorageT.index pidx dot starts.old starts.new }
    {
        if dot == 0 {
            let prod = usize::from(pidx);
            starts[prod].clear();
        }
    }

    // Adds the lookaheads of the state's items with this core to the set.
    fn add_lookaheads(
        &self,
        s: StIdx<StorageT>,
        pidx: PIdx<StorageT>,
        dot: usize,
        set: &mut TokenSet,
    )
        requires known { IsTestable self.now }
        requires room { HasWidth self.now set.old }
        ensures room { length set.new ≡ length set.old }
        ensures put { AddsLookaheads StorageT.index self.now s pidx dot set.old set.new }
    {
        for token in self.sgraph.lookaheads(s, pidx, dot) {
            set.insert(usize::from(*token));
        }
    }

    // C3: if a token is after the dot, the state shifts it to a state with the advanced items.
    pub(super) fn shifts_core(&self, s: StIdx<StorageT>, pidx: PIdx<StorageT>, dot: usize) -> bool
        requires known { IsTestable self.now }
        requires state { IsStateIn StorageT.index self.now s }
        requires core { HasCoreIn StorageT.index self.now s pidx dot }
        ensures { IsTrue result ↔ ShiftsCore StorageT.index self.now s pidx dot }
    {
        match self.token_after(pidx, dot) {
            Some(token) => self.shifts_to(s, token, pidx, dot),
            None => true,
        }
    }

    // The token after the dot, if there is one.
    fn token_after(&self, pidx: PIdx<StorageT>, dot: usize) -> Option<TIdx<StorageT>>
        requires { IsProdIn StorageT.index self.now pidx }
        ensures { IsTokenAfter StorageT.index self.now pidx dot result }
    {
        match self.grm.prod(pidx).get(dot) {
            None => None,
            Some(symbol) => match *symbol {
                Symbol::Token(token) => Some(token),
                Symbol::Rule(_) => None,
            },
        }
    }

    // Whether the state shifts the token to a state with the advanced items.
    fn shifts_to(
        &self,
        s: StIdx<StorageT>,
        token: TIdx<StorageT>,
        pidx: PIdx<StorageT>,
        dot: usize,
    ) -> bool
        requires state { IsStateIn StorageT.index self.now s }
        requires token { IsTokenIn StorageT.index self.now token }
        requires core { HasCoreIn StorageT.index self.now s pidx dot }
        requires prod { IsProdIn StorageT.index self.now pidx }
        requires dot { IsDotIn StorageT.index self.now pidx dot }
        ensures { IsTrue result ↔ StepsOnBy StorageT.index self.now s (Terminal (StorageT.index token.0)) pidx dot }
    {
        match self.stable.action(s, token) {
            Action::Shift(next) => self.has_advanced(s, pidx, dot, next),
            _ => false,
        }
    }

    // C4: if a rule is after the dot, the state has a goto by it to a state with the advanced items.
    pub(super) fn carries_core(&self, s: StIdx<StorageT>, pidx: PIdx<StorageT>, dot: usize) -> bool
        requires known { IsTestable self.now }
        requires state { IsStateIn StorageT.index self.now s }
        requires core { HasCoreIn StorageT.index self.now s pidx dot }
        ensures { IsTrue result ↔ CarriesCore StorageT.index self.now s pidx dot }
    {
        match rule_after(self.grm, pidx, dot) {
            Some((rule, _)) => self.goes_to(s, rule, pidx, dot),
            None => true,
        }
    }

    // Whether the state has a goto by the rule to a state with the advanced items.
    fn goes_to(
        &self,
        s: StIdx<StorageT>,
        rule: RIdx<StorageT>,
        pidx: PIdx<StorageT>,
        dot: usize,
    ) -> bool
        requires state { IsStateIn StorageT.index self.now s }
        requires rule { IsRuleIn StorageT.index self.now rule }
        requires core { HasCoreIn StorageT.index self.now s pidx dot }
        requires prod { IsProdIn StorageT.index self.now pidx }
        requires dot { IsDotIn StorageT.index self.now pidx dot }
        ensures { IsTrue result ↔ StepsOnBy StorageT.index self.now s (Nonterminal (StorageT.index rule.0)) pidx dot }
    {
        match self.stable.goto(s, rule) {
            Some(next) => self.has_advanced(s, pidx, dot, next),
            None => false,
        }
    }

    // Whether the state `next` has the advanced items: with this production, the dot one further, and the lookaheads that the core
    // has in `s`. If `next` has the same lookaheads and no others, as most states of a built table do, each is at its own place there.
    // So it is looked for at its place, and by a binary search if another one is there.
    fn has_advanced(
        &self,
        s: StIdx<StorageT>,
        pidx: PIdx<StorageT>,
        dot: usize,
        next: StIdx<StorageT>,
    ) -> bool
        requires prod { IsProdIn StorageT.index self.now pidx }
        requires dot { IsDotIn StorageT.index self.now pidx dot }
        ensures { IsTrue result ↔ HasAdvanced StorageT.index self.now s pidx dot next }
    {
        let _lemma = self.grm.prod(pidx);
        let tokens = self.sgraph.lookaheads(s, pidx, dot);
        let near = self.sgraph.lookaheads(next, pidx, dot + 1);
        for place in 0..tokens.len() {
            let token = tokens[place];
            if !self.has_near(near.get(place), next, pidx, dot + 1, token) {
                return false;
            }
        }
        true
    }

    // Whether the state has the item; `near` is a lookahead of one of the state's items with the same core, and may be this one.
    fn has_near(
        &self,
        near: Option<&TIdx<StorageT>>,
        s: StIdx<StorageT>,
        pidx: PIdx<StorageT>,
        dot: usize,
        token: TIdx<StorageT>,
    ) -> bool
        requires { IsNear StorageT.index self.now near s pidx dot }
        ensures found { IsTrue result ↔ HasItemIn StorageT.index self.now s pidx dot token }
    {
        match near {
            Some(other) if usize::from(*other) == usize::from(token) => true,
            _ => self.sgraph.has_item(s, pidx, dot, token),
        }
    }

    // C5: if the items are complete, the state ends the production at their lookaheads.
    pub(super) fn ends_core(&self, s: StIdx<StorageT>, pidx: PIdx<StorageT>, dot: usize) -> bool
        requires known { IsTestable self.now }
        requires state { IsStateIn StorageT.index self.now s }
        requires core { HasCoreIn StorageT.index self.now s pidx dot }
        ensures { IsTrue result ↔ EndsCore StorageT.index self.now s pidx dot }
    {
        dot != self.grm.prod(pidx).len() || self.ends_each(s, pidx, dot)
    }

    // Whether the state ends the production at each lookahead of the items with this core.
    fn ends_each(&self, s: StIdx<StorageT>, pidx: PIdx<StorageT>, dot: usize) -> bool
        requires known { IsTestable self.now }
        requires state { IsStateIn StorageT.index self.now s }
        ensures { IsTrue result ↔ EndsEach StorageT.index self.now s pidx dot }
    {
        for token in self.sgraph.lookaheads(s, pidx, dot) {
            if !self.ends_at(s, pidx, *token) {
                return false;
            }
        }
        true
    }

    // Whether the state ends the production at the token: by a reduction, or by Accept for the start production.
    fn ends_at(&self, s: StIdx<StorageT>, pidx: PIdx<StorageT>, token: TIdx<StorageT>) -> bool
        requires state { IsStateIn StorageT.index self.now s }
        requires token { IsTokenIn StorageT.index self.now token }
        ensures { IsTrue result ↔ EndsAt StorageT.index self.now s pidx token }
    {
        let is_start = usize::from(pidx) == usize::from(self.grm.start_prod());
        match self.stable.action(s, token) {
            Action::Reduce(by) => !is_start && usize::from(by) == usize::from(pidx),
            Action::Accept => is_start,
            Action::Shift(_) | Action::Error => false,
        }
    }
}
