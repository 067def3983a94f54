//! What follows for a state from the exits of those to which it goes.
ghost use Rattle.std.specs.Prelude.{◌≡◌};
ghost use Rattle.std.specs.Bool.{OnFalse};
ghost use Rattle.lrpar_table_rows.specs.declared.rows.Action.{Action};
ghost use Rattle.lrpar_table_rows.specs.declared.rows.Action.TheVariants.{Reduce};
ghost use Rattle.lrpar_table_rows.specs.PlainRows.{plain_action};
ghost use Rattle.lrpar_table_rows.specs.Table.{ReduceBy};
ghost use Rattle.lrpar_table_pops.specs.Growth.{IsStored};
ghost use Rattle.lrpar_table_pops.specs.StoredPops.{at_of};
ghost use Rattle.lrpar_table_pops.specs.Automaton.{FollowsAllIn, FollowsStateIn};
ghost use Rattle.lrpar_table_pops.specs.Room.{FollowsMore, FollowsNoLess};

use crate::automaton::Automaton;
use crate::entries::{actions_at, gotos_at, symbols_len};
use crate::found::Found;
use crate::pops::Pops;
use lrpar_grammar::grammar::YaccGrammar;
use lrpar_grammar::span::{PIdx, StIdx, StorageIndex, TIdx};
use lrpar_table_rows::table::{Action, StateTable};

impl Pops {
    ghost use Rattle.lrpar_table_pops.specs.FoundAll.{FindsAll, IsDone, IsUnchanged};
    ghost use Rattle.lrpar_table_pops.specs.FollowAll.{AreAllDone, FollowsAllAt, FollowsAllBy, FollowsAllOf, IsRuleDone, StartsAll};
    ghost use Rattle.lrpar_table_pops.specs.Steps.{FollowsAt, FollowsRule, StartsAt, FollowsAction};

    /// A state acts so at the token.
    pub(crate) fn start<StorageT: StorageIndex>(
        &self,
        grm: &YaccGrammar<StorageT>,
        token: TIdx<StorageT>,
        action: Action<StorageT>,
        found: &mut Found,
    )
        ensures right { StartsAt StorageT.index grm.now self.now token action found.old found.new }
        ensures followed { found.new.followed ≡ found.old.followed }
        ensures all { StartsAll StorageT.index grm.now self.now token action found.old found.new }
    {
        match action {
            Action::Shift(next) => {
                if let Some(exits) = self.any(next) {
                    found.add_all(grm, exits);
                }
            }
            Action::Reduce(prod) => {
                if let Some(len) = symbols_len(grm, prod) {
                    found.reduce(grm, usize::from(prod), len, usize::from(token));
                }
            }
            Action::Accept => found.add_acceptance(usize::from(token)),
            Action::Error => {}
        }
    }

    // The state `next` on top acts so at the token.
    fn follow_action<StorageT: StorageIndex>(
        &self,
        grm: &YaccGrammar<StorageT>,
        next: StIdx<StorageT>,
        token: TIdx<StorageT>,
        action: Action<StorageT>,
        found: &mut Found,
    )
        ensures follows { FollowsAction StorageT.index grm.now self.now next token action found.old found.new }
        ensures all { FollowsAllBy StorageT.index grm.now self.now next token (plain_action StorageT.index action) found.old found.new }
        ensures followed { found.new.followed ≡ found.old.followed }
    {
        match action {
            Action::Shift(_) => self.follow_kept(grm, next, token, found),
            Action::Reduce(prod) => self.follow_reduction(grm, next, token, prod, found),
            Action::Accept => found.add_acceptance(usize::from(token)),
            Action::Error => {}
        }
    }

    // The state `next` on top reduces by the production at the token.
    fn follow_reduction<StorageT: StorageIndex>(
        &self,
        grm: &YaccGrammar<StorageT>,
        next: StIdx<StorageT>,
        token: TIdx<StorageT>,
        prod: PIdx<StorageT>,
        found: &mut Found,
    )
        ensures follows { FollowsAction StorageT.index grm.now self.now next token (Reduce prod) found.old found.new }
        ensures all { FollowsAllBy StorageT.index grm.now self.now next token (ReduceBy (StorageT.index prod.0)) found.old found.new }
        ensures followed { found.new.followed ≡ found.old.followed }
    {
        let Some(len) = symbols_len(grm, prod) else {
            return;
        };
        if len == 0 {
            self.follow_kept(grm, next, token, found);
        } else {
            found.reduce(grm, usize::from(prod), len - 1, usize::from(token));
        }
    }

    // The exits of the state `next` at the token are kept.
    fn follow_kept<StorageT: StorageIndex>(
        &self,
        grm: &YaccGrammar<StorageT>,
        next: StIdx<StorageT>,
        token: TIdx<StorageT>,
        found: &mut Found,
    )
        ensures follows { (action : Action StorageT) → FollowsAction StorageT.index grm.now self.now next token action found.old found.new }
        ensures all { FindsAll grm.now (IsStored grm.now (at_of self.now (StorageT.index next.0) (StorageT.index token.0))) found.old found.new }
        ensures followed { found.new.followed ≡ found.old.followed }
    {
        if let Some(exits) = self.at(next, usize::from(token)) {
            found.add_all(grm, exits);
        }
    }

    // Follows the goto by the rule to the state `next`, where that acts so at the token, if the rule is reduced at the token and this wasn't
    // followed yet. Returns whether it was due.
    fn follow_at<StorageT: StorageIndex>(
        &self,
        grm: &YaccGrammar<StorageT>,
        rule: usize,
        next: StIdx<StorageT>,
        token: TIdx<StorageT>,
        action: Action<StorageT>,
        found: &mut Found,
    ) -> bool
        ensures follows { FollowsAt StorageT.index grm.now self.now rule next token action found.old found.new }
        ensures all { FollowsAllAt StorageT.index grm.now self.now rule next token action found.old found.new }
        ensures done { OnFalse result (IsDone found.old rule (StorageT.index token.0)) }
        ensures same { OnFalse result (IsUnchanged found.old found.new) }
        ensures less { FollowsMore found.old found.new result }
        ensures no_more { FollowsNoLess found.old found.new }
    {
        if !found.is_due(rule, usize::from(token)) {
            return false;
        }
        self.follow_action(grm, next, token, action, found);
        true
    }

    // Follows the goto by the rule to the state `next` at each token. Returns whether any was due.
    fn follow_rule<StorageT: StorageIndex>(
        &self,
        grm: &YaccGrammar<StorageT>,
        stable: &StateTable<StorageT>,
        rule: usize,
        next: StIdx<StorageT>,
        found: &mut Found,
    ) -> bool
        ensures follows { FollowsRule StorageT.index grm.now stable.now self.now rule next found.old found.new }
        ensures all { FollowsAllOf StorageT.index grm.now stable.now self.now rule next found.old found.new }
        ensures done { OnFalse result (IsRuleDone StorageT.index stable.now rule next found.old) }
        ensures same { OnFalse result (IsUnchanged found.old found.new) }
        ensures less { FollowsMore found.old found.new result }
        ensures no_more { FollowsNoLess found.old found.new }
    {
        if !found.is_rule_due(rule) {
            return false;
        }
        let (tokens, actions) = actions_at(stable, next);
        let mut was_due = false;
        for place in 0..tokens.len() {
            if self.follow_at(grm, rule, next, tokens[place], actions[place], found) {
                was_due = true;
            }
        }
        was_due
    }

    // Follows each goto of the state. Returns whether any was due.
    fn follow_once<StorageT: StorageIndex>(
        &self,
        checked: &Automaton<'_, StorageT>,
        state: StIdx<StorageT>,
        found: &mut Found,
    ) -> bool
        ensures follows { FollowsStateIn StorageT.index checked.now self.now state found.old found.new }
        ensures all { FollowsAllIn StorageT.index checked.now self.now state found.old found.new }
        ensures done { OnFalse result (AreAllDone checked.now.table (StorageT.index state.0) found.old) }
        ensures same { OnFalse result (IsUnchanged found.old found.new) }
        ensures less { FollowsMore found.old found.new result }
    {
        let (grm, stable) = (checked.grm(), checked.stable());
        let (rules, nexts) = gotos_at(stable, state);
        let mut was_due = false;
        for place in 0..rules.len() {
            if self.follow_rule(grm, stable, usize::from(rules[place]), nexts[place], found) {
                was_due = true;
            }
        }
        was_due
    }

    /// Follows the gotos of the state until none is due.
    pub(crate) fn follow<StorageT: StorageIndex>(
        &self,
        checked: &Automaton<'_, StorageT>,
        state: StIdx<StorageT>,
        found: &mut Found,
    )
        ensures follows { FollowsStateIn StorageT.index checked.now self.now state found.old found.new }
        ensures all { FollowsAllIn StorageT.index checked.now self.now state found.old found.new }
        ensures done { AreAllDone checked.now.table (StorageT.index state.0) found.new }
    {
        'passes: while self.follow_once(checked, state, found) {}
    }
}
