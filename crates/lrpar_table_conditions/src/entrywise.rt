//! The conditions that are tested entry by entry: of each action and each goto that a state stores.
ghost use Rattle.std.specs.Prelude.{◌↔◌, IsTrue};
ghost use Rattle.lrpar_table_rows.specs.PlainRows.{plain_action};
ghost use Rattle.lrpar_table_rows.specs.Table.{IsActionWithin, states_len};
ghost use Rattle.lrpar_table_rows.specs.Safe.{AcceptsOnlyAtEnd, NeverShiftsEnd, ReducesComplete, StepsFromCores};
ghost use Rattle.lrpar_table_conditions.specs.Entrywise.{IsInRange};
ghost use Rattle.lrpar_table_conditions.specs.Checked.{ActionsHold, GoesNeverBack, GotosHold, HasStartComplete, HoldsAt, IsEndToken, IsProdOf, IsShaped, IsStateOf, OneAcceptHolds, OneActionHolds, OneGotoHolds, OneReductionHolds, OneShiftHolds};

use crate::checkable::Checkable;
use lrpar_grammar::span::{PIdx, RIdx, StIdx, StorageIndex, Symbol, TIdx};
use lrpar_table_rows::condition::SafetyCondition;
use lrpar_table_rows::table::Action;

impl<'a, StorageT: StorageIndex> Checkable<'a, StorageT> {
    /// S3: the state doesn't shift the end token.
    pub fn never_shifts_end(&self, s: StIdx<StorageT>) -> bool
        requires shape { IsShaped self.now }
        requires state { IsStateOf StorageT.index self.now s }
        ensures { IsTrue result ↔ NeverShiftsEnd self.now.grm.now self.now.stable.now (StorageT.index s.0) }
    {
        self.actions_hold(SafetyCondition::S3, s)
    }

    /// S4: the cores of kernel items of each state to which the state goes come from its own cores.
    pub fn steps_from_cores(&self, s: StIdx<StorageT>) -> bool
        requires shape { IsShaped self.now }
        requires state { IsStateOf StorageT.index self.now s }
        ensures { IsTrue result ↔ HoldsAt StorageT.index StepsFromCores self.now s }
    {
        self.actions_hold(SafetyCondition::S4, s) && self.gotos_hold(SafetyCondition::S4, s)
    }

    /// S5: the state reduces by complete cores alone, and not by the start production.
    pub fn reduces_complete(&self, s: StIdx<StorageT>) -> bool
        requires shape { IsShaped self.now }
        requires state { IsStateOf StorageT.index self.now s }
        ensures { IsTrue result ↔ HoldsAt StorageT.index ReducesComplete self.now s }
    {
        self.actions_hold(SafetyCondition::S5, s)
    }

    /// S7: the state accepts at the end token alone, and only if it has the start production's complete core.
    pub fn accepts_only_at_end(&self, s: StIdx<StorageT>) -> bool
        requires shape { IsShaped self.now }
        requires state { IsStateOf StorageT.index self.now s }
        ensures { IsTrue result ↔ HoldsAt StorageT.index AcceptsOnlyAtEnd self.now s }
    {
        self.actions_hold(SafetyCondition::S7, s)
    }

    // Whether the state has no transition to the start state.
    pub(crate) fn goes_never_back(&self, s: StIdx<StorageT>) -> bool
        requires shape { IsShaped self.now }
        requires state { IsStateOf StorageT.index self.now s }
        ensures { IsTrue result ↔ GoesNeverBack StorageT.index self.now s }
    {
        self.actions_hold(SafetyCondition::S8, s) && self.gotos_hold(SafetyCondition::S8, s)
    }

    // Whether the condition holds of each action that the state stores.
    fn actions_hold(&self, condition: SafetyCondition, s: StIdx<StorageT>) -> bool
        requires shape { IsShaped self.now }
        requires state { IsStateOf StorageT.index self.now s }
        ensures { IsTrue result ↔ ActionsHold StorageT.index self.now condition s }
    {
        let (tokens, actions) = self.stable.actions_of(s);
        for (place, token) in tokens.iter().enumerate() {
            if !self.action_holds(condition, s, *token, actions[place]) {
                return false;
            }
        }
        true
    }

    // Whether the condition holds of an action of the state.
    fn action_holds(
        &self,
        condition: SafetyCondition,
        s: StIdx<StorageT>,
        token: TIdx<StorageT>,
        action: Action<StorageT>,
    ) -> bool
        requires shape { IsShaped self.now }
        requires state { IsStateOf StorageT.index self.now s }
        requires within { IsActionWithin (states_len self.now.stable.now) (plain_action StorageT.index action) }
        requires named { IsInRange self.now.grm.now (plain_action StorageT.index action) }
        ensures { IsTrue result ↔ OneActionHolds StorageT.index self.now condition s token action }
    {
        match action {
            Action::Shift(next) => self.shift_holds(condition, s, token, next),
            Action::Reduce(pidx) => self.reduce_holds(condition, s, pidx),
            Action::Accept => self.accept_holds(condition, s, token),
            Action::Error => true,
        }
    }

    // Whether the condition holds of a shift of the state.
    fn shift_holds(
        &self,
        condition: SafetyCondition,
        s: StIdx<StorageT>,
        token: TIdx<StorageT>,
        next: StIdx<StorageT>,
    ) -> bool
        requires shape { IsShaped self.now }
        requires state { IsStateOf StorageT.index self.now s }
        requires next { IsStateOf StorageT.index self.now next }
        ensures { IsTrue result ↔ OneShiftHolds StorageT.index self.now condition s token next }
    {
        match condition {
            SafetyCondition::S3 => !self.is_end(token),
            SafetyCondition::S4 => self.cores_follow(s, Symbol::Token(token), next),
            SafetyCondition::S8 => !self.is_start(next),
            _ => true,
        }
    }

    // Whether the condition holds of a reduction of the state.
    fn reduce_holds(
        &self,
        condition: SafetyCondition,
        s: StIdx<StorageT>,
        pidx: PIdx<StorageT>,
    ) -> bool
        requires shape { IsShaped self.now }
        requires state { IsStateOf StorageT.index self.now s }
        requires prod { IsProdOf StorageT.index self.now pidx }
        ensures { IsTrue result ↔ OneReductionHolds StorageT.index self.now condition s pidx }
    {
        match condition {
            SafetyCondition::S5 => self.is_complete(s, pidx),
            _ => true,
        }
    }

    // Whether the condition holds of an accept of the state.
    fn accept_holds(
        &self,
        condition: SafetyCondition,
        s: StIdx<StorageT>,
        token: TIdx<StorageT>,
    ) -> bool
        requires shape { IsShaped self.now }
        requires state { IsStateOf StorageT.index self.now s }
        ensures { IsTrue result ↔ OneAcceptHolds StorageT.index self.now condition s token }
    {
        match condition {
            SafetyCondition::S7 => self.accepts_complete(s, token),
            _ => true,
        }
    }

    // Whether the token is the end token, and the state has the start production's complete core.
    fn accepts_complete(&self, s: StIdx<StorageT>, token: TIdx<StorageT>) -> bool
        requires shape { IsShaped self.now }
        requires state { IsStateOf StorageT.index self.now s }
        ensures { IsTrue result ↔ HasStartComplete StorageT.index self.now s token }
    {
        self.is_end(token) && self.sgraph.has_core(s, self.grm.start_prod(), 1)
    }

    // Whether the condition holds of each goto that the state stores.
    fn gotos_hold(&self, condition: SafetyCondition, s: StIdx<StorageT>) -> bool
        requires shape { IsShaped self.now }
        requires state { IsStateOf StorageT.index self.now s }
        ensures { IsTrue result ↔ GotosHold StorageT.index self.now condition s }
    {
        let (rules, states) = self.stable.gotos_of(s);
        for (place, rule) in rules.iter().enumerate() {
            if !self.goto_holds(condition, s, *rule, states[place]) {
                return false;
            }
        }
        true
    }

    // Whether the condition holds of a goto of the state.
    fn goto_holds(
        &self,
        condition: SafetyCondition,
        s: StIdx<StorageT>,
        rule: RIdx<StorageT>,
        next: StIdx<StorageT>,
    ) -> bool
        requires shape { IsShaped self.now }
        requires state { IsStateOf StorageT.index self.now s }
        requires next { IsStateOf StorageT.index self.now next }
        ensures { IsTrue result ↔ OneGotoHolds StorageT.index self.now condition s rule next }
    {
        match condition {
            SafetyCondition::S4 => self.cores_follow(s, Symbol::Rule(rule), next),
            SafetyCondition::S8 => !self.is_start(next),
            _ => true,
        }
    }

    // Whether the token is the end token.
    fn is_end(&self, token: TIdx<StorageT>) -> bool
        ensures { IsTrue result ↔ IsEndToken StorageT.index self.now token }
    {
        usize::from(token) == usize::from(self.grm.eof_token_idx())
    }
}
