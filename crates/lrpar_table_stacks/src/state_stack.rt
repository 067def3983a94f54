//! The operations of a stack of states for reductions and shifts, with which one function serves all kinds of stacks: internal,
//! and public for a stack of a crate above that has more than its states.
ghost use Rattle.std.specs.Prelude.{◌≡◌, ◌<◌, ◌≤◌, ℕ, List, [], ◌∷◌, ◌++◌, length, take, OnOk, OnErr};
ghost use Rattle.lrpar_grammar.specs.Grammar.{Grammar, prod_len, rule_of};
ghost use Rattle.lrpar_table_stacks.specs.Reduction.{Reduces};
ghost use Rattle.lrpar_table_stacks.specs.Stack.{IsFilled, IsStateAt, IsTopOf, KeepsRoom, KeepsStates, Pushes, PushesState, Replaces, ReplacesStates, states_of};
ghost use Rattle.lrpar_table_stacks.specs.StackReduction.{StackReduces};
ghost use Rattle.lrpar_table_rows.specs.Table.{Table};

use lrpar_grammar::span::{PIdx, RIdx, StIdx, StorageIndex};
use lrpar_table_rows::table::Action;
use std::alloc::AllocError;

/// A reduction that is due on a stack.
#[derive(Clone, Copy)]
pub struct Reduction<StorageT> {
    /// The production.
    pub prod: PIdx<StorageT>,
    /// Its rule.
    pub rule: RIdx<StorageT>,
    /// The number of its symbols.
    pub symbols: usize,
    /// The state that is pushed.
    pub next: StIdx<StorageT>,
}

/// The result of all reductions of a stack.
#[derive(Clone, Copy)]
pub struct Settled<StorageT> {
    /// The number of reductions.
    pub reductions: u128,
    /// The action of the state that is then on top.
    pub action: Action<StorageT>,
}

/// A stack of states. Its bottom is state 0 of the list that it represents.
pub trait StateStack<StorageT: StorageIndex> {
    /// The states, bottom first.
    ghost states: { Self → List ℕ };

    /// What holds of the rest of the stack, beside its states, if the stack suits a grammar and a table.
    ghost suits: { Grammar → Table → Self → Type 0 };

    /// What has to hold of the stack, beside its height, for a reduction: by a production, of a rule, with this number of
    /// symbols.
    ghost can_reduce: { Self → ℕ → ℕ → ℕ → Type 0 };

    /// What a reduction does to the rest of the stack, beside its states: by a production, of a rule, with this number of symbols.
    ghost reduces: { Self → ℕ → ℕ → ℕ → Self → Type 0 };

    /// The stack after an allocation failed for a reduction of this number of symbols.
    ghost fails: { Self → ℕ → Self → Type 0 };

    /// The number of states.
    fn height(&self) -> usize
        ensures { result ≡ length (states self.now) };

    /// The top state.
    fn top(&self) -> StIdx<StorageT>
        requires { 0 < length (states self.now) }
        ensures { IsTopOf StorageT.index (states self.now) result };

    /// The state at this height, from 0 on.
    fn state_at(&self, at: usize) -> StIdx<StorageT>
        requires { at < length (states self.now) }
        ensures { IsStateAt StorageT.index (states self.now) at result };

    /// Drops the top states, one for each symbol of the reduction, and pushes the state of its goto. After an `Err` the
    /// states are as before.
    fn reduce(&mut self, by: Reduction<StorageT>) -> Result<(), AllocError>
        requires can { can_reduce self.old (StorageT.index by.prod.0) (StorageT.index by.rule.0) by.symbols }
        requires deep { by.symbols < length (states self.old) }
        ensures states { OnOk result (Replaces StorageT.index by.symbols by.next (states self.old) (states self.new)) }
        ensures reduces { OnOk result (reduces self.old (StorageT.index by.prod.0) (StorageT.index by.rule.0) by.symbols self.new) }
        ensures unchanged { OnErr result (states self.new ≡ states self.old) }
        ensures fails { OnErr result (fails self.old by.symbols self.new) };

    /// If the stack suits a grammar and a table, each reduction that is due by them can be made.
    ghost due_can: { (g : Grammar) (table : Table) (t : ℕ) (stack : Self) (p : ℕ) (after : List ℕ) → suits g table stack
        → Reduces g table t (states stack) p after → can_reduce stack p (rule_of g p) (prod_len g p) };

    /// And the stack still suits them after the reduction.
    ghost reduced_suits: { (g : Grammar) (table : Table) (t : ℕ) (old : Self) (p : ℕ) (new : Self) → suits g table old
        → StackReduces states reduces g table t old p new → suits g table new };
}

/// A stack onto which a shift pushes its state and nothing else.
pub trait ShiftStack<StorageT: StorageIndex>: StateStack<StorageT> {
    /// What a shift does to the rest of the stack, beside its states.
    ghost shifts: { Self → Self → Type 0 };

    /// The stack after an allocation failed for a shift.
    ghost shift_fails: { Self → Self → Type 0 };

    /// Pushes the state. After an `Err` the states are as before.
    fn shift(&mut self, next: StIdx<StorageT>) -> Result<(), AllocError>
        ensures states { OnOk result (Pushes StorageT.index next (Self.states self.old) (Self.states self.new)) }
        ensures shifts { OnOk result (shifts self.old self.new) }
        ensures unchanged { OnErr result (Self.states self.new ≡ Self.states self.old) }
        ensures fails { OnErr result (shift_fails self.old self.new) };
}

/// A list of states.
impl<StorageT: StorageIndex> StateStack<StorageT> for Vec<StIdx<StorageT>> {
    ghost states = { λ v. states_of StorageT.index v.items };

    ghost suits = { λ _ _ _. Unit {0} };

    ghost can_reduce = { λ _ _ _ _. Unit {0} };

    ghost reduces = { λ old _ _ _ new. KeepsRoom old new };

    ghost fails = { λ old symbols new. (symbols ≡ 0) × KeepsRoom old new × IsFilled new };

    ghost due_can = { λ g table t stack p after suit due. tt };

    ghost reduced_suits = { λ g table t old p new suit reduces. tt };

    fn height(&self) -> usize {
        self.len()
    }

    fn top(&self) -> StIdx<StorageT> {
        self[self.len() - 1]
    }

    fn state_at(&self, at: usize) -> StIdx<StorageT> {
        self[at]
    }

    fn reduce(&mut self, by: Reduction<StorageT>) -> Result<(), AllocError>
        requires deep { by.symbols < length (states_of StorageT.index self.old.items) }
        ensures states { OnOk result (ReplacesStates StorageT.index by.symbols by.next self.old self.new) }
        ensures reduces { OnOk result (KeepsRoom self.old self.new) }
        ensures unchanged { OnErr result (KeepsStates StorageT.index self.old self.new) }
        ensures fails { OnErr result ((by.symbols ≡ 0) × KeepsRoom self.old self.new × IsFilled self.new) }
    {
        put_at(self, self.len() - by.symbols, by.next)
    }
}

impl<StorageT: StorageIndex> ShiftStack<StorageT> for Vec<StIdx<StorageT>> {
    ghost shifts = { λ old new. KeepsRoom old new };

    ghost shift_fails = { λ old new. KeepsRoom old new × IsFilled new };

    fn shift(&mut self, next: StIdx<StorageT>) -> Result<(), AllocError>
        ensures states { OnOk result (PushesState StorageT.index next self.old self.new) }
        ensures shifts { OnOk result (KeepsRoom self.old self.new) }
        ensures unchanged { OnErr result (KeepsStates StorageT.index self.old self.new) }
        ensures fails { OnErr result (KeepsRoom self.old self.new × IsFilled self.new) }
    {
        push_on(self, next)
    }
}

// Drops the states above the first `left` ones, and pushes a state onto these.
pub(crate) fn put_at<StorageT: StorageIndex>(
    states: &mut Vec<StIdx<StorageT>>,
    left: usize,
    next: StIdx<StorageT>,
) -> Result<(), AllocError>
    requires { left ≤ length states.old.items }
    ensures put { OnOk result (states.new.items ≡ take left states.old.items ++ next ∷ []) }
    ensures room { KeepsRoom states.old states.new }
    ensures unchanged { OnErr result (states.new.items ≡ states.old.items) }
    ensures full { OnErr result ((left ≡ length states.old.items) × IsFilled states.new) }
{
    if left == states.len() {
        push_on(states, next)
    } else {
        states.truncate(left + 1);
        states[left] = next;
        Ok(())
    }
}

// Pushes a state. After an `Err` the states are as before, and fill their capacity.
pub(crate) fn push_on<StorageT: StorageIndex>(
    states: &mut Vec<StIdx<StorageT>>,
    next: StIdx<StorageT>,
) -> Result<(), AllocError>
    ensures pushed { OnOk result (states.new.items ≡ states.old.items ++ next ∷ []) }
    ensures room { KeepsRoom states.old states.new }
    ensures unchanged { OnErr result (states.new.items ≡ states.old.items) }
    ensures full { OnErr result (IsFilled states.new) }
{
    // After a failed `push` no contract says what the capacity is; after a failed `reserve` one does.
    states.reserve(1)?;
    states.push_reserved(next);
    Ok(())
}
