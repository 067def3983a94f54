//! State tables: the actions and gotos of an LR automaton. A table is made of rows, and then only read.
ghost use Rattle.std.specs.Prelude.{◌≡◌, ◌<◌, ◌≤◌, ◌↔◌, IfOk, IsErrOf, length};
ghost use Rattle.std.specs.Option.{option_map};
ghost use Rattle.lrpar_table_rows.specs.StoredRows.{ActionsFit, AreActionsAt, AreGotosAt, GoesWithin, GotosFit, HasActionsOf, HasGotosOf, IsActionAt, IsGotoAt, IsTableOfRows, IsTableOfSparse, MakeTable, ShiftsWithin, StoreTable, StoresActionsAt, StoresGotosAt};
ghost use Rattle.lrpar_table_rows.specs.Table.{ActionsAscend, FailsPastStates, FailsPastTokens, GotosAscend, HasNoGotoPastRules, HasNoGotoPastStates, IsClosed, entries_len, states_len, with_resolved};
ghost use Rattle.lrpar_table_rows.specs.declared.fault.TableFault.TheVariants.{BadIndex};

pub use crate::conflicts::Conflicts;
use crate::entries::Entries;
pub use crate::fault::TableFault;
use crate::full::{are_rows, stored_actions, stored_gotos};
pub use crate::graph::{Core, CoreRow, Item, ItemSet, Items, StateGraph};
pub use crate::resolved::{Resolved, ResolvedConflict};
pub use crate::rows::{Action, SparseRows, TableRows};
use crate::sparse::is_sparse_table;
use lrpar_grammar::span::{RIdx, StIdx, StorageIndex, TIdx};
use std::alloc::{AllocError, Global};
use std::marker::Model;

/// The actions and gotos of each state of an LR automaton. Only entries are stored: the actions of each state but errors, and
/// its gotos.
#[derive(Debug)]
pub struct StateTable<StorageT: StorageIndex> {
    start: StIdx<StorageT>,
    tokens: usize,
    rules: usize,
    actions: Entries<TIdx<StorageT>, Action<StorageT>>,
    gotos: Entries<RIdx<StorageT>, StIdx<StorageT>>,
    conflicts: Option<Conflicts<StorageT>>,
    resolved: Resolved<StorageT>,
}

// With its own `Drop`, a function that drops one proves one call.
impl<StorageT: StorageIndex> Drop for StateTable<StorageT> {
    fn drop(self) {
        let StateTable {
            start: _,
            tokens: _,
            rules: _,
            actions,
            gotos,
            conflicts,
            resolved,
        } = self;
        drop(actions);
        drop(gotos);
        drop(conflicts);
        drop(resolved);
    }
}

impl<StorageT: StorageIndex> Model for StateTable<StorageT> {
    ghost use Rattle.lrpar_table_rows.specs.Table.{Table, IsTable};
    ghost use Rattle.lrpar_table_rows.specs.PlainTable.{plain_table};

    ghost Value = { Table };

    ghost view = { λ t. plain_table StorageT.index t.start t.tokens t.rules t.actions t.gotos t.conflicts t.resolved };

    ghost invariant = { λ t. IsTable StorageT.limit (plain_table StorageT.index t.start t.tokens t.rules t.actions t.gotos t.conflicts t.resolved) };
}

impl<StorageT: StorageIndex> StateTable<StorageT> {
    /// The table of these full rows.
    ///
    /// It returns `BadIndex` if a state doesn't have one row with an action for each token and one with an optional state for
    /// each rule; if the start state, or a state in a row, isn't one of the table; and if there are more states, tokens or
    /// rules than `StorageT` has numbers. Productions, and what the conflicts name, aren't checked. This is decided before
    /// any allocation. It returns `Memory` if an allocation fails: the entries are stored apart from the rows. Every entry of
    /// the rows is read a few times; then the rows are dropped.
    pub fn from_rows(alloc: Global, rows: TableRows<StorageT>) -> Result<Self, TableFault>
        ensures made { IfOk result (λ _. MakeTable StorageT.index StorageT.limit rows) }
        ensures table { IfOk result (IsTableOfRows StorageT.index rows) }
        ensures actions { IfOk result (HasActionsOf StorageT.index rows) }
        ensures gotos { IfOk result (HasGotosOf StorageT.index rows) }
        ensures refused { IsErrOf result BadIndex ↔ ¬ (MakeTable StorageT.index StorageT.limit rows) }
    {
        if !are_rows(&rows) {
            return Err(TableFault::BadIndex);
        }
        Ok(of_rows(alloc, rows)?)
    }

    /// The table of these sparse rows.
    ///
    /// It returns `BadIndex` if there aren't as many rows of each kind as states; if a row isn't ascending, has a token or a
    /// rule twice, or stores an error; if a token, a rule, a state or the start state is out of range; and if there are more
    /// states, tokens or rules than `StorageT` has numbers. Productions, and what the conflicts name, aren't checked. This is
    /// decided before any allocation. It returns `Memory` if an allocation fails. Time and memory grow with states and
    /// entries, and not with tokens and rules.
    pub fn from_sparse(alloc: Global, rows: SparseRows<StorageT>) -> Result<Self, TableFault>
        ensures made { IfOk result (λ _. StoreTable StorageT.index StorageT.limit rows) }
        ensures table { IfOk result (IsTableOfSparse StorageT.index rows) }
        ensures refused { IsErrOf result BadIndex ↔ ¬ (StoreTable StorageT.index StorageT.limit rows) }
    {
        if !is_sparse_table(&rows) {
            return Err(TableFault::BadIndex);
        }
        Ok(of_sparse(alloc, rows)?)
    }

    /// The state in which a parser starts.
    pub fn start_state(&self) -> StIdx<StorageT>
        ensures start { StorageT.index result.0 ≡ self.now.start }
        ensures within { self.now.start < states_len self.now }
    {
        self.start
    }

    /// The number of states.
    pub fn states_len(&self) -> usize
        ensures states { result ≡ states_len self.now }
        ensures fits { result ≤ StorageT.limit }
        ensures closed { IsClosed self.now }
        ensures no_action { FailsPastStates self.now }
        ensures no_goto { HasNoGotoPastStates self.now }
    {
        self.actions.rows_len()
    }

    /// The number of tokens, with the end token.
    pub fn tokens_len(&self) -> usize
        ensures tokens { result ≡ self.now.tokens }
        ensures fits { result ≤ StorageT.limit }
        ensures end { FailsPastTokens self.now }
    {
        self.tokens
    }

    /// The number of rules, with the start rule `^` of the augmented grammar.
    pub fn rules_len(&self) -> usize
        ensures rules { result ≡ self.now.rules }
        ensures fits { result ≤ StorageT.limit }
        ensures end { HasNoGotoPastRules self.now }
    {
        self.rules
    }

    /// This table, with these conflicts as those that precedences resolved. They aren't checked.
    pub fn with_resolved(self, resolved: Resolved<StorageT>) -> Self
        ensures { result ≡ with_resolved self resolved }
    {
        let mut table = self;
        table.resolved = resolved;
        table
    }

    /// The conflicts that precedences resolved when the table was built. A table that was made of rows has none.
    pub fn resolved(&self) -> &Resolved<StorageT>
        ensures { result.now ≡ self.now.resolved }
    {
        &self.resolved
    }

    /// The conflicts that came with the rows, if any did.
    pub fn conflicts(&self) -> Option<&Conflicts<StorageT>>
        ensures { option_map (λ conflicts. conflicts.now) result ≡ self.now.conflicts }
    {
        self.conflicts.as_ref()
    }

    /// The number of entries: the pairs of a state and a token with an action other than an error, and the pairs of a state
    /// and a rule with a goto.
    pub fn entries(&self) -> u128
        ensures { result ≡ entries_len self.now }
    {
        self.actions.len() as u128 + self.gotos.len() as u128
    }

    /// The action of state `s` at token `t`.
    ///
    /// A packed list, in which states with actions at the same tokens share their part, shows the place of the action, or that
    /// there is none, by one compare. If that list would have more than two slots for each entry of the table, there is none;
    /// then it is a binary search, in O(log n) for the state's n entries.
    #[inline]
    pub fn action(&self, s: StIdx<StorageT>, t: TIdx<StorageT>) -> Action<StorageT>
        requires state { StorageT.index s.0 < states_len self.now }
        requires token { StorageT.index t.0 < self.now.tokens }
        ensures action { IsActionAt StorageT.index self.now s t result }
        ensures within { ShiftsWithin StorageT.index self.now s t }
    {
        match self.actions.value_of(usize::from(s), t) {
            Some(action) => action,
            None => Action::Error,
        }
    }

    /// The goto of state `s` by rule `r`, if it has one.
    ///
    /// It is found as an action is.
    #[inline]
    pub fn goto(&self, s: StIdx<StorageT>, r: RIdx<StorageT>) -> Option<StIdx<StorageT>>
        requires state { StorageT.index s.0 < states_len self.now }
        requires rule { StorageT.index r.0 < self.now.rules }
        ensures goto { IsGotoAt StorageT.index self.now s r result }
        ensures within { GoesWithin StorageT.index self.now s r }
    {
        self.gotos.value_of(usize::from(s), r)
    }

    /// The tokens at which state `s` has an action other than an error, ascending, and the action at each.
    #[inline]
    pub fn actions_of(&self, s: StIdx<StorageT>) -> (&[TIdx<StorageT>], &[Action<StorageT>])
        requires { StorageT.index s.0 < states_len self.now }
        ensures entries { AreActionsAt StorageT.index self.now s result.0.now result.1.now }
        ensures actions { length result.1.now ≡ length result.0.now }
        ensures exact { StoresActionsAt StorageT.index self.now s }
        ensures ascending { ActionsAscend self.now (StorageT.index s.0) }
        ensures within { ActionsFit StorageT.index self.now s }
    {
        self.actions.row(usize::from(s))
    }

    /// The rules by which state `s` has a goto, ascending, and the state of each.
    #[inline]
    pub fn gotos_of(&self, s: StIdx<StorageT>) -> (&[RIdx<StorageT>], &[StIdx<StorageT>])
        requires { StorageT.index s.0 < states_len self.now }
        ensures entries { AreGotosAt StorageT.index self.now s result.0.now result.1.now }
        ensures states { length result.1.now ≡ length result.0.now }
        ensures exact { StoresGotosAt StorageT.index self.now s }
        ensures ascending { GotosAscend self.now (StorageT.index s.0) }
        ensures within { GotosFit StorageT.index self.now s }
    {
        self.gotos.row(usize::from(s))
    }
}

/// The table of full rows, which are those of a table.
fn of_rows<StorageT: StorageIndex>(
    alloc: Global,
    rows: TableRows<StorageT>,
) -> Result<StateTable<StorageT>, AllocError>
    requires { MakeTable StorageT.index StorageT.limit rows }
    ensures { IfOk result (IsTableOfRows StorageT.index rows) }
{
    let states = rows.actions.len();
    let actions = stored_actions(alloc, &rows.actions)?;
    let gotos = stored_gotos(alloc, &rows.gotos)?;
    let sparse = SparseRows {
        start: rows.start,
        states,
        tokens: rows.tokens,
        rules: rows.rules,
        actions,
        gotos,
        conflicts: rows.conflicts,
    };
    of_sparse(alloc, sparse)
}

/// The table of sparse rows, which are those of a table.
fn of_sparse<StorageT: StorageIndex>(
    alloc: Global,
    rows: SparseRows<StorageT>,
) -> Result<StateTable<StorageT>, AllocError>
    requires { StoreTable StorageT.index StorageT.limit rows }
    ensures { IfOk result (IsTableOfSparse StorageT.index rows) }
{
    let actions = Entries::from_rows(alloc, &rows.actions)?;
    let gotos = Entries::from_rows(alloc, &rows.gotos)?;
    let resolved = Resolved::none(alloc);
    Ok(StateTable {
        start: rows.start,
        tokens: rows.tokens,
        rules: rows.rules,
        actions,
        gotos,
        conflicts: rows.conflicts,
        resolved,
    })
}
