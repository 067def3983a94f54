//! The saturation of a table: the exits of each state by those of the states to which it goes, until nothing more follows.
ghost use Rattle.std.specs.Prelude.{◌≡◌, ◌<◌, ℕ, IfOk, OnOk};
ghost use Rattle.std.specs.Bool.{OnFalse};
ghost use Rattle.std.specs.Prelude.{IsTrue, false, length, slice_index_or};
ghost use Rattle.lrpar_table_pops.specs.StoredAll.{AreMarked, IsMarked, IsUntouched, KeepsMarks};
ghost use Rattle.lrpar_table_rows.specs.PlainRows.{plain_action};
ghost use Rattle.lrpar_table_rows.specs.Table.{ShiftTo};
ghost use Rattle.lrpar_table_pops.specs.Exits.{HasNoExit};
ghost use Rattle.lrpar_table_pops.specs.Closed.{IsGotoState, IsKeptBy};
ghost use Rattle.lrpar_table_pops.specs.FollowAll.{IsRightAction};
ghost use Rattle.lrpar_table_pops.specs.StoredPops.{HasNoExits, HaveNoExits};
ghost use Rattle.lrpar_table_pops.specs.Automaton.{AcceptsAtEnd, ActsSo, AreAllPopsIn, AreClosedUnless, AreExitsIn, ArePopsIn, HasItemsOf, HaveAllWaysIn, HaveWaysAtTokens, HaveWaysFor, IsKeptAt, SaturatesAll, SaturatesAny, SaturatesAt, SaturatesMarked, SaturatesTokens, SaturatesWhole, StartsAllAtAny, StaysRightAtAny};
ghost use Rattle.lrpar_table_pops.specs.Room.{HasNoMoreRoom, LosesRoom};

use crate::automaton::Automaton;
use crate::entries::{actions_at, gotos_at, symbols_len};
use crate::exits::Exits;
use crate::found::Found;
use crate::pops::{Pops, StateExits};
use lrpar_grammar::grammar::YaccGrammar;
use lrpar_grammar::span::{StIdx, StorageIndex, TIdx};
use lrpar_table_rows::table::{Action, StateTable};
use std::alloc::{AllocError, Global};

impl Pops {
    ghost use Rattle.lrpar_table_pops.specs.StoredAll.{HaveSets};

    /// The exits of each state of the table.
    ///
    /// Each round goes over the states; there are few in practice, and at most as many as there are exits.
    pub(crate) fn new<StorageT: StorageIndex>(
        alloc: Global,
        checked: &Automaton<'_, StorageT>,
    ) -> Result<Self, AllocError>
        ensures pops { IfOk result (ArePopsIn checked.now) }
        ensures all { IfOk result (AreAllPopsIn checked.now) }
    {
        let mut pops = Pops::empty(alloc, checked)?;
        let mut found = Found::new(alloc, checked.grm())?;
        let mut changed = vec![in alloc; true; checked.stable().states_len()]?;
        'rounds: loop {
            if !pops.add_round(alloc, checked, &mut found, &mut changed)? {
                return Ok(pops);
            }
        }
    }

    // Adds what follows for each state from those that changed in the last round. Returns whether anything was new.
    fn add_round<StorageT: StorageIndex>(
        &mut self,
        alloc: Global,
        checked: &Automaton<'_, StorageT>,
        found: &mut Found,
        changed: &mut Vec<bool>,
    ) -> Result<bool, AllocError>
        requires alone { AcceptsAtEnd checked.now }
        requires pops { ArePopsIn checked.now self.old }
        requires places { HaveAllWaysIn checked.now self.old }
        requires settled { AreClosedUnless checked.now self.old changed.old.items }
        requires sets { HaveSets checked.now.grammar found.old }
        ensures pops { OnOk result (ArePopsIn checked.now self.new) }
        ensures all { IfOk result (SaturatesAll checked.now self.new changed.new.items found.new) }
        ensures less { IfOk result (LosesRoom self.old self.new) }
    {
        let states = checked.stable().states_len();
        let mut changed_now = vec![in alloc; false; states]?;
        let mut grown = false;
        'states: for above in 0..states {
            let number = states - 1 - above;
            if self.add_number(alloc, checked, number, found, changed)? {
                set_mark(&mut changed_now, number);
                grown = true;
            }
        }
        *changed = changed_now;
        Ok(grown)
    }

    // Adds what follows for the state with this number, if any changed to which it goes. Returns whether anything was new.
    fn add_number<StorageT: StorageIndex>(
        &mut self,
        alloc: Global,
        checked: &Automaton<'_, StorageT>,
        number: usize,
        found: &mut Found,
        changed: &[bool],
    ) -> Result<bool, AllocError>
        requires alone { AcceptsAtEnd checked.now }
        requires pops { ArePopsIn checked.now self.old }
        ensures pops { OnOk result (ArePopsIn checked.now self.new) }
        ensures all { IfOk result (SaturatesMarked checked.now changed.now number self.old self.new found.old found.new) }
        ensures less { IfOk result (LosesRoom self.old self.new) }
        ensures no_more { OnOk result (HasNoMoreRoom self.old self.new) }
    {
        if number >= checked.sgraph().states_len() {
            return Ok(false);
        }
        let state = StIdx(StorageT::from_index(number).unwrap());
        if !has_changed(checked.stable(), changed, state) {
            return Ok(false);
        }
        self.add_state(alloc, checked, state, found)
    }

    // Adds what follows for the state. Returns whether anything was new.
    fn add_state<StorageT: StorageIndex>(
        &mut self,
        alloc: Global,
        checked: &Automaton<'_, StorageT>,
        state: StIdx<StorageT>,
        found: &mut Found,
    ) -> Result<bool, AllocError>
        requires state { HasItemsOf StorageT.index checked.now state }
        requires alone { AcceptsAtEnd checked.now }
        requires pops { ArePopsIn checked.now self.old }
        ensures pops { OnOk result (ArePopsIn checked.now self.new) }
        ensures all { IfOk result (SaturatesWhole StorageT.index checked.now state self.old self.new found.old found.new) }
        ensures less { IfOk result (LosesRoom self.old self.new) }
        ensures no_more { OnOk result (HasNoMoreRoom self.old self.new) }
    {
        found.enter(alloc, checked, state)?;
        let at_tokens = self.add_at_tokens(checked, state, found);
        let at_any = self.add_at_any(checked, state, found);
        Ok(at_tokens || at_any)
    }

    // Adds what follows for the state at each of its tokens. Returns whether anything was new.
    fn add_at_tokens<StorageT: StorageIndex>(
        &mut self,
        checked: &Automaton<'_, StorageT>,
        state: StIdx<StorageT>,
        found: &mut Found,
    ) -> bool
        requires alone { AcceptsAtEnd checked.now }
        requires pops { ArePopsIn checked.now self.old }
        ensures pops { ArePopsIn checked.now self.new }
        ensures all { SaturatesTokens StorageT.index checked.now state result self.old self.new found.old found.new }
        ensures less { LosesRoom self.old self.new result }
        ensures no_more { HasNoMoreRoom self.old self.new }
    {
        let (tokens, actions) = actions_at(checked.stable(), state);
        let mut grown = false;
        'tokens: for place in 0..tokens.len() {
            if self.add_at(checked, state, tokens[place], actions[place], found) {
                grown = true;
            }
        }
        grown
    }

    // Adds what follows for the state at the token, where it acts so, if that is kept. Returns whether anything was new.
    fn add_at<StorageT: StorageIndex>(
        &mut self,
        checked: &Automaton<'_, StorageT>,
        state: StIdx<StorageT>,
        token: TIdx<StorageT>,
        action: Action<StorageT>,
        found: &mut Found,
    ) -> bool
        requires acts { ActsSo StorageT.index checked.now state token action }
        requires alone { AcceptsAtEnd checked.now }
        requires pops { ArePopsIn checked.now self.old }
        ensures pops { ArePopsIn checked.now self.new }
        ensures all { SaturatesAt StorageT.index checked.now state token result self.old self.new found.old found.new }
        ensures less { LosesRoom self.old self.new result }
        ensures no_more { HasNoMoreRoom self.old self.new }
    {
        if !self.keeps(state, token) {
            return false;
        }
        found.clear();
        self.start(checked.grm(), token, action, found);
        self.follow(checked, state, found);
        self.unite_at(usize::from(state), usize::from(token), found.exits())
    }

    // Adds what follows for the state at any token. Returns whether anything was new.
    fn add_at_any<StorageT: StorageIndex>(
        &mut self,
        checked: &Automaton<'_, StorageT>,
        state: StIdx<StorageT>,
        found: &mut Found,
    ) -> bool
        requires alone { AcceptsAtEnd checked.now }
        requires pops { ArePopsIn checked.now self.old }
        ensures pops { ArePopsIn checked.now self.new }
        ensures all { SaturatesAny StorageT.index checked.now state result self.old self.new found.old found.new }
        ensures less { LosesRoom self.old self.new result }
        ensures no_more { HasNoMoreRoom self.old self.new }
    {
        found.clear();
        self.start_all(checked, state, found);
        self.follow(checked, state, found);
        self.unite_any(usize::from(state), found.exits())
    }

    // The state acts at each of its tokens.
    fn start_all<StorageT: StorageIndex>(
        &self,
        checked: &Automaton<'_, StorageT>,
        state: StIdx<StorageT>,
        found: &mut Found,
    )
        ensures right { StaysRightAtAny StorageT.index checked.now self.now state found.old found.new }
        ensures followed { found.new.followed ≡ found.old.followed }
        ensures all { StartsAllAtAny StorageT.index checked.now self.now state found.old found.new }
    {
        let (tokens, actions) = actions_at(checked.stable(), state);
        for place in 0..tokens.len() {
            self.start(checked.grm(), tokens[place], actions[place], found);
        }
    }

    // No exits yet.
    fn empty<StorageT: StorageIndex>(
        alloc: Global,
        checked: &Automaton<'_, StorageT>,
    ) -> Result<Self, AllocError>
        ensures pops { IfOk result (ArePopsIn checked.now) }
        ensures places { IfOk result (HaveAllWaysIn checked.now) }
    {
        let is_goto = goto_states(alloc, checked.stable())?;
        let mut states = Vec::new(alloc);
        'states: for number in 0..checked.sgraph().states_len() {
            let state = StIdx(StorageT::from_index(number).unwrap());
            let exits = empty_exits(alloc, checked, state, is_marked(&is_goto, number))?;
            states.push(exits)?;
        }
        Ok(Pops { states })
    }
}

// No exits of the state yet; if gotos lead to it, those at the tokens at which they are kept.
fn empty_exits<StorageT: StorageIndex>(
    alloc: Global,
    checked: &Automaton<'_, StorageT>,
    state: StIdx<StorageT>,
    is_goto: bool,
) -> Result<StateExits, AllocError>
    requires state { HasItemsOf StorageT.index checked.now state }
    ensures none { IfOk result HasNoExits }
    ensures places { IfOk result (HaveWaysFor StorageT.index checked.now state is_goto) }
{
    let any = Exits::new(alloc, checked, state)?;
    let at = empty_at_tokens(alloc, checked, state, is_goto)?;
    Ok(StateExits { any, at })
}

// No exits of the state at any token yet, and no room for them unless gotos lead to it.
fn empty_at_tokens<StorageT: StorageIndex>(
    alloc: Global,
    checked: &Automaton<'_, StorageT>,
    state: StIdx<StorageT>,
    is_goto: bool,
) -> Result<Vec<Exits>, AllocError>
    requires state { HasItemsOf StorageT.index checked.now state }
    ensures none { IfOk result (λ at. HaveNoExits at.items) }
    ensures places { IfOk result (λ at. HaveWaysAtTokens StorageT.index checked.now state is_goto at.items) }
{
    let mut at = Vec::new(alloc);
    if !is_goto {
        return Ok(at);
    }
    'tokens: for number in 0..checked.stable().tokens_len() {
        let exits = empty_exits_at(alloc, checked, state, number)?;
        at.push(exits)?;
    }
    Ok(at)
}

// No exits of the state at the token with this number yet, if any are kept.
fn empty_exits_at<StorageT: StorageIndex>(
    alloc: Global,
    checked: &Automaton<'_, StorageT>,
    state: StIdx<StorageT>,
    number: usize,
) -> Result<Exits, AllocError>
    requires state { HasItemsOf StorageT.index checked.now state }
    ensures none { IfOk result HasNoExit }
    ensures places { IsKeptAt StorageT.index checked.now state number → IfOk result (AreExitsIn StorageT.index checked.now state) }
{
    if is_kept_at(checked, state, number) {
        Exits::new(alloc, checked, state)
    } else {
        Ok(Exits::none(alloc))
    }
}

// Whether the exits of the state at the token with this number are kept: it shifts the token, or reduces by a production without symbols.
fn is_kept_at<StorageT: StorageIndex>(
    checked: &Automaton<'_, StorageT>,
    state: StIdx<StorageT>,
    number: usize,
) -> bool
    ensures { IsKeptAt StorageT.index checked.now state number → IsTrue result }
{
    let (tokens, actions) = actions_at(checked.stable(), state);
    for place in 0..tokens.len() {
        if usize::from(tokens[place]) == number {
            return is_kept_by(checked.grm(), actions[place]);
        }
    }
    false
}

// Whether the action is a shift, or a reduction by a production without symbols.
fn is_kept_by<StorageT: StorageIndex>(grm: &YaccGrammar<StorageT>, action: Action<StorageT>) -> bool
    ensures { (t : ℕ) → IsRightAction grm.now t (plain_action StorageT.index action) → IsKeptBy grm.now (plain_action StorageT.index action) → IsTrue result }
{
    match action {
        Action::Shift(_) => true,
        Action::Reduce(prod) => matches!(symbols_len(grm, prod), Some(0)),
        Action::Accept | Action::Error => false,
    }
}

// For each state whether gotos lead to it.
fn goto_states<StorageT: StorageIndex>(
    alloc: Global,
    stable: &StateTable<StorageT>,
) -> Result<Vec<bool>, AllocError>
    ensures { IfOk result (λ marks. (next : ℕ) → IsGotoState stable.now next → IsMarked marks.items next) }
{
    let mut are = vec![in alloc; false; stable.states_len()]?;
    for number in 0..stable.states_len() {
        let (_, nexts) = gotos_at(stable, StIdx(StorageT::from_index(number).unwrap()));
        mark_all(&mut are, nexts);
    }
    Ok(are)
}

// Marks these states.
fn mark_all<StorageT: StorageIndex>(marks: &mut Vec<bool>, states: &[StIdx<StorageT>])
    ensures len { length marks.new.items ≡ length marks.old.items }
    ensures keeps { KeepsMarks marks.old.items marks.new.items }
    ensures all { AreMarked StorageT.index states.now (length states.now) marks.new.items }
{
    for state in states {
        set_mark(marks, usize::from(*state));
    }
}

// Whether the state, or one to which it goes, changed.
fn has_changed<StorageT: StorageIndex>(
    stable: &StateTable<StorageT>,
    changed: &[bool],
    state: StIdx<StorageT>,
) -> bool
    ensures { OnFalse result (IsUntouched stable.now changed.now (StorageT.index state.0)) }
{
    let (_, actions) = actions_at(stable, state);
    for action in actions {
        if shifts_to_marked(changed, *action) {
            return true;
        }
    }
    let (_, nexts) = gotos_at(stable, state);
    for next in nexts {
        if is_marked(changed, usize::from(*next)) {
            return true;
        }
    }
    is_marked(changed, usize::from(state))
}

// Whether the action is a shift to a state that is marked.
fn shifts_to_marked<StorageT: StorageIndex>(marks: &[bool], action: Action<StorageT>) -> bool
    ensures { OnFalse result ((next : ℕ) → plain_action StorageT.index action ≡ ShiftTo next → ¬ (IsMarked marks.now next)) }
{
    match action {
        Action::Shift(next) => is_marked(marks, usize::from(next)),
        Action::Reduce(_) | Action::Accept | Action::Error => false,
    }
}

// Whether the place is marked.
fn is_marked(marks: &[bool], place: usize) -> bool
    ensures { result ≡ slice_index_or marks.now place false }
{
    match marks.get(place) {
        Some(mark) => *mark,
        None => false,
    }
}

// Marks the place, if there is one.
fn set_mark(marks: &mut Vec<bool>, place: usize)
    ensures len { length marks.new.items ≡ length marks.old.items }
    ensures keeps { KeepsMarks marks.old.items marks.new.items }
    ensures marks { place < length marks.old.items → IsMarked marks.new.items place }
{
    if place < marks.len() {
        marks[place] = true;
    }
}
