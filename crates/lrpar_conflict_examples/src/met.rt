//! The states that a parse can meet if precedences resolve conflicts.
ghost use Rattle.std.specs.Prelude.{◌≡◌, ◌<◌, IfOk, OnOk, length};
ghost use Rattle.std.specs.Bool.{OnFalse, OnTrue};
ghost use Rattle.lrpar_table_first.specs.FirstRows.{rows_of};
ghost use Rattle.lrpar_table_rows.specs.Table.{states_len};
ghost use Rattle.lrpar_table_sentences.specs.AccessLens.{IsStoredAt};
ghost use Rattle.lrpar_conflict_examples.specs.Met.{AddsLostShifts, AddsToken, AppendsShift, AppendsSteps, AreClosed, AreEmpty, AreWithin, HasRoomOf, HasSets, HasSteps, HaveRoom, IsWithin, KeepsMarks, MarksMet, MarksMore, MarksStart, MarksStep, StepKeepsMarks, HasLostShifts, loses_shift};

use lrpar_grammar::span::{PIdx, StIdx, StorageIndex, TIdx};
use lrpar_grammar::token_set::TokenSet;
use lrpar_table_precedence::precedences::{Precedences, Resolution};
use lrpar_table_rows::table::{Action, StateTable};
use std::alloc::{AllocError, Global};

// For each state whether a parse can meet it.
pub(crate) fn met_states<StorageT: StorageIndex>(
    alloc: Global,
    precedences: &Precedences,
    stable: &StateTable<StorageT>,
) -> Result<Vec<bool>, AllocError>
    ensures { IfOk result (MarksMet precedences.now stable.now) }
{
    let edges = steps(alloc, precedences, stable)?;
    let mut marks = start_marked(alloc, stable)?;
    'passes: while mark_all(&edges, &mut marks) {}
    Ok(marks)
}

// The mark of the start alone.
fn start_marked<StorageT: StorageIndex>(
    alloc: Global,
    stable: &StateTable<StorageT>,
) -> Result<Vec<bool>, AllocError>
    ensures { IfOk result (MarksStart stable.now) }
{
    let mut marks = vec![in alloc; false; stable.states_len()]?;
    marks[usize::from(stable.start_state())] = true;
    Ok(marks)
}

// Marks what steps from marked states lead to, and returns whether any was new.
fn mark_all(edges: &[(usize, usize)], marks: &mut [bool]) -> bool
    requires within { AreWithin (length marks.old) edges.now }
    ensures marks { KeepsMarks edges.now marks.old marks.new }
    ensures len { length marks.new ≡ length marks.old }
    ensures grown { OnTrue result (MarksMore marks.old marks.new) }
    ensures closed { OnFalse result (AreClosed edges.now marks.new) }
{
    let mut grown = false;
    for edge in edges {
        let (from, next) = *edge;
        if mark_next(marks, from, next) {
            grown = true;
        }
    }
    grown
}

// Marks the next state, if the one that a step comes from is marked, and returns whether it was new.
fn mark_next(marks: &mut [bool], from: usize, next: usize) -> bool
    requires { IsWithin (length marks.old) (from, next) }
    ensures marks { StepKeepsMarks from next marks.old marks.new }
    ensures len { length marks.new ≡ length marks.old }
    ensures grown { OnTrue result (MarksMore marks.old marks.new) }
    ensures same { OnFalse result (marks.new ≡ marks.old) }
    ensures closed { OnFalse result (MarksStep from next marks.new) }
{
    if !marks[from] || marks[next] {
        return false;
    }
    marks[next] = true;
    true
}

// The steps of the table: from which state to which.
fn steps<StorageT: StorageIndex>(
    alloc: Global,
    precedences: &Precedences,
    stable: &StateTable<StorageT>,
) -> Result<Vec<(usize, usize)>, AllocError>
    ensures { IfOk result (HasSteps precedences.now stable.now) }
{
    // The proof needs that there are no actions past the table's tokens.
    let _lemma = stable.tokens_len();
    let taken = removed_shifts(alloc, precedences, stable)?;
    let mut edges = Vec::new(alloc);
    for state in 0..stable.states_len() {
        let s = StIdx(StorageT::from_index(state).unwrap());
        push_steps(&mut edges, stable, s, &taken[state])?;
    }
    Ok(edges)
}

// Appends the state's steps.
fn push_steps<StorageT: StorageIndex>(
    edges: &mut Vec<(usize, usize)>,
    stable: &StateTable<StorageT>,
    s: StIdx<StorageT>,
    taken: &TokenSet,
) -> Result<(), AllocError>
    requires { StorageT.index s.0 < states_len stable.now }
    ensures edges { OnOk result (AppendsSteps StorageT.index taken.now stable.now s edges.old edges.new) }
    ensures stored { OnOk result (IsStoredAt stable.now (StorageT.index s.0)) }
{
    let (tokens, actions) = stable.actions_of(s);
    'shifts: for (place, token) in tokens.iter().enumerate() {
        push_shift(
            edges,
            usize::from(s),
            usize::from(*token),
            actions[place],
            taken,
        )?;
    }
    let (rules, states) = stable.gotos_of(s);
    'gotos: for (place, _) in rules.iter().enumerate() {
        edges.push((usize::from(s), usize::from(states[place])))?;
    }
    Ok(())
}

// Appends the step by an action at a token, if it is a shift that isn't taken away.
fn push_shift<StorageT: StorageIndex>(
    edges: &mut Vec<(usize, usize)>,
    state: usize,
    token: usize,
    action: Action<StorageT>,
    taken: &TokenSet,
) -> Result<(), AllocError>
    ensures { OnOk result (AppendsShift StorageT.index taken.now state token action edges.old edges.new) }
{
    match action {
        Action::Shift(next) => {
            if !taken.contains(token) {
                edges.push((state, usize::from(next)))?;
            }
            Ok(())
        }
        Action::Reduce(_) | Action::Accept | Action::Error => Ok(()),
    }
}

// For each state the tokens whose shift precedences take away.
fn removed_shifts<StorageT: StorageIndex>(
    alloc: Global,
    precedences: &Precedences,
    stable: &StateTable<StorageT>,
) -> Result<Vec<TokenSet>, AllocError>
    ensures { IfOk result (HasLostShifts precedences.now stable.now) }
{
    let mut sets = empty_sets(alloc, stable.states_len(), stable.tokens_len())?;
    let Some(conflicts) = stable.conflicts() else {
        return Ok(sets);
    };
    remove_shifts(&mut sets, precedences, conflicts.sr_conflicts());
    Ok(sets)
}

// So many empty sets, each with room for this number of tokens.
fn empty_sets(alloc: Global, len: usize, tokens: usize) -> Result<Vec<TokenSet>, AllocError>
    ensures len { IfOk result (HasSets len) }
    ensures wide { IfOk result (HaveRoom tokens) }
    ensures none { IfOk result AreEmpty }
{
    let mut sets = Vec::with_capacity(alloc, len)?;
    for _ in 0..len {
        sets.push(TokenSet::new(alloc, tokens)?)?;
    }
    Ok(sets)
}

// Adds the tokens of the conflicts whose shift precedences take away.
fn remove_shifts<StorageT: StorageIndex>(
    sets: &mut [TokenSet],
    precedences: &Precedences,
    conflicts: &[(TIdx<StorageT>, PIdx<StorageT>, StIdx<StorageT>)],
)
    ensures room { HasRoomOf (rows_of sets.old) (rows_of sets.new) }
    ensures exact { AddsLostShifts StorageT.index precedences.now conflicts.now sets.old sets.new }
{
    for conflict in conflicts {
        let (token, prod, state) = *conflict;
        if loses_shift(precedences.resolution(prod, token)) {
            remove_shift(sets, usize::from(state), usize::from(token));
        }
    }
}

// Adds the token to the set of the state, if both are within range.
fn remove_shift(sets: &mut [TokenSet], state: usize, token: usize)
    ensures room { HasRoomOf (rows_of sets.old) (rows_of sets.new) }
    ensures exact { AddsToken state token sets.old sets.new }
{
    if state >= sets.len() {
        return;
    }
    if token >= sets[state].len() {
        return;
    }
    sets[state].insert(token);
}

// Whether the shift isn't made if a conflict is resolved so.
fn loses_shift(resolution: Option<Resolution>) -> bool
    ensures { result ≡ loses_shift resolution }
{
    match resolution {
        None | Some(Resolution::Shift) => false,
        Some(Resolution::Reduce | Resolution::Error) => true,
    }
}
