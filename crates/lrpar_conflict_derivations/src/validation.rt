//! Whether the result of the search is a unifying counterexample.
ghost use Rattle.std.specs.Prelude.{IfOk, IsTrue};
ghost use Rattle.lrpar_conflict_derivations.specs.Search.{IfUnifying};
ghost use Rattle.lrpar_conflict_derivations.specs.Stored.{AreJoined, AreSymbolsOf, BeginBy, FindsDerivation, FindsExample, FindsExampleAfter, FindsMovesTo, HasSentences, HasTwoMoves, IsBuiltIn, IsConflictIn, IsFrontIn, IsSameMove, LeadFromStart, ShiftFirst};

use crate::configurations::Conflict;
use crate::context::{Context, next_by};
use crate::example::{Example, have_as_many};
use crate::examples::Front;
use crate::minimal_sentences::push_sentences;
use crate::replay::are_of_tree;
use crate::unifying::Unifying;
use lrpar_grammar::grammar::YaccGrammar;
use lrpar_grammar::span::{StIdx, StorageIndex, Symbol, TIdx};
use lrpar_table_rows::table::StateTable;
use lrpar_table_sentences::access_strings::Step;
use lrpar_table_sentences::moves::Move;
use std::alloc::{AllocError, Global};

/// The counterexample of an access path and two derivations that were found, if the path leads to the conflict's state, and the derivations
/// begin with its moves, shift its token next, are those of trees, and have one text. `front` is that of a shortest access path.
pub(crate) fn validated<StorageT: StorageIndex>(
    alloc: Global,
    context: &Context<'_, StorageT>,
    front: &Front<StorageT>,
    conflict: &Conflict<StorageT>,
    text: &Unifying<StorageT>,
    bound: usize,
) -> Result<Option<Example<StorageT>>, AllocError>
    requires built { IsBuiltIn context.now }
    requires shortest { HasSentences usize.MAX context.now }
    requires conflict { IsConflictIn StorageT.index context.now conflict.now }
    requires front { IsFrontIn StorageT.index context.now conflict.now front.now }
    ensures example { IfOk result (FindsExample StorageT.index context.now conflict.now bound) }
    ensures unifying { IfOk result IfUnifying }
{
    match path_moves(alloc, context, &text.steps, conflict.state)? {
        None => Ok(None),
        Some(moves) => example_of(
            alloc,
            context.grm,
            &moves,
            &front.moves,
            conflict,
            text,
            bound,
        ),
    }
}

// The moves of minimal sentences' trees of the steps' symbols, if the steps lead to the state.
fn path_moves<StorageT: StorageIndex>(
    alloc: Global,
    context: &Context<'_, StorageT>,
    steps: &[Step<StorageT>],
    state: StIdx<StorageT>,
) -> Result<Option<Vec<Move<StorageT>>>, AllocError>
    requires built { IsBuiltIn context.now }
    requires shortest { HasSentences usize.MAX context.now }
    ensures { IfOk result (FindsMovesTo StorageT.index context.now state steps.now) }
{
    // The proof needs that the grammar is well-formed and that the table is closed.
    let _lemma = context.grm.start_prod();
    let _lemma = context.table.states_len();
    if !lead(context.table, steps, state) {
        return Ok(None);
    }
    let symbols = symbols_of(alloc, steps)?;
    let mut moves = Vec::new(alloc);
    if !push_sentences(alloc, context.grm, context.shortest, &symbols, &mut moves)? {
        return Ok(None);
    }
    Ok(Some(moves))
}

// Whether the steps lead from the table's start to the state.
fn lead<StorageT: StorageIndex>(
    table: &StateTable<StorageT>,
    steps: &[Step<StorageT>],
    last: StIdx<StorageT>,
) -> bool
    ensures { IsTrue result → LeadFromStart StorageT.index table.now steps.now last }
{
    let mut state = table.start_state();
    let mut rest = steps;
    while let Some((step, others)) = rest.split_first() {
        if usize::from(step.from) != usize::from(state) {
            return false;
        }
        let Some(next) = next_by(table, state, step.symbol) else {
            return false;
        };
        state = next;
        rest = others;
    }
    usize::from(state) == usize::from(last)
}

// The counterexample of two derivations that continue these first moves, if they begin with the conflict's moves, shift its token next, are
// those of trees, and have one text.
fn example_of<StorageT: StorageIndex>(
    alloc: Global,
    grm: &YaccGrammar<StorageT>,
    front: &[Move<StorageT>],
    short: &[Move<StorageT>],
    conflict: &Conflict<StorageT>,
    text: &Unifying<StorageT>,
    bound: usize,
) -> Result<Option<Example<StorageT>>, AllocError>
    requires { HasTwoMoves StorageT.index conflict.now }
    ensures example { IfOk result (FindsExampleAfter StorageT.index grm.now conflict.now front.now short.now bound) }
    ensures unifying { IfOk result IfUnifying }
{
    let shortest = have_as_many(alloc, front, short)?;
    let (token, moves) = (conflict.token, text.first.as_slice());
    let Some(first) = derivation_of(alloc, grm, front, moves, conflict.one, token)? else {
        return Ok(None);
    };
    let moves = text.second.as_slice();
    let Some(second) = derivation_of(alloc, grm, front, moves, conflict.other, token)? else {
        return Ok(None);
    };
    let example = Example::new(alloc, front, first, second, shortest, bound)?;
    if !example.is_ambiguous() {
        return Ok(None);
    }
    Ok(Some(example))
}

// The first moves and these after them, if these begin with this one and shift the token first, and all are those of a tree.
fn derivation_of<StorageT: StorageIndex>(
    alloc: Global,
    grm: &YaccGrammar<StorageT>,
    front: &[Move<StorageT>],
    moves: &[Move<StorageT>],
    next: Move<StorageT>,
    token: TIdx<StorageT>,
) -> Result<Option<Vec<Move<StorageT>>>, AllocError>
    ensures { IfOk result (FindsDerivation StorageT.index grm.now front.now token next) }
{
    if !begins_by(moves, next) || !shifts_first(moves, token) {
        return Ok(None);
    }
    let all = joined(alloc, front, moves)?;
    if !are_of_tree(alloc, grm, &all)? {
        return Ok(None);
    }
    Ok(Some(all))
}

// Whether the moves begin with this one.
fn begins_by<StorageT: StorageIndex>(moves: &[Move<StorageT>], next: Move<StorageT>) -> bool
    ensures { IsTrue result → BeginBy StorageT.index next moves.now }
{
    if moves.is_empty() {
        return false;
    }
    is_same(moves[0], next)
}

// Whether the token is the first that the moves shift.
fn shifts_first<StorageT: StorageIndex>(moves: &[Move<StorageT>], token: TIdx<StorageT>) -> bool
    ensures { IsTrue result → ShiftFirst StorageT.index token moves.now }
{
    for step in moves {
        match *step {
            Move::Take(first) => return usize::from(first) == usize::from(token),
            Move::Make(_) => {}
        }
    }
    false
}

// Whether the moves are the same.
fn is_same<StorageT: StorageIndex>(one: Move<StorageT>, other: Move<StorageT>) -> bool
    ensures { IsTrue result → IsSameMove StorageT.index one other }
{
    match one {
        Move::Take(own) => match other {
            Move::Take(token) => usize::from(own) == usize::from(token),
            Move::Make(_) => false,
        },
        Move::Make(own) => match other {
            Move::Take(_) => false,
            Move::Make(prod) => usize::from(own) == usize::from(prod),
        },
    }
}

// One list of moves after the other.
fn joined<StorageT: StorageIndex>(
    alloc: Global,
    front: &[Move<StorageT>],
    moves: &[Move<StorageT>],
) -> Result<Vec<Move<StorageT>>, AllocError>
    ensures { IfOk result (AreJoined StorageT.index front.now moves.now) }
{
    let mut all = Vec::from_slice(alloc, front)?;
    all.extend_from_slice(moves)?;
    Ok(all)
}

/// The symbols of the steps.
pub(crate) fn symbols_of<StorageT: StorageIndex>(
    alloc: Global,
    steps: &[Step<StorageT>],
) -> Result<Vec<Symbol<StorageT>>, AllocError>
    ensures { IfOk result (AreSymbolsOf StorageT.index steps.now) }
{
    let mut symbols = Vec::with_capacity(alloc, steps.len())?;
    for step in steps {
        symbols.push(step.symbol)?;
    }
    Ok(symbols)
}
