//! Derivations that go on from an access path: by a reduction, or by a shift.
ghost use Rattle.std.specs.Prelude.{◌<◌, ◌↔◌, IfOk, IsTrue};
ghost use Rattle.lrpar_grammar.specs.Grammar.{IsWellFormed, prods_len};
ghost use Rattle.lrpar_table_first.specs.FirstRows.{rows_of};
ghost use Rattle.lrpar_table_items.specs.Canonical.{IsCanonical};
ghost use Rattle.lrpar_table_sentences.specs.Choices.{AreShortest};
ghost use Rattle.lrpar_table_sentences.specs.Reachable.{EachReachableHasTree};
ghost use Rattle.lrpar_conflict_derivations.specs.Completion.{CanComplete};
ghost use Rattle.lrpar_conflict_derivations.specs.Stored.{AreAccessPath, BeginsNext, DerivesBy, FindsCoreBefore, IsCalledFor, IsCoreBefore, IsItemWith, IsStateOf, IsToken, IsTokenOf};

use crate::completion::complete_derivation;
use lrpar_grammar::grammar::YaccGrammar;
use lrpar_grammar::span::{StIdx, StorageIndex, Symbol, TIdx};
use lrpar_grammar::token_set::TokenSet;
use lrpar_table_rows::table::{Core, StateGraph};
use lrpar_table_sentences::access_strings::Step;
use lrpar_table_sentences::moves::Move;
use lrpar_table_sentences::shortest::Shortest;
use std::alloc::{AllocError, Global};

/// The moves of a derivation that begins with the moves of trees of the path's symbols, and then goes on with the move for which an item of
/// the last state calls at the token.
pub(crate) fn derive<StorageT: StorageIndex>(
    alloc: Global,
    grm: &YaccGrammar<StorageT>,
    firsts: &[TokenSet],
    shortest: &Shortest<StorageT>,
    graph: &StateGraph<StorageT>,
    steps: &[Step<StorageT>],
    last: StIdx<StorageT>,
    front: &[Move<StorageT>],
    token: TIdx<StorageT>,
    next: Move<StorageT>,
) -> Result<Vec<Move<StorageT>>, AllocError>
    requires parts { CanComplete grm.now graph.now usize.MAX (rows_of firsts.now) shortest.now }
    requires token { IsTokenOf StorageT.index grm.now token }
    requires last { IsStateOf StorageT.index graph.now last }
    requires access_path { AreAccessPath StorageT.index grm.now graph.now steps.now last }
    requires called { IsCalledFor StorageT.index grm.now graph.now last token next }
    ensures { IfOk result (λ moves. DerivesBy StorageT.index grm.now steps.now front.now token next moves.items) }
{
    let mut moves = Vec::from_slice(alloc, front)?;
    let (item, asked) = push_next(alloc, grm, shortest, graph, last, token, next, &mut moves)?;
    complete_derivation(
        alloc, grm, firsts, shortest, graph, steps, last, item, asked, token, &mut moves,
    )?;
    Ok(moves)
}

// Appends the moves by which a derivation goes on at the token, up to the end of an item of the state: none for a reduction; for a shift it,
// and the moves of trees of the symbols after the token. Returns the item, and whether the token is its lookahead.
fn push_next<StorageT: StorageIndex>(
    alloc: Global,
    grm: &YaccGrammar<StorageT>,
    shortest: &Shortest<StorageT>,
    graph: &StateGraph<StorageT>,
    state: StIdx<StorageT>,
    token: TIdx<StorageT>,
    next: Move<StorageT>,
    out: &mut Vec<Move<StorageT>>,
) -> Result<(Core<StorageT>, bool), AllocError>
    requires shortest { AreShortest grm.now usize.MAX shortest.now }
    requires each { EachReachableHasTree grm.now }
    requires canonical { IsCanonical grm.now graph.now }
    requires state { IsStateOf StorageT.index graph.now state }
    requires called { IsCalledFor StorageT.index grm.now graph.now state token next }
    ensures item { IfOk result (IsItemWith StorageT.index graph.now state token) }
    ensures begun { IfOk result (BeginsNext StorageT.index grm.now token next out.old.items out.new.items) }
{
    // The proof needs that the grammar is well-formed.
    let _lemma = grm.start_prod();
    match next {
        Move::Make(prod) => Ok(((prod, grm.prod(prod).len()), true)),
        Move::Take(_) => {
            let core = core_before(grm, graph, state, token).unwrap();
            out.push(Move::Take(token))?;
            shortest.push_all_moves(alloc, out, grm, &grm.prod(core.0)[core.1 + 1..])?;
            Ok((core, false))
        }
    }
}

// A core of the state with the token after its dot.
fn core_before<StorageT: StorageIndex>(
    grm: &YaccGrammar<StorageT>,
    graph: &StateGraph<StorageT>,
    state: StIdx<StorageT>,
    token: TIdx<StorageT>,
) -> Option<Core<StorageT>>
    requires well_formed { IsWellFormed grm.now }
    requires canonical { IsCanonical grm.now graph.now }
    requires state { IsStateOf StorageT.index graph.now state }
    ensures { FindsCoreBefore StorageT.index grm.now graph.now state token result }
{
    for core in graph.cores(state) {
        if has_after_dot(grm, *core, token) {
            return Some(*core);
        }
    }
    None
}

// Whether the token comes after the core's dot.
fn has_after_dot<StorageT: StorageIndex>(
    grm: &YaccGrammar<StorageT>,
    core: Core<StorageT>,
    token: TIdx<StorageT>,
) -> bool
    requires { StorageT.index core.0.0 < prods_len grm.now }
    ensures { IsTrue result ↔ IsCoreBefore StorageT.index grm.now core token }
{
    let symbols = grm.prod(core.0);
    core.1 < symbols.len() && is_token(symbols[core.1], token)
}

// Whether the symbol is the token.
fn is_token<StorageT: StorageIndex>(symbol: Symbol<StorageT>, token: TIdx<StorageT>) -> bool
    ensures { IsTrue result ↔ IsToken StorageT.index symbol token }
{
    match symbol {
        Symbol::Token(own) => usize::from(own) == usize::from(token),
        Symbol::Rule(_) => false,
    }
}
