//! Whether moves are those of a tree: they are replayed over a stack of symbols.
ghost use Rattle.std.specs.Prelude.{◌≡◌, ◌<◌, IfOk, IsTrue, length};
ghost use Rattle.lrpar_grammar.specs.Grammar.{prods_len};
ghost use Rattle.lrpar_table_sentences.specs.Moves.{moves_in};
ghost use Rattle.lrpar_conflict_derivations.specs.Replay.{AreOfTree};
ghost use Rattle.lrpar_conflict_derivations.specs.Stored.{AreSameSymbols, IsAlone, IsSameSymbol, ReplaysMove, ReplaysReduction};

use lrpar_grammar::grammar::YaccGrammar;
use lrpar_grammar::span::{PIdx, StorageIndex, Symbol};
use lrpar_table_sentences::moves::Move;
use std::alloc::{AllocError, Global};

/// Whether the moves are those of a tree of the start rule. Nothing is promised of a `false`.
pub(crate) fn are_of_tree<StorageT: StorageIndex>(
    alloc: Global,
    grm: &YaccGrammar<StorageT>,
    moves: &[Move<StorageT>],
) -> Result<bool, AllocError>
    ensures { IfOk result (λ are. IsTrue are → AreOfTree grm.now (moves_in StorageT.index moves.now)) }
{
    let mut stack = Vec::new(alloc);
    for step in moves {
        if !replay(grm, *step, &mut stack)? {
            return Ok(false);
        }
    }
    let start = Symbol::Rule(grm.start_rule_idx());
    Ok(is_alone(&stack, start))
}

// Whether this symbol is the only one.
fn is_alone<StorageT: StorageIndex>(symbols: &[Symbol<StorageT>], symbol: Symbol<StorageT>) -> bool
    ensures { IsTrue result → IsAlone StorageT.index symbol symbols.now }
{
    if symbols.len() != 1 {
        return false;
    }
    is_same(symbols[0], symbol)
}

// Replays a move, if that is possible.
fn replay<StorageT: StorageIndex>(
    grm: &YaccGrammar<StorageT>,
    step: Move<StorageT>,
    stack: &mut Vec<Symbol<StorageT>>,
) -> Result<bool, AllocError>
    ensures { IfOk result (λ can. IsTrue can → ReplaysMove StorageT.index grm.now step stack.old.items stack.new.items) }
{
    match step {
        Move::Take(token) => {
            stack.push(Symbol::Token(token))?;
            Ok(true)
        }
        Move::Make(prod) => {
            if usize::from(prod) < grm.prods_len() {
                reduce(grm, prod, stack)
            } else {
                Ok(false)
            }
        }
    }
}

// Replaces the production's symbols by its rule, if they are on top.
fn reduce<StorageT: StorageIndex>(
    grm: &YaccGrammar<StorageT>,
    prod: PIdx<StorageT>,
    stack: &mut Vec<Symbol<StorageT>>,
) -> Result<bool, AllocError>
    requires { StorageT.index prod.0 < prods_len grm.now }
    ensures { IfOk result (λ can. IsTrue can → ReplaysReduction StorageT.index grm.now prod stack.old.items stack.new.items) }
{
    let symbols = grm.prod(prod);
    if stack.len() < symbols.len() {
        return Ok(false);
    }
    let from = stack.len() - symbols.len();
    if !are_same(&stack[from..], symbols) {
        return Ok(false);
    }
    stack.truncate(from);
    stack.push(Symbol::Rule(grm.prod_to_rule(prod)))?;
    Ok(true)
}

// Whether the symbols, the same number of them, are the same.
fn are_same<StorageT: StorageIndex>(one: &[Symbol<StorageT>], other: &[Symbol<StorageT>]) -> bool
    requires { length one.now ≡ length other.now }
    ensures { IsTrue result → AreSameSymbols StorageT.index one.now other.now }
{
    for place in 0..one.len() {
        if !is_same(one[place], other[place]) {
            return false;
        }
    }
    true
}

// Whether the symbols are the same.
fn is_same<StorageT: StorageIndex>(one: Symbol<StorageT>, other: Symbol<StorageT>) -> bool
    ensures { IsTrue result → IsSameSymbol StorageT.index one other }
{
    match one {
        Symbol::Token(own) => match other {
            Symbol::Token(token) => usize::from(own) == usize::from(token),
            Symbol::Rule(_) => false,
        },
        Symbol::Rule(own) => match other {
            Symbol::Token(_) => false,
            Symbol::Rule(rule) => usize::from(own) == usize::from(rule),
        },
    }
}
