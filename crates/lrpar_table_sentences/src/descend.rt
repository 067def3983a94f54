//! The moves of trees that begin with a token.
ghost use Rattle.std.specs.Prelude.{◌<◌, IfSome, IsSome, OnOk, length};
ghost use Rattle.lrpar_table_sentences.specs.Appended.{AppendsTreesWith, CanStartWith};
ghost use Rattle.lrpar_table_sentences.specs.Choices.{AreShortestKept};
ghost use Rattle.lrpar_table_sentences.specs.Frames.{AreFramesOf};
ghost use Rattle.lrpar_table_sentences.specs.Starts.{AppendsStart, AppendsStarts, ArePartsAt, AreRightStarts, DescendsTo};

use crate::begins::{Start, position_of, start_of, starts};
use crate::minimal_sentences::Choice;
use crate::moves::Move;
use crate::unfold::{Frame, push_symbols, unfold};
use lrpar_grammar::grammar::YaccGrammar;
use lrpar_grammar::span::{StorageIndex, Symbol, TIdx};
use std::alloc::{AllocError, Global};

/// Appends the moves of trees of the symbols, one each, whose first token is `first`. There have to be such trees.
pub(crate) fn push_beginning<StorageT: StorageIndex>(
    alloc: Global,
    grm: &YaccGrammar<StorageT>,
    choices: &[Option<Choice<StorageT>>],
    out: &mut Vec<Move<StorageT>>,
    symbols: &[Symbol<StorageT>],
    first: TIdx<StorageT>,
) -> Result<(), AllocError>
    requires rules { AreShortestKept StorageT.index grm.now choices.now }
    requires some { CanStartWith StorageT.index grm.now symbols.now first }
    ensures { OnOk result (AppendsTreesWith StorageT.index grm.now symbols.now first out.old out.new) }
{
    let starts = starts(alloc, grm, choices, first)?;
    push_by(alloc, grm, choices, &starts, out, symbols, first)
}

// Appends the moves, by how each rule can begin.
fn push_by<StorageT: StorageIndex>(
    alloc: Global,
    grm: &YaccGrammar<StorageT>,
    choices: &[Option<Choice<StorageT>>],
    starts: &[Option<Start<StorageT>>],
    out: &mut Vec<Move<StorageT>>,
    symbols: &[Symbol<StorageT>],
    first: TIdx<StorageT>,
) -> Result<(), AllocError>
    requires { AreRightStarts StorageT.index grm.now choices.now first starts.now }
    ensures { OnOk result (AppendsStarts StorageT.index grm.now choices.now starts.now first symbols.now out.old out.new) }
{
    let Some(place) = position_of(choices, starts, symbols, first) else {
        return Ok(());
    };
    let Some((before, symbol, after)) = around(symbols, place) else {
        return Ok(());
    };
    push_symbols(alloc, grm, choices, out, before)?;
    push_start(alloc, grm, choices, starts, out, symbol, first)?;
    push_symbols(alloc, grm, choices, out, after)
}

// Appends the moves of a tree of the symbol that begins with the token.
fn push_start<StorageT: StorageIndex>(
    alloc: Global,
    grm: &YaccGrammar<StorageT>,
    choices: &[Option<Choice<StorageT>>],
    starts: &[Option<Start<StorageT>>],
    out: &mut Vec<Move<StorageT>>,
    symbol: Symbol<StorageT>,
    first: TIdx<StorageT>,
) -> Result<(), AllocError>
    requires { AreRightStarts StorageT.index grm.now choices.now first starts.now }
    ensures { OnOk result (AppendsStart StorageT.index grm.now choices.now starts.now first symbol out.old out.new) }
{
    let mut frames = Vec::new(alloc);
    descend(alloc, grm, choices, starts, &mut frames, out, symbol, first)?;
    unfold(grm, choices, &mut frames, out)
}

// Appends the moves of a tree of the symbol that begins with the token, up to the token, and puts what is left of the tree into
// the frames.
fn descend<StorageT: StorageIndex>(
    alloc: Global,
    grm: &YaccGrammar<StorageT>,
    choices: &[Option<Choice<StorageT>>],
    starts: &[Option<Start<StorageT>>],
    frames: &mut Vec<Frame<StorageT>>,
    out: &mut Vec<Move<StorageT>>,
    symbol: Symbol<StorageT>,
    first: TIdx<StorageT>,
) -> Result<(), AllocError>
    requires kept { AreRightStarts StorageT.index grm.now choices.now first starts.now }
    requires frames { AreFramesOf StorageT.index grm.now frames.old }
    ensures frames { OnOk result (AreFramesOf StorageT.index grm.now frames.new) }
    ensures descends { OnOk result (DescendsTo StorageT.index grm.now choices.now starts.now first symbol frames.old frames.new out.old out.new) }
{
    let mut symbol = symbol;
    'down: while let Some(start) = start_of(starts, symbol) {
        let Some((before, next, _)) = around(grm.prod(start.prod), start.place) else {
            return Ok(());
        };
        push_symbols(alloc, grm, choices, out, before)?;
        frames.push(Frame {
            prod: start.prod,
            dot: start.place + 1,
        })?;
        symbol = next;
    }
    out.push(Move::Take(first))?;
    Ok(())
}

// The symbols before the place, the symbol there, and those after it, if the place is one of the symbols.
fn around<'a, StorageT: StorageIndex>(
    symbols: &'a [Symbol<StorageT>],
    place: usize,
) -> Option<
    (
        &'a [Symbol<StorageT>],
        Symbol<StorageT>,
        &'a [Symbol<StorageT>],
    ),
>
    ensures some { place < length symbols.now → IsSome result }
    ensures parts { IfSome result (ArePartsAt place symbols.now) }
    ensures room { IfSome result (λ _. place < usize.MAX) }
{
    if place >= symbols.len() {
        return None;
    }
    let (before, rest) = symbols.split_at(place);
    match rest.split_first() {
        Some((symbol, after)) => Some((before, *symbol, after)),
        None => None,
    }
}
