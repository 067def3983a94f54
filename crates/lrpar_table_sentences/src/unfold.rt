//! The moves of the trees that are kept of rules, without recursion.
ghost use Rattle.std.specs.Prelude.{◌<◌, ◌≤◌, IfOk, IfSome, OnOk, vec_len};
ghost use Rattle.lrpar_table_sentences.specs.Frames.{AppendsFrames, AppendsTree, AppendsTrees, AreFramesOf, BeginsSymbol, IsAfterDot, IsFrameOf, OneIsNew, StayFrames};
ghost use Rattle.lrpar_table_sentences.specs.Choices.{RightSoFar};

use crate::minimal_sentences::{Choice, choice_of};
use crate::moves::Move;
use lrpar_grammar::grammar::YaccGrammar;
use lrpar_grammar::span::{PIdx, StorageIndex, Symbol};
use std::alloc::{AllocError, Global};

/// A production in the midst of its symbols: `dot` of them are done.
#[derive(Clone, Copy, Debug, PartialEq, Eq)]
pub(crate) struct Frame<StorageT> {
    pub(crate) prod: PIdx<StorageT>,
    pub(crate) dot: usize,
}

/// Appends the moves of the trees of symbols that follow the choices.
pub(crate) fn push_symbols<StorageT: StorageIndex>(
    alloc: Global,
    grm: &YaccGrammar<StorageT>,
    choices: &[Option<Choice<StorageT>>],
    out: &mut Vec<Move<StorageT>>,
    symbols: &[Symbol<StorageT>],
) -> Result<(), AllocError>
    requires { RightSoFar StorageT.index grm.now choices.now }
    ensures { OnOk result (AppendsTrees StorageT.index grm.now choices.now symbols.now out.old out.new) }
{
    for symbol in symbols {
        push_symbol(alloc, grm, choices, out, *symbol)?;
    }
    Ok(())
}

/// Appends the moves of the tree of the symbol that follows the choices.
pub(crate) fn push_symbol<StorageT: StorageIndex>(
    alloc: Global,
    grm: &YaccGrammar<StorageT>,
    choices: &[Option<Choice<StorageT>>],
    out: &mut Vec<Move<StorageT>>,
    symbol: Symbol<StorageT>,
) -> Result<(), AllocError>
    requires { RightSoFar StorageT.index grm.now choices.now }
    ensures { OnOk result (AppendsTree StorageT.index grm.now choices.now symbol out.old out.new) }
{
    let mut frames = Vec::new(alloc);
    let _derives = push_begun(choices, &mut frames, out, symbol)?;
    unfold(grm, choices, &mut frames, out)
}

/// Appends the moves of the frames; the last frame is the innermost.
pub(crate) fn unfold<StorageT: StorageIndex>(
    grm: &YaccGrammar<StorageT>,
    choices: &[Option<Choice<StorageT>>],
    frames: &mut Vec<Frame<StorageT>>,
    out: &mut Vec<Move<StorageT>>,
) -> Result<(), AllocError>
    requires right { RightSoFar StorageT.index grm.now choices.now }
    requires frames { AreFramesOf StorageT.index grm.now frames.old }
    ensures { OnOk result (AppendsFrames StorageT.index grm.now choices.now frames.old out.old out.new) }
{
    'frames: while let Some(frame) = frames.pop() {
        match symbol_at(grm, frame) {
            None => out.push(Move::Make(frame.prod))?,
            Some(symbol) => {
                frames.push(Frame {
                    prod: frame.prod,
                    dot: frame.dot + 1,
                })?;
                if !push_begun(choices, frames, out, symbol)? {
                    return Ok(());
                }
            }
        }
    }
    Ok(())
}

// The symbol after the frame's dot, if there is one.
fn symbol_at<StorageT: StorageIndex>(
    grm: &YaccGrammar<StorageT>,
    frame: Frame<StorageT>,
) -> Option<Symbol<StorageT>>
    requires { IsFrameOf StorageT.index grm.now frame }
    ensures symbol { IsAfterDot StorageT.index grm.now frame result }
    ensures room { IfSome result (λ _. frame.dot < usize.MAX) }
{
    match grm.prod(frame.prod).get(frame.dot) {
        Some(symbol) => Some(*symbol),
        None => None,
    }
}

// Takes the symbol if it is a token, and begins the production that is kept of it if it is a rule. Returns whether the symbol has
// a tree.
fn push_begun<StorageT: StorageIndex>(
    choices: &[Option<Choice<StorageT>>],
    frames: &mut Vec<Frame<StorageT>>,
    out: &mut Vec<Move<StorageT>>,
    symbol: Symbol<StorageT>,
) -> Result<bool, AllocError>
    ensures more { IfOk result (OneIsNew frames.old frames.new out.old out.new) }
    ensures out { vec_len out.old ≤ vec_len out.new }
    ensures frames { vec_len frames.old ≤ vec_len frames.new }
    ensures known { StayFrames StorageT.index choices.now frames.old frames.new }
    ensures unfolds { IfOk result (BeginsSymbol StorageT.index choices.now symbol frames.old frames.new out.old out.new) }
{
    match symbol {
        Symbol::Token(token) => {
            out.push(Move::Take(token))?;
            Ok(true)
        }
        Symbol::Rule(rule) => match choice_of(choices, rule) {
            Some(choice) => {
                frames.push(Frame {
                    prod: choice.prod,
                    dot: 0,
                })?;
                Ok(true)
            }
            None => Ok(false),
        },
    }
}
