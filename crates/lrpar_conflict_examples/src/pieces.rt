//! The text of a tree that is given by its moves. They are read from the last one back: so each node comes before its trees, and the last
//! of these first. The text's pieces come from right to left, and nothing recurses, however deep the tree is.
ghost use Rattle.std.specs.Prelude.{◌<◌, IfOk, OnOk};
ghost use Rattle.lrpar_grammar.specs.Grammar.{prods_len};
ghost use Rattle.lrpar_table_sentences.specs.Moves.{move_of};
ghost use Rattle.lrpar_conflict_examples.specs.Fits.{HaveTree, IsMoveOf};
ghost use Rattle.lrpar_conflict_examples.specs.Pieces.{AddsTrees, AreTextOfMoves, MeetsMove, PieceFits, PiecesFit, piece_text};
ghost use Rattle.lrpar_conflict_examples.specs.Texts.{AddsTree};
ghost use Rattle.lrpar_grammar_places.specs.Strings.{Appends};
ghost use Rattle.lrpar_conflict_examples.specs.Words.{front_text};

use crate::words::push_word;
use lrpar_grammar::grammar::YaccGrammar;
use lrpar_grammar::span::{PIdx, StorageIndex, TIdx};
use lrpar_table_sentences::moves::Move;
use std::alloc::{AllocError, Global};

/// A piece of a tree's text.
#[derive(Clone, Copy)]
pub(crate) enum Piece<StorageT> {
    /// A token.
    Word(TIdx<StorageT>),
    /// The front of a node, up to its trees.
    Front(PIdx<StorageT>),
    /// The end of a node, after its trees.
    End,
}

/// What is still to be written.
#[derive(Clone, Copy)]
pub(crate) enum Waiting<StorageT> {
    /// A tree.
    Tree,
    /// The front of a node, up to its trees.
    Before(PIdx<StorageT>),
}

/// Adds the text of the tree that has these moves.
pub(crate) fn push_tree<StorageT: StorageIndex>(
    out: &mut String,
    alloc: Global,
    grm: &YaccGrammar<StorageT>,
    moves: &[Move<StorageT>],
) -> Result<(), AllocError>
    requires { HaveTree StorageT.index grm.now moves.now }
    ensures { OnOk result (AddsTree StorageT.index grm.now moves.now out.old out.new) }
{
    let mut pieces = pieces_of(alloc, grm, moves)?;
    while let Some(piece) = pieces.pop() {
        push_piece(out, grm, piece)?;
    }
    Ok(())
}

// The pieces of the text of the tree that has these moves, from right to left.
fn pieces_of<StorageT: StorageIndex>(
    alloc: Global,
    grm: &YaccGrammar<StorageT>,
    moves: &[Move<StorageT>],
) -> Result<Vec<Piece<StorageT>>, AllocError>
    requires { HaveTree StorageT.index grm.now moves.now }
    ensures fit { IfOk result (PiecesFit StorageT.index grm.now) }
    ensures text { IfOk result (AreTextOfMoves StorageT.index grm.now moves.now) }
{
    // The proof needs that the grammar is well-formed.
    let _lemma = grm.start_prod();
    let mut pieces = Vec::new(alloc);
    let mut waiting = Vec::new(alloc);
    waiting.push(Waiting::Tree)?;
    let mut left = moves.len();
    'nodes: while let Some(next) = waiting.pop() {
        match next {
            Waiting::Before(prod) => pieces.push(Piece::Front(prod))?,
            Waiting::Tree => {
                left -= 1;
                meet(grm, moves[left], &mut pieces, &mut waiting)?;
            }
        }
    }
    Ok(pieces)
}

// Takes up the tree that ends by this move: a token is all of it; of a node, its end comes first, then its trees wait, and before them its
// front.
fn meet<StorageT: StorageIndex>(
    grm: &YaccGrammar<StorageT>,
    step: Move<StorageT>,
    pieces: &mut Vec<Piece<StorageT>>,
    waiting: &mut Vec<Waiting<StorageT>>,
) -> Result<(), AllocError>
    requires { IsMoveOf grm.now (move_of StorageT.index step) }
    ensures { OnOk result (MeetsMove StorageT.index grm.now step pieces.old pieces.new waiting.old waiting.new) }
{
    match step {
        Move::Take(token) => Ok(pieces.push(Piece::Word(token))?),
        Move::Make(prod) => {
            pieces.push(Piece::End)?;
            waiting.push(Waiting::Before(prod))?;
            push_trees(waiting, grm.prod(prod).len())
        }
    }
}

// Adds this number of trees.
fn push_trees<StorageT: StorageIndex>(
    waiting: &mut Vec<Waiting<StorageT>>,
    count: usize,
) -> Result<(), AllocError>
    ensures { OnOk result (AddsTrees count waiting.old waiting.new) }
{
    for _i in 0..count {
        waiting.push(Waiting::Tree)?;
    }
    Ok(())
}

// Adds a piece.
fn push_piece<StorageT: StorageIndex>(
    out: &mut String,
    grm: &YaccGrammar<StorageT>,
    piece: Piece<StorageT>,
) -> Result<(), AllocError>
    requires { PieceFits StorageT.index grm.now piece }
    ensures { OnOk result (Appends out.old out.new (piece_text StorageT.index grm.now piece)) }
{
    match piece {
        Piece::Word(token) => push_word(out, grm, token),
        Piece::Front(prod) => push_front(out, grm, prod),
        Piece::End => out.push_str(" ]"),
    }
}

// Adds the front of a node, up to its trees.
fn push_front<StorageT: StorageIndex>(
    out: &mut String,
    grm: &YaccGrammar<StorageT>,
    prod: PIdx<StorageT>,
) -> Result<(), AllocError>
    requires { StorageT.index prod.0 < prods_len grm.now }
    ensures { OnOk result (Appends out.old out.new (front_text grm.now (StorageT.index prod.0))) }
{
    let name = grm.rule_name_str(grm.prod_to_rule(prod));
    write!(out, " {name}[")
}
