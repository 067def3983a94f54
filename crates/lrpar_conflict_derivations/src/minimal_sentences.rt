//! Minimal sentences of symbols that may derive none.
ghost use Rattle.std.specs.Prelude.{IfOk, IsTrue};
ghost use Rattle.lrpar_table_sentences.specs.Choices.{AreShortest};
ghost use Rattle.lrpar_conflict_derivations.specs.Stored.{AppendsTrees};

use lrpar_grammar::grammar::YaccGrammar;
use lrpar_grammar::span::{StorageIndex, Symbol};
use lrpar_table_sentences::moves::Move;
use lrpar_table_sentences::shortest::Shortest;
use std::alloc::{AllocError, Global};

/// Appends the moves of minimal sentences' trees of the symbols, if each derives some text; whether that is so.
pub(crate) fn push_sentences<StorageT: StorageIndex>(
    alloc: Global,
    grm: &YaccGrammar<StorageT>,
    shortest: &Shortest<StorageT>,
    symbols: &[Symbol<StorageT>],
    out: &mut Vec<Move<StorageT>>,
) -> Result<bool, AllocError>
    requires shortest { AreShortest grm.now usize.MAX shortest.now }
    ensures { IfOk result (λ done. IsTrue done → AppendsTrees StorageT.index grm.now symbols.now out.old.items out.new.items) }
{
    match shortest.len_of_all(symbols) {
        None => Ok(false),
        Some(_) => {
            shortest.push_all_moves(alloc, out, grm, symbols)?;
            Ok(true)
        }
    }
}

/// Appends the moves of a minimal sentence's tree of the symbol, if it derives some text.
pub(crate) fn push_sentence<StorageT: StorageIndex>(
    alloc: Global,
    grm: &YaccGrammar<StorageT>,
    shortest: &Shortest<StorageT>,
    symbol: Symbol<StorageT>,
    out: &mut Vec<Move<StorageT>>,
) -> Result<(), AllocError>
    requires shortest { AreShortest grm.now usize.MAX shortest.now }
{
    match shortest.len_of(symbol) {
        None => Ok(()),
        Some(_) => shortest.push_moves(alloc, out, grm, symbol),
    }
}
