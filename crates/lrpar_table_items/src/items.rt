//! The LR(1) items of cores, as rows of lookaheads.
ghost use Rattle.std.specs.Prelude.{◌≡◌, ◌<◌, ◌↔◌, IfOk, IsTrue, length};
ghost use Rattle.lrpar_grammar.specs.Grammar.{tokens_len};
ghost use Rattle.lrpar_table_items.specs.CompleteItems.{AreRowsOf};
ghost use Rattle.lrpar_table_items.specs.StoredCores.{HaveSameTokens};
ghost use Rattle.lrpar_table_items.specs.StoredRows.{AreItemsOf, AreLookaheadsAt, AreLookaheadsOf};

use crate::cores::CoreItems;
use lrpar_grammar::grammar::YaccGrammar;
use lrpar_grammar::span::{StorageIndex, TIdx};
use lrpar_table_rows::table::CoreRow;
use std::alloc::{AllocError, Global};

/// The items of the cores: core by core, each with its lookaheads, ascending.
pub fn core_rows<StorageT: StorageIndex>(
    alloc: Global,
    grm: &YaccGrammar<StorageT>,
    cores: &[CoreItems<StorageT>],
) -> Result<Vec<CoreRow<StorageT>>, AllocError>
    ensures { IfOk result (AreItemsOf StorageT.index grm.now cores.now) }
{
    let mut rows = Vec::with_capacity(alloc, cores.len())?;
    'cores: for place in 0..cores.len() {
        let core = &cores[place];
        let tokens = lookaheads_at(alloc, grm, cores, place, &rows)?;
        rows.push((core.prod, core.dot, tokens))?;
    }
    Ok(rows)
}

// The lookaheads of the core at a place, ascending. The rows are those of the cores before it. Productions of one rule follow one another in
// a closure, with the same lookaheads, which are then copied.
fn lookaheads_at<StorageT: StorageIndex>(
    alloc: Global,
    grm: &YaccGrammar<StorageT>,
    cores: &[CoreItems<StorageT>],
    place: usize,
    rows: &[CoreRow<StorageT>],
) -> Result<Vec<TIdx<StorageT>>, AllocError>
    requires place { place < length cores.now }
    requires before { length rows.now ≡ place }
    requires rows { AreRowsOf StorageT.index (tokens_len grm.now) cores.now rows.now }
    ensures { IfOk result (AreLookaheadsAt StorageT.index grm.now cores.now place) }
{
    if place > 0 && have_same_tokens(&cores[place - 1], &cores[place]) {
        Vec::from_slice(alloc, &rows[place - 1].2)
    } else {
        lookaheads(alloc, grm, &cores[place])
    }
}

// Whether the cores have the same lookaheads.
fn have_same_tokens<StorageT: StorageIndex>(
    core: &CoreItems<StorageT>,
    other: &CoreItems<StorageT>,
) -> bool
    ensures { IsTrue result ↔ HaveSameTokens core.now other.now }
{
    core.tokens.is_same(&other.tokens)
}

// The lookaheads of the core, ascending.
fn lookaheads<StorageT: StorageIndex>(
    alloc: Global,
    grm: &YaccGrammar<StorageT>,
    core: &CoreItems<StorageT>,
) -> Result<Vec<TIdx<StorageT>>, AllocError>
    ensures { IfOk result (AreLookaheadsOf StorageT.index grm.now core.now) }
{
    let mut tokens = Vec::with_capacity(alloc, grm.tokens_len())?;
    for token in 0..grm.tokens_len() {
        if core.tokens.contains(token) {
            tokens.push(TIdx(StorageT::from_index(token).unwrap()))?;
        }
    }
    Ok(tokens)
}
