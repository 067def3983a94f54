//! LR(1) items by their LR(0) cores, each with the set of its lookaheads.
ghost use Rattle.std.specs.Prelude.{◌↔◌, IfOk, IsTrue};
ghost use Rattle.lrpar_table_items.specs.StoredCores.{AreSameCores, IsCopyOf, IsSameCore};

use lrpar_grammar::span::{PIdx, StorageIndex};
use lrpar_grammar::token_set::TokenSet;
use std::alloc::{AllocError, Global};

/// The items of one core: its production, how many of its symbols are before the dot, and the set of the items' lookaheads.
#[derive(PartialEq, Eq, PartialOrd, Ord, Drop)]
pub struct CoreItems<StorageT> {
    pub prod: PIdx<StorageT>,
    pub dot: usize,
    pub tokens: TokenSet,
}

/// Whether the lists have the same cores, with the same lookaheads, in the same order.
pub fn are_same<StorageT: StorageIndex>(
    cores: &[CoreItems<StorageT>],
    others: &[CoreItems<StorageT>],
) -> bool
    ensures { IsTrue result ↔ AreSameCores StorageT.index cores.now others.now }
{
    if cores.len() != others.len() {
        return false;
    }
    for place in 0..cores.len() {
        if !is_same(&cores[place], &others[place]) {
            return false;
        }
    }
    true
}

// Whether the cores are the same, with the same lookaheads.
fn is_same<StorageT: StorageIndex>(core: &CoreItems<StorageT>, other: &CoreItems<StorageT>) -> bool
    ensures { IsTrue result ↔ IsSameCore StorageT.index core.now other.now }
{
    let prod = usize::from(core.prod);
    let same = usize::from(other.prod);
    if prod != same || core.dot != other.dot {
        return false;
    }
    core.tokens.is_same(&other.tokens)
}

/// A copy of the cores.
#[tactic(auto, using(lrpar_grammar_places::proofs::FaultLemmas::no_value))]
pub fn copied<StorageT: StorageIndex>(
    alloc: Global,
    cores: &[CoreItems<StorageT>],
) -> Result<Vec<CoreItems<StorageT>>, AllocError>
    ensures { IfOk result (IsCopyOf StorageT.index cores.now) }
{
    let mut copy = Vec::with_capacity(alloc, cores.len())?;
    for core in cores {
        let tokens = core.tokens.copy(alloc)?;
        copy.push(CoreItems {
            prod: core.prod,
            dot: core.dot,
            tokens,
        })?;
    }
    Ok(copy)
}
