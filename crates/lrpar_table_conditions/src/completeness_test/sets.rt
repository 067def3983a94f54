//! Scratch space for the test of completeness: sets of tokens.
ghost use Rattle.std.specs.Prelude.{◌≡◌, All, IfOk, length};
ghost use Rattle.lrpar_table_first.specs.FirstRows.{HoldNothing, rows_of};

use lrpar_grammar::token_set::TokenSet;
use std::alloc::{AllocError, Global};

/// The lookaheads of a core; scratch space for FIRST sets; the lookaheads that the closure requires for a rule; and for each
/// production the lookaheads of its items with dot 0 in a state.
#[derive(Drop)]
pub(crate) struct WorkSets {
    pub(crate) after: TokenSet,
    pub(crate) front: TokenSet,
    pub(crate) begun: TokenSet,
    pub(crate) starts: Vec<TokenSet>,
}

impl WorkSets {
    /// Empty sets, with room for the tokens below `len`, for this number of productions.
    pub(crate) fn new(alloc: Global, prods: usize, len: usize) -> Result<Self, AllocError>
        ensures after { IfOk result (λ sets. length sets.after ≡ len) }
        ensures front { IfOk result (λ sets. length sets.front ≡ len) }
        ensures begun { IfOk result (λ sets. length sets.begun ≡ len) }
        ensures prods { IfOk result (λ sets. length (rows_of sets.starts.items) ≡ prods) }
        ensures starts { IfOk result (λ sets. All (λ row. length row ≡ len) (rows_of sets.starts.items)) }
        ensures none { IfOk result (λ sets. HoldNothing (rows_of sets.starts.items)) }
    {
        let starts = empty_sets(alloc, prods, len)?;
        let after = TokenSet::new(alloc, len)?;
        let front = TokenSet::new(alloc, len)?;
        let begun = TokenSet::new(alloc, len)?;
        Ok(WorkSets {
            after,
            front,
            begun,
            starts,
        })
    }
}

// `count` empty sets, with room for the tokens below `len`.
fn empty_sets(alloc: Global, count: usize, len: usize) -> Result<Vec<TokenSet>, AllocError>
    ensures count { IfOk result (λ sets. length (rows_of sets.items) ≡ count) }
    ensures room { IfOk result (λ sets. All (λ row. length row ≡ len) (rows_of sets.items)) }
    ensures none { IfOk result (λ sets. HoldNothing (rows_of sets.items)) }
{
    let mut sets = Vec::with_capacity(alloc, count)?;
    for _ in 0..count {
        sets.push(TokenSet::new(alloc, len)?)?;
    }
    Ok(sets)
}
