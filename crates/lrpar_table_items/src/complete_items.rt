//! Complete items by their cores, and the reductions and the accept that they call for at a token.
ghost use Rattle.std.specs.Prelude.{◌≡◌, ◌<◌, IfOk};
ghost use Rattle.lrpar_grammar.specs.Grammar.{prods_len};
ghost use Rattle.lrpar_table_items.specs.StoredRows.{AreComplete, AreReductions, AscendByProd, HaveProds, calls_for_accept, is_accept, is_at_end, is_reduction};

use crate::cores::CoreItems;
use lrpar_grammar::grammar::YaccGrammar;
use lrpar_grammar::span::{PIdx, StorageIndex};
use std::alloc::{AllocError, Global};

// Whether the core is complete: its dot is after all symbols.
fn ends<StorageT: StorageIndex>(grm: &YaccGrammar<StorageT>, core: &CoreItems<StorageT>) -> bool
    requires { StorageT.index core.now.prod.0 < prods_len grm.now }
    ensures { result ≡ is_at_end StorageT.index grm.now core.now }
{
    core.dot == grm.prod(core.prod).len()
}

/// Those of the cores that are complete, in the order of their productions.
pub fn complete_cores<'a, StorageT: StorageIndex>(
    alloc: Global,
    grm: &YaccGrammar<StorageT>,
    cores: &'a [CoreItems<StorageT>],
) -> Result<Vec<&'a CoreItems<StorageT>>, AllocError>
    requires { HaveProds StorageT.index grm.now cores.now }
    ensures all { IfOk result (AreComplete StorageT.index grm.now cores.now) }
    ensures sorted { IfOk result (AscendByProd StorageT.index) }
{
    let mut complete = Vec::new(alloc);
    for core in cores {
        if ends(grm, core) {
            complete.push(core)?;
        }
    }
    complete.sort_unstable_by_key(|core| usize::from(core.prod));
    Ok(complete)
}

/// The reductions at the token before conflict resolution: the productions of the complete cores that have the token as
/// lookahead, without the start production.
pub fn reductions_at<StorageT: StorageIndex>(
    alloc: Global,
    start: usize,
    complete: &[&CoreItems<StorageT>],
    token: usize,
) -> Result<Vec<PIdx<StorageT>>, AllocError>
    ensures { IfOk result (AreReductions StorageT.index start complete.now token) }
{
    let mut prods = Vec::new(alloc);
    for core in complete {
        if reduces(core, start, token) {
            prods.push(core.prod)?;
        }
    }
    Ok(prods)
}

// Whether the core is of another production than the start production, and has the token as lookahead.
fn reduces<StorageT: StorageIndex>(core: &CoreItems<StorageT>, start: usize, token: usize) -> bool
    ensures { result ≡ is_reduction StorageT.index start core.now token }
{
    usize::from(core.prod) != start && core.tokens.contains(token)
}

/// Whether a complete core of the start production has the token as lookahead.
pub fn accepts<StorageT: StorageIndex>(
    start: usize,
    complete: &[&CoreItems<StorageT>],
    token: usize,
) -> bool
    ensures { result ≡ calls_for_accept StorageT.index start complete.now token }
{
    for core in complete {
        if accepts_by(core, start, token) {
            return true;
        }
    }
    false
}

// Whether the core is of the start production, and has the token as lookahead.
fn accepts_by<StorageT: StorageIndex>(
    core: &CoreItems<StorageT>,
    start: usize,
    token: usize,
) -> bool
    ensures { result ≡ is_accept StorageT.index start core.now token }
{
    usize::from(core.prod) == start && core.tokens.contains(token)
}
