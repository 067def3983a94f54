//! Weak compatibility of kernels.
ghost use Rattle.std.specs.Prelude.{◌≡◌, ◌<◌, ◌↔◌, IsTrue, length};
ghost use Rattle.lrpar_table_merge.specs.Compatible.{IsPairCompatible};
ghost use Rattle.lrpar_table_merge.specs.StoredKernels.{AreCompatible, AreSameCores, IsCompatibleBefore, IsSameCore};

use lrpar_grammar::span::StorageIndex;
use lrpar_grammar::token_set::TokenSet;
use lrpar_table_items::cores::CoreItems;

/// Whether the kernels are weakly compatible: they have the same LR(0) cores, and each pair of cores is compatible. Each pair is tested, by
/// up to four passes over the tokens.
pub fn are_weakly_compatible<StorageT: StorageIndex>(
    kernel: &[CoreItems<StorageT>],
    other: &[CoreItems<StorageT>],
) -> bool
    ensures { IsTrue result ↔ AreCompatible StorageT.index kernel.now other.now }
{
    if !have_same_cores(kernel, other) {
        return false;
    }
    for place in 0..kernel.len() {
        if !is_compatible_with_earlier(kernel, other, place) {
            return false;
        }
    }
    true
}

// Whether the core at this place is compatible with each core before it.
fn is_compatible_with_earlier<StorageT: StorageIndex>(
    kernel: &[CoreItems<StorageT>],
    other: &[CoreItems<StorageT>],
    place: usize,
) -> bool
    requires len { length other.now ≡ length kernel.now }
    requires place { place < length kernel.now }
    ensures { IsTrue result ↔ IsCompatibleBefore StorageT.index kernel.now other.now place }
{
    let here = &kernel[place].tokens;
    let there = &other[place].tokens;
    for earlier in 0..place {
        if !is_pair_compatible(here, there, &kernel[earlier].tokens, &other[earlier].tokens) {
            return false;
        }
    }
    true
}

// Whether two cores are compatible: `l` and `m` are the lookaheads of the one in both kernels, `l2` and `m2` those of the other.
fn is_pair_compatible(l: &TokenSet, m: &TokenSet, l2: &TokenSet, m2: &TokenSet) -> bool
    ensures { IsTrue result ↔ IsPairCompatible l.now m.now l2.now m2.now }
{
    if l.has_common(l2) || m.has_common(m2) {
        return true;
    }
    !l.has_common(m2) && !m.has_common(l2)
}

/// Whether the kernels have the same LR(0) cores in the same order.
pub fn have_same_cores<StorageT: StorageIndex>(
    kernel: &[CoreItems<StorageT>],
    other: &[CoreItems<StorageT>],
) -> bool
    ensures { IsTrue result ↔ AreSameCores StorageT.index kernel.now other.now }
{
    if kernel.len() != other.len() {
        return false;
    }
    for place in 0..kernel.len() {
        if !has_same_core(&kernel[place], &other[place]) {
            return false;
        }
    }
    true
}

// Whether the LR(0) cores are the same.
fn has_same_core<StorageT: StorageIndex>(
    core: &CoreItems<StorageT>,
    other: &CoreItems<StorageT>,
) -> bool
    ensures { IsTrue result ↔ IsSameCore StorageT.index core.now other.now }
{
    let prod = usize::from(core.prod);
    let same = usize::from(other.prod);
    prod == same && core.dot == other.dot
}
