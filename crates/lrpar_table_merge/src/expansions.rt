//! The item set of a kernel, and the kernels to which it goes.
ghost use Rattle.std.specs.Prelude.{IfOk};
ghost use Rattle.lrpar_grammar.specs.Grammar.{IsWellFormed};
ghost use Rattle.lrpar_table_items.specs.Working.{AreSets};
ghost use Rattle.lrpar_table_merge.specs.Expansions.{ExpandsKernel};
ghost use Rattle.lrpar_table_merge.specs.StoredKernels.{IsKernelOf};

use lrpar_grammar::grammar::YaccGrammar;
use lrpar_grammar::span::StorageIndex;
use lrpar_table_items::closure::close_kernel;
use lrpar_table_items::cores::{CoreItems, copied};
use lrpar_table_items::sets::Sets;
use lrpar_table_items::successors::Successors;
use std::alloc::{AllocError, Global};

/// The closure of the kernel, and the kernels to which it goes. They aren't kept: to make them again costs less time than a merged
/// table's worth of them costs memory.
pub(crate) fn expand<StorageT: StorageIndex>(
    alloc: Global,
    grm: &YaccGrammar<StorageT>,
    sets: &mut Sets,
    kernel: &[CoreItems<StorageT>],
) -> Result<Successors<StorageT>, AllocError>
    requires well_formed { IsWellFormed grm.now }
    requires kernel { IsKernelOf StorageT.index grm.now kernel.now }
    requires sets { AreSets grm.now sets.old }
    ensures sets { AreSets grm.now sets.new }
    ensures expanded { IfOk result (ExpandsKernel StorageT.index grm.now kernel.now) }
{
    let copy = copied(alloc, kernel)?;
    let items = close_kernel(alloc, grm, sets, copy)?;
    let successors = Successors::new(alloc, grm, items)?;
    Ok(successors)
}
