//! Kernels without lookaheads.
ghost use Rattle.lrpar_table_merge.specs.StoredKernels.{AreSameCores, AreWithoutItems, HasNoLookahead, HaveNoItem, IsSameCore, KeepCores, StayAlike, StayCores, StaysCore};

use lrpar_grammar::span::StorageIndex;
use lrpar_table_items::cores::CoreItems;

// Removes the lookaheads of all cores. The cores and the rooms of their sets stay.
pub(crate) fn clear_kernels<StorageT: StorageIndex>(kernels: &mut [Vec<CoreItems<StorageT>>])
    ensures kept { KeepCores StorageT.index kernels.old kernels.new }
    ensures same { StayAlike StorageT.index kernels.old kernels.new }
    ensures none { AreWithoutItems StorageT.index kernels.new }
{
    for state in 0..kernels.len() {
        clear_kernel(&mut kernels[state]);
    }
}

// As `clear_cores`, for a list.
fn clear_kernel<StorageT: StorageIndex>(kernel: &mut Vec<CoreItems<StorageT>>)
    ensures cores { StayCores StorageT.index kernel.old.items kernel.new.items }
    ensures same { AreSameCores StorageT.index kernel.new.items kernel.old.items }
    ensures none { HaveNoItem StorageT.index kernel.new.items }
{
    clear_cores(kernel);
}

// Removes the lookaheads of the cores.
fn clear_cores<StorageT: StorageIndex>(kernel: &mut [CoreItems<StorageT>])
    ensures cores { StayCores StorageT.index kernel.old kernel.new }
    ensures lr0 { AreSameCores StorageT.index kernel.new kernel.old }
    ensures none { HaveNoItem StorageT.index kernel.new }
{
    for place in 0..kernel.len() {
        clear_core(&mut kernel[place]);
    }
}

// Removes the lookaheads of the core.
fn clear_core<StorageT: StorageIndex>(core: &mut CoreItems<StorageT>)
    ensures core { StaysCore StorageT.index core.old core.new }
    ensures same { IsSameCore StorageT.index core.new core.old }
    ensures none { HasNoLookahead core.new }
{
    core.tokens.clear();
}
