//! The numbers of kernels, which are the numbers of states.
ghost use Rattle.std.specs.Prelude.{IfErr, IfOk};
ghost use Rattle.lrpar_table_items.specs.StoredStates.{GetsNumber, IsNumberFaultOf};

use crate::cores::{CoreItems, copied};
use crate::fault::BuildFault;
use crate::kernels::Kernels;
use lrpar_grammar::span::{StIdx, StorageIndex};
use std::alloc::Global;

/// The number of the kernel. A new kernel gets the next number.
pub(crate) fn number<StorageT: StorageIndex>(
    kernels: &mut Kernels<StorageT>,
    alloc: Global,
    max_states: usize,
    kernel: &[CoreItems<StorageT>],
) -> Result<StIdx<StorageT>, BuildFault>
    ensures number { IfOk result (GetsNumber StorageT.index max_states StorageT.limit kernels.old kernels.new kernel.now) }
    ensures fault { IfErr result (IsNumberFaultOf StorageT.index max_states StorageT.limit kernels.old kernel.now) }
{
    if let Some(state) = kernels.find(kernel) {
        return Ok(state);
    }
    let next = kernels.len();
    if next >= max_states {
        return Err(BuildFault::TooManyStates);
    }
    match StorageT::from_index(next) {
        None => Err(BuildFault::StorageTooSmall),
        Some(number) => {
            let kept = copied(alloc, kernel)?;
            kernels.push(alloc, kept, StIdx(number))?;
            Ok(StIdx(number))
        }
    }
}
