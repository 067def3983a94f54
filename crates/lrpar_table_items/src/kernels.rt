//! Kernels, the kernel items of states by their cores, each with the number of its state.
ghost use Rattle.std.specs.Prelude.{◌≡◌, ◌<◌, [], IfErr, IfOk, OnOk, length};
ghost use Rattle.lrpar_table_items.specs.StoredCores.{AppendsKernel, FindsKernel, IsKernelAt, IsNewKernel};
ghost use Rattle.lrpar_table_items.specs.declared.fault.BuildFault.TheVariants.{Memory};

use crate::cores::{CoreItems, are_same, copied};
use crate::fault::BuildFault;
use lrpar_grammar::span::{StIdx, StorageIndex};
use std::alloc::{AllocError, Global};
use std::collections::BTreeMap;
use std::marker::Model;

/// The kernels so far, by their numbers; and a map from kernels to their numbers.
pub struct Kernels<StorageT: StorageIndex> {
    kernels: Vec<Vec<CoreItems<StorageT>>>,
    numbers: BTreeMap<Vec<CoreItems<StorageT>>, StIdx<StorageT>>,
}

// With its own `Drop`, a function that drops one proves one call.
impl<StorageT: StorageIndex> Drop for Kernels<StorageT> {
    fn drop(self) {
        let Kernels { kernels, numbers } = self;
        drop(kernels);
        drop(numbers);
    }
}

impl<StorageT: StorageIndex> Model for Kernels<StorageT> {
    ghost use Rattle.std.specs.Prelude.{List};
    ghost use Rattle.lrpar_table_items.specs.Cores.{CoreSet};
    ghost use Rattle.lrpar_table_items.specs.KernelMap.{NumbersKernels};
    ghost use Rattle.lrpar_table_items.specs.Next.{kernel_rows};

    ghost Value = { List (List CoreSet) };

    ghost view = { λ found. kernel_rows StorageT.index found.kernels.items };

    ghost invariant = { λ found. NumbersKernels StorageT.index (kernel_rows StorageT.index found.kernels.items) found.numbers };
}

impl<StorageT: StorageIndex> Kernels<StorageT> {
    /// No kernels.
    pub fn new(alloc: Global) -> Self
        ensures { result ≡ [] }
    {
        Kernels {
            kernels: Vec::new(alloc),
            numbers: BTreeMap::new(alloc),
        }
    }

    /// The number of kernels.
    pub fn len(&self) -> usize
        ensures { result ≡ length self.now }
    {
        self.kernels.len()
    }

    /// A copy of the kernel with this number.
    pub fn kernel(
        &self,
        alloc: Global,
        number: usize,
    ) -> Result<Vec<CoreItems<StorageT>>, AllocError>
        requires { number < length self.now }
        ensures { IfOk result (IsKernelAt StorageT.index self.now number) }
    {
        copied(alloc, &self.kernels[number])
    }

    /// The number of the kernel, if it has one. It takes time logarithmic in the number of kernels.
    pub fn find(&self, kernel: &[CoreItems<StorageT>]) -> Option<StIdx<StorageT>>
        ensures { FindsKernel StorageT.index self.now kernel.now result }
    {
        let state = *self.numbers.get(kernel)?;
        let number = usize::from(state);
        let found = self.kernels.get(number)?;
        if are_same(found, kernel) {
            Some(state)
        } else {
            None
        }
    }

    /// Appends the kernel, with this number. After an `Err` the kernel isn't there.
    pub fn push(
        &mut self,
        alloc: Global,
        kernel: Vec<CoreItems<StorageT>>,
        state: StIdx<StorageT>,
    ) -> Result<(), BuildFault>
        requires fresh { IsNewKernel StorageT.index self.old kernel }
        requires next { StorageT.index state.0 ≡ length self.old }
        ensures pushed { OnOk result (AppendsKernel StorageT.index kernel self.old self.new) }
        ensures fault { IfErr result (λ fault. fault ≡ Memory) }
    {
        let key = copied(alloc, &kernel)?;
        self.numbers.insert(key, state)?;
        self.kernels.push(kernel)?;
        Ok(())
    }
}
