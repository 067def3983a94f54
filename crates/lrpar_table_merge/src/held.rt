//! The items that states hold, propagated from the start along transitions.
ghost use Rattle.std.specs.Prelude.{◌≡◌, IfErr, IfOk, OnOk, Some};
ghost use Rattle.std.specs.Bool.{OnFalse, OnTrue};
ghost use Rattle.lrpar_table_merge.specs.Passing.{AreSameUnless, IsMisfitAlong, LackFewerIf, PassesTo, ShareGrammar, StayKernels};
ghost use Rattle.lrpar_table_merge.specs.StoredKernels.{AreEqualCores, CanUnite, LackFewer, UniteKernels};
ghost use Rattle.lrpar_table_merge.specs.declared.held.HeldFault.TheVariants.{Memory};

use crate::compatible::have_same_cores;
use crate::unite::unite;
use lrpar_grammar::span::StorageIndex;
use lrpar_table_items::cores::CoreItems;
use std::alloc::{AllocError, AllocFailed};

/// Why items aren't propagated.
#[derive(Clone, Copy, Debug, PartialEq, Eq)]
pub enum HeldFault {
    /// A transition is missing, or leads to a state with other cores.
    Misfit,
    /// An allocation failed.
    Memory,
}

impl From<AllocError> for HeldFault {
    ghost from_gives = { λ _ fault. fault ≡ Memory };

    fn from(_: AllocError) -> HeldFault {
        HeldFault::Memory
    }
}

impl<T: Drop> From<AllocFailed<T>> for HeldFault {
    ghost from_gives = { λ _ fault. fault ≡ Memory };

    fn from(_: AllocFailed<T>) -> HeldFault {
        HeldFault::Memory
    }
}

/// The transitions of a state: the next state by each rule and by each token, if there is one.
pub struct Transitions {
    pub rules: Vec<Option<usize>>,
    pub tokens: Vec<Option<usize>>,
}

// With its own `Drop`, a function that drops one proves one call.
impl Drop for Transitions {
    fn drop(self) {
        let Transitions { rules, tokens } = self;
        drop(rules);
        drop(tokens);
    }
}

/// Adds the lookaheads of a kernel to those of the kernel of this state. Returns whether any of them was new. If there is no such state, or
/// its kernel has other LR(0) cores, the result is `Err(Misfit)`.
pub fn pass_to<StorageT: StorageIndex>(
    kernels: &mut [Vec<CoreItems<StorageT>>],
    state: usize,
    next: &[CoreItems<StorageT>],
) -> Result<bool, HeldFault>
    requires known { ShareGrammar StorageT.index kernels.old next.now }
    ensures passed { OnOk result (PassesTo StorageT.index state next.now kernels.old kernels.new) }
    ensures kernels { OnOk result (StayKernels StorageT.index kernels.old next.now kernels.new) }
    ensures grown { IfOk result (LackFewerIf StorageT.index kernels.old kernels.new) }
    ensures same { IfOk result (AreSameUnless StorageT.index kernels.old kernels.new) }
    ensures misfit { IfErr result (IsMisfitAlong StorageT.index kernels.old (Some state) next.now) }
{
    if state >= kernels.len() || !have_same_cores(&kernels[state], next) {
        return Err(HeldFault::Misfit);
    }
    Ok(unite_kernel(&mut kernels[state], next))
}

// As `unite`, for a list.
fn unite_kernel<StorageT: StorageIndex>(
    kernel: &mut Vec<CoreItems<StorageT>>,
    other: &[CoreItems<StorageT>],
) -> bool
    requires { CanUnite StorageT.index kernel.old.items other.now }
    ensures united { UniteKernels StorageT.index kernel.old.items other.now kernel.new.items }
    ensures grown { OnTrue result (LackFewer StorageT.index kernel.old.items kernel.new.items) }
    ensures same { OnFalse result (AreEqualCores StorageT.index kernel.new.items kernel.old.items) }
{
    unite(kernel, other)
}
