//! The union of two kernels with the same LR(0) cores.
ghost use Rattle.std.specs.Prelude.{◌≡◌};
ghost use Rattle.std.specs.Bool.{OnFalse, OnTrue};
ghost use Rattle.lrpar_table_items.specs.Cores.{core_set};
ghost use Rattle.lrpar_table_merge.specs.StoredKernels.{AreEqualCores, CanUnite, HaveOneRoom, IsSameCore, LackFewer, LacksFewer, StaysKernel, UniteKernels, UnitesLookaheads};

use lrpar_grammar::span::StorageIndex;
use lrpar_table_items::cores::CoreItems;

/// Adds the lookaheads of the other kernel, core by core. Returns whether any of them was new.
pub fn unite<StorageT: StorageIndex>(
    kernel: &mut [CoreItems<StorageT>],
    other: &[CoreItems<StorageT>],
) -> bool
    requires { CanUnite StorageT.index kernel.old other.now }
    ensures united { UniteKernels StorageT.index kernel.old other.now kernel.new }
    ensures kernel { StaysKernel StorageT.index kernel.old kernel.new }
    ensures grown { OnTrue result (LackFewer StorageT.index kernel.old kernel.new) }
    ensures same { OnFalse result (AreEqualCores StorageT.index kernel.new kernel.old) }
{
    let mut grown = false;
    for place in 0..kernel.len() {
        if unite_core(&mut kernel[place], &other[place]) {
            grown = true;
        }
    }
    grown
}

// Adds the lookaheads of the other core. Returns whether any of them was new.
fn unite_core<StorageT: StorageIndex>(
    core: &mut CoreItems<StorageT>,
    other: &CoreItems<StorageT>,
) -> bool
    requires room { HaveOneRoom other.now core.old }
    ensures core { IsSameCore StorageT.index core.new core.old }
    ensures room { HaveOneRoom core.new core.old }
    ensures tokens { UnitesLookaheads core.old other.now core.new }
    ensures grown { OnTrue result (LacksFewer core.old core.new) }
    ensures same { OnFalse result (core_set StorageT.index core.new ≡ core_set StorageT.index core.old) }
{
    let end = core.tokens.len();
    core.tokens.unite_below(&other.tokens, end)
}
