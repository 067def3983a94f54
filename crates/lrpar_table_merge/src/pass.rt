//! Kernels that are passed on along the transitions of a state.
ghost use Rattle.std.specs.Prelude.{◌≡◌, ◌<◌, IfErr, IfOk, OnOk, length, map};
ghost use Rattle.lrpar_table_items.specs.Cores.{core_set};
ghost use Rattle.lrpar_table_merge.specs.Passing.{AddsItems, HasMisfit, IsMisfitAlong, PassesAlong, PassesRow, ShareGrammarAll, ShareGrammarIfAny, StayKernelsAll, StayKernelsIfAny, TellsGrowth};
ghost use Rattle.lrpar_table_merge.specs.Propagated.{IsMarkedIf, step_at};

use crate::held::{HeldFault, pass_to};
use lrpar_grammar::span::StorageIndex;
use lrpar_table_items::cores::CoreItems;

// Passes each of these kernels to the state to which its symbol leads. Returns whether any kernel grew.
pub(crate) fn pass_all<StorageT: StorageIndex>(
    kernels: &mut [Vec<CoreItems<StorageT>>],
    waits: &mut [bool],
    row: &[Option<usize>],
    nexts: &[Vec<CoreItems<StorageT>>],
) -> Result<bool, HeldFault>
    requires waits { length waits.old ≡ length kernels.old }
    requires known { ShareGrammarAll StorageT.index kernels.old nexts.now }
    ensures added { OnOk result (AddsItems StorageT.index kernels.old waits.old kernels.new waits.new) }
    ensures passed { OnOk result (PassesRow StorageT.index row.now nexts.now kernels.old kernels.new) }
    ensures kernels { OnOk result (StayKernelsAll StorageT.index kernels.old nexts.now kernels.new) }
    ensures grown { IfOk result (TellsGrowth StorageT.index kernels.old waits.old kernels.new waits.new) }
    ensures misfit { IfErr result (λ _. HasMisfit StorageT.index kernels.old row.now nexts.now) }
{
    let mut grown = false;
    for symbol in 0..nexts.len() {
        let more = pass_one(kernels, waits, step_at(row, symbol), &nexts[symbol])?;
        grown = grown || more;
    }
    Ok(grown)
}

// Where the symbol leads; out of range, nowhere.
fn step_at(row: &[Option<usize>], symbol: usize) -> Option<usize>
    ensures { result ≡ step_at row.now symbol }
{
    match row.get(symbol) {
        Some(step) => *step,
        None => None,
    }
}

// Passes the kernel to the state to which the step goes, and marks the state as waiting if it grew. Returns whether it did. A kernel
// without cores is passed over.
fn pass_one<StorageT: StorageIndex>(
    kernels: &mut [Vec<CoreItems<StorageT>>],
    waits: &mut [bool],
    step: Option<usize>,
    next: &[CoreItems<StorageT>],
) -> Result<bool, HeldFault>
    requires waits { length waits.old ≡ length kernels.old }
    requires known { ShareGrammarIfAny StorageT.index kernels.old next.now }
    ensures added { OnOk result (AddsItems StorageT.index kernels.old waits.old kernels.new waits.new) }
    ensures passed { OnOk result (PassesAlong StorageT.index step next.now kernels.old kernels.new) }
    ensures kernels { OnOk result (StayKernelsIfAny StorageT.index kernels.old next.now kernels.new) }
    ensures grown { IfOk result (TellsGrowth StorageT.index kernels.old waits.old kernels.new waits.new) }
    ensures some { IfErr result (λ _. 0 < length (map (core_set StorageT.index) next.now)) }
    ensures misfit { IfErr result (IsMisfitAlong StorageT.index kernels.old step next.now) }
{
    if next.is_empty() {
        return Ok(false);
    }
    match step {
        None => Err(HeldFault::Misfit),
        Some(state) => {
            let grown = pass_to(kernels, state, next)?;
            mark(waits, state, grown);
            Ok(grown)
        }
    }
}

// Marks the state as waiting, if its kernel grew.
fn mark(waits: &mut [bool], state: usize, grown: bool)
    requires { state < length waits.old }
    ensures { IsMarkedIf grown state waits.old waits.new }
{
    if grown {
        waits[state] = true;
    }
}
