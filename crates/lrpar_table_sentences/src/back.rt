//! The steps of an access string, back from its end.
ghost use Rattle.std.specs.Prelude.{◌≤◌, OnOk, length, vec_len};
ghost use Rattle.lrpar_table_sentences.specs.AccessStrings.{AppendsBack, IsAccessTo, IsLastStepTo, ReversesFrom};

use crate::transitions::{Access, Step};
use lrpar_grammar::span::{StIdx, StorageIndex};
use std::alloc::AllocError;

/// Appends the steps of the access string that is kept of the state, the last one first.
pub(crate) fn push_back<StorageT: StorageIndex>(
    accesses: &[Option<Access<StorageT>>],
    out: &mut Vec<Step<StorageT>>,
    s: StIdx<StorageT>,
) -> Result<(), AllocError>
    ensures steps { OnOk result (AppendsBack StorageT.index accesses.now s out.old out.new) }
    ensures longer { vec_len out.old ≤ vec_len out.new }
{
    let mut state = s;
    'back: while let Some(step) = last_step(accesses, state) {
        out.push(step)?;
        state = step.from;
    }
    Ok(())
}

/// Reverses the order of the steps from a place on.
pub(crate) fn reverse_from<StorageT: StorageIndex>(steps: &mut [Step<StorageT>], from: usize)
    requires { from ≤ length steps.old }
    ensures { ReversesFrom from steps.old steps.new }
{
    steps[from..].reverse();
}

// The last step that is kept of the state, if it has one.
fn last_step<StorageT: StorageIndex>(
    accesses: &[Option<Access<StorageT>>],
    s: StIdx<StorageT>,
) -> Option<Step<StorageT>>
    ensures { IsLastStepTo StorageT.index accesses.now s result }
{
    match access_to(accesses, s) {
        Some(access) => access.last,
        None => None,
    }
}

/// What is kept of the state; out of range, nothing.
pub(crate) fn access_to<StorageT: StorageIndex>(
    accesses: &[Option<Access<StorageT>>],
    s: StIdx<StorageT>,
) -> Option<Access<StorageT>>
    ensures { IsAccessTo StorageT.index accesses.now s result }
{
    match accesses.get(usize::from(s)) {
        Some(access) => *access,
        None => None,
    }
}
