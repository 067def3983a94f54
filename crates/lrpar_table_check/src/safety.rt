//! The conditions of a safe table, each tested at one state.
ghost use Rattle.std.specs.Prelude.{◌<◌, ◌↔◌, IsTrue};
ghost use Rattle.lrpar_table_rows.specs.Table.{states_len};
ghost use Rattle.lrpar_table_check.specs.SafetyTests.{HaveShape, HoldsAt, IsSafetyFault, IsUnsafeState};

use crate::fault::CheckFault;
use lrpar_grammar::span::{StIdx, StorageIndex};
use lrpar_table_conditions::checkable::Checkable;
use lrpar_table_rows::condition::SafetyCondition;

/// The first fault, whatever the cap on chains.
pub(crate) fn find_first_fault<StorageT: StorageIndex>(
    parts: &Checkable<'_, StorageT>,
) -> Option<CheckFault>
    ensures { IsSafetyFault parts.now result }
{
    if !parts.has_shape() {
        return Some(CheckFault::Shape);
    }
    for condition in SafetyCondition::ALL {
        if let Some(state) = first_unsafe(parts, condition) {
            return Some(CheckFault::Safety(condition, state));
        }
    }
    None
}

// The lowest state at which the condition fails.
fn first_unsafe<StorageT: StorageIndex>(
    parts: &Checkable<'_, StorageT>,
    condition: SafetyCondition,
) -> Option<usize>
    requires { HaveShape parts.now }
    ensures { IsUnsafeState parts.now condition result }
{
    for s in 0..parts.stable.states_len() {
        let state = StIdx(StorageT::from_index(s).unwrap());
        if !is_safe_at(parts, condition, state) {
            return Some(s);
        }
    }
    None
}

// Whether the condition holds at the state.
fn is_safe_at<StorageT: StorageIndex>(
    parts: &Checkable<'_, StorageT>,
    condition: SafetyCondition,
    s: StIdx<StorageT>,
) -> bool
    requires shape { HaveShape parts.now }
    requires state { StorageT.index s.0 < states_len parts.now.stable.now }
    ensures { IsTrue result ↔ HoldsAt parts.now condition (StorageT.index s.0) }
{
    match condition {
        SafetyCondition::S2 => parts.starts_fresh(s),
        SafetyCondition::S3 => parts.never_shifts_end(s),
        SafetyCondition::S4 => parts.steps_from_cores(s),
        SafetyCondition::S5 => parts.reduces_complete(s),
        SafetyCondition::S6 => parts.goes_by_rules(s),
        SafetyCondition::S7 => parts.accepts_only_at_end(s),
        SafetyCondition::S8 => parts.never_enters_start(s),
    }
}
