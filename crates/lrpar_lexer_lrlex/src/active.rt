//! The rules that are active in a state.
ghost use Rattle.std.specs.Prelude.{◌≡◌, false, IfOk, OnOk, get_or};
ghost use Rattle.lrpar_lexer_lrlex.specs.StateRules as spec;
ghost use Rattle.lrpar_lexer_lrlex.specs.StateRules.{AppendsIf, AreActiveOf, plain_starts};

use crate::states::Starts;
use std::alloc::{AllocError, Global};

// The numbers of the rules with these states in front that are active in a state, in order.
pub(crate) fn active_in(
    alloc: Global,
    exclusive: &[bool],
    starts: &[Starts],
    state: usize,
) -> Result<Vec<usize>, AllocError>
    ensures { IfOk result (AreActiveOf exclusive.now starts.now state) }
{
    let exclusive = is_exclusive(exclusive, state);
    let mut active = Vec::new(alloc);
    let mut index = 0;
    'starts: while index < starts.len() {
        push_active(
            &mut active,
            index,
            is_active(&starts[index], state, exclusive),
        )?;
        index += 1;
    }
    Ok(active)
}

// Adds the number of a rule, if it is active.
fn push_active(active: &mut Vec<usize>, rule: usize, is_active: bool) -> Result<(), AllocError>
    ensures { OnOk result (AppendsIf is_active rule active.old active.new) }
{
    if !is_active {
        return Ok(());
    }
    active.push(rule)?;
    Ok(())
}

// Whether a state is exclusive.
fn is_exclusive(exclusive: &[bool], state: usize) -> bool
    ensures { result ≡ get_or exclusive.now state false }
{
    state < exclusive.len() && exclusive[state]
}

// Whether a rule is active in a state.
fn is_active(start: &Starts, state: usize, exclusive: bool) -> bool
    ensures { result ≡ spec.is_active exclusive state (plain_starts start.now) }
{
    if start.states.is_empty() {
        !exclusive
    } else {
        start.states.contains(&state)
    }
}
