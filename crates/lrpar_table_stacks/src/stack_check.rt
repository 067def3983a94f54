//! Whether a list of states is a stack of a table.
ghost use Rattle.std.specs.Prelude.{◌≡◌, ◌<◌, ◌↔◌, IsTrue};
ghost use Rattle.lrpar_table_rows.specs.PlainRows.{plain_action};
ghost use Rattle.lrpar_table_stacks.specs.Stack.{AreJoined, IsJoined, IsStack, states_of};
ghost use Rattle.lrpar_table_rows.specs.Table.{ShiftTo, IsClosed, states_len};

use lrpar_grammar::span::{StIdx, StorageIndex};
use lrpar_table_rows::table::{Action, StateTable};

/// Whether these states, bottom first, are a stack of the table: the start state is at the bottom, and a shift or a goto leads from
/// each state to the one above it. It takes no memory. It reads at most the entries of each state but the top.
pub fn is_stack_of<StorageT: StorageIndex>(
    table: &StateTable<StorageT>,
    stack: &[StIdx<StorageT>],
) -> bool
    requires { IsClosed table.now }
    ensures { IsTrue result ↔ IsStack table.now (states_of StorageT.index stack.now) }
{
    match stack.split_first() {
        None => false,
        Some((bottom, above)) => {
            usize::from(*bottom) == usize::from(table.start_state())
                && are_joined(table, *bottom, above)
        }
    }
}

// Whether a shift or a goto leads from the state to the first of those above it, and from each of those to the next.
fn are_joined<StorageT: StorageIndex>(
    table: &StateTable<StorageT>,
    bottom: StIdx<StorageT>,
    above: &[StIdx<StorageT>],
) -> bool
    requires closed { IsClosed table.now }
    requires state { StorageT.index bottom.0 < states_len table.now }
    ensures { IsTrue result ↔ AreJoined table.now (StorageT.index bottom.0) (states_of StorageT.index above.now) }
{
    let mut below = bottom;
    for next in above {
        if !is_joined(table, below, *next) {
            return false;
        }
        below = *next;
    }
    true
}

// Whether a shift or a goto leads from the state to state `next`.
fn is_joined<StorageT: StorageIndex>(
    table: &StateTable<StorageT>,
    s: StIdx<StorageT>,
    next: StIdx<StorageT>,
) -> bool
    requires { StorageT.index s.0 < states_len table.now }
    ensures { IsTrue result ↔ IsJoined table.now (StorageT.index s.0) (StorageT.index next.0) }
{
    let (_, actions) = table.actions_of(s);
    let (_, states) = table.gotos_of(s);
    let next = usize::from(next);
    actions.iter().any(|action| is_shift_to(*action, next))
        || states.iter().any(|state| usize::from(*state) == next)
}

// Whether the action is a shift to state `next`.
fn is_shift_to<StorageT: StorageIndex>(action: Action<StorageT>, next: usize) -> bool
    ensures { IsTrue result ↔ plain_action StorageT.index action ≡ ShiftTo next }
{
    match action {
        Action::Shift(state) => usize::from(state) == next,
        Action::Reduce(_) | Action::Accept | Action::Error => false,
    }
}
