//! Runs over tokens: the stacks that they have, and where they stop.
ghost use Rattle.std.specs.Prelude.{IfOk};
ghost use Rattle.lrpar_table_check.specs.CheckedStacks.{FormStack, HasStack};
ghost use Rattle.lrpar_table_stops.specs.Runs.{FindsStop, IsRunOver, IsStartStack, MayFeed, RunHasStack};

use lrpar_grammar::span::{StIdx, StorageIndex, TIdx};
use lrpar_table_check::check::ParserData;
use lrpar_table_rows::table::Action;
use lrpar_table_stacks::overlay::Overlay;
use std::alloc::{AllocError, Global};

/// The stack of a run from the start over these tokens, bottom first. If one of them can't be fed after those before it, how many those are.
///
/// Takes the time of the run. `Err`: out of memory.
pub fn stack_after<StorageT: StorageIndex>(
    alloc: Global,
    data: &ParserData<StorageT>,
    tokens: &[TIdx<StorageT>],
) -> Result<Result<Vec<StIdx<StorageT>>, usize>, AllocError>
    ensures run { IfOk result (IsRunOver StorageT.index data.now tokens.now) }
    ensures stack { IfOk result (RunHasStack StorageT.index data.now) }
{
    let mut stack = start_stack(alloc, data)?;
    'feeding: for (count, token) in tokens.iter().enumerate() {
        if !feed(data, &mut stack, *token)? {
            return Ok(Err(count));
        }
    }
    Ok(Ok(stack))
}

// The stack before any token.
fn start_stack<StorageT: StorageIndex>(
    alloc: Global,
    data: &ParserData<StorageT>,
) -> Result<Vec<StIdx<StorageT>>, AllocError>
    ensures start { IfOk result (IsStartStack StorageT.index data.now) }
    ensures stack { IfOk result (HasStack StorageT.index data.now) }
{
    let start = data.stable().start_state();
    let mut stack = Vec::new(alloc);
    stack.push(start)?;
    Ok(stack)
}

// Feeds a token, and returns whether it could be fed.
fn feed<StorageT: StorageIndex>(
    data: &ParserData<StorageT>,
    stack: &mut Vec<StIdx<StorageT>>,
    token: TIdx<StorageT>,
) -> Result<bool, AllocError>
    requires stack { HasStack StorageT.index data.now stack.old }
    ensures fed { IfOk result (MayFeed StorageT.index data.now token stack.old stack.new) }
    ensures stack { HasStack StorageT.index data.now stack.new }
{
    if usize::from(token) >= data.stable().tokens_len() {
        return Ok(false);
    }
    data.feed(stack, token)
}

/// The state in which a run with this stack, bottom first, stops at the token: the one on top after all reductions, if it has no action there.
/// A token that the table doesn't have gives none. Takes the time of the reductions. `Err`: out of memory.
pub fn stop_at<StorageT: StorageIndex>(
    alloc: Global,
    data: &ParserData<StorageT>,
    stack: &[StIdx<StorageT>],
    token: TIdx<StorageT>,
) -> Result<Option<StIdx<StorageT>>, AllocError>
    requires { FormStack StorageT.index data.now stack.now }
    ensures { IfOk result (FindsStop StorageT.index data.now stack.now token) }
{
    if usize::from(token) >= data.stable().tokens_len() {
        return Ok(None);
    }
    let mut overlay = Overlay::new(alloc, stack);
    Ok(match data.settle_on(&mut overlay, token)?.action {
        Action::Error => Some(overlay.top()),
        Action::Shift(_) | Action::Reduce(_) | Action::Accept => None,
    })
}
