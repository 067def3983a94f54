//! Stacks of states.
ghost use Rattle.std.specs.Prelude.{◌≡◌, [], IfOk};

use crate::states::Target;
use std::alloc::{AllocError, Global};

// A stack of states: the one on top, and those below it, of which the last is the nearest.
#[derive(Drop)]
pub(crate) struct Stack {
    pub(crate) top: usize,
    pub(crate) below: Vec<usize>,
}

impl Stack {
    ghost use Rattle.lrpar_lexer_lrlex.specs.Stacks.{IsMoved, StaysIfNot};

    // The stack of state 0 alone.
    pub(crate) fn new(alloc: Global) -> Stack
        ensures top { result.top ≡ 0 }
        ensures below { result.below.items ≡ [] }
    {
        Stack {
            top: 0,
            below: Vec::new(alloc),
        }
    }

    // What a match with this target makes of the stack. No if it pops the last state, which stays then.
    pub(crate) fn go_on(&mut self, target: Option<Target>) -> Result<bool, AllocError>
        ensures moved { IfOk result (IsMoved target self.old self.new) }
        ensures stays { IfOk result (StaysIfNot self.old self.new) }
    {
        match target {
            None => Ok(true),
            Some(Target::Push(state)) => {
                self.below.push(self.top)?;
                self.top = state;
                Ok(true)
            }
            Some(Target::Set(state)) => {
                self.below.clear();
                self.top = state;
                Ok(true)
            }
            Some(Target::Pop) => match self.below.pop() {
                Some(state) => {
                    self.top = state;
                    Ok(true)
                }
                None => Ok(false),
            },
        }
    }
}
