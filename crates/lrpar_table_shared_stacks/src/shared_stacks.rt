//! Stacks of states that share their lower states.
ghost use Rattle.std.specs.Prelude.{◌≡◌, ◌<◌, ◌≤◌, ◌^◌, [], IfOk, OnErr, OnOk, length};
ghost use Rattle.lrpar_table_shared_stacks.specs.SharedStacks.{AreApart, Extends, IsBelow, IsNumberOf, IsNumberOfPushed, IsPartLeft, current_stack, stack_at};
ghost use Rattle.lrpar_table_stacks.specs.Stack.{IsTopOf, states_of};

use indexmap::IndexSet;
use lrpar_grammar::span::{StIdx, StorageIndex};
use lrpar_table_stacks::state_stack::{Reduction, ShiftStack, StateStack};
use std::alloc::{AllocError, Global};
use std::marker::Model;

/// A state on top of a stack.
#[derive(Clone, Copy, Debug, PartialEq, Eq, Hash)]
pub(crate) struct Top {
    /// The number of the stack below the state.
    below: usize,
    /// How many states there are with this one.
    height: usize,
    /// The number of the state.
    state: usize,
}

/// Stacks of states, by numbers. Number 0 is the empty stack, no two numbers have the same stack, and a number means the same stack
/// from then on. One stack more is the current one: its upper states are a list, and it gets a number only when that is asked for.
/// So what a reduction pushes and the next one drops costs no more than on a list. `number` looks up one key for each state of that
/// list. A reduction of more symbols than the list has states goes down one state at a time, as `state_at` does.
pub struct SharedStacks<StorageT: StorageIndex> {
    tops: IndexSet<Top>,
    /// The number of the stack that the current one begins with.
    below: usize,
    /// The states of the current one above that.
    above: Vec<StIdx<StorageT>>,
}

impl<StorageT: StorageIndex> Drop for SharedStacks<StorageT> {
    fn drop(self) {
        let SharedStacks {
            tops,
            below: _,
            above,
        } = self;
        drop(tops);
        drop(above);
    }
}

impl<StorageT: StorageIndex> Model for SharedStacks<StorageT> {
    ghost use Rattle.lrpar_table_shared_stacks.specs.SharedStacks.{AreShared, Shared, stacks_of};
    ghost use Rattle.lrpar_table_stacks.specs.Stack.{states_of};

    ghost Value = { Shared };

    ghost view = { λ s. record { stacks = stacks_of s.tops.keys; below = s.below; above = states_of StorageT.index s.above.items } };

    ghost invariant = { λ s. AreShared StorageT.limit s.tops.keys s.below };
}

impl<StorageT: StorageIndex> SharedStacks<StorageT> {
    /// The stack of these states, which is the current one.
    pub fn new(alloc: Global, states: &[StIdx<StorageT>]) -> Result<Self, AllocError>
        ensures { IfOk result (λ shared. current_stack shared ≡ states_of StorageT.index states.now) }
    {
        let mut above = Vec::with_capacity(alloc, states.len())?;
        above.extend_from_slice(states)?;
        Ok(SharedStacks {
            tops: IndexSet::new(alloc),
            below: 0,
            above,
        })
    }

    /// The number of the current stack. After an `Err`, too, that is what it was, each number means what it meant, and perhaps there are
    /// more stacks.
    pub fn number(&mut self) -> Result<usize, AllocError>
        ensures number { IfOk result (IsNumberOf (current_stack self.old) self.new.stacks) }
        ensures current { current_stack self.new ≡ current_stack self.old }
        ensures extends { Extends self.old self.new }
    {
        let mut number = self.below;
        for at in 0..self.above.len() {
            let state = self.above[at];
            number = self.push_onto(number, state)?;
        }
        self.go_to(number);
        Ok(number)
    }

    /// How many stacks have a number.
    pub fn len(&self) -> usize
        ensures len { result ≡ length self.now.stacks }
        ensures apart { AreApart self.now.stacks }
    {
        self.tops.len() + 1
    }

    /// Makes the stack with this number the current one.
    pub fn go_to(&mut self, number: usize)
        requires { number < length self.old.stacks }
        ensures stacks { self.new.stacks ≡ self.old.stacks }
        ensures current { current_stack self.new ≡ stack_at self.old.stacks number }
    {
        self.below = number;
        self.above.clear();
    }

    // The number of the stack that has the state on top of that with the number. The current one stays what it is.
    fn push_onto(&mut self, number: usize, state: StIdx<StorageT>) -> Result<usize, AllocError>
        requires { number < length self.old.stacks }
        ensures pushed { IfOk result (IsNumberOfPushed StorageT.index number state self.old self.new) }
        ensures extends { Extends self.old self.new }
        ensures below { self.new.below ≡ self.old.below }
        ensures above { self.new.above ≡ self.old.above }
    {
        let top = Top {
            below: number,
            height: self.height_of(number) + 1,
            state: state.0.to_index(),
        };
        let (place, _is_new) = self.tops.insert_full(top)?;
        Ok(place + 1)
    }

    // The height of the stack with this number.
    fn height_of(&self, number: usize) -> usize
        requires { number < length self.now.stacks }
        ensures is { result ≡ length (stack_at self.now.stacks number) }
        ensures most { result ≤ number }
        ensures few { length self.now.stacks < 2 ^ 63 }
    {
        let tops = self.tops.as_slice();
        match number {
            0 => 0,
            _ => tops[number - 1].height,
        }
    }

    // The top state of the stack with this number, which has one.
    fn top_state(&self, number: usize) -> StIdx<StorageT>
        requires within { number < length self.now.stacks }
        requires some { 0 < length (stack_at self.now.stacks number) }
        ensures { IsTopOf StorageT.index (stack_at self.now.stacks number) result }
    {
        let top = self.tops.as_slice()[number - 1];
        StIdx(StorageT::from_index(top.state).unwrap())
    }

    // The number of the stack that is left of the one with this number without so many of its top states.
    fn number_below(&self, number: usize, count: usize) -> usize
        requires within { number < length self.now.stacks }
        requires deep { count ≤ length (stack_at self.now.stacks number) }
        ensures within { result < length self.now.stacks }
        ensures left { IsBelow self.now.stacks number count result }
    {
        let tops = self.tops.as_slice();
        let mut below = number;
        for _left_out in 0..count {
            below = tops[below - 1].below;
        }
        below
    }

    // What is left of the current stack without so many of its top states: the number of a stack, and how many states of the list are
    // above that.
    fn part_left(&self, count: usize) -> (usize, usize)
        requires deep { count ≤ length (current_stack self.now) }
        ensures within { result.0 < length self.now.stacks }
        ensures few { result.1 ≤ length self.now.above }
        ensures left { IsPartLeft self.now count result.0 result.1 }
    {
        let above = self.above.len();
        if count <= above {
            (self.below, above - count)
        } else {
            (self.number_below(self.below, count - above), 0)
        }
    }

    // How many states of the current stack are in the list.
    fn len_above(&self) -> usize
        ensures is { result ≡ length self.now.above }
        ensures few { result < 2 ^ 63 }
    {
        let above = self.above.as_slice();
        above.len()
    }
}

impl<StorageT: StorageIndex> StateStack<StorageT> for SharedStacks<StorageT> {
    ghost use Rattle.std.specs.Prelude.{◌≡◌, ◌<◌, length, OnOk, OnErr};
    ghost use Rattle.lrpar_table_shared_stacks.specs.SharedStacks.{Extends, ReplacesCurrent, current_stack};

    ghost states = { λ s. current_stack s };

    ghost suits = { λ _ _ _. Unit {0} };

    ghost can_reduce = { λ _ _ _ _. Unit {0} };

    ghost reduces = { λ old _ _ _ new. Extends old new };

    ghost fails = { λ old _ new. new ≡ old };

    ghost due_can = { λ g table t stack p after suit due. tt };

    ghost reduced_suits = { λ g table t old p new suit reduces. tt };

    fn height(&self) -> usize {
        self.height_of(self.below) + self.len_above()
    }

    fn top(&self) -> StIdx<StorageT> {
        match self.above.last() {
            Some(top) => *top,
            None => self.top_state(self.below),
        }
    }

    fn state_at(&self, at: usize) -> StIdx<StorageT> {
        let lower = self.height_of(self.below);
        if at < lower {
            self.top_state(self.number_below(self.below, lower - at - 1))
        } else {
            self.above[at - lower]
        }
    }

    fn reduce(&mut self, by: Reduction<StorageT>) -> Result<(), AllocError>
        requires deep { by.symbols < length (current_stack self.old) }
        ensures states { OnOk result (ReplacesCurrent StorageT.index by.symbols by.next self.old self.new) }
        ensures reduces { OnOk result (Extends self.old self.new) }
        ensures unchanged { OnErr result (current_stack self.new ≡ current_stack self.old) }
        ensures fails { OnErr result (self.new ≡ self.old) }
    {
        let (below, left) = self.part_left(by.symbols);
        self.above.reserve(1)?;
        self.below = below;
        self.above.truncate(left);
        self.above.push_reserved(by.next);
        Ok(())
    }
}

impl<StorageT: StorageIndex> ShiftStack<StorageT> for SharedStacks<StorageT> {
    ghost use Rattle.std.specs.Prelude.{◌≡◌, OnOk, OnErr};
    ghost use Rattle.lrpar_table_shared_stacks.specs.SharedStacks.{Extends, PushesCurrent, current_stack};

    ghost shifts = { λ old new. Extends old new };

    ghost shift_fails = { λ old new. new ≡ old };

    fn shift(&mut self, next: StIdx<StorageT>) -> Result<(), AllocError>
        ensures states { OnOk result (PushesCurrent StorageT.index next self.old self.new) }
        ensures shifts { OnOk result (Extends self.old self.new) }
        ensures unchanged { OnErr result (current_stack self.new ≡ current_stack self.old) }
        ensures fails { OnErr result (self.new ≡ self.old) }
    {
        self.above.push(next)?;
        Ok(())
    }
}
