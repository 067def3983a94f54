//! A stack of states over a borrowed one. It can reduce and shift, and the borrowed one stays as it is.
ghost use Rattle.std.specs.Prelude.{◌≡◌, ◌<◌, ◌≤◌, length, OnOk, OnErr, IfOk};
ghost use Rattle.lrpar_table_stacks.specs.Expected.{IsSetBack};
ghost use Rattle.lrpar_table_stacks.specs.Stack.{states_of};

use crate::state_stack::{Reduction, ShiftStack, StateStack, push_on, put_at};
use lrpar_grammar::span::{StIdx, StorageIndex};
use std::alloc::{AllocError, Global};
use std::marker::Model;

/// A list of states that begins with the lower states of a borrowed list, its base, and goes on with states that it stores itself.
#[derive(Debug, Drop)]
pub struct Overlay<'a, StorageT: StorageIndex> {
    base: &'a [StIdx<StorageT>],
    kept: usize,
    tail: Vec<StIdx<StorageT>>,
}

impl<'a, StorageT: StorageIndex> Model for Overlay<'a, StorageT> {
    ghost use Rattle.std.specs.Prelude.{◌<◌, ◌≤◌, ◌+◌, ◌^◌, length, vec_capacity};
    ghost use Rattle.lrpar_table_stacks.specs.Stack.{states_of};
    ghost use Rattle.lrpar_table_stacks.specs.Overlay.{Overlaid};

    ghost Value = { Overlaid };

    ghost view = { λ o. record { base = states_of StorageT.index o.base.now; kept = o.kept; tail = states_of StorageT.index o.tail.items; room = vec_capacity o.tail } };

    ghost invariant = { λ o. (0 < o.kept) × (o.kept ≤ length o.base.now) × (o.kept + length o.tail.items < 2 ^ 64) };
}

impl<'a, StorageT: StorageIndex> Overlay<'a, StorageT> {
    ghost use Rattle.lrpar_table_stacks.specs.Overlay.{IsTopOver, Represents, laid_on, overlaid};

    /// The states of the base. It doesn't allocate; the allocator is for later states.
    pub fn new(alloc: Global, base: &'a [StIdx<StorageT>]) -> Self
        requires { 0 < length base.now }
        ensures made { result ≡ laid_on StorageT.index base.now }
        ensures states { Represents StorageT.index result base.now }
    {
        Overlay {
            base,
            kept: base.len(),
            tail: Vec::new(alloc),
        }
    }

    /// The number of states.
    pub fn len(&self) -> usize
        ensures { result ≡ length (overlaid self.now) }
    {
        self.kept + self.tail.len()
    }

    /// The top state.
    pub fn top(&self) -> StIdx<StorageT>
        ensures { IsTopOver StorageT.index self.now result }
    {
        match self.tail.last() {
            Some(top) => *top,
            None => self.base[self.kept - 1],
        }
    }

    /// The number of states of the base that are still there: the base's number of states, or the least number that a reduction
    /// left, if that was less.
    pub fn kept(&self) -> usize
        ensures kept { result ≡ self.now.kept }
        ensures some { 0 < result }
        ensures within { result ≤ length self.now.base }
    {
        self.kept
    }

    /// The states as a new list, bottom first.
    pub fn to_vec(&self) -> Result<Vec<StIdx<StorageT>>, AllocError>
        ensures { IfOk result (λ states. states_of StorageT.index states.items ≡ overlaid self.now) }
    {
        let mut states = Vec::with_capacity(*self.tail.allocator(), self.len())?;
        states.extend_from_slice(&self.base[..self.kept])?;
        states.extend_from_slice(&self.tail)?;
        Ok(states)
    }

    /// Sets it back to the states of the base. It neither allocates nor frees memory.
    pub fn set_back(&mut self)
        ensures made { IsSetBack self.old self.new }
        ensures states { overlaid self.new ≡ self.old.base }
    {
        self.kept = self.base.len();
        self.tail.clear();
    }
}

impl<'a, StorageT: StorageIndex> StateStack<StorageT> for Overlay<'a, StorageT> {
    ghost use Rattle.std.specs.Prelude.{◌≡◌, ◌<◌, length, OnOk, OnErr};
    ghost use Rattle.lrpar_table_stacks.specs.Overlay.{OverlayFails, OverlayReduces, ReplacesOver, overlaid};

    ghost states = { λ o. overlaid o };

    ghost suits = { λ _ _ _. Unit {0} };

    ghost can_reduce = { λ _ _ _ _. Unit {0} };

    ghost reduces = { λ old _ _ symbols new. OverlayReduces old symbols new };

    ghost fails = { λ old symbols new. OverlayFails old symbols new };

    ghost due_can = { λ g table t stack p after suit due. tt };

    ghost reduced_suits = { λ g table t old p new suit reduces. tt };

    fn height(&self) -> usize {
        self.len()
    }

    fn top(&self) -> StIdx<StorageT> {
        self.top()
    }

    fn state_at(&self, at: usize) -> StIdx<StorageT> {
        if at < self.kept {
            self.base[at]
        } else {
            self.tail[at - self.kept]
        }
    }

    fn reduce(&mut self, by: Reduction<StorageT>) -> Result<(), AllocError>
        requires deep { by.symbols < length (overlaid self.old) }
        ensures states { OnOk result (ReplacesOver StorageT.index by.symbols by.next self.old self.new) }
        ensures reduces { OnOk result (OverlayReduces self.old by.symbols self.new) }
        ensures unchanged { OnErr result (overlaid self.new ≡ overlaid self.old) }
        ensures fails { OnErr result (OverlayFails self.old by.symbols self.new) }
    {
        let left = self.len() - by.symbols;
        if left == usize::MAX {
            return Err(AllocError);
        }
        put_at(&mut self.tail, left.saturating_sub(self.kept), by.next)?;
        self.kept = self.kept.min(left);
        Ok(())
    }
}

impl<'a, StorageT: StorageIndex> ShiftStack<StorageT> for Overlay<'a, StorageT> {
    ghost use Rattle.std.specs.Prelude.{◌≡◌, OnOk, OnErr};
    ghost use Rattle.lrpar_table_stacks.specs.Overlay.{OverlayShifts, OverlayStays, PushesOver, overlaid};

    ghost shifts = { λ old new. OverlayShifts old new };

    ghost shift_fails = { λ old new. OverlayStays old new };

    fn shift(&mut self, next: StIdx<StorageT>) -> Result<(), AllocError>
        ensures states { OnOk result (PushesOver StorageT.index next self.old self.new) }
        ensures shifts { OnOk result (OverlayShifts self.old self.new) }
        ensures unchanged { OnErr result (overlaid self.new ≡ overlaid self.old) }
        ensures fails { OnErr result (OverlayStays self.old self.new) }
    {
        if self.len() == usize::MAX {
            return Err(AllocError);
        }
        push_on(&mut self.tail, next)
    }
}
