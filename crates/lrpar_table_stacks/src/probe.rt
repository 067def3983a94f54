//! A stack over a borrowed overlay, to try tokens there: internal.
ghost use Rattle.std.specs.Prelude.{◌≡◌, ◌<◌, length, OnOk, OnErr};
ghost use Rattle.lrpar_table_stacks.specs.Expected.{IsSetBack, laid_over};
ghost use Rattle.lrpar_table_stacks.specs.Overlay.{overlaid};

use crate::overlay::Overlay;
use crate::state_stack::{Reduction, StateStack, put_at};
use lrpar_grammar::span::{StIdx, StorageIndex};
use std::alloc::{AllocError, Global};
use std::marker::Model;

/// The lower states of a borrowed overlay, its base, and above them states that it stores itself.
#[derive(Drop)]
pub struct Probe<'o, 'a, StorageT: StorageIndex> {
    base: &'o Overlay<'a, StorageT>,
    kept: usize,
    tail: Vec<StIdx<StorageT>>,
}

impl<'o, 'a, StorageT: StorageIndex> Model for Probe<'o, 'a, StorageT> {
    ghost use Rattle.std.specs.Prelude.{◌<◌, ◌≤◌, ◌+◌, ◌^◌, length, vec_capacity};
    ghost use Rattle.lrpar_table_stacks.specs.Stack.{states_of};
    ghost use Rattle.lrpar_table_stacks.specs.Overlay.{Overlaid, overlaid};

    ghost Value = { Overlaid };

    ghost view = { λ p. record { base = overlaid p.base.now; kept = p.kept; tail = states_of StorageT.index p.tail.items; room = vec_capacity p.tail } };

    ghost invariant = { λ p. (0 < p.kept) × (p.kept ≤ length (overlaid p.base.now)) × (p.kept + length p.tail.items < 2 ^ 64) };
}

impl<'o, 'a, StorageT: StorageIndex> Probe<'o, 'a, StorageT> {
    /// The states of the base. It doesn't allocate; the allocator is for later states.
    pub fn new(alloc: Global, base: &'o Overlay<'a, StorageT>) -> Self
        requires { 0 < length (overlaid base.now) }
        ensures { result ≡ laid_over (overlaid base.now) 0 }
    {
        Probe {
            base,
            kept: base.len(),
            tail: Vec::new(alloc),
        }
    }

    /// Sets it back to the states of the base. It neither allocates nor frees memory.
    pub fn set_back(&mut self)
        ensures { IsSetBack self.old self.new }
    {
        self.kept = self.base.len();
        self.tail.clear();
    }
}

impl<'o, 'a, StorageT: StorageIndex> StateStack<StorageT> for Probe<'o, 'a, StorageT> {
    ghost use Rattle.std.specs.Prelude.{◌≡◌, ◌<◌, length, OnOk, OnErr};
    ghost use Rattle.lrpar_table_stacks.specs.Overlay.{OverlayFails, OverlayReduces, ReplacesOver, overlaid};

    ghost states = { λ p. overlaid p };

    ghost suits = { λ _ _ _. Unit {0} };

    ghost can_reduce = { λ _ _ _ _. Unit {0} };

    ghost reduces = { λ old _ _ symbols new. OverlayReduces old symbols new };

    ghost fails = { λ old symbols new. OverlayFails old symbols new };

    ghost due_can = { λ g table t stack p after suit due. tt };

    ghost reduced_suits = { λ g table t old p new suit reduces. tt };

    fn height(&self) -> usize {
        self.kept + self.tail.len()
    }

    fn top(&self) -> StIdx<StorageT> {
        self.state_at(self.height() - 1)
    }

    fn state_at(&self, at: usize) -> StIdx<StorageT> {
        if at < self.kept {
            self.base.state_at(at)
        } else {
            self.tail[at - self.kept]
        }
    }

    fn reduce(&mut self, by: Reduction<StorageT>) -> Result<(), AllocError>
        requires deep { by.symbols < length (overlaid self.old) }
        ensures states { OnOk result (ReplacesOver StorageT.index by.symbols by.next self.old self.new) }
        ensures reduces { OnOk result (OverlayReduces self.old by.symbols self.new) }
        ensures unchanged { OnErr result (overlaid self.new ≡ overlaid self.old) }
        ensures fails { OnErr result (OverlayFails self.old by.symbols self.new) }
    {
        let left = self.height() - by.symbols;
        if left == usize::MAX {
            return Err(AllocError);
        }
        put_at(&mut self.tail, left.saturating_sub(self.kept), by.next)?;
        self.kept = self.kept.min(left);
        Ok(())
    }
}
