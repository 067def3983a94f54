//! A priority queue of numbered items.
ghost use Rattle.std.specs.Prelude.{◌≡◌, ◌↔◌, IfOk, IsTrue, OnOk};
ghost use Rattle.lrpar_conflict_derivations.specs.Queue.{AddsOne, IsEmptied, IsNew, KeepsItems, Looks, Pops};

use std::alloc::{AllocError, Global};

/// No number.
pub(crate) const NONE: usize = usize::MAX;

// How many keys, from the first one on, are distinguished.
const SLOTS: usize = 256;

/// Numbered items that wait, each with a key: one with the least key comes first, and of equals the one that was added last. It counts the
/// items that were popped, so it is empty only when each one was.
pub(crate) struct PriorityQueue {
    heads: Vec<usize>,
    nexts: Vec<usize>,
    base: usize,
    least: usize,
    popped: usize,
}

// A drop of its own, so that code that drops one elsewhere proves one call.
impl Drop for PriorityQueue {
    fn drop(self) {
        let PriorityQueue {
            heads,
            nexts,
            base: _,
            least: _,
            popped: _,
        } = self;
        drop(heads);
        drop(nexts);
    }
}

impl PriorityQueue {
    /// Nothing waits.
    pub(crate) fn new(alloc: Global) -> Result<Self, AllocError>
        ensures { IfOk result IsNew }
    {
        let mut heads = Vec::with_capacity(alloc, SLOTS)?;
        for _ in 0..SLOTS {
            heads.push(NONE)?;
        }
        Ok(PriorityQueue {
            heads,
            nexts: Vec::new(alloc),
            base: 0,
            least: SLOTS,
            popped: 0,
        })
    }

    /// Adds the next item, with this key.
    pub(crate) fn add(&mut self, key: usize) -> Result<(), AllocError>
        ensures added { OnOk result (AddsOne self.old self.new) }
        ensures kept { KeepsItems self.old self.new }
    {
        let number = self.nexts.len();
        if number == 0 {
            self.base = key;
        }
        let slot = key.saturating_sub(self.base).min(SLOTS - 1);
        self.nexts.push(head(&self.heads, slot))?;
        if slot < self.heads.len() {
            self.heads[slot] = number;
            self.least = self.least.min(slot);
        }
        Ok(())
    }

    /// How many items were added.
    pub(crate) fn len(&self) -> usize {
        self.nexts.len()
    }

    /// The least key of an item that waits, if one does.
    pub(crate) fn least(&self) -> Option<usize>
        ensures { Looks self.now result }
    {
        if self.popped < self.nexts.len() {
            Some(self.base.saturating_add(self.least))
        } else {
            None
        }
    }

    /// How many items were removed.
    pub(crate) fn popped(&self) -> usize
        ensures { result ≡ self.now.popped }
    {
        self.popped
    }

    /// Whether no item waits.
    pub(crate) fn is_empty(&self) -> bool
        ensures { IsTrue result ↔ IsEmptied self.now }
    {
        self.popped >= self.nexts.len()
    }

    /// Removes the item that comes first.
    pub(crate) fn pop(&mut self) -> Option<usize>
        ensures { Pops self.old self.new result }
    {
        if self.popped >= self.nexts.len() {
            return None;
        }
        self.popped += 1;
        let number = head(&self.heads, self.least);
        if self.least < self.heads.len() && number < self.nexts.len() {
            self.heads[self.least] = self.nexts[number];
            self.least = next_slot(&self.heads, self.least);
        }
        Some(number)
    }
}

/// The first item of the slot, or none.
pub(crate) fn head(heads: &[usize], slot: usize) -> usize {
    if slot < heads.len() {
        heads[slot]
    } else {
        NONE
    }
}

// The first slot, from this one on, that has an item, or the number of slots.
fn next_slot(heads: &[usize], from: usize) -> usize {
    for slot in from..heads.len() {
        if heads[slot] != NONE {
            return slot;
        }
    }
    heads.len()
}
