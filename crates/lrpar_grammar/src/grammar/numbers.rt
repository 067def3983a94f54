//! The numbers of rules, productions and tokens, ascending.
ghost use Rattle.std.specs.Prelude.{◌≡◌, ◌-◌, ◌≤◌};
ghost use Rattle.std.specs.Iterator.{YieldsFirstBy, item_count};
ghost use Rattle.std.specs.List.{range_with_len};

use lrpar_grammar_places::span::{Numbered, StorageIndex};
use std::marker::{Model, PhantomData};

/// Numbers of one kind, of rules, productions or tokens, in ascending order.
#[derive(Debug, Drop)]
pub struct Numbers<StorageT: StorageIndex, I: Numbered<StorageT>> {
    next: usize,
    end: usize,
    kind: PhantomData<(StorageT, I)>,
}

impl<StorageT: StorageIndex, I: Numbered<StorageT>> Model for Numbers<StorageT, I> {
    ghost use Rattle.std.specs.Prelude.{◌-◌, ◌≤◌, ℕ, List};
    ghost use Rattle.std.specs.List.{range_with_len};

    ghost Value = { List ℕ };

    ghost view = { λ s. range_with_len s.next (s.end - s.next) };

    ghost invariant = { λ s. s.end ≤ StorageT.limit };
}

impl<StorageT: StorageIndex, I: Numbered<StorageT>> Numbers<StorageT, I> {
    // The numbers below `end`.
    pub(super) fn below(end: usize) -> Self
        requires { end ≤ StorageT.limit }
        ensures { result ≡ range_with_len 0 end }
    {
        Numbers {
            next: 0,
            end,
            kind: PhantomData,
        }
    }
}

impl<StorageT: StorageIndex, I: Numbered<StorageT>> Iterator for Numbers<StorageT, I> {
    type Item = I;

    ghost next_gives = { YieldsFirstBy I.number (λ s. s) };

    ghost remaining = { item_count (λ s. s) };

    fn next(&mut self) -> Option<I> {
        if self.next >= self.end {
            return None;
        }
        let number = StorageT::from_index(self.next)?;
        self.next += 1;
        Some(I::numbered(number))
    }
}
