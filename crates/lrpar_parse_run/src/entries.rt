//! The entries on the stack of a run, one for each symbol.
ghost use Rattle.std.specs.Prelude.{◌≡◌, ◌∷◌, [], List};

use std::alloc::Global;

/// The entries on the stack of a run, in any form that contracts can see as a list. Most builders have a list.
pub trait Entries: Drop {
    /// An entry.
    type Entry: Drop;

    /// The entries, the lowest first.
    ghost as_list: { Self → List Self.Entry };

    /// No entries.
    fn none(alloc: Global) -> Self
        ensures { as_list result ≡ [] };

    /// The entry, if there is one only.
    fn into_entry(self) -> Self::Entry
        requires { (e : Self.Entry) × (as_list self ≡ e ∷ []) }
        ensures { as_list self ≡ result ∷ [] };
}

impl<E: Drop> Entries for Vec<E> {
    type Entry = E;

    ghost as_list = { λ entries. entries.items };

    fn none(alloc: Global) -> Vec<E> {
        Vec::new(alloc)
    }

    fn into_entry(mut self) -> E {
        match self.pop() {
            Some(entry) => entry,
            None => unreachable!(),
        }
    }
}
