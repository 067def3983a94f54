//! Packed rows: the place of a key in its row, by one load and one compare.
ghost use Rattle.std.specs.Prelude.{◌≡◌, ◌<◌, ◌≤◌, ◌^◌, ◌+◌, IfOk, IfSome, IsTrue, length};
ghost use Rattle.lrpar_table_rows.specs.Entries.{key_numbers};
ghost use Rattle.lrpar_table_rows.specs.Packed.{AreAllPut, AreFree, AreOwned, ArePacked, AreShared, FindsSlot, IsBaseOf, IsFreeAt, IsShared, PutsSlot, row_keys};

use crate::bases::bases_of;
use crate::key::Key;
use crate::slots::{Base, Slot};
use std::alloc::{AllocError, Global};

/// Rows of keys in one list of slots, by row displacement: each row has an offset, and the slot at the offset plus the number
/// of a key says whether the row has the key, and at which place. Rows with the same keys share their slots; the slots of
/// others don't meet. A row without a base isn't packed.
#[derive(Debug, Drop)]
pub(crate) struct Packed {
    bases: Vec<Base>,
    slots: Vec<Slot>,
}

impl Packed {
    /// These rows, packed into at most `most` slots. If they don't fit into so many, none is packed.
    pub(crate) fn of_rows<K: Key, V>(
        alloc: Global,
        rows: &[Vec<(K, V)>],
        most: usize,
    ) -> Result<Self, AllocError>
        ensures packed { IfOk result (λ packed. ArePacked K.number rows.now packed.bases.items packed.slots) }
        ensures few { IfOk result (λ packed. length packed.slots.items ≤ most) }
    {
        let (bases, len) = bases_of(alloc, rows, most)?;
        match filled(alloc, rows, &bases, len.min(most))? {
            Some(slots) => Ok(Packed { bases, slots }),
            None => Ok(Packed {
                bases: Vec::new(alloc),
                slots: Vec::new(alloc),
            }),
        }
    }

    /// The base of the row, if it is packed.
    #[inline]
    pub(crate) fn base(&self, row: usize) -> Option<Base>
        ensures { IfSome result (IsBaseOf self.now.bases row) }
    {
        match self.bases.get(row) {
            Some(base) => Some(*base),
            None => None,
        }
    }

    /// The place that the slot of the key of this number has, if the owner of the base owns it.
    #[inline]
    pub(crate) fn position(&self, base: Base, sought: usize) -> Option<usize>
        requires { sought < 2 ^ 32 }
        ensures { FindsSlot self.now.slots base sought result }
    {
        match self.slots.get(base.offset as usize + sought) {
            Some(slot) if slot.owner == base.owner => Some(slot.place as usize),
            _ => None,
        }
    }
}

/// `len` slots with the keys of all rows, if each key's slot is free when its turn comes, and rows that share slots have the
/// same keys.
fn filled<K: Key, V>(
    alloc: Global,
    rows: &[Vec<(K, V)>],
    bases: &[Base],
    len: usize,
) -> Result<Option<Vec<Slot>>, AllocError>
    ensures packed { IfOk result (λ made. IfSome made (ArePacked K.number rows.now bases.now)) }
    ensures len { IfOk result (λ made. IfSome made (λ slots. length slots.items ≡ len)) }
{
    let Ok(free) = u32::try_from(rows.len()) else {
        return Ok(None);
    };
    let slot = Slot {
        owner: free,
        place: 0,
    };
    let mut slots = vec![in alloc; slot; len]?;
    if bases.len() == rows.len()
        && put_rows(&mut slots, free, bases, rows)
        && are_shared(bases, rows)
    {
        Ok(Some(slots))
    } else {
        Ok(None)
    }
}

/// Puts the keys of each row that owns slots into its slots. Returns false if a slot isn't free.
fn put_rows<K: Key, V>(slots: &mut [Slot], free: u32, bases: &[Base], rows: &[Vec<(K, V)>]) -> bool
    requires len { length bases.now ≡ length rows.now }
    requires number { length rows.now ≡ free }
    requires free { AreFree free slots.old }
    ensures { IsTrue result → AreOwned (row_keys K.number rows.now) bases.now slots.new free free }
{
    for (number, row) in rows.iter().enumerate() {
        let base = bases[number];
        if base.owner as usize == number && !put_row(slots, free, base, row) {
            return false;
        }
    }
    true
}

/// Puts the keys of the row into their slots. Returns false if a slot isn't free.
fn put_row<K: Key, V>(slots: &mut [Slot], free: u32, base: Base, row: &[(K, V)]) -> bool
    requires { base.owner < free }
    ensures { IsTrue result → AreAllPut (key_numbers K.number row.now) base free slots.old slots.new }
{
    for (place, entry) in row.iter().enumerate() {
        if !put_key(slots, free, base, entry.0.to_number(), place) {
            return false;
        }
    }
    true
}

/// Puts the key of this number, which has this place in its row, into its slot. Returns false if the slot isn't free.
fn put_key(slots: &mut [Slot], free: u32, base: Base, number: usize, place: usize) -> bool
    requires { number < 2 ^ 32 }
    ensures free { IsTrue result → IsFreeAt free slots.old (base.offset + number) }
    ensures put { IsTrue result → PutsSlot base number place slots.old slots.new }
{
    let index = base.offset as usize + number;
    let Ok(place) = u32::try_from(place) else {
        return false;
    };
    if index >= slots.len() || slots[index].owner != free {
        return false;
    }
    slots[index] = Slot {
        owner: base.owner,
        place,
    };
    true
}

/// Whether each row has the keys and the base of the row that owns its slots.
fn are_shared<K: Key, V>(bases: &[Base], rows: &[Vec<(K, V)>]) -> bool
    requires { length bases.now ≡ length rows.now }
    ensures { IsTrue result → AreShared (row_keys K.number rows.now) bases.now (length rows.now) }
{
    for (number, row) in rows.iter().enumerate() {
        if !is_shared(bases, rows, bases[number], row) {
            return false;
        }
    }
    true
}

/// Whether the owner of the base is a row with this base and these keys.
fn is_shared<K: Key, V>(bases: &[Base], rows: &[Vec<(K, V)>], base: Base, row: &[(K, V)]) -> bool
    requires { length bases.now ≡ length rows.now }
    ensures { IsTrue result → IsShared (row_keys K.number rows.now) bases.now base (key_numbers K.number row.now) }
{
    let number = base.owner as usize;
    if number >= rows.len() {
        return false;
    }
    let owner = bases[number];
    owner.offset == base.offset && owner.owner == base.owner && have_same_keys(&rows[number], row)
}

/// Whether both rows have the same keys in the same order.
pub(crate) fn have_same_keys<K: Key, V>(one: &[(K, V)], other: &[(K, V)]) -> bool
    ensures { IsTrue result → key_numbers K.number one.now ≡ key_numbers K.number other.now }
{
    if one.len() != other.len() {
        return false;
    }
    for place in 0..one.len() {
        if one[place].0.to_number() != other[place].0.to_number() {
            return false;
        }
    }
    true
}
