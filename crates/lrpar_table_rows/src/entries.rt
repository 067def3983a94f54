//! Rows of entries, laid out for a look-up of their keys.
ghost use Rattle.std.specs.Prelude.{◌≡◌, ◌<◌, ◌≤◌, ◌+◌, ◌++◌, IfOk, OnOk, length, map, slice_range, sum_by, zip};
ghost use Rattle.std.specs.List.Sorted.{IsStrictlyIncreasing};
ghost use Rattle.lrpar_table_rows.specs.Entries.{FindsEntry, FindsKey, FindsValue, KeysAscend, StoresRows, entries_of, row_at};

use crate::key::Key;
use crate::packed::Packed;
use std::alloc::{AllocError, Global};
use std::marker::Model;

/// How many slots packed rows may have for each entry.
const SLOTS_OF_AN_ENTRY: usize = 2;

/// Rows of entries, each a key with its value. All keys are in one list, row after row, and the values in another. Packed rows
/// show the place of a key in its row; rows that aren't packed are searched.
#[derive(Debug, Drop)]
pub(crate) struct Entries<K: Key, V> {
    starts: Vec<usize>,
    keys: Vec<K>,
    values: Vec<V>,
    packed: Packed,
}

impl<K: Key, V> Model for Entries<K, V> {
    ghost use Rattle.std.specs.Prelude.{List, map, zip};
    ghost use Rattle.lrpar_table_rows.specs.Entries.{AreParts, cut};
    ghost use Rattle.lrpar_table_rows.specs.Packed.{IsPacked};

    ghost Value = { List (List (K × V)) };

    ghost view = { λ e. cut e.starts.items (zip e.keys.items e.values.items) };

    ghost invariant = { λ e. AreParts e.starts.items e.keys.items e.values.items
        × IsPacked (map (λ row. map (λ entry. K.number entry.0) row) (cut e.starts.items (zip e.keys.items e.values.items))) e.packed.bases.items e.packed.slots.items };
}

impl<K: Key, V: Copy> Entries<K, V> {
    /// The entries of these rows, which are copied.
    pub(crate) fn from_rows(alloc: Global, rows: &[Vec<(K, V)>]) -> Result<Self, AllocError>
        ensures { IfOk result (StoresRows rows.now) }
    {
        let mut starts = Vec::with_capacity(alloc, rows.len() + 1)?;
        starts.push(0)?;
        let mut keys = Vec::new(alloc);
        let mut values = Vec::new(alloc);
        for row in rows {
            push_row(&mut keys, &mut values, row)?;
            starts.push(keys.len())?;
        }
        let most = keys.len().saturating_mul(SLOTS_OF_AN_ENTRY);
        let packed = Packed::of_rows(alloc, rows, most)?;
        Ok(Entries {
            starts,
            keys,
            values,
            packed,
        })
    }

    /// The number of rows.
    pub(crate) fn rows_len(&self) -> usize
        ensures { result ≡ length self.now }
    {
        self.starts.len() - 1
    }

    /// The number of entries of all rows.
    pub(crate) fn len(&self) -> usize
        ensures { result ≡ sum_by (λ row. length row) self.now }
    {
        self.keys.len()
    }

    /// The keys of a row, and their values, in the same order.
    #[inline]
    pub(crate) fn row(&self, number: usize) -> (&[K], &[V])
        requires { number < length self.now }
        ensures entries { zip result.0.now result.1.now ≡ row_at self.now number }
        ensures values { length result.1.now ≡ length result.0.now }
        ensures len { length result.1.now ≡ length (row_at self.now number) }
    {
        let start = self.starts[number];
        let end = self.starts[number + 1];
        parts(&self.keys, &self.values, start, end)
    }

    /// The value of the key in the row, if the row has the key. The keys of the row have to ascend.
    #[inline]
    pub(crate) fn value_of(&self, number: usize, key: K) -> Option<V>
        requires row { number < length self.now }
        requires ascending { KeysAscend K.number (row_at self.now number) }
        ensures { FindsValue K.number (row_at self.now number) key result }
    {
        match self.position_of(number, key) {
            Some(place) => Some(self.row(number).1[place]),
            None => None,
        }
    }

    /// The place of the key in the row, if the row has the key. The keys of the row have to ascend. If the row is packed, its
    /// slot shows the place; otherwise it is a binary search.
    #[inline]
    fn position_of(&self, number: usize, key: K) -> Option<usize>
        requires row { number < length self.now }
        requires ascending { KeysAscend K.number (row_at self.now number) }
        ensures { FindsEntry K.number (row_at self.now number) key result }
    {
        match self.packed.base(number) {
            Some(own) => self.packed.position(own, key.to_number()),
            None => searched(self.row(number).0, key.to_number()),
        }
    }
}

/// The part from `start` to `end` of both lists.
#[inline]
fn parts<'a, K, V>(keys: &'a [K], values: &'a [V], start: usize, end: usize) -> (&'a [K], &'a [V])
    requires up { start ≤ end }
    requires within { end ≤ length keys.now }
    requires paired { length values.now ≡ length keys.now }
    ensures keys { result.0.now ≡ slice_range keys.now start end }
    ensures values { result.1.now ≡ slice_range values.now start end }
    ensures paired { length result.1.now ≡ length result.0.now }
{
    (&keys[start..end], &values[start..end])
}

/// Appends the keys of the row, and their values.
fn push_row<K: Copy, V: Copy>(
    keys: &mut Vec<K>,
    values: &mut Vec<V>,
    row: &[(K, V)],
) -> Result<(), AllocError>
    requires { length values.old.items ≡ length keys.old.items }
    ensures values { OnOk result (length values.new.items ≡ length keys.new.items) }
    ensures len { OnOk result (length keys.new.items ≡ length keys.old.items + length row.now) }
    ensures entries { OnOk result (entries_of keys.new values.new ≡ entries_of keys.old values.old ++ row.now) }
{
    for (key, value) in row {
        keys.push(*key)?;
        values.push(*value)?;
    }
    Ok(())
}

/// The place of the key of this number, if it is one of the keys, which ascend: a binary search. It halves the part that is
/// left until one key is left, without a branch on a comparison until then. It isn't inlined, as packed rows don't come here.
#[inline(never)]
fn searched<K: Key>(keys: &[K], sought: usize) -> Option<usize>
    requires { IsStrictlyIncreasing (map K.number keys.now) }
    ensures { FindsKey K.number keys.now sought result }
{
    let mut base = 0;
    let mut size = keys.len();
    while size > 1 {
        let half = size / 2;
        let middle = base + half;
        base = if keys[middle].to_number() <= sought {
            middle
        } else {
            base
        };
        size -= half;
    }
    if size == 1 && keys[base].to_number() == sought {
        Some(base)
    } else {
        None
    }
}
