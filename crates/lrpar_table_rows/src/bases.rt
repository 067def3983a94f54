//! Bases for packed rows: which rows have the same keys, and at which offset a row's keys meet no other row's keys. It is a
//! guess: the rows are packed only if their slots turn out to be free, so nothing rests on it.
use crate::key::Key;
use crate::slots::Base;
use std::alloc::{AllocError, Global};

/// How many offsets are tried for a row.
const TRIES: usize = 256;

/// How many rows are compared with a row, to find one with the same keys.
const PROBES: usize = 8;

/// A factor that spreads the numbers of keys over all fingerprints.
const PRIME: u64 = 0x100_0000_01b3;

/// The bases for the rows, and how many slots they need. If these are more than `most`, later rows have no base.
pub(crate) fn bases_of<K: Key, V>(
    alloc: Global,
    rows: &[Vec<(K, V)>],
    most: usize,
) -> Result<(Vec<Base>, usize), AllocError> {
    let mut firsts = Firsts::new(alloc, rows.len())?;
    let mut occupied = Occupied::new(alloc);
    let bases = find_bases(alloc, rows, most, &mut firsts, &mut occupied)?;
    Ok((bases, occupied.slots.len()))
}

/// The bases for the rows up to the first one that doesn't fit.
fn find_bases<K: Key, V>(
    alloc: Global,
    rows: &[Vec<(K, V)>],
    most: usize,
    firsts: &mut Firsts,
    occupied: &mut Occupied,
) -> Result<Vec<Base>, AllocError> {
    let mut bases: Vec<Base> = Vec::with_capacity(alloc, rows.len())?;
    for (number, row) in rows.iter().enumerate() {
        let owner = firsts.find_first_with(fingerprint(row), number);
        let offset = match bases.get(owner) {
            Some(base) => Some(base.offset),
            None => occupied.fit_row(row, most)?,
        };
        let (Some(offset), Ok(owner)) = (offset, u32::try_from(owner)) else {
            return Ok(bases);
        };
        bases.push(Base { offset, owner })?;
    }
    Ok(bases)
}

/// A number that depends on all keys of the row.
fn fingerprint<K: Key, V>(row: &[(K, V)]) -> u64 {
    let mut mixed = row.len() as u64;
    for (key, _) in row {
        mixed = (mixed ^ key.to_number() as u64).wrapping_mul(PRIME);
    }
    mixed
}

/// A row that was met, by its fingerprint.
#[derive(Clone, Copy)]
struct Met {
    fingerprint: u64,
    row: usize,
}

/// The first row with each fingerprint, in a list with open addressing.
#[derive(Drop)]
struct Firsts {
    met: Vec<Option<Met>>,
}

impl Firsts {
    /// No rows, with room for this many.
    fn new(alloc: Global, rows: usize) -> Result<Self, AllocError> {
        let met = vec![in alloc; None; rows.saturating_mul(2)]?;
        Ok(Firsts { met })
    }

    /// The first row that was met with this fingerprint. If none is found, it is this row.
    fn find_first_with(&mut self, fingerprint: u64, row: usize) -> usize {
        let len = self.met.len();
        if len == 0 {
            return row;
        }
        let start = (fingerprint % len as u64) as usize;
        for probe in 0..PROBES {
            let place = start.saturating_add(probe);
            match self.met.get(place) {
                Some(Some(met)) if met.fingerprint == fingerprint => return met.row,
                Some(Some(_)) => {}
                Some(None) => {
                    self.met[place] = Some(Met { fingerprint, row });
                    return row;
                }
                None => return row,
            }
        }
        row
    }
}

/// The slots that rows have taken. All slots before `front` are taken, or given up.
#[derive(Drop)]
struct Occupied {
    slots: Vec<bool>,
    front: usize,
}

impl Occupied {
    /// No slots.
    fn new(alloc: Global) -> Self {
        Occupied {
            slots: Vec::new(alloc),
            front: 0,
        }
    }

    /// Occupies slots for the keys of the row, and returns its offset, if there are at most `most` slots then.
    fn fit_row<K: Key, V>(
        &mut self,
        row: &[(K, V)],
        most: usize,
    ) -> Result<Option<u32>, AllocError> {
        let (Some(first), Some(last)) = (row.first(), row.last()) else {
            return Ok(Some(0));
        };
        let offset = self.find_offset(row, first.0.to_number());
        let end = offset.saturating_add(last.0.to_number()).saturating_add(1);
        if end > most {
            return Ok(None);
        }
        self.occupy(row, offset, end)?;
        Ok(u32::try_from(offset).ok())
    }

    /// The first offset, of those that are tried, at which the keys meet no slot that is taken; otherwise one past them all.
    /// Then half of the slots that were left are given up, so that the next rows aren't tried there.
    fn find_offset<K: Key, V>(&mut self, row: &[(K, V)], first: usize) -> usize {
        let start = self.front.max(first);
        for step in 0..TRIES {
            let offset = start.saturating_add(step).saturating_sub(first);
            if self.fits(row, offset) {
                return offset;
            }
        }
        let left = self.slots.len().saturating_sub(self.front);
        self.front = self.front.saturating_add(left / 2);
        self.slots.len().saturating_sub(first)
    }

    /// Whether the keys meet no slot that is taken.
    fn fits<K: Key, V>(&self, row: &[(K, V)], offset: usize) -> bool {
        for (key, _) in row {
            if self.is_occupied(offset.saturating_add(key.to_number())) {
                return false;
            }
        }
        true
    }

    /// Whether the slot is taken.
    fn is_occupied(&self, slot: usize) -> bool {
        match self.slots.get(slot) {
            Some(slot) => *slot,
            None => false,
        }
    }

    /// Occupies the slots of the keys, of which `end` is past the last one, and moves on to the first slot that is free.
    fn occupy<K: Key, V>(
        &mut self,
        row: &[(K, V)],
        offset: usize,
        end: usize,
    ) -> Result<(), AllocError> {
        for _ in self.slots.len()..end {
            self.slots.push(false)?;
        }
        for (key, _) in row {
            let slot = offset.saturating_add(key.to_number());
            if slot < self.slots.len() {
                self.slots[slot] = true;
            }
        }
        for _ in 0..row.len() {
            if self.is_occupied(self.front) {
                self.front = self.front.saturating_add(1);
            }
        }
        Ok(())
    }
}
