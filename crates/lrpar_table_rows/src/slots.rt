//! The parts of packed rows: bases and slots.

/// Where a row's keys have their slots: the slot of a key is at `offset` plus the key's number. `owner` is the number of the
/// first row with the same keys, which all rows with these keys share their slots with.
#[derive(Clone, Copy, Debug)]
pub(crate) struct Base {
    pub(crate) offset: u32,
    pub(crate) owner: u32,
}

/// A slot: the number of the row that owns it, and the place of its key in that row. The owner of a free slot is the number
/// of rows, which is no row's number.
#[derive(Clone, Copy, Debug)]
pub(crate) struct Slot {
    pub(crate) owner: u32,
    pub(crate) place: u32,
}
