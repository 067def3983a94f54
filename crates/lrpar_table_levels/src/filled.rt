//! Slots for precedences, one for each token or production, filled from entries.
ghost use Rattle.std.specs.Prelude.{◌≡◌, IfNone, IfOk, IfSome, length};
ghost use Rattle.lrpar_table_levels.specs.Filled.{AreEmpty, AreFilled, HasSlotsFor, IsTwiceIn};

use lrpar_table_precedence::precedence::Precedence;
use std::alloc::{AllocError, Global};

// So many empty slots.
pub(crate) fn empty_slots(alloc: Global, len: usize) -> Result<Vec<Option<Precedence>>, AllocError>
    ensures len { IfOk result (λ slots. length slots.items ≡ len) }
    ensures empty { IfOk result (λ slots. AreEmpty slots.items) }
{
    let mut slots = Vec::with_capacity(alloc, len)?;
    for _ in 0..len {
        slots.push(None)?;
    }
    Ok(slots)
}

// Puts each entry into the slot of its number. It returns the first number that an entry before it has too, if there is one.
pub(crate) fn fill(
    slots: &mut [Option<Precedence>],
    entries: &[(usize, Precedence)],
) -> Option<usize>
    requires within { HasSlotsFor entries.now slots.old }
    requires empty { AreEmpty slots.old }
    ensures filled { IfNone result (AreFilled entries.now slots.new) }
    ensures twice { IfSome result (IsTwiceIn entries.now) }
{
    for entry in entries {
        let (number, precedence) = *entry;
        if slots[number].is_some() {
            return Some(number);
        }
        slots[number] = Some(precedence);
    }
    None
}
