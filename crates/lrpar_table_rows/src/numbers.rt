//! Counts that a storage type can number.
ghost use Rattle.std.specs.Prelude.{◌≤◌, ◌↔◌, IsTrue};

use lrpar_grammar::span::StorageIndex;

/// Whether `StorageT` has at least `count` numbers.
pub(crate) fn can_number<StorageT: StorageIndex>(count: usize) -> bool
    ensures { IsTrue result ↔ (count ≤ StorageT.limit) }
{
    match count.checked_sub(1) {
        None => true,
        Some(last) => StorageT::from_index(last).is_some(),
    }
}
