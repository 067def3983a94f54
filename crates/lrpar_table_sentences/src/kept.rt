//! Lists of what is kept, one entry for each rule or state.
ghost use Rattle.std.specs.Prelude.{IfOk};
ghost use Rattle.lrpar_table_sentences.specs.Kept.{KeepsNothing};

use std::alloc::{AllocError, Global};

/// A list that has nothing for each of this number of rules or states.
pub(crate) fn nothing_kept<T: Copy>(
    alloc: Global,
    count: usize,
) -> Result<Vec<Option<T>>, AllocError>
    ensures { IfOk result (KeepsNothing count) }
{
    let mut kept = Vec::with_capacity(alloc, count)?;
    for _ in 0..count {
        kept.push(None)?;
    }
    Ok(kept)
}
