//! The items of the states, as sets for a state graph.
ghost use Rattle.std.specs.Prelude.{IfOk};
ghost use Rattle.lrpar_table_items.specs.StoredRows.{AreItemSets};

use crate::items::core_rows;
use crate::item_set::State;
use lrpar_grammar::grammar::YaccGrammar;
use lrpar_grammar::span::StorageIndex;
use lrpar_table_rows::table::ItemSet;
use std::alloc::{AllocError, Global};

/// The items of each state. After an `Err` nothing is left of them.
pub fn item_sets<StorageT: StorageIndex>(
    alloc: Global,
    grm: &YaccGrammar<StorageT>,
    states: &[State<StorageT>],
) -> Result<Vec<ItemSet<StorageT>>, AllocError>
    ensures { IfOk result (AreItemSets StorageT.index grm.now states.now) }
{
    let mut sets = Vec::with_capacity(alloc, states.len())?;
    for state in states {
        let rows = core_rows(alloc, grm, &state.items)?;
        let set = ItemSet::from_rows(alloc, &rows)?;
        sets.push(set)?;
    }
    Ok(sets)
}
