//! Rows in ascending order, each element once.
ghost use Rattle.std.specs.Prelude.{◌≡◌, ◌↔◌, true, IsTrue, OnOk};
ghost use Rattle.std.specs.List.{Contains};
ghost use Rattle.std.specs.List.Sorted.{IsStrictlySortedBy};
ghost use Rattle.lrpar_table_rows.specs.Ascending.{AddsElement, ComparesExactly, FindsOnlyIndex, HaveSame};

use std::alloc::AllocError;
use std::marker::Model;

/// Elements in ascending order, each once.
#[derive(Debug, Drop)]
pub(crate) struct Ascending<T: Ord> {
    elements: Vec<T>,
}

impl<T: Ord> Model for Ascending<T> {
    ghost use Rattle.std.specs.Prelude.{List};
    ghost use Rattle.lrpar_table_rows.specs.Ascending.{IsAscending};

    ghost Value = { List T };

    ghost view = { λ row. row.elements.items };

    ghost invariant = { λ row. IsAscending T.cmp row.elements.items };
}

impl<T: Ord + Drop> Ascending<T> {
    /// The row of these elements, which are sorted in place.
    pub(crate) fn from_vec(elements: Vec<T>) -> Self
        requires exact { ComparesExactly T.cmp }
        ensures same { HaveSame result elements.items }
        ensures sorted { IsStrictlySortedBy T.cmp result }
    {
        let mut elements = elements;
        elements.sort_unstable();
        elements.dedup();
        Ascending { elements }
    }

    /// Whether the row has the element: a binary search.
    pub(crate) fn contains(&self, element: &T) -> bool
        ensures found { IsTrue result ↔ Contains self.now element.now }
    {
        self.elements.binary_search(element).is_ok()
    }

    /// The place of the element, if the row has it: a binary search.
    pub(crate) fn position(&self, element: &T) -> Option<usize>
        ensures { FindsOnlyIndex self.now element.now result }
    {
        self.elements.binary_search(element).ok()
    }

    /// The elements, ascending.
    pub(crate) fn as_slice(&self) -> &[T]
        ensures all { result.now ≡ self.now }
        ensures sorted { IsStrictlySortedBy T.cmp self.now }
    {
        &self.elements
    }
}

/// Appends the element, unless it is the last one already.
pub(crate) fn push_new<T: Eq + Drop>(row: &mut Vec<T>, element: T) -> Result<(), AllocError>
    requires exact { (x y : T) → T.PartialEq.eq x y ≡ true → x ≡ y }
    ensures same { OnOk result (AddsElement element row.old row.new) }
{
    if row.last() == Some(&element) {
        return Ok(());
    }
    row.push(element)?;
    Ok(())
}
