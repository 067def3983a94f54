//! The states to which transitions lead: their kernels and their transitions are kept.
ghost use Rattle.std.specs.Prelude.{◌≡◌, ◌≤◌, IfOk, length};
ghost use Rattle.lrpar_table_merge.specs.StoredKernels.{KeepCores};

use crate::held::Transitions;
use lrpar_grammar::span::StorageIndex;
use lrpar_table_items::cores::{CoreItems, copied};
use std::alloc::{AllocError, Global};

/// Which states transitions lead to, from state 0.
pub(crate) fn reached(alloc: Global, all: &[Transitions]) -> Result<Vec<bool>, AllocError>
    ensures { IfOk result (λ marks. length marks.items ≡ length all.now) }
{
    let mut marks = vec![in alloc; false; all.len()]?;
    if let Some(start) = marks.get_mut(0) {
        *start = true;
    }
    for _ in 0..all.len() {
        if !mark_all(all, &mut marks) {
            break;
        }
    }
    Ok(marks)
}

// Marks the states to which those with a mark go. Returns whether any of them had none.
fn mark_all(all: &[Transitions], marks: &mut Vec<bool>) -> bool
    requires { length marks.old.items ≡ length all.now }
    ensures { length marks.new.items ≡ length all.now }
{
    let mut marked = false;
    for number in 0..all.len() {
        if marks[number] {
            let by_rules = mark_row(&all[number].rules, marks);
            let by_tokens = mark_row(&all[number].tokens, marks);
            marked = marked || by_rules || by_tokens;
        }
    }
    marked
}

// Marks the states of the row. Returns whether any of them had no mark.
fn mark_row(row: &[Option<usize>], marks: &mut Vec<bool>) -> bool
    ensures { length marks.new.items ≡ length marks.old.items }
{
    let mut marked = false;
    for entry in row {
        if let Some(next) = *entry {
            if next < marks.len() && !marks[next] {
                marks[next] = true;
                marked = true;
            }
        }
    }
    marked
}

/// Copies of the kernels with a mark.
pub(crate) fn marked_kernels<StorageT: StorageIndex>(
    alloc: Global,
    kernels: &[Vec<CoreItems<StorageT>>],
    marks: &[bool],
) -> Result<Vec<Vec<CoreItems<StorageT>>>, AllocError>
    ensures cores { IfOk result (λ marked. KeepCores StorageT.index kernels.now marked.items) }
    ensures len { IfOk result (λ marked. length marked.items ≤ length kernels.now) }
{
    let mut marked = Vec::new(alloc);
    for number in 0..kernels.len() {
        if has_mark(marks, number) {
            let kernel = copied(alloc, &kernels[number])?;
            marked.push(kernel)?;
        }
    }
    Ok(marked)
}

// Whether there is a mark at the place.
fn has_mark(marks: &[bool], place: usize) -> bool {
    match marks.get(place) {
        Some(mark) => *mark,
        None => false,
    }
}

/// Keeps the transitions with a mark, with the new numbers of their states. After an `Err` all are as they were.
pub(crate) fn keep_marked(
    alloc: Global,
    all: &mut Vec<Transitions>,
    marks: &[bool],
) -> Result<(), AllocError> {
    let numbers = numbers_of(alloc, marks)?;
    let mut kept = 0;
    for number in 0..all.len() {
        if has_mark(marks, number) {
            renumber_row(&mut all[number].rules, &numbers);
            renumber_row(&mut all[number].tokens, &numbers);
            all.swap(kept, number);
            kept += 1;
        }
    }
    all.truncate(kept);
    Ok(())
}

// For each mark, how many there are before it.
fn numbers_of(alloc: Global, marks: &[bool]) -> Result<Vec<usize>, AllocError> {
    let mut numbers = Vec::with_capacity(alloc, marks.len())?;
    let mut next = 0;
    for mark in marks {
        numbers.push(next)?;
        if *mark {
            next += 1;
        }
    }
    Ok(numbers)
}

// Gives the states of the row their new numbers.
fn renumber_row(row: &mut Vec<Option<usize>>, numbers: &[usize]) {
    for place in 0..row.len() {
        if let Some(state) = row[place] {
            row[place] = numbers.get(state).copied();
        }
    }
}
