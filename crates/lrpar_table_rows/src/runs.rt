//! The cores of items, and the run of lookaheads of each core.
ghost use Rattle.std.specs.Prelude.{◌<◌, ◌∷◌, [], IfOk, OnOk, length};
ghost use Rattle.std.specs.List.{Contains};
ghost use Rattle.lrpar_table_rows.specs.PlainItems.{AreBegunOf, AreCoresOf};
ghost use Rattle.lrpar_table_rows.specs.Runs.{AddsItems, AreEmptyRuns, ArePaired, AreRunsOf, HaveSameTokens, RunsAscend, core_items, items_of_rows};

use crate::ascending::{Ascending, push_new};
use crate::items::{Core, CoreRow, Item};
use lrpar_grammar::span::{StorageIndex, TIdx};
use std::alloc::{AllocError, Global};

/// The cores of the items.
pub(crate) fn cores_of<StorageT: StorageIndex>(
    alloc: Global,
    items: &[Item<StorageT>],
) -> Result<Ascending<Core<StorageT>>, AllocError>
    ensures { IfOk result (λ cores. AreCoresOf items.now cores) }
{
    let mut cores: Vec<Core<StorageT>> = Vec::new(alloc);
    for item in items {
        push_new(&mut cores, (item.0, item.1))?;
    }
    Ok(Ascending::from_vec(cores))
}

/// The cores of the rows that have lookaheads.
pub(crate) fn cores_of_rows<StorageT: StorageIndex>(
    alloc: Global,
    rows: &[CoreRow<StorageT>],
) -> Result<Ascending<Core<StorageT>>, AllocError>
    ensures { IfOk result (λ cores. AreCoresOf (items_of_rows rows.now) cores) }
{
    let mut cores: Vec<Core<StorageT>> = Vec::with_capacity(alloc, rows.len())?;
    for row in rows {
        let some = row.2.len();
        if some > 0 {
            cores.push((row.0, row.1))?;
        }
    }
    Ok(Ascending::from_vec(cores))
}

/// The cores of the kernel items: those whose dot isn't at the start.
pub(crate) fn begun_of<StorageT: StorageIndex>(
    alloc: Global,
    cores: &[Core<StorageT>],
) -> Result<Ascending<Core<StorageT>>, AllocError>
    ensures { IfOk result (λ begun. AreBegunOf cores.now begun) }
{
    let mut begun: Vec<Core<StorageT>> = Vec::new(alloc);
    for core in cores {
        if core.1 > 0 {
            begun.push(*core)?;
        }
    }
    Ok(Ascending::from_vec(begun))
}

/// The run of each core among the items.
pub(crate) fn runs_of<StorageT: StorageIndex>(
    alloc: Global,
    cores: &Ascending<Core<StorageT>>,
    items: &[Item<StorageT>],
) -> Result<Vec<Ascending<TIdx<StorageT>>>, AllocError>
    requires { AreCoresOf items.now cores.now }
    ensures paired { IfOk result (ArePaired cores.now) }
    ensures sorted { IfOk result (RunsAscend StorageT.index) }
    ensures same { IfOk result (AreRunsOf cores.now items.now) }
{
    let mut runs = no_runs(alloc, cores.as_slice())?;
    for item in items {
        put_token(cores, &mut runs, item)?;
    }
    let made = ascending_runs(alloc, runs)?;
    Ok(made)
}

/// The run of each core among the rows.
pub(crate) fn runs_of_rows<StorageT: StorageIndex>(
    alloc: Global,
    cores: &Ascending<Core<StorageT>>,
    rows: &[CoreRow<StorageT>],
) -> Result<Vec<Ascending<TIdx<StorageT>>>, AllocError>
    requires { AreCoresOf (items_of_rows rows.now) cores.now }
    ensures paired { IfOk result (ArePaired cores.now) }
    ensures sorted { IfOk result (RunsAscend StorageT.index) }
    ensures same { IfOk result (AreRunsOf cores.now (items_of_rows rows.now)) }
{
    let mut runs = no_runs(alloc, cores.as_slice())?;
    for row in rows {
        put_run(cores, &mut runs, (row.0, row.1), &row.2)?;
    }
    let made = ascending_runs(alloc, runs)?;
    Ok(made)
}

// An empty run for each core.
fn no_runs<StorageT: StorageIndex>(
    alloc: Global,
    cores: &[Core<StorageT>],
) -> Result<Vec<Vec<TIdx<StorageT>>>, AllocError>
    ensures paired { IfOk result (ArePaired cores.now) }
    ensures none { IfOk result (AreEmptyRuns cores.now) }
{
    let mut runs = Vec::with_capacity(alloc, cores.len())?;
    for _ in cores {
        runs.push(Vec::new(alloc))?;
    }
    Ok(runs)
}

// Adds the lookahead of the item to the run of its core.
fn put_token<StorageT: StorageIndex>(
    cores: &Ascending<Core<StorageT>>,
    runs: &mut Vec<Vec<TIdx<StorageT>>>,
    item: &Item<StorageT>,
) -> Result<(), AllocError>
    requires known { Contains cores.now (item.now.0, item.now.1) }
    requires paired { ArePaired cores.now runs.old }
    ensures paired { OnOk result (ArePaired cores.now runs.new) }
    ensures same { OnOk result (AddsItems cores.now (item.now ∷ []) runs.old runs.new) }
{
    match cores.position(&(item.0, item.1)) {
        Some(place) => {
            let run = &mut runs[place];
            run.push(item.2)?;
            Ok(())
        }
        None => unreachable!(),
    }
}

// Adds the lookaheads to the run of the core, if there are any.
fn put_run<StorageT: StorageIndex>(
    cores: &Ascending<Core<StorageT>>,
    runs: &mut Vec<Vec<TIdx<StorageT>>>,
    core: Core<StorageT>,
    tokens: &[TIdx<StorageT>],
) -> Result<(), AllocError>
    requires known { 0 < length tokens.now → Contains cores.now core }
    requires paired { ArePaired cores.now runs.old }
    ensures paired { OnOk result (ArePaired cores.now runs.new) }
    ensures same { OnOk result (AddsItems cores.now (core_items core tokens.now) runs.old runs.new) }
{
    match cores.position(&core) {
        Some(place) => {
            let run = &mut runs[place];
            run.extend_from_slice(tokens)?;
            Ok(())
        }
        None => Ok(()),
    }
}

// The runs in order.
fn ascending_runs<StorageT: StorageIndex>(
    alloc: Global,
    runs: Vec<Vec<TIdx<StorageT>>>,
) -> Result<Vec<Ascending<TIdx<StorageT>>>, AllocError>
    ensures same { IfOk result (HaveSameTokens runs) }
    ensures sorted { IfOk result (RunsAscend StorageT.index) }
{
    let mut made = Vec::with_capacity(alloc, runs.len())?;
    for run in runs {
        made.push(Ascending::from_vec(run))?;
    }
    Ok(made)
}
