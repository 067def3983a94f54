//! How many conflicts a table has.
use crate::declared::Declared;
use lrpar_grammar::span::{StIdx, TIdx};
use lrpar_table::table::{Conflicts, StateTable};
use lrpar_table_precedence::precedences::{Precedences, Resolution};
use std::alloc::{AllocError, Global};
use std::collections::BTreeMap;

/// How many conflicts of each kind there are.
#[derive(Clone, Copy)]
pub(crate) struct Counts {
    pub(crate) shift_reduce: usize,
    pub(crate) reduce_reduce: usize,
}

/// How many conflicts the table of a file has: those that it lists; or for a file of bison those that bison counts, if its table acts as
/// this one does. Takes time linear in the conflicts, but for a look-up of each. `Err`: out of memory.
pub(crate) fn counts_of(
    alloc: Global,
    declared: &Declared<'_>,
    stable: &StateTable<u32>,
) -> Result<Counts, AllocError> {
    let Some(conflicts) = stable.conflicts() else {
        return Ok(Counts {
            shift_reduce: 0,
            reduce_reduce: 0,
        });
    };
    let listed = Counts {
        shift_reduce: conflicts.sr_len(),
        reduce_reduce: conflicts.rr_len(),
    };
    if !declared.is_bison {
        return Ok(listed);
    }
    match bison_counts(alloc, &declared.precedences, stable, conflicts)? {
        Some(counts) => Ok(counts),
        None => Ok(listed),
    }
}

// How many conflicts bison counts, unless its table acts in another way. Where reductions meet a shift, bison compares each of them with
// it, the first one first, and leaves out what loses. So reductions that lose to a shift are in no conflict.
fn bison_counts(
    alloc: Global,
    precedences: &Precedences,
    stable: &StateTable<u32>,
    conflicts: &Conflicts<u32>,
) -> Result<Option<Counts>, AllocError> {
    let shifts = shift_points(alloc, stable, conflicts)?;
    let mut counts = Counts {
        shift_reduce: conflicts.sr_len(),
        reduce_reduce: 0,
    };
    let mut last: Option<Met> = None;
    for (token, first, second, state) in conflicts.rr_conflicts() {
        let point = point_of(*state, *token);
        let by = precedences.resolution(*second, *token);
        last = match last {
            Some(met) if met.point == point => Some(met.with(by)),
            _ => {
                if !count(&mut counts, last) {
                    return Ok(None);
                }
                let met = Met::new(point, shifts.contains_key(&point));
                Some(
                    met.with_first(precedences.resolution(*first, *token))
                        .with(by),
                )
            }
        };
    }
    if count(&mut counts, last) {
        Ok(Some(counts))
    } else {
        Ok(None)
    }
}

// A state and a token, by their numbers.
type Point = (usize, usize);

fn point_of(state: StIdx<u32>, token: TIdx<u32>) -> Point {
    (usize::from(state), usize::from(token))
}

// Where reductions meet a shift.
fn shift_points(
    alloc: Global,
    stable: &StateTable<u32>,
    conflicts: &Conflicts<u32>,
) -> Result<BTreeMap<Point, ()>, AllocError> {
    let mut points = BTreeMap::new(alloc);
    for (token, _, state) in conflicts.sr_conflicts() {
        points.insert(point_of(*state, *token), ())?;
    }
    for (token, _, state, _) in stable.resolved().as_slice() {
        points.insert(point_of(*state, *token), ())?;
    }
    Ok(points)
}

// What is left at a point where reductions meet: so many of them, and perhaps a shift.
#[derive(Clone, Copy)]
struct Met {
    point: Point,
    has_shift: bool,
    // Whether a table that asks the first reduction alone goes on with the shift, and whether it lists a conflict with it.
    keeps_shift: bool,
    is_listed: bool,
    reductions: usize,
}

impl Met {
    // Nothing yet, but perhaps a shift.
    fn new(point: Point, has_shift: bool) -> Met {
        Met {
            point,
            has_shift,
            keeps_shift: has_shift,
            is_listed: false,
            reductions: 0,
        }
    }

    // With the first reduction, which is compared with the shift.
    fn with_first(self, by: Option<Resolution>) -> Met {
        let mut met = self.with(by);
        met.keeps_shift = met.has_shift;
        met.is_listed = met.has_shift && by.is_none();
        met
    }

    // With one more reduction, which is compared with the shift, if that is left.
    fn with(self, by: Option<Resolution>) -> Met {
        let mut met = self;
        let by = if met.has_shift {
            by
        } else {
            Some(Resolution::Reduce)
        };
        match by {
            None => met.reductions = met.reductions.saturating_add(1),
            Some(Resolution::Shift) => {}
            Some(Resolution::Reduce) => {
                met.has_shift = false;
                met.reductions = met.reductions.saturating_add(1);
            }
            Some(Resolution::Error) => met.has_shift = false,
        }
        met
    }
}

// Counts what is left at a point, in place of what the table lists there. Returns whether the table acts as bison's does.
fn count(counts: &mut Counts, met: Option<Met>) -> bool {
    let Some(met) = met else {
        return true;
    };
    if met.is_listed {
        counts.shift_reduce = counts.shift_reduce.saturating_sub(1);
    }
    if met.has_shift && met.reductions > 0 {
        counts.shift_reduce = counts.shift_reduce.saturating_add(1);
    }
    let others = met.reductions.saturating_sub(1);
    counts.reduce_reduce = counts.reduce_reduce.saturating_add(others);
    met.has_shift == met.keeps_shift
}
