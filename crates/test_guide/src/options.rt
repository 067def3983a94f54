//! A table by options.
use crate::expectations::same;
use lrpar::build::{BuildFault, Minimiser, TableOptions};
use lrpar::grammar::YaccGrammar;
use lrpar::precedences::{AssocKind, Level, Precedences, precedences_of_levels};
use lrpar::span::{PIdx, TIdx};
use std::alloc::Global;
use std::process::Abort;
use std::test::Fail;

/// An ambiguous grammar of sums, whose tables have five states.
const SUMS: &str = "%% E: E '+' E | 'N';";

// The grammar.
fn sums(rt: &impl Abort, alloc: Global) -> YaccGrammar<u8> {
    YaccGrammar::new_with_storaget(alloc, SUMS).expect(rt, "a grammar")
}

// Its precedences, by which `+` associates to the left. The first production names their only level.
fn left_plus(rt: &impl Abort, alloc: Global, grm: &YaccGrammar<u8>) -> Precedences {
    let mut level = Level {
        kind: AssocKind::Left,
        tokens: Vec::new(alloc),
    };
    level.tokens.push(TIdx(0)).expect(rt, "memory");
    precedences_of_levels(alloc, grm, &[level], &[(PIdx(0), 0)]).expect(rt, "precedences")
}

// How many states the table by these options has, and how many conflicts are resolved.
fn sizes(
    rt: &impl Abort,
    alloc: Global,
    options: &TableOptions<'_>,
    grm: &YaccGrammar<u8>,
) -> (usize, usize) {
    let (sgraph, stable) = options.state_table(alloc, grm).expect(rt, "a table");
    (sgraph.states_len(), stable.resolved().len())
}

// The cap of the checked table by these options, and whether it has conflicts.
fn checked(
    rt: &impl Abort,
    alloc: Global,
    options: &TableOptions<'_>,
    grm: YaccGrammar<u8>,
) -> (u16, bool) {
    let data = options.build(alloc, grm).expect(rt, "a checked table");
    (data.cap(), data.stable().conflicts().is_some())
}

#[test]
fn options_that_are_set(rt: HostRuntime) -> Result<(), Fail> {
    let grm = sums(&rt, rt.alloc());
    let precedences = left_plus(&rt, rt.alloc(), &grm);
    let options = TableOptions::new()
        .precedences(&precedences)
        .minimiser(Minimiser::Pager)
        .max_states(5)
        .cap(7);
    same(
        &rt,
        &"sizes",
        &sizes(&rt, rt.alloc(), &options, &grm),
        &(5, 1),
    );
    same(
        &rt,
        &"checked",
        &checked(&rt, rt.alloc(), &options, grm),
        &(7, false),
    );
    Ok(())
}

#[test]
fn options_by_default(rt: HostRuntime) -> Result<(), Fail> {
    let grm = sums(&rt, rt.alloc());
    let found = checked(&rt, rt.alloc(), &TableOptions::default(), grm);
    same(&rt, &"checked", &found, &(TableOptions::DEFAULT_CAP, true));
    Ok(())
}

// Why there is no table with at most this number of merged states.
fn refusal(alloc: Global, grm: &YaccGrammar<u8>, most: usize) -> Option<BuildFault> {
    let options = TableOptions::new()
        .minimiser(Minimiser::Pager)
        .max_states(most);
    options.state_table(alloc, grm).err()
}

#[test]
fn too_many_states(rt: HostRuntime) -> Result<(), Fail> {
    let grm = sums(&rt, rt.alloc());
    let found = [refusal(rt.alloc(), &grm, 4), refusal(rt.alloc(), &grm, 0)];
    let expected = [
        Some(BuildFault::TooManyStates),
        Some(BuildFault::TooManyStates),
    ];
    same(&rt, &"four, and none", &found, &expected);
    Ok(())
}
