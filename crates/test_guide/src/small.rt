//! A table with merged item sets.
use crate::expectations::same;
use lrpar::ParserData;
use lrpar::build::{Minimiser, TableOptions};
use lrpar::grammar::YaccGrammar;
use std::alloc::Global;
use std::test::Fail as Failed;

/// The checked table with merged item sets of a grammar text.
fn small_table(alloc: Global, text: &str) -> Result<ParserData<u32>, Failed> {
    let grm = YaccGrammar::new_with_storaget(alloc, text)?;
    let options = TableOptions::new().minimiser(Minimiser::Pager);
    Ok(options.build(alloc, grm)?)
}

// The canonical table has 13 states: two after `'c'`, which are merged.
const LETTERS: &str = "%% S: 'a' A 'd' | 'a' B | 'b' A 'e' | 'b' B; A: 'c'; B: 'c' 'x';";

#[test]
fn merged_states(rt: HostRuntime) -> Result<(), Failed> {
    let data = small_table(rt.alloc(), LETTERS)?;
    same(&rt, &"states", &data.stable().states_len(), &12);
    Ok(())
}
