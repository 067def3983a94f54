//! The largest table, and a long grammar text.
use crate::expectations::{holds, same};
use lrpar_grammar::grammar::YaccGrammar;
use lrpar_grammar::span::{StIdx, TIdx};
use lrpar_table::table::{Action, SparseRows, StateTable};
use std::alloc::Global;
use std::process::Abort;
use std::test::Fail;
use test_parts::built::lists;

// A table of one state and all tokens, which shifts the last one.
fn all_tokens(alloc: Global) -> Result<StateTable<u32>, Fail> {
    let rows = SparseRows {
        start: StIdx(0),
        states: 1,
        tokens: 4_294_967_296,
        rules: 1,
        actions: lists(alloc, &[&[(TIdx(u32::MAX), Action::Shift(StIdx(0)))]])?,
        gotos: lists(alloc, &[&[]])?,
        conflicts: None,
    };
    Ok(StateTable::from_sparse(alloc, rows)?)
}

// What the table does in its first state at the token, if it has them.
fn action_at(table: &StateTable<u32>, token: u32) -> Option<Action<u32>> {
    if table.states_len() == 1 && usize::from(TIdx(token)) < table.tokens_len() {
        Some(table.action(StIdx(0), TIdx(token)))
    } else {
        None
    }
}

#[test]
fn table_of_all_tokens(rt: HostRuntime) -> Result<(), Fail> {
    let table = all_tokens(rt.alloc())?;
    has_all_tokens(&rt, &table);
    Ok(())
}

// The table has all tokens, and an action at the last one alone.
fn has_all_tokens(rt: &impl Abort, table: &StateTable<u32>) {
    let actions = [action_at(table, u32::MAX), action_at(table, 0)];
    let expected = [Some(Action::Shift(StIdx(0))), Some(Action::Error)];
    same(rt, &"actions", &actions, &expected);
    let found = (table.tokens_len(), table.entries());
    same(rt, &"sizes", &found, &(4_294_967_296, 1));
}

// A text of this number of rules, each with alternatives and a comment.
fn long_text(rt: &impl Abort, alloc: Global, rules: u32) -> String {
    let mut text = String::new(alloc);
    let mut is_made = text.push_str("%token id %%\n").is_ok();
    for rule in 0..rules {
        is_made &= writeln!(
            text,
            "r{rule}: id '+' r0 id '-' r0 | r{rule} '*' id r0 // a comment\n | ;"
        )
        .is_ok();
    }
    holds(rt, &"memory", is_made);
    text
}

#[test]
fn long_texts(rt: HostRuntime) -> Result<(), Fail> {
    let text = long_text(&rt, rt.alloc(), 18_000);
    is_read(&rt, rt.alloc(), text.as_str());
    Ok(())
}

// The grammar of the long text has these rules, productions and tokens.
fn is_read(rt: &impl Abort, alloc: Global, text: &str) {
    holds(rt, &"a long text", text.len() > 1_000_000);
    let grm: YaccGrammar<u32> = YaccGrammar::new_with_storaget(alloc, text).expect(rt, "a grammar");
    let found = (grm.rules_len(), grm.prods_len(), grm.tokens_len());
    same(rt, &"sizes", &found, &(18_001, 54_001, 5));
}
