//! The closure of a set of LR(1) items.
ghost use Rattle.std.specs.Prelude.{◌<◌, ◌+◌, ℕ, IfOk, OnOk};
ghost use Rattle.lrpar_grammar.specs.Grammar.{IsWellFormed, rules_len};
ghost use Rattle.lrpar_table_first.specs.FirstRows.{HaveRoom, rows_of};
ghost use Rattle.lrpar_table_items.specs.Brought.{HasIn};
ghost use Rattle.lrpar_table_items.specs.StoredCores.{AddsBrought, AddsRows, AddsRule, AppendsProd, AreAhead, AreBroughtBy, AreCoresOf, AreOfGrammar, IsClosureOf, IsKernelOf, IsOfGrammar, IsWide};
ghost use Rattle.lrpar_table_items.specs.Working.{AreSets, KeepsResting};

use crate::cores::CoreItems;
use crate::reach::spread;
use crate::sets::Sets;
use lrpar_grammar::grammar::YaccGrammar;
use lrpar_grammar::span::{PIdx, RIdx, StorageIndex};
use lrpar_grammar::token_set::TokenSet;
use lrpar_table_first::after_dot::rule_after;
use lrpar_table_first::first::{add_first_before, clear_all};
use std::alloc::{AllocError, Global};

/// The closure of the kernel: its cores themselves; and each production, with its dot at the start, of each rule that the closure adds, with
/// the rule's lookaheads.
pub fn close_kernel<StorageT: StorageIndex>(
    alloc: Global,
    grm: &YaccGrammar<StorageT>,
    sets: &mut Sets,
    kernel: Vec<CoreItems<StorageT>>,
) -> Result<Vec<CoreItems<StorageT>>, AllocError>
    requires well_formed { IsWellFormed grm.now }
    requires sets { AreSets grm.now sets.old }
    requires kernel { IsKernelOf StorageT.index grm.now kernel }
    ensures sets { AreSets grm.now sets.new }
    ensures items { IfOk result (IsClosureOf StorageT.index grm.now kernel) }
    ensures cores { IfOk result (AreCoresOf StorageT.index grm.now) }
{
    let mut closure = kernel;
    bring(grm, &closure, sets);
    push_brought(alloc, grm, &sets.brought, &mut closure)?;
    Ok(closure)
}

// Appends each production of each rule that has lookaheads, with these lookaheads. The start rule `^` has none.
fn push_brought<StorageT: StorageIndex>(
    alloc: Global,
    grm: &YaccGrammar<StorageT>,
    brought: &[TokenSet],
    closure: &mut Vec<CoreItems<StorageT>>,
) -> Result<(), AllocError>
    requires well_formed { IsWellFormed grm.now }
    requires room { HaveRoom grm.now (rows_of brought.now) }
    requires added { (t : ℕ) → ¬ (HasIn (rows_of brought.now) 0 t) }
    requires kernel { IsKernelOf StorageT.index grm.now closure.old }
    ensures items { OnOk result (AddsRows StorageT.index grm.now brought.now closure.old closure.new) }
    ensures cores { OnOk result (AreCoresOf StorageT.index grm.now closure.new) }
{
    for rule in 1..grm.rules_len() {
        let ridx = RIdx(StorageT::from_index(rule).unwrap());
        push_rule(alloc, grm, ridx, &brought[rule], closure)?;
    }
    Ok(())
}

// Appends each production of the rule with these lookaheads, if there are any.
fn push_rule<StorageT: StorageIndex>(
    alloc: Global,
    grm: &YaccGrammar<StorageT>,
    ridx: RIdx<StorageT>,
    tokens: &TokenSet,
    closure: &mut Vec<CoreItems<StorageT>>,
) -> Result<(), AllocError>
    requires well_formed { IsWellFormed grm.now }
    requires rule { StorageT.index ridx.0 < rules_len grm.now }
    requires wide { IsWide grm.now tokens.now }
    requires cores { AreCoresOf StorageT.index grm.now closure.old }
    requires ahead { AreAhead StorageT.index grm.now (StorageT.index ridx.0) closure.old }
    ensures items { OnOk result (AddsRule StorageT.index grm.now ridx tokens.now closure.old closure.new) }
    ensures cores { OnOk result (AreCoresOf StorageT.index grm.now closure.new) }
    ensures ahead { OnOk result (AreAhead StorageT.index grm.now (StorageT.index ridx.0 + 1) closure.new) }
{
    if !tokens.has_any() {
        return Ok(());
    }
    for pidx in grm.rule_to_prods(ridx) {
        push_core(alloc, *pidx, tokens, closure)?;
    }
    Ok(())
}

// Appends the production, with its dot at the start and these lookaheads.
fn push_core<StorageT: StorageIndex>(
    alloc: Global,
    pidx: PIdx<StorageT>,
    tokens: &TokenSet,
    closure: &mut Vec<CoreItems<StorageT>>,
) -> Result<(), AllocError>
    ensures { OnOk result (AppendsProd StorageT.index pidx tokens.now closure.old closure.new) }
{
    let tokens = tokens.copy(alloc)?;
    closure.push(CoreItems {
        prod: pidx,
        dot: 0,
        tokens,
    })?;
    Ok(())
}

// Sets the lookaheads of each rule to those that the closure of the cores brings to it.
fn bring<StorageT: StorageIndex>(
    grm: &YaccGrammar<StorageT>,
    cores: &[CoreItems<StorageT>],
    sets: &mut Sets,
)
    requires well_formed { IsWellFormed grm.now }
    requires sets { AreSets grm.now sets.old }
    requires cores { AreOfGrammar StorageT.index grm.now cores.now }
    ensures sets { AreSets grm.now sets.new }
    ensures exact { AreBroughtBy StorageT.index grm.now cores.now sets.new }
{
    clear_all(&mut sets.brought);
    for core in cores {
        bring_one(grm, core, sets);
    }
    spread(grm, sets);
}

// Adds the lookaheads of the rule after the core's dot, if a rule is there. The rule waits to pass them on.
fn bring_one<StorageT: StorageIndex>(
    grm: &YaccGrammar<StorageT>,
    core: &CoreItems<StorageT>,
    sets: &mut Sets,
)
    requires well_formed { IsWellFormed grm.now }
    requires sets { AreSets grm.now sets.old }
    requires core { IsOfGrammar StorageT.index grm.now core.now }
    ensures sets { AreSets grm.now sets.new }
    ensures exact { AddsBrought StorageT.index grm.now core.now sets.old sets.new }
    ensures resting { KeepsResting sets.old sets.new }
{
    match rule_after(grm, core.prod, core.dot) {
        None => {}
        Some((rule, rest)) => {
            let target = usize::from(rule);
            add_first_before(
                grm,
                &sets.firsts,
                rest,
                &core.tokens,
                &mut sets.front,
                &mut sets.brought[target],
            );
            sets.waits[target] = true;
        }
    }
}
