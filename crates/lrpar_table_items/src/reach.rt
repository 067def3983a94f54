//! The rules that the closure adds for rules after the dot, with their lookaheads.
ghost use Rattle.std.specs.Prelude.{◌<◌, length};
ghost use Rattle.std.specs.Bool.{OnFalse};
ghost use Rattle.lrpar_grammar.specs.Grammar.{IsWellFormed, prods_len, rules_len};
ghost use Rattle.lrpar_table_items.specs.StoredCores.{ComesToRest, HasPassedOn, HasPassedOnBy};
ghost use Rattle.lrpar_table_items.specs.Working.{AllRest, AreSets, AreSpreadButWaiting, HasGrown, IsClosureOfBrought, KeepsResting, MarksIf, WaitAsBefore};

use crate::sets::Sets;
use lrpar_grammar::grammar::YaccGrammar;
use lrpar_grammar::span::{PIdx, RIdx, StorageIndex};
use lrpar_table_first::after_dot::rule_after;
use lrpar_table_first::first::add_first_before;

/// Closes the sets, which have the lookaheads of each rule: adds the lookaheads of all rules that the closure adds. Rules that don't wait
/// have passed on theirs.
pub(crate) fn spread<StorageT: StorageIndex>(grm: &YaccGrammar<StorageT>, sets: &mut Sets)
    requires well_formed { IsWellFormed grm.now }
    requires sets { AreSets grm.now sets.old }
    requires waiting { AreSpreadButWaiting grm.now sets.old }
    ensures sets { AreSets grm.now sets.new }
    ensures exact { IsClosureOfBrought grm.now sets.old sets.new }
{
    'passes: while spread_all(grm, sets) {}
}

// For each rule that waits, adds the rules that its productions begin with. Returns whether anything was new; if not, no rule waits.
fn spread_all<StorageT: StorageIndex>(grm: &YaccGrammar<StorageT>, sets: &mut Sets) -> bool
    requires well_formed { IsWellFormed grm.now }
    requires sets { AreSets grm.now sets.old }
    requires waiting { AreSpreadButWaiting grm.now sets.old }
    ensures sets { AreSets grm.now sets.new }
    ensures waiting { AreSpreadButWaiting grm.now sets.new }
    ensures growth { HasGrown grm.now result sets.old sets.new }
    ensures rests { OnFalse result (AllRest grm.now sets.new) }
{
    let mut grown = false;
    for rule in 0..grm.rules_len() {
        let ridx = RIdx(StorageT::from_index(rule).unwrap());
        if spread_waiting(grm, ridx, sets) {
            grown = true;
        }
    }
    grown
}

// If the rule waits, adds the rules that its productions begin with. Returns whether anything was new; if not, the rule doesn't wait any
// more, and no other rule waits that didn't.
fn spread_waiting<StorageT: StorageIndex>(
    grm: &YaccGrammar<StorageT>,
    ridx: RIdx<StorageT>,
    sets: &mut Sets,
) -> bool
    requires rule { StorageT.index ridx.0 < rules_len grm.now }
    requires well_formed { IsWellFormed grm.now }
    requires sets { AreSets grm.now sets.old }
    requires waiting { AreSpreadButWaiting grm.now sets.old }
    ensures sets { AreSets grm.now sets.new }
    ensures waiting { AreSpreadButWaiting grm.now sets.new }
    ensures growth { HasGrown grm.now result sets.old sets.new }
    ensures rests { OnFalse result (ComesToRest StorageT.index ridx sets.old sets.new) }
{
    let rule = usize::from(ridx);
    if !sets.waits[rule] {
        return false;
    }
    sets.waits[rule] = false;
    spread_rule(grm, ridx, sets)
}

// Adds the rules that the productions of the rule begin with. Returns whether anything was new. A rule with new lookaheads waits.
fn spread_rule<StorageT: StorageIndex>(
    grm: &YaccGrammar<StorageT>,
    ridx: RIdx<StorageT>,
    sets: &mut Sets,
) -> bool
    requires well_formed { IsWellFormed grm.now }
    requires sets { AreSets grm.now sets.old }
    requires rule { StorageT.index ridx.0 < rules_len grm.now }
    ensures sets { AreSets grm.now sets.new }
    ensures growth { HasGrown grm.now result sets.old sets.new }
    ensures resting { KeepsResting sets.old sets.new }
    ensures waits { OnFalse result (WaitAsBefore sets.old sets.new) }
    ensures closed { HasPassedOn StorageT.index grm.now ridx sets.new }
{
    let mut grown = false;
    for pidx in grm.rule_to_prods(ridx) {
        if spread_from(grm, *pidx, sets) {
            grown = true;
        }
    }
    grown
}

// Adds the rule that the production begins with, with the lookaheads First(w, t): w are the symbols after it in the production, and
// t is a lookahead of the production's rule. Returns whether anything was new. A rule with new lookaheads waits.
fn spread_from<StorageT: StorageIndex>(
    grm: &YaccGrammar<StorageT>,
    pidx: PIdx<StorageT>,
    sets: &mut Sets,
) -> bool
    requires well_formed { IsWellFormed grm.now }
    requires sets { AreSets grm.now sets.old }
    requires prod { StorageT.index pidx.0 < prods_len grm.now }
    ensures sets { AreSets grm.now sets.new }
    ensures growth { HasGrown grm.now result sets.old sets.new }
    ensures resting { KeepsResting sets.old sets.new }
    ensures waits { OnFalse result (WaitAsBefore sets.old sets.new) }
    ensures closed { HasPassedOnBy StorageT.index grm.now pidx sets.new }
{
    match rule_after(grm, pidx, 0) {
        None => false,
        Some((brought, rest)) => {
            let rule = usize::from(grm.prod_to_rule(pidx));
            sets.fresh.clear();
            add_first_before(
                grm,
                &sets.firsts,
                rest,
                &sets.brought[rule],
                &mut sets.front,
                &mut sets.fresh,
            );
            let target = usize::from(brought);
            let grown = sets.brought[target].unite_below(&sets.fresh, grm.tokens_len() + 1);
            mark(&mut sets.waits, target, grown);
            grown
        }
    }
}

// Marks the rule as one that waits, if its lookaheads have grown.
fn mark(waits: &mut Vec<bool>, rule: usize, grown: bool)
    requires { rule < length waits.old.items }
    ensures { MarksIf grown rule waits.old waits.new }
{
    if grown {
        waits[rule] = true;
    }
}
