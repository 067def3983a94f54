//! The rules with which an item of a state can go on.
ghost use Rattle.std.specs.Prelude.{◌≡◌, ◌<◌, ◌≤◌, [], IfOk, IfSome, filter, length, map};
ghost use Rattle.std.specs.List.{range_with_len};
ghost use Rattle.std.specs.List.Sorted.{IsStrictlyIncreasing};
ghost use Rattle.lrpar_grammar.specs.Grammar.{rules_len};
ghost use Rattle.lrpar_grammar.specs.Tokens.{has};
ghost use Rattle.lrpar_table_rows.specs.PlainItems.{core_of};
ghost use Rattle.lrpar_names.specs.Candidates.{AreCandidates, AreMarksOf, FindsNext, Marks};
ghost use Rattle.lrpar_names.specs.Choosing.{rule_numbers};

use lrpar_grammar::grammar::YaccGrammar;
use lrpar_grammar_places::span::{PIdx, RIdx, StIdx, StorageIndex};
use lrpar_table_first::after_dot::rule_after;
use lrpar_table_rows::table::{Core, StateGraph};
use std::alloc::{AllocError, Global};

/// The rules with which an item of the state can go on: each rule that is after the dot of one of its items, once, ascending. There are
/// none for a state that the graph doesn't have, and items of productions that the grammar doesn't have are passed over. Takes time
/// linear in the state's cores and the grammar's rules, and memory for each rule.
pub fn candidate_rules<StorageT: StorageIndex>(
    alloc: Global,
    grm: &YaccGrammar<StorageT>,
    sgraph: &StateGraph<StorageT>,
    state: StIdx<StorageT>,
) -> Result<Vec<RIdx<StorageT>>, AllocError>
    ensures exact { IfOk result (λ rules. AreCandidates StorageT.index grm.now sgraph.now state rules.items) }
    ensures ascending { IfOk result (λ rules. IsStrictlyIncreasing (rule_numbers StorageT.index rules.items)) }
{
    if usize::from(state) >= sgraph.states_len() {
        return Ok(Vec::new(alloc));
    }
    let mut marks = vec![in alloc; false; grm.rules_len()]?;
    mark_all(grm, sgraph.cores(state), &mut marks);
    marked_rules(alloc, &marks)
}

// Marks the rule after the dot of each core.
fn mark_all<StorageT: StorageIndex>(
    grm: &YaccGrammar<StorageT>,
    cores: &[Core<StorageT>],
    marks: &mut [bool],
)
    requires room { length marks.old ≡ rules_len grm.now }
    requires none { AreMarksOf grm.now [] marks.old }
    ensures room { length marks.new ≡ rules_len grm.now }
    ensures marks { AreMarksOf grm.now (map (core_of StorageT.index) cores.now) marks.new }
{
    'cores: for (prod, dot) in cores {
        if let Some(rule) = next_rule(grm, *prod, *dot) {
            mark(marks, usize::from(rule));
        }
    }
}

// The rule after the dot of the core, if a rule is there.
fn next_rule<StorageT: StorageIndex>(
    grm: &YaccGrammar<StorageT>,
    prod: PIdx<StorageT>,
    dot: usize,
) -> Option<RIdx<StorageT>>
    ensures next { FindsNext StorageT.index grm.now prod dot result }
    ensures within { IfSome result (λ rule. StorageT.index rule.0 < rules_len grm.now) }
{
    let _well_formed = grm.start_prod();
    if usize::from(prod) >= grm.prods_len() || dot > grm.prod(prod).len() {
        return None;
    }
    match rule_after(grm, prod, dot) {
        Some((rule, _)) => Some(rule),
        None => None,
    }
}

// Sets the mark of the rule.
fn mark(marks: &mut [bool], rule: usize)
    requires { rule < length marks.old }
    ensures room { length marks.new ≡ length marks.old }
    ensures marks { Marks marks.old marks.new rule }
{
    marks[rule] = true;
}

// The marked rules, ascending.
fn marked_rules<StorageT: StorageIndex>(
    alloc: Global,
    marks: &[bool],
) -> Result<Vec<RIdx<StorageT>>, AllocError>
    requires { length marks.now ≤ StorageT.limit }
    ensures { IfOk result (λ rules. rule_numbers StorageT.index rules.items ≡ filter (has marks.now) (range_with_len 0 (length marks.now))) }
{
    let mut rules = Vec::new(alloc);
    'marks: for (number, is_marked) in marks.iter().enumerate() {
        if *is_marked {
            rules.push(RIdx(StorageT::from_index(number).unwrap()))?;
        }
    }
    Ok(rules)
}
