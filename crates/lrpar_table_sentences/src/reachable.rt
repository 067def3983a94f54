//! The reachable rules of a grammar, and which of them are unproductive.
ghost use Rattle.std.specs.Prelude.{◌≡◌, ◌<◌, IfOk};
ghost use Rattle.std.specs.Bool.{OnFalse, OnTrue};
ghost use Rattle.lrpar_grammar.specs.Grammar.{prods_len};
ghost use Rattle.lrpar_grammar.specs.Symbols.{symbol_of};
ghost use Rattle.lrpar_table_sentences.specs.Reachable.{AreAllMarked, AreClosed, AreMarked, DecidesReach, HasAllMarks, HasMarkFor, IsFirstUnproductiveIfAny, IsMarkedSymbol, MarksMore, MarksOn, StayMarks, has_mark};
ghost use Rattle.lrpar_table_sentences.specs.Choices.{AreShortestKept};

use crate::minimal_sentences::{Choice, choice_of};
use lrpar_grammar::grammar::YaccGrammar;
use lrpar_grammar::span::{PIdx, RIdx, StorageIndex, Symbol};
use std::alloc::{AllocError, Global};
use std::marker::Model;

/// For each rule of a grammar whether it is reachable.
#[derive(Debug, Drop)]
pub struct Reachable {
    marks: Vec<bool>,
}

impl Model for Reachable {
    ghost use Rattle.std.specs.Prelude.{Bool, List};

    ghost Value = { List Bool };

    ghost view = { λ reached. reached.marks.items };
}

impl Reachable {
    /// The rules that are reachable from the grammar's start: the added rule, and with a rule each one on the right side of one
    /// of its productions.
    ///
    /// It goes over the productions until no more rules are found: few times in practice, and at most one more than there are
    /// rules. Memory grows with the rules. An `Err` comes if an allocation fails.
    pub fn new<StorageT: StorageIndex>(
        alloc: Global,
        grm: &YaccGrammar<StorageT>,
    ) -> Result<Self, AllocError>
        ensures { IfOk result (AreAllMarked grm.now) }
    {
        let marks = reachable_rules(alloc, grm)?;
        Ok(Reachable { marks })
    }

    /// Whether the rule is reachable. No rule past the grammar's is.
    pub fn is_reachable<StorageT: StorageIndex>(&self, rule: RIdx<StorageT>) -> bool
        ensures marked { result ≡ has_mark StorageT.index self.now rule }
        ensures exact { DecidesReach StorageT.index self.now rule result }
    {
        match self.marks.get(usize::from(rule)) {
            Some(mark) => *mark,
            None => false,
        }
    }
}

/// The first reachable rule, by its number, with nothing kept, if there is one.
pub(crate) fn unproductive<StorageT: StorageIndex>(
    alloc: Global,
    grm: &YaccGrammar<StorageT>,
    choices: &[Option<Choice<StorageT>>],
) -> Result<Option<RIdx<StorageT>>, AllocError>
    requires { AreShortestKept StorageT.index grm.now choices.now }
    ensures { IfOk result (IsFirstUnproductiveIfAny StorageT.index grm.now) }
{
    let marks = reachable_rules(alloc, grm)?;
    Ok(first_unproductive(grm, choices, &marks))
}

// The first marked rule with nothing kept.
fn first_unproductive<StorageT: StorageIndex>(
    grm: &YaccGrammar<StorageT>,
    choices: &[Option<Choice<StorageT>>],
    marks: &[bool],
) -> Option<RIdx<StorageT>>
    requires rules { AreShortestKept StorageT.index grm.now choices.now }
    requires marks { AreAllMarked grm.now marks.now }
    ensures { IsFirstUnproductiveIfAny StorageT.index grm.now result }
{
    for rule in 0..grm.rules_len() {
        let ridx = RIdx(StorageT::from_index(rule).unwrap());
        if marks[rule] && choice_of(choices, ridx).is_none() {
            return Some(ridx);
        }
    }
    None
}

// For each rule whether it is reachable.
fn reachable_rules<StorageT: StorageIndex>(
    alloc: Global,
    grm: &YaccGrammar<StorageT>,
) -> Result<Vec<bool>, AllocError>
    ensures { IfOk result (HasAllMarks grm.now) }
{
    let mut marks = added_rule(alloc, grm)?;
    'passes: while mark_all(grm, &mut marks) {}
    Ok(marks)
}

// The mark of the added rule alone.
fn added_rule<StorageT: StorageIndex>(
    alloc: Global,
    grm: &YaccGrammar<StorageT>,
) -> Result<Vec<bool>, AllocError>
    ensures { IfOk result (λ marks. AreMarked grm.now marks.items) }
{
    let added = grm.prod_to_rule(grm.start_prod());
    let mut marks = vec![in alloc; false; grm.rules_len()]?;
    marks[usize::from(added)] = true;
    Ok(marks)
}

// Marks the rules on the right sides of the productions of marked rules, and returns whether any was new.
fn mark_all<StorageT: StorageIndex>(grm: &YaccGrammar<StorageT>, marks: &mut [bool]) -> bool
    requires marks { AreMarked grm.now marks.old }
    ensures marks { AreMarked grm.now marks.new }
    ensures grown { OnTrue result (MarksMore marks.old marks.new) }
    ensures closed { OnFalse result (AreClosed grm.now marks.new) }
{
    let mut grown = false;
    for prod in 0..grm.prods_len() {
        let pidx = PIdx(StorageT::from_index(prod).unwrap());
        if mark_after(grm, marks, pidx) {
            grown = true;
        }
    }
    grown
}

// Marks the rules on the right side of the production, if its rule is marked, and returns whether any was new.
fn mark_after<StorageT: StorageIndex>(
    grm: &YaccGrammar<StorageT>,
    marks: &mut [bool],
    pidx: PIdx<StorageT>,
) -> bool
    requires prod { StorageT.index pidx.0 < prods_len grm.now }
    requires marks { AreMarked grm.now marks.old }
    ensures marks { AreMarked grm.now marks.new }
    ensures grown { OnTrue result (MarksMore marks.old marks.new) }
    ensures same { OnFalse result (marks.new ≡ marks.old) }
    ensures closed { OnFalse result (MarksOn grm.now marks.new (StorageT.index pidx.0)) }
{
    // The proof needs that the grammar is well-formed.
    let _lemma = grm.start_prod();
    let rule = grm.prod_to_rule(pidx);
    if !marks[usize::from(rule)] {
        return false;
    }
    let mut grown = false;
    for symbol in grm.prod(pidx) {
        if mark(marks, *symbol) {
            grown = true;
        }
    }
    grown
}

// Marks the symbol, if it is a rule, and returns whether it was new.
fn mark<StorageT: StorageIndex>(marks: &mut [bool], symbol: Symbol<StorageT>) -> bool
    requires { HasMarkFor StorageT.index marks.old symbol }
    ensures marks { StayMarks StorageT.index symbol marks.old marks.new }
    ensures grown { OnTrue result (MarksMore marks.old marks.new) }
    ensures same { OnFalse result (marks.new ≡ marks.old) }
    ensures closed { OnFalse result (IsMarkedSymbol marks.new (symbol_of StorageT.index symbol)) }
{
    match symbol {
        Symbol::Token(_) => false,
        Symbol::Rule(rule) => {
            if marks[usize::from(rule)] {
                return false;
            }
            marks[usize::from(rule)] = true;
            true
        }
    }
}
