//! Marks of the rules that are after the dot of a justified core of a state.
ghost use Rattle.std.specs.Prelude.{◌≡◌, ◌≢◌, ◌<◌, ℕ, IsTrue, false, length};
ghost use Rattle.std.specs.Bool.{OnFalse, OnTrue};
ghost use Rattle.lrpar_grammar.specs.Grammar.{prods_len, rules_len};
ghost use Rattle.lrpar_table_viable.specs.Marks.{is_begin, is_marked, unmarked};

use lrpar_grammar::grammar::YaccGrammar;
use lrpar_grammar::span::{PIdx, RIdx, StIdx, StorageIndex};
use lrpar_table_first::after_dot::rule_after;
use lrpar_table_rows::table::{StateGraph, StateTable};

/// The parts that are checked.
#[derive(Drop)]
pub(crate) struct Viability<'a, StorageT: StorageIndex> {
    pub(crate) grm: &'a YaccGrammar<StorageT>,
    pub(crate) sgraph: &'a StateGraph<StorageT>,
    pub(crate) stable: &'a StateTable<StorageT>,
}

impl<'a, StorageT: StorageIndex> Viability<'a, StorageT> {
    ghost use Rattle.lrpar_table_viable.specs.Checks.{AreClosedMarks, AreExactMarks, AreMarksOf, AreSound, HasCoreOf, IsState, MarkAfter, by_marks};

    /// Marks each rule that is after the dot of a justified core of the state, and no other.
    pub(crate) fn mark_rules(&self, s: StIdx<StorageT>, marks: &mut [bool])
        requires sound { AreSound self.now }
        requires state { IsState StorageT.index self.now s }
        requires rules { length marks.old ≡ rules_len self.now.grm.now }
        ensures rules { length marks.new ≡ rules_len self.now.grm.now }
        ensures exact { AreExactMarks StorageT.index self.now s marks.new }
    {
        clear(marks);
        'passes: while self.mark_all(s, marks) {}
    }

    // For each core that the marks justify, marks the rule after its dot; and returns whether any was new.
    fn mark_all(&self, s: StIdx<StorageT>, marks: &mut [bool]) -> bool
        requires sound { AreSound self.now }
        requires state { IsState StorageT.index self.now s }
        requires marks { AreMarksOf StorageT.index self.now s marks.old }
        ensures marks { AreMarksOf StorageT.index self.now s marks.new }
        ensures grown { OnTrue result (unmarked marks.new < unmarked marks.old) }
        ensures closed { OnFalse result (AreClosedMarks StorageT.index self.now s marks.new) }
    {
        let mut grown = false;
        for (pidx, dot) in self.sgraph.cores(s) {
            if self.mark_after(s, *pidx, *dot, marks) {
                grown = true;
            }
        }
        grown
    }

    // If the marks justify the core, marks the rule after its dot; and returns whether it was new.
    fn mark_after(
        &self,
        s: StIdx<StorageT>,
        pidx: PIdx<StorageT>,
        dot: usize,
        marks: &mut [bool],
    ) -> bool
        requires sound { AreSound self.now }
        requires core { HasCoreOf StorageT.index self.now s pidx dot }
        requires marks { AreMarksOf StorageT.index self.now s marks.old }
        ensures marks { AreMarksOf StorageT.index self.now s marks.new }
        ensures grown { OnTrue result (unmarked marks.new < unmarked marks.old) }
        ensures same { OnFalse result (marks.new ≡ marks.old) }
        ensures closed { OnFalse result (MarkAfter StorageT.index self.now s marks.new pidx dot) }
    {
        if !self.is_by_marks(s, pidx, dot, marks) {
            return false;
        }
        match rule_after(self.grm, pidx, dot) {
            None => false,
            Some((rule, _)) => mark(marks, rule),
        }
    }

    /// Whether the marks justify the core: its dot is past 0; or it is `^: . S`, in the start state; or its rule is marked.
    pub(crate) fn is_by_marks(
        &self,
        s: StIdx<StorageT>,
        pidx: PIdx<StorageT>,
        dot: usize,
        marks: &[bool],
    ) -> bool
        requires prod { StorageT.index pidx.0 < prods_len self.now.grm.now }
        requires rules { length marks.now ≡ rules_len self.now.grm.now }
        ensures { result ≡ by_marks StorageT.index self.now s marks.now pidx dot }
    {
        dot != 0 || self.is_begin(s, pidx) || marks[usize::from(self.grm.prod_to_rule(pidx))]
    }

    // Whether the core of the production with dot 0 is `^: . S`, in the start state.
    fn is_begin(&self, s: StIdx<StorageT>, pidx: PIdx<StorageT>) -> bool
        ensures { result ≡ is_begin self.now.grm.now self.now.stable.now (StorageT.index s.0) (StorageT.index pidx.0) }
    {
        usize::from(pidx) == usize::from(self.grm.start_prod())
            && usize::from(s) == usize::from(self.stable.start_state())
    }
}

// Marks the rule, and returns whether it was new.
fn mark<StorageT: StorageIndex>(marks: &mut [bool], rule: RIdx<StorageT>) -> bool
    requires { StorageT.index rule.0 < length marks.old }
    ensures room { length marks.new ≡ length marks.old }
    ensures marked { IsTrue (is_marked marks.new (StorageT.index rule.0)) }
    ensures others { (r : ℕ) → r ≢ StorageT.index rule.0 → is_marked marks.new r ≡ is_marked marks.old r }
    ensures grown { OnTrue result (unmarked marks.new < unmarked marks.old) }
    ensures same { OnFalse result (marks.new ≡ marks.old) }
{
    let place = usize::from(rule);
    if marks[place] {
        return false;
    }
    marks[place] = true;
    true
}

// Marks no rule.
fn clear(marks: &mut [bool])
    ensures room { length marks.new ≡ length marks.old }
    ensures none { (r : ℕ) → is_marked marks.new r ≡ false }
{
    for mark in marks.iter_mut() {
        *mark = false;
    }
}
