//! Whether a table is viable: each state has a core, and each of its cores is justified.
ghost use Rattle.std.specs.Prelude.{◌≡◌, IfErr, IfSome, OnOk, length};
ghost use Rattle.lrpar_grammar.specs.Grammar.{IsWellFormed, rules_len};
ghost use Rattle.lrpar_table_rows.specs.Safe.{HasShape};
ghost use Rattle.lrpar_table_viable.specs.Viable.{IsViable, IsViableFault};
ghost use Rattle.lrpar_table_viable.specs.declared.viable_fault.ViableFault.TheVariants.{Memory};

use crate::marks::Viability;
use crate::viable_fault::ViableFault;
use lrpar_grammar::grammar::YaccGrammar;
use lrpar_grammar::span::{PIdx, StIdx, StorageIndex};
use lrpar_table_rows::table::{StateGraph, StateTable};
use std::alloc::Global;

/// Checks that a table is viable: each state has an item, and each core is there for a reason. A core with its dot past 0 comes from a
/// transition to its state; one with dot 0 is `^: . S` in the start state, or another core that is there for a reason has its rule after
/// the dot.
///
/// The fault is of the first state that isn't viable: it has no item; or else the first production, by its number, whose core with dot 0
/// isn't justified. It is `Memory` if an allocation fails, for a mark of each rule.
///
/// It goes over the cores of a state until no more rules are found: few times in practice, and at most one more than there are rules.
pub fn check_viable<StorageT: StorageIndex>(
    alloc: Global,
    grm: &YaccGrammar<StorageT>,
    sgraph: &StateGraph<StorageT>,
    stable: &StateTable<StorageT>,
) -> Result<(), ViableFault>
    requires formed { IsWellFormed grm.now }
    requires shape { HasShape grm.now sgraph.now stable.now }
    ensures viable { OnOk result (IsViable grm.now sgraph.now stable.now) }
    ensures fault { IfErr result (IsViableFault grm.now sgraph.now stable.now) }
    ensures exact { IsViable grm.now sgraph.now stable.now → IfErr result (λ fault. fault ≡ Memory) }
{
    let mut marks = vec![in alloc; false; grm.rules_len()]?;
    let checked = Viability {
        grm,
        sgraph,
        stable,
    };
    match checked.find_first_fault(&mut marks) {
        None => Ok(()),
        Some(fault) => Err(fault),
    }
}

impl<'a, StorageT: StorageIndex> Viability<'a, StorageT> {
    ghost use Rattle.lrpar_table_viable.specs.Checks.{AreSound, IsViableFaultOf, IsFaultOfState, IsFirstRefused, IsState};

    // What is wrong in the first state that isn't viable. `marks` is scratch space: one for each rule.
    fn find_first_fault(&self, marks: &mut [bool]) -> Option<ViableFault>
        requires sound { AreSound self.now }
        requires rules { length marks.old ≡ rules_len self.now.grm.now }
        ensures fault { IsViableFaultOf self.now result }
        ensures refuted { IfSome result (λ _. ¬ (IsViable self.now.grm.now self.now.sgraph.now self.now.stable.now)) }
    {
        for s in 0..self.stable.states_len() {
            let state = StIdx(StorageT::from_index(s).unwrap());
            if let Some(fault) = self.find_fault_at(state, marks) {
                return Some(fault);
            }
        }
        None
    }

    // What is wrong in the state, if anything is.
    fn find_fault_at(&self, s: StIdx<StorageT>, marks: &mut [bool]) -> Option<ViableFault>
        requires sound { AreSound self.now }
        requires state { IsState StorageT.index self.now s }
        requires rules { length marks.old ≡ rules_len self.now.grm.now }
        ensures rules { length marks.new ≡ rules_len self.now.grm.now }
        ensures fault { IsFaultOfState StorageT.index self.now s result }
    {
        let number = usize::from(s);
        if self.sgraph.cores(s).is_empty() {
            return Some(ViableFault::Empty(number));
        }
        self.mark_rules(s, marks);
        match self.unjustified(s, marks) {
            None => None,
            Some(pidx) => Some(ViableFault::Unjustified(number, usize::from(pidx))),
        }
    }

    // The first production whose core with dot 0 the marks don't justify.
    fn unjustified(&self, s: StIdx<StorageT>, marks: &[bool]) -> Option<PIdx<StorageT>>
        requires sound { AreSound self.now }
        requires state { IsState StorageT.index self.now s }
        requires rules { length marks.now ≡ rules_len self.now.grm.now }
        ensures { IsFirstRefused StorageT.index self.now s marks.now result }
    {
        for (pidx, dot) in self.sgraph.cores(s) {
            if !self.is_by_marks(s, *pidx, *dot, marks) {
                return Some(*pidx);
            }
        }
        None
    }
}
