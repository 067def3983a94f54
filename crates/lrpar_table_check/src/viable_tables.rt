//! Whether a checked table is viable.
ghost use Rattle.std.specs.Prelude.{◌≡◌, IfErr, OnOk};
ghost use Rattle.lrpar_table_check.specs.CheckedTables.{IsViableFaultOf, IsViableTable};
ghost use Rattle.lrpar_table_viable.specs.declared.viable_fault.ViableFault.TheVariants.{Memory};

use crate::check::ParserData;
use lrpar_grammar::span::StorageIndex;
use lrpar_table_viable::viable_fault::ViableFault;
use lrpar_table_viable::viable_test::check_viable;
use std::alloc::Global;

impl<StorageT: StorageIndex> ParserData<StorageT> {
    /// Checks that the table is viable: that each state has an item, and each core is there for a reason. A core with its dot past 0
    /// comes from a transition to its state; one with dot 0 is `^: . S` in the start state, or another core that is there for a reason
    /// has its rule after the dot. The lookaheads of items play no part.
    ///
    /// The fault is of the first state that isn't viable: it has no item; or else the first production, by its number, whose core with
    /// dot 0 isn't there for a reason. `Memory` comes if an allocation failed, for a mark of each rule.
    ///
    /// Each state empties the marks, and then goes over its cores until no more rules are found: few times in practice, and at most one
    /// more than there are rules.
    pub fn check_viable(&self, alloc: Global) -> Result<(), ViableFault>
        ensures viable { OnOk result (IsViableTable self.now) }
        ensures fault { IfErr result (IsViableFaultOf self.now) }
        ensures exact { IsViableTable self.now → IfErr result (λ fault. fault ≡ Memory) }
    {
        check_viable(alloc, self.grm(), self.sgraph(), self.stable())
    }
}
