//! Whether a checked table is complete, and what that means for its runs.
ghost use Rattle.std.specs.Prelude.{◌≡◌, IfErr, OnOk};
ghost use Rattle.lrpar_table_conditions.specs.declared.completeness_fault.CompleteFault.TheVariants.{Memory};
ghost use Rattle.lrpar_table_check.specs.CheckedTables.{AcceptsSentences, IsCompleteFaultOf, IsCompleteTable};

use crate::check::ParserData;
use lrpar_grammar::span::StorageIndex;
use lrpar_table_conditions::completeness_fault::CompleteFault;
use lrpar_table_conditions::completeness_test::check_complete;
use std::alloc::Global;

impl<StorageT: StorageIndex> ParserData<StorageT> {
    /// Checks that the table is complete: that each condition holds in each state. Then a run accepts each sentence, by its only
    /// tree; so the grammar isn't ambiguous.
    ///
    /// The fault is the first of the conditions C1 to C5 that fails, at the lowest state at which it does. `Memory` comes if an
    /// allocation failed, for sets of tokens: one for each rule and each production, and four more.
    ///
    /// C3 and C4 look for the item after the symbol once for each item before a symbol: first in the place that it has if the
    /// next state has the same lookaheads there, else by a binary search, and by one more for each core. C5 looks at one action
    /// for each complete item. For C2 each core before a rule takes a few unions of sets of tokens, and a comparison of two of
    /// them for each production of the rule; and each state empties the productions' sets.
    pub fn check_complete(&self, alloc: Global) -> Result<(), CompleteFault>
        ensures complete { OnOk result (IsCompleteTable self.now) }
        ensures fault { IfErr result (IsCompleteFaultOf self.now) }
        ensures exact { IsCompleteTable self.now → IfErr result (λ fault. fault ≡ Memory) }
        ensures takes { OnOk result (AcceptsSentences self.now) }
    {
        check_complete(alloc, self.grm(), self.sgraph(), self.stable())
    }
}
