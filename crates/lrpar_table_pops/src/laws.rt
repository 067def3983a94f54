//! Laws about completions of stacks: each function has one as its contract, and does nothing.
ghost use Rattle.lrpar_table_pops.specs.Completable.{PopsAreCompletions};

/// A stack can be completed, that is, some tokens lead from it to one that accepts, if and only if a run can take all its states off, one
/// after the other: a control of the run leads from each state to the next.
pub fn pops_are_completions()
    ensures { PopsAreCompletions }
{}
