//! A law about the definitions that contracts cite: a function that has it as its contract, and does nothing.
ghost use Rattle.lrpar_table_shared_stacks.specs.SharedStacks.{NumberedStacksStay};

/// The number of a stack means the same stack from then on.
pub fn numbered_stacks_stay()
    ensures { NumberedStacksStay }
{}
