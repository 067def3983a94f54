//! A law about the definitions that contracts cite: a function that has it as its contract, and does nothing.
ghost use Rattle.lrpar_names.specs.Laws.{NamesAreThoseOfLines};

/// The names of a messages file are those that its lines give.
pub fn names_are_those_of_lines()
    ensures { NamesAreThoseOfLines }
{}
