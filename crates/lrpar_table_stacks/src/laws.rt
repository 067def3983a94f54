//! Laws about the definitions that contracts cite. Each function has such a law as its contract, and does nothing.
ghost use Rattle.std.specs.Prelude.{◌∷◌, []};
ghost use Rattle.lrpar_grammar.specs.Grammar.{Nonterminal, Terminal};
ghost use Rattle.lrpar_grammar.specs.Sum.{sum_grammar};
ghost use Rattle.lrpar_table_stacks.specs.Chain.{AreChainsShort, BoundsReductions, IsLongChain};
ghost use Rattle.lrpar_table_stacks.specs.Path.{CheckedRunsNeverStick, IsPath, PathsAreStacks, StacksArePaths};
ghost use Rattle.lrpar_table_stacks.specs.Reduction.{SettlesOneWay, Settles};
ghost use Rattle.lrpar_table_stacks.specs.Stack.{IsStack};
ghost use Rattle.lrpar_table_rows.specs.Sum.{sum_table};

/// Reductions are deterministic: from a stack, under a lookahead, there is at most one list of reductions after which no
/// reduction is due, and one stack after them.
pub fn reductions_have_one_answer()
    ensures { SettlesOneWay }
{}

/// A stack of the small table, that after `ID + ID`, and two lists of states that aren't stacks.
pub fn sum_table_has_stack()
    ensures stack { IsStack sum_table (0 ∷ 2 ∷ 4 ∷ 3 ∷ []) }
    ensures other_start { ¬ (IsStack sum_table (2 ∷ 4 ∷ 3 ∷ [])) }
    ensures not_joined { ¬ (IsStack sum_table (0 ∷ 4 ∷ [])) }
{}

/// At the end of `ID + ID` the small table reduces by `T: 'ID'`, by `E: T` and by `E: T '+' E`.
pub fn sum_table_settles()
    ensures { Settles sum_grammar sum_table 2 (0 ∷ 2 ∷ 4 ∷ 3 ∷ []) (2 ∷ 1 ∷ 0 ∷ []) (0 ∷ 1 ∷ []) }
{}

/// Over a checked table no run sticks. On each stack that a run reaches: it doesn't shift the end token; its reductions find the
/// symbols of their productions and their gotos; and it accepts only at the end, with the start rule alone on the stack.
pub fn checked_runs_never_stick()
    ensures { CheckedRunsNeverStick }
{}

/// A path is a stack, if the table has no entries past its tokens and its rules; and every stack is a path along some
/// symbols.
pub fn paths_are_stacks()
    ensures stacks { PathsAreStacks }
    ensures paths { StacksArePaths }
{}

/// A path of the small table, along `T '+' ID`; that stack isn't a path along `E '+' ID`, nor along `T '+'`.
pub fn sum_table_has_path()
    ensures path { IsPath sum_table (Nonterminal 2 ∷ Terminal 0 ∷ Terminal 1 ∷ []) (0 ∷ 2 ∷ 4 ∷ 3 ∷ []) }
    ensures other_rule { ¬ (IsPath sum_table (Nonterminal 1 ∷ Terminal 0 ∷ Terminal 1 ∷ []) (0 ∷ 2 ∷ 4 ∷ 3 ∷ [])) }
    ensures too_few { ¬ (IsPath sum_table (Nonterminal 2 ∷ Terminal 0 ∷ []) (0 ∷ 2 ∷ 4 ∷ 3 ∷ [])) }
{}

/// Over a table whose chains of reductions are short, all reductions under one lookahead are at most `cap` times the height
/// of the stack before them; and at most `cap` times the sum of the height that the stack loses by them and `cap + 2`.
pub fn reductions_are_bounded()
    ensures { BoundsReductions }
{}

/// In the small table, at the end token, the chain of state 4 with its goto 2 above it makes two reductions, by `E: T` and by
/// `E: T '+' E`, which drops both states; and no chain makes three.
pub fn sum_table_has_chains()
    ensures long { IsLongChain sum_grammar sum_table 1 4 2 }
    ensures short { AreChainsShort sum_grammar sum_table 2 }
{}
