//! Laws about the definitions that contracts cite. Each function has such a law as its contract, and does nothing.
ghost use Rattle.lrpar_table_build.specs.BuilderLaws.{CanonicalConflictsFit, CanonicalTablesAreSafe, NoConflictsAreOneAction, TablesByPrecedenceAreSafe};
ghost use Rattle.lrpar_table_build.specs.KeptApart.{PrecedencesKeepApart};

/// If a graph has the canonical collection of a grammar, and the table has in each state the actions after conflict resolution, the
/// table is safe. So it needs no test of S1 to S8.
pub fn canonical_tables_are_safe()
    ensures { CanonicalTablesAreSafe }
{}

/// A canonical table whose conflicts are resolved by precedences is safe: these only choose among the actions that the item sets call for, or
/// take them away.
pub fn tables_by_precedence_are_safe()
    ensures { TablesByPrecedenceAreSafe }
{}

/// The canonical collection of a grammar has no conflicts exactly if no state calls for two different actions at one token. So if a
/// table has none, each of its actions is the only one that its state calls for.
pub fn no_conflicts_are_one_action()
    ensures { NoConflictsAreOneAction }
{}

/// The conflicts of the canonical collection of a grammar fit the grammar.
pub fn canonical_conflicts_fit()
    ensures { CanonicalConflictsFit }
{}

/// Let production p of a rule R end in R, and production q of R begin with R and then a token b, as `E: '-' E` and `E: E '+' E`. In a
/// table that is built by precedences, no state in which p is complete shifts b if p against b says reduce or error, unless
/// reduce/reduce conflicts are listed; and no state reduces by p at b if p against b says shift or error.
pub fn precedences_keep_apart()
    ensures { PrecedencesKeepApart }
{}
