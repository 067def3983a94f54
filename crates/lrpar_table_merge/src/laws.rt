//! Laws about merged tables. Each function has such a law as its contract, and does nothing.
ghost use Rattle.lrpar_table_merge.specs.MergedByLaws.{BuiltByTablesAreMergedBy, MergedByNoneIsMerged, MergedConflictsByFit, MergedShiftConflictsAreCanonical, MergedTablesByPrecedencesAreSafe, MergedTablesByPrecedencesAreViable, NoMergedConflictsByAreNoCanonical};
ghost use Rattle.lrpar_table_merge.specs.MergedLaws.{BuiltTablesAreMerged, CanonicalSetsAreMerged, CanonicalSetsAreWithinMerged, MergedConflictsFit, MergedTablesAreCompleteWithoutConflicts, MergedTablesAreSafe, MergedTablesAreViable, NoMergedConflictsAreNoCanonical};

/// The canonical collection of a grammar is one of merged item sets, in which nothing is merged.
pub fn canonical_sets_are_merged()
    ensures { CanonicalSetsAreMerged }
{}

/// So the table that `from_yacc` builds of a grammar is a merged one.
pub fn built_tables_are_merged()
    ensures { BuiltTablesAreMerged }
{}

/// If a graph has merged item sets, and the table has in each state the actions after conflict resolution, the table is safe. So it
/// needs no test of S1 to S8.
pub fn merged_tables_are_safe()
    ensures { MergedTablesAreSafe }
{}

/// Such a table is viable, too: each core of its states is justified. This is what the laws on viable tables of `lrpar_parse_prefixes`
/// need besides safety.
pub fn merged_tables_are_viable()
    ensures { MergedTablesAreViable }
{}

/// A table of merged item sets with their conflicts is complete if and only if it has no conflicts: no test of C1 to C5 is needed.
pub fn merged_tables_are_complete_without_conflicts()
    ensures { MergedTablesAreCompleteWithoutConflicts }
{}

/// The conflicts of merged item sets fit the grammar.
pub fn merged_conflicts_fit()
    ensures { MergedConflictsFit }
{}

/// Each canonical item set is within a merged one. If gotos reach some items by a path of symbols, the transitions lead along the path
/// to a state with all of them.
pub fn canonical_sets_are_within_merged()
    ensures { CanonicalSetsAreWithinMerged }
{}

/// If a table of merged item sets has no conflicts, the table that `from_yacc` builds of the grammar has none: the grammar is LR(1).
pub fn no_merged_conflicts_are_no_canonical()
    ensures { NoMergedConflictsAreNoCanonical }
{}

/// If a graph has merged item sets, and the table has in each state the actions after conflict resolution by precedences, the table is
/// safe: precedences choose only among the actions that the item sets call for, or make an error of them.
pub fn merged_tables_by_precedences_are_safe()
    ensures { MergedTablesByPrecedencesAreSafe }
{}

/// Such a table is viable, too.
pub fn merged_tables_by_precedences_are_viable()
    ensures { MergedTablesByPrecedencesAreViable }
{}

/// By precedences that decide nothing, as those of `Precedences::none`, the merged tables are those without precedences.
pub fn merged_by_none_is_merged()
    ensures { MergedByNoneIsMerged }
{}

/// The table that `from_yacc_with` builds of a grammar and precedences is a merged one by these precedences.
pub fn built_by_tables_are_merged_by()
    ensures { BuiltByTablesAreMergedBy }
{}

/// The conflicts of merged item sets fit the grammar: those that the precedences don't resolve, and those that they do.
pub fn merged_conflicts_by_fit()
    ensures { MergedConflictsByFit }
{}

/// If the precedences resolve all conflicts of merged item sets, they resolve all conflicts of the table that `from_yacc_with` builds.
pub fn no_merged_conflicts_by_are_no_canonical()
    ensures { NoMergedConflictsByAreNoCanonical }
{}

/// Merging makes no shift/reduce conflicts. If a merged set calls for a shift and a reduction at one token, a canonical set does, too:
/// one that gotos reach by a path to the state.
pub fn merged_shift_conflicts_are_canonical()
    ensures { MergedShiftConflictsAreCanonical }
{}
