//! Laws about tables that are built of a grammar: each function has some as its contract, and does nothing.
ghost use Rattle.lrpar_grammar.specs.Sentence.{LexemeFacts};
ghost use Rattle.lrpar_table.specs.TableLaws.{AmbiguousGrammarsHaveConflicts, BuiltTablesAreCompleteWithoutConflicts, GrammarsWithoutConflictsHaveOneTree, ResolvedTablesAreIncomplete};

/// The table that `from_yacc` builds of a grammar is complete if and only if it has no conflicts: no test of C1 to C5 is needed.
pub fn built_tables_are_complete_without_conflicts()
    ensures { BuiltTablesAreCompleteWithoutConflicts }
{}

/// If precedences resolved a conflict of a canonical table, the table isn't complete: `check_complete` refuses it.
pub fn resolved_tables_are_incomplete()
    ensures { ResolvedTablesAreIncomplete }
{}

/// If a grammar has two trees for one list of lexemes, the table that `from_yacc` builds of it has conflicts; so if the table has
/// none, each text has at most one tree. This holds over lexemes of any type, and over those that contracts speak of.
pub fn ambiguous_grammars_have_conflicts<LexemeT>()
    ensures conflicts { AmbiguousGrammarsHaveConflicts LexemeT }
    ensures one_tree { GrammarsWithoutConflictsHaveOneTree LexemeT }
    ensures facts_conflicts { AmbiguousGrammarsHaveConflicts LexemeFacts }
    ensures facts_one_tree { GrammarsWithoutConflictsHaveOneTree LexemeFacts }
{}
