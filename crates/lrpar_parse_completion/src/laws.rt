//! Laws about the definitions that contracts cite: each function has one as its contract, and does nothing.
ghost use Rattle.lrpar_grammar.specs.Sentence.{LexemeFacts};
ghost use Rattle.lrpar_parse_completion.specs.CompletionLaws.{CompletionsRepair, ViableCompletionsRepair};
ghost use Rattle.lrpar_parse_completion.specs.TableAnswer.{TableCompletionsRepair};

/// A completion always repairs: over its own table, if that is built, each answer that it may give at an error point has a sequence that
/// works.
pub fn completions_always_repair<LexemeT>()
    ensures repair { CompletionsRepair LexemeT }
    ensures facts_repair { CompletionsRepair LexemeFacts }
{}

/// A completion always repairs over any viable table: its item sets may be merged, as in an LALR table, or it may come from another tool. `check_viable`
/// says whether a table is viable, and each table that is built is.
pub fn completions_always_repair_over_viable_tables<LexemeT>()
    ensures repair { ViableCompletionsRepair LexemeT }
    ensures facts_repair { ViableCompletionsRepair LexemeFacts }
{}

/// A completion by the table's own runs always repairs over its own table, whatever conflicts were resolved in it.
pub fn table_completions_always_repair<LexemeT>()
    ensures repair { TableCompletionsRepair LexemeT }
    ensures facts_repair { TableCompletionsRepair LexemeFacts }
{}
