//! Laws about complete tables: each function has one as its contract, and does nothing.
ghost use Rattle.lrpar_grammar.specs.Sentence.{LexemeFacts};
ghost use Rattle.lrpar_table_check.specs.CompleteRuns.{CompleteTablesAcceptSentences};
ghost use Rattle.lrpar_table_check.specs.ExpectedRuns.{CheckedTablesEndAtSentences, CompleteTablesExpectSentences};

/// Over lexemes of any type, and over those that contracts speak of, the runs of a checked table that is complete accept exactly
/// the sentences, and each by its only tree: the run over a tree's leaves reduces its productions and accepts; if a run accepts,
/// its lexemes are a sentence; two trees with the same leaves are equal; and no sentence begins with the lexemes up to and
/// including a run's error point.
pub fn complete_tables_accept_sentences<LexemeT>()
    ensures takes { CompleteTablesAcceptSentences LexemeT }
    ensures facts_taken { CompleteTablesAcceptSentences LexemeFacts }
{}

/// Over lexemes of any type, and over those that contracts speak of: after lexemes that the run of a checked table feeds, the end
/// token may come next only if they are a sentence. If the table is complete, it may come next if and only if they are a
/// sentence, and so may each token with which some sentence goes on.
pub fn complete_tables_expect_sentences<LexemeT>()
    ensures ends { CheckedTablesEndAtSentences LexemeT }
    ensures expects { CompleteTablesExpectSentences LexemeT }
    ensures facts_end { CheckedTablesEndAtSentences LexemeFacts }
    ensures facts_expect { CompleteTablesExpectSentences LexemeFacts }
{}
