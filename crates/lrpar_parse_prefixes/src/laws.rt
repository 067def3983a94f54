//! Laws about runs over tables that are built of a grammar, and over other viable tables of it: each function has some as its
//! contract, and does nothing.
ghost use Rattle.lrpar_grammar.specs.Sentence.{LexemeFacts};
ghost use Rattle.lrpar_grammar.specs.Sum.{sum_grammar};
ghost use Rattle.lrpar_parse_lexemes.specs.Views.{facts_by};
ghost use Rattle.lrpar_parse_run.specs.Subject.{OfRecoverers};
ghost use Rattle.lrpar_table_rows.specs.Sum.{with_bare_items};
ghost use Rattle.lrpar_parse_prefixes.specs.ErrorStates.{BuiltActionsKeepToSentences, CompleteBuiltActionsFollowSentences, EachErrorComesInTime, ErrorStatesFollowSentences, ErrorStatesKeepToSentences};
ghost use Rattle.lrpar_parse_prefixes.specs.FirstErrors.{FirstErrorsAreExact, FirstErrorsComeInTime, ViableFirstErrorsAreExact, ViableFirstErrorsComeInTime};
ghost use Rattle.lrpar_parse_prefixes.specs.Unviable.{ErrsLate, bare_table, stray_graph, stray_table};
ghost use Rattle.lrpar_parse_prefixes.specs.ViableLaws.{BuiltTablesAreViable, BuiltTablesKeepToSentences, CompleteBuiltTablesFollowSentences, CompleteViableTablesFollowSentences, SentencesAreOfTokens, TablesByPrecedenceAreViable, ViableTablesKeepToSentences};

use lrpar_grammar::span::StorageIndex;
use lrpar_parse_lexemes::lex_api::Lexeme;
use lrpar_parse_repair::repair::Recoverer;

/// Lexemes of any type, and those that contracts speak of, are a sentence if and only if their tokens are, each as its own
/// lexeme.
pub fn sentences_are_of_tokens<LexemeT>()
    ensures tokens { SentencesAreOfTokens LexemeT }
    ensures facts_tokens { SentencesAreOfTokens LexemeFacts }
{}

/// The viable prefix property, also called the correct-prefix property: over lexemes of any type, and over those that contracts
/// speak of, and over a table that was built of a grammar in which each reachable rule is productive, with conflicts or without.
/// A sentence begins with the lexemes that a run feeds, and with these and each token that may come next; the end token may come
/// next only if the lexemes are a sentence. No error comes too late: a sentence begins with the lexemes before the error point.
pub fn built_tables_keep_to_sentences<LexemeT>()
    ensures keep { BuiltTablesKeepToSentences LexemeT }
    ensures facts_keep { BuiltTablesKeepToSentences LexemeFacts }
{}

/// No error comes too early either, if such a table is complete: the tokens that may come next are exactly those with which some
/// sentence goes on, and the end token if and only if the lexemes are a sentence. The error point of a run is the first lexeme
/// with which no sentence begins; or the end, if a sentence begins with the lexemes but they aren't one.
pub fn complete_built_tables_follow_sentences<LexemeT>()
    ensures follow { CompleteBuiltTablesFollowSentences LexemeT }
    ensures facts_follow { CompleteBuiltTablesFollowSentences LexemeFacts }
{}

/// The first error of a parse is where the text goes wrong, whatever its recoverer, over a table that was built of a grammar in which each
/// reachable rule is productive. A sentence begins with the lexemes before the first error point of a run with repairs; and if
/// the table is complete, that is the first lexeme with which no sentence begins, or the end.
pub fn first_errors_are_where_texts_go_wrong<
    StorageT: StorageIndex,
    LexemeT: Lexeme<StorageT>,
    R: Recoverer<StorageT, LexemeT>,
>()
    ensures in_time { OfRecoverers R.allows (FirstErrorsComeInTime (facts_by StorageT.index LexemeT.parts)) }
    ensures exact { OfRecoverers R.allows (FirstErrorsAreExact (facts_by StorageT.index LexemeT.parts)) }
{}

/// A table that was built of a grammar is viable, with conflicts or without, and so is one whose conflicts precedences resolve: each
/// of its states has a core, and each core comes from a transition to the state, or another core of the state adds it, or it is the
/// first core of the start state.
pub fn built_tables_are_viable()
    ensures built { BuiltTablesAreViable }
    ensures by_precedences { TablesByPrecedenceAreViable }
{}

/// The viable prefix property over any table that is safe and viable, for a grammar in which each reachable rule is productive. The
/// table may have been built by precedences, its item sets may be merged, as in an LALR table, or it may come from another tool. A
/// sentence begins with the lexemes that a run feeds, and with these and each token that may come next; the end token may come next
/// only if the lexemes are a sentence. No error comes too late: a sentence begins with the lexemes before the error point.
pub fn viable_tables_keep_to_sentences<LexemeT>()
    ensures keep { ViableTablesKeepToSentences LexemeT }
    ensures facts_keep { ViableTablesKeepToSentences LexemeFacts }
{}

/// No error comes too early either, if such a table is complete: the tokens that may come next are exactly those with which some
/// sentence goes on, and the end token if and only if the lexemes are a sentence. The error point of a run is the first lexeme
/// with which no sentence begins; or the end, if a sentence begins with the lexemes but they aren't one. A run over a merged table
/// may make reductions before it finds the error, but it finds the error at the same lexeme.
pub fn complete_viable_tables_follow_sentences<LexemeT>()
    ensures follow { CompleteViableTablesFollowSentences LexemeT }
    ensures facts_follow { CompleteViableTablesFollowSentences LexemeFacts }
{}

/// The first error of a parse is where the text goes wrong, whatever its recoverer, over any table that is safe and viable: merged, built by
/// precedences, or of another tool. A sentence begins with the lexemes before the first error point of a run with repairs; and if
/// the table is complete, that is the first lexeme with which no sentence begins, or the end.
pub fn viable_first_errors_are_where_texts_go_wrong<
    StorageT: StorageIndex,
    LexemeT: Lexeme<StorageT>,
    R: Recoverer<StorageT, LexemeT>,
>()
    ensures in_time { OfRecoverers R.allows (ViableFirstErrorsComeInTime (facts_by StorageT.index LexemeT.parts)) }
    ensures exact { OfRecoverers R.allows (ViableFirstErrorsAreExact (facts_by StorageT.index LexemeT.parts)) }
{}

/// No later error of a parse comes too late either, whatever its recoverer, over any table that is safe and viable: a sentence begins
/// with the lexemes before each error, as repaired so far.
pub fn viable_errors_come_in_time<
    StorageT: StorageIndex,
    LexemeT: Lexeme<StorageT>,
    R: Recoverer<StorageT, LexemeT>,
>()
    ensures in_time { OfRecoverers R.allows (EachErrorComesInTime (facts_by StorageT.index LexemeT.parts)) }
{}

/// That a table is safe isn't enough. The small table of sums stays safe if it gets one more state, to which the start state shifts
/// `+`: one that has no item, or one that has only the item `T: . 'ID' {end}`, which no other item adds. These tables aren't viable, and
/// a run over them feeds `+`, with which no sentence begins.
pub fn safe_tables_can_err_late()
    ensures empty { ErrsLate sum_grammar with_bare_items bare_table }
    ensures unjustified { ErrsLate sum_grammar stray_graph stray_table }
{}

/// Over a table that was built of a grammar in which each reachable rule is productive, with conflicts or without, each token at
/// which a state has an action can come next. This holds of the top of each stack to which a run without repairs feeds lexemes,
/// and of the state of its error point: after the lexemes before it, some sentence goes on with the token; or it is the end token,
/// and they are a sentence.
pub fn actions_keep_to_sentences<LexemeT>()
    ensures keep { BuiltActionsKeepToSentences LexemeT }
    ensures facts_keep { BuiltActionsKeepToSentences LexemeFacts }
{}

/// If such a table is complete, these states have an action at exactly the tokens that can come next; the state of an error point,
/// if no lexeme has the end token. And then an error is found before any reduction: the stack of an error point is the one to which
/// the lexemes before it are fed.
pub fn complete_actions_follow_sentences<LexemeT>()
    ensures follow { CompleteBuiltActionsFollowSentences LexemeT }
    ensures facts_follow { CompleteBuiltActionsFollowSentences LexemeFacts }
{}

/// Each error of a parse, the later ones, too, expects what can follow, whatever its recoverer: the state of an error has an action only at
/// tokens that can come after the lexemes before it, as repaired so far; and at exactly these, if the table is complete and no
/// lexeme has the end token, as in the parse calls. `ParseError::expected` returns these tokens.
pub fn errors_expect_what_can_follow<
    StorageT: StorageIndex,
    LexemeT: Lexeme<StorageT>,
    R: Recoverer<StorageT, LexemeT>,
>()
    ensures keep { OfRecoverers R.allows (ErrorStatesKeepToSentences (facts_by StorageT.index LexemeT.parts)) }
    ensures follow { OfRecoverers R.allows (ErrorStatesFollowSentences (facts_by StorageT.index LexemeT.parts)) }
{}
