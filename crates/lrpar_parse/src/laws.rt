//! Laws about the definitions that contracts cite. Each function states one as its contract, and does nothing.
ghost use Rattle.std.specs.Prelude.{◌≡◌, ◌↔◌, IsTrue};
ghost use Rattle.lrpar_table_stacks.specs.Chain.{most_productions};
ghost use Rattle.lrpar_grammar.specs.Sentence.{LexemeFacts};
ghost use Rattle.lrpar_table_stacks.specs.Run.{RunsOneWay};
ghost use Rattle.lrpar_parse_lexemes.specs.Views.{facts_by};
ghost use Rattle.lrpar_parse.specs.declared.fault.ParseFault.{ParseFault};
ghost use Rattle.lrpar_parse_run.specs.Subject.{OfRecoverers};
ghost use Rattle.lrpar_parse.specs.RepairLaws.{AcceptsWhereRepaired, BothSupplyOne, ListsSound, RepairRunsOneWay, RunsWithoutRepairs, StopsAtStacks, StopsByFailing, StopsLieApart};
ghost use Rattle.lrpar_parse_repair.specs.Replays.{ReplaysOneWay, WorksByReplay};
ghost use Rattle.lrpar_table_stacks.specs.RunLaws.{RunsEndOneWay, RunsGoOnOrEnd, RunsStopByFailing};
ghost use Rattle.lrpar_parse.specs.SumRun.{SumRunsThrough};
ghost use Rattle.lrpar_parse_run.specs.Spans.{SpansAreWorkedOut};
ghost use Rattle.lrpar_parse_repair.specs.TestWork.{BoundsTests};
ghost use Rattle.lrpar_parse_lexemes.specs.Views.{span_by};
ghost use Rattle.lrpar_parse.specs.Values.{FoldsPlainly};

use crate::fault::ParseFault;
use crate::values::Values;
use lrpar_grammar::span::StorageIndex;
use lrpar_parse_lexemes::lex_api::Lexeme;
use lrpar_parse_repair::or::Or;
use lrpar_parse_repair::repair::Recoverer;

/// From a stack at a place there is at most one run, over lexemes of any type and over those that contracts use: two runs make the same
/// reductions and end alike, so they have the same error points and consume the same lexemes.
pub fn runs_have_one_answer<LexemeT>()
    ensures ways { RunsOneWay LexemeT }
    ensures ends { RunsEndOneWay LexemeT }
    ensures facts_ways { RunsOneWay LexemeFacts }
    ensures facts_ends { RunsEndOneWay LexemeFacts }
{}

/// At each place, after all reductions, a run shifts the lexeme, or accepts past the last one, or is at an error point.
pub fn runs_go_on_or_end<LexemeT>()
    ensures goes { RunsGoOnOrEnd LexemeT }
    ensures facts_go { RunsGoOnOrEnd LexemeFacts }
{}

/// If runs over the table never stick and no lexeme has the end token, then the top state at an error point has no action for the token
/// at that place.
pub fn runs_stop_by_failing<LexemeT>()
    ensures fails { RunsStopByFailing LexemeT }
    ensures facts_fail { RunsStopByFailing LexemeFacts }
{}

/// On the table of sums the run over `a+b` accepts, with the reductions that a reader works out by hand. A tree with three leaves has at
/// most 40 productions there, if a chain has at most 2 reductions and there is no error.
pub fn sum_run_is_worked_out()
    ensures run { SumRunsThrough }
    ensures bound { most_productions 2 3 0 ≡ 40 }
{}

/// A repair sequence works if and only if it can be replayed and k lexemes can be fed after that; and its replay has one result.
pub fn sequences_that_work_are_replayed<LexemeT>()
    ensures works { WorksByReplay LexemeT }
    ensures one_way { ReplaysOneWay LexemeT }
    ensures facts_work { WorksByReplay LexemeFacts }
    ensures facts_one_way { ReplaysOneWay LexemeFacts }
{}

/// This holds for a run with repairs if at least one lexeme must follow a repair. No listed sequence is empty, inserts the end token or
/// a token that the grammar doesn't have, or goes past the last lexeme. Each error point is at least k lexemes after those before it, so
/// over n lexemes there are at most n / k + 1. The run accepts if and only if a sequence is listed at each error point. Over a checked
/// table and valid lexemes the stack of each error point is a stack of the table, and its top state has no action at the token there.
pub fn runs_with_repairs_are_sound<
    StorageT: StorageIndex,
    LexemeT: Lexeme<StorageT>,
    R: Recoverer<StorageT, LexemeT>,
>()
    ensures sound { OfRecoverers R.allows (ListsSound (facts_by StorageT.index LexemeT.parts)) }
    ensures apart { OfRecoverers R.allows (StopsLieApart (facts_by StorageT.index LexemeT.parts)) }
    ensures accepts { OfRecoverers R.allows (AcceptsWhereRepaired (facts_by StorageT.index LexemeT.parts)) }
    ensures stacks { OfRecoverers R.allows (StopsAtStacks (facts_by StorageT.index LexemeT.parts)) }
    ensures fails { OfRecoverers R.allows (StopsByFailing (facts_by StorageT.index LexemeT.parts)) }
{}

/// If a recoverer has at most one answer at each error point, a run with repairs has one answer: two runs from one stack and place have
/// the same error points, list the same sequences there, make the same reductions, and consume lexemes with the same tokens and spans,
/// of which the same ones are faulty.
pub fn runs_with_repairs_have_one_answer<
    StorageT: StorageIndex,
    LexemeT: Lexeme<StorageT>,
    R: Recoverer<StorageT, LexemeT>,
>()
    ensures { OfRecoverers R.allows (RepairRunsOneWay (facts_by StorageT.index LexemeT.parts)) }
{}

/// If each of two recoverers has at most one answer at each error point, so has `first.or(second)`.
pub fn or_has_one_answer<
    StorageT: StorageIndex,
    LexemeT: Lexeme<StorageT>,
    A: Recoverer<StorageT, LexemeT>,
    B: Recoverer<StorageT, LexemeT>,
>()
    ensures { BothSupplyOne A.allows B.allows ⟦<Or<A, B, StorageT, LexemeT> as Recoverer<StorageT, LexemeT>>⟧.allows }
{}

/// If a recoverer supplies nothing, a run with repairs is a run without repairs.
pub fn runs_without_a_recoverer<LexemeT>()
    ensures runs { RunsWithoutRepairs LexemeT }
    ensures facts_run { RunsWithoutRepairs LexemeFacts }
{}

/// The test of a sequence of m steps from a stack of h states makes at most `cap * (h + (m + k + 1) * (cap + 3))` reductions, whatever
/// the steps, if k lexemes must follow a repair. It counts the reductions of the steps that can be taken, and of the one at which the
/// test ends. This holds over a table whose runs never stick and whose reductions are bounded by the cap, so over each checked table.
pub fn tests_of_sequences_are_bounded<LexemeT>()
    ensures tests { BoundsTests LexemeT }
    ensures facts_tests { BoundsTests LexemeFacts }
{}

/// The spans of trees with nodes that have no children: what comes before such a node determines its span.
pub fn spans_are_worked_out()
    ensures { SpansAreWorkedOut }
{}

/// Two faults of a parse are equal if and only if they are of one kind and name the same lexeme.
pub fn faults_are_compared_by_contents()
    ensures { (x y : ParseFault) → IsTrue (⟦<ParseFault as PartialEq>⟧.eq x y) ↔ (x ≡ y) }
{}

/// If a tree folds to a value by `parse_values`, and not to an error, it folds to this value by the caller's function alone: no
/// production of the tree has an error.
pub fn values_fold_without_errors<
    StorageT: StorageIndex,
    LexemeT: Lexeme<StorageT>,
    LexerT,
    V: Values<LexemeT, LexerT>,
>(_lexer: &LexerT, _values: &V)
    ensures { FoldsPlainly (span_by LexemeT.parts) (V.gives _values.now) _lexer.now }
{}
