//! Laws of trees that respect precedences. Each function has one as its contract, and does nothing.
ghost use Rattle.lrpar_grammar.specs.Sentence.{LexemeFacts};
ghost use Rattle.lrpar_parse_lexemes.specs.Views.{facts_by};
ghost use Rattle.lrpar_parse_run.specs.Subject.{OfRecoverers};
ghost use Rattle.lrpar_parse_precedences.specs.OperatorGrammars.{RespectfulTreesAreOne, RespectfulTreesAreTaken};
ghost use Rattle.lrpar_parse_precedences.specs.PrecedenceTrees.{RepairedTreesRespectPrecedences, TreesRespectPrecedences};

use lrpar_grammar::span::StorageIndex;
use lrpar_parse_lexemes::lex_api::Lexeme;
use lrpar_parse_repair::repair::Recoverer;

/// Let production p of a rule R end in R, and production q of R begin with R and then a token b. In the tree of a run without errors over
/// a table that is built by precedences, no node of p has a node of q as its last child if p against b says reduce or error, unless
/// reduce/reduce conflicts are listed; and no node of q has a node of p as its first child if p against b says shift or error. This
/// holds over lexemes of any type, and over those that contracts speak of.
pub fn trees_respect_precedences<LexemeT>()
    ensures trees { TreesRespectPrecedences LexemeT }
    ensures facts_trees { TreesRespectPrecedences LexemeFacts }
{}

/// The tree of any run, also of one with repairs, respects the first half of this: no node of p has a node of q as its last child if p
/// against b says reduce or error, unless reduce/reduce conflicts are listed. It respects the second half, too, if no conflict was
/// resolved to an error, each reachable rule is productive, and no lexeme has the end token, as in the parse calls: no node of q has a
/// node of p as its first child if p against b says shift.
pub fn repaired_trees_respect_precedences<
    StorageT: StorageIndex,
    LexemeT: Lexeme<StorageT>,
    R: Recoverer<StorageT, LexemeT>,
>()
    ensures { OfRecoverers R.allows (RepairedTreesRespectPrecedences (facts_by StorageT.index LexemeT.parts)) }
{}

/// Let a grammar have one rule R, whose productions are atoms, R in brackets, and infix operators with a precedence, each token in one
/// place alone. Over a table that is built by these precedences, each text with a tree that respects them is taken, with that tree; and it
/// has no other such tree. This holds over lexemes of any type, and over those that contracts speak of.
pub fn operator_texts_are_taken<LexemeT>()
    ensures taken { RespectfulTreesAreTaken LexemeT }
    ensures one { RespectfulTreesAreOne LexemeT }
    ensures facts_taken { RespectfulTreesAreTaken LexemeFacts }
    ensures facts_one { RespectfulTreesAreOne LexemeFacts }
{}
