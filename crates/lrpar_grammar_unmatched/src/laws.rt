//! Laws of the definitions that contracts cite. Each function does nothing: its clauses are the law.
ghost use Rattle.lrpar_grammar_unmatched.specs.TokenLaws.{KeepsSentences, KeepsSpans, KeepsTheRest};
ghost use Rattle.lrpar_grammar.specs.Sentence.{LexemeFacts};

/// With one more token, a grammar that is made of parts keeps its rules, productions and other tokens, and its start rule.
pub fn one_more_token_keeps_the_rest()
    ensures { KeepsTheRest }
{}

/// With one more token, the places of a grammar that is made of parts fit each text that they fit without it.
pub fn one_more_token_keeps_spans()
    ensures { KeepsSpans }
{}

/// With one more token, a grammar that is made of parts keeps its sentences.
pub fn one_more_token_keeps_sentences<LexemeT>()
    ensures any { KeepsSentences LexemeT }
    ensures facts { KeepsSentences LexemeFacts }
{}
