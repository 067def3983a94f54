//! Laws of the definitions of erasures. Each function does nothing: its clauses are the law.
ghost use Rattle.lrpar_grammar_yacc.specs.Laws.{AreOwnErasures};

/// A grammar text, which has none of what is erased, is its own erasure.
pub fn grammar_texts_are_their_own_erasures()
    ensures { AreOwnErasures }
{}
