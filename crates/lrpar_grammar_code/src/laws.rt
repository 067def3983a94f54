//! Laws of the definitions of code. Each function does nothing: its clauses are the law.
ghost use Rattle.lrpar_grammar_code.specs.Literals.{LiteralsAreOnePiece};

/// A string or a character of Rust code is one piece, whatever braces are in it. So it opens and closes none.
pub fn literals_are_one_piece()
    ensures { LiteralsAreOnePiece }
{}
