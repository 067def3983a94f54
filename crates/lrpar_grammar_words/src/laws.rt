//! Laws of the definitions of grammar texts. Each function does nothing: its clauses are the law.
ghost use Rattle.lrpar_grammar_words.specs.Forms.{NothingIsPassedOver, PiecesAreLongest};
ghost use Rattle.lrpar_grammar_words.specs.Outline.{OutlineIsOne, StuckIsOne};
ghost use Rattle.lrpar_grammar_words.specs.Phrases.{OutlinesAreOfTexts};
ghost use Rattle.lrpar_grammar_words.specs.Words.{ReadsAsOne};

/// The piece at a place of a grammar text is the longest word or the longest blanks there. If there is no piece, the rest of the
/// text begins with no word and no blanks.
pub fn pieces_are_longest()
    ensures read { PiecesAreLongest }
    ensures unread { NothingIsPassedOver }
{}

/// A grammar text reads as at most one list of words.
pub fn text_reads_as_one()
    ensures { ReadsAsOne }
{}

/// A grammar text has at most one outline: one list of declarations and rules.
pub fn text_has_one_outline()
    ensures { OutlineIsOne }
{}

/// Reading a grammar text is stuck at one place at most: where what comes next isn't allowed after the words so far.
pub fn text_is_stuck_at_one_place()
    ensures { StuckIsOne }
{}

/// Words have an outline if and only if they are those of a grammar text: declarations, `%%`, rules, and perhaps a second `%%`.
/// The outline lists what these declare and define, each in the order of the text.
pub fn outlines_are_of_grammar_texts()
    ensures { OutlinesAreOfTexts }
{}
