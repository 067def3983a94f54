//! A law of the definitions that contracts cite. Its function does nothing: its clause is the law.
ghost use Rattle.lrpar_grammar_reader.specs.Spells.{SpellsOne};

use lrpar_grammar_words::laws::text_has_one_outline;

/// A text spells at most one grammar.
pub fn text_spells_one_grammar()
    ensures { SpellsOne }
{
    text_has_one_outline();
}
