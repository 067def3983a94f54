//! Parts of an input.
ghost use Rattle.std.specs.Prelude.{◌↔◌, IsTrue};
ghost use Rattle.lrpar_grammar_places.specs.Span.{IsPartOf};
ghost use Rattle.lrpar_lexer.specs.TextParts.{IsEmptyOutside, IsPartAt};

use lrpar_grammar_places::span::Span;

// Whether the part starts and ends in the text, each between two characters.
pub(crate) fn is_part(text: &str, span: Span) -> bool
    ensures { IsTrue result ↔ IsPartOf text.now span }
{
    text.is_char_boundary(span.start()) && text.is_char_boundary(span.end())
}

/// The part of the text; no text if it doesn't start and end in the text, each between two characters.
pub fn part_of(text: &str, span: Span) -> &str
    ensures part { IsPartAt text.now span result.now }
    ensures outside { IsEmptyOutside text.now span result.now }
{
    if !is_part(text, span) {
        return "";
    }
    &text[span.start()..span.end()]
}
