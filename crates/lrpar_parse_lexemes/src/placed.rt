//! Arguments of a caller's actions, with their spans.
ghost use Rattle.std.specs.Prelude.{◌≡◌};
ghost use Rattle.lrpar_parse_lexemes.specs.PlacedSpans.{RiseBeside, span_beside};

use lrpar_grammar_places::span::Span;

/// An argument of an action, with its span.
#[derive(Drop)]
pub struct Placed<T> {
    pub span: Span,
    pub argument: T,
}

/// The span of a production over its `own` entries, which come after the entries `before`.
pub fn span_of<T>(before: &[Placed<T>], own: &[Placed<T>]) -> Span
    requires { RiseBeside before.now own.now }
    ensures { result ≡ span_beside before.now own.now }
{
    if own.is_empty() {
        match before.last() {
            Some(entry) => entry.span,
            None => Span::new(0, 0),
        }
    } else {
        Span::new(own[0].span.start(), own[own.len() - 1].span.end())
    }
}
