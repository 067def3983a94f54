//! Parts of a text, as trees keep them.
ghost use Rattle.std.specs.Prelude.{◌≡◌, ◌≤◌, ◌-◌, ◌↔◌, IsTrue};

use crate::span::Span;

/// A part of a text, for structs and enums that also hold a `&str`: its bytes from a start up to, and not including, an end, which isn't
/// smaller. Keep it where you would keep a `Span`: the borrow checker refuses some functions over a struct that holds a `Span` beside a
/// reference, and none over one that holds a `TextRange`.
#[derive(Clone, Copy, Debug, PartialEq, Eq, Hash)]
pub struct TextRange {
    start: usize,
    end: usize,
    ghost ordered: { start ≤ end },
}

impl TextRange {
    /// The part from byte `start` to byte `end`, which must not be smaller.
    pub fn new(start: usize, end: usize) -> Self
        requires { start ≤ end }
        ensures start { result.start ≡ start }
        ensures end { result.end ≡ end }
    {
        TextRange { start, end }
    }

    /// The first byte, counted from 0.
    pub fn start(&self) -> usize
        ensures start { result ≡ self.now.start }
        ensures ordered { self.now.start ≤ self.now.end }
    {
        self.start
    }

    /// The byte after the last one.
    pub fn end(&self) -> usize
        ensures end { result ≡ self.now.end }
        ensures ordered { self.now.start ≤ self.now.end }
    {
        self.end
    }

    /// The length of the part in bytes.
    pub fn len(&self) -> usize
        ensures len { result ≡ self.now.end - self.now.start }
    {
        self.end - self.start
    }

    /// Whether the part has no bytes.
    pub fn is_empty(&self) -> bool
        ensures empty { IsTrue result ↔ (self.now.start ≡ self.now.end) }
    {
        self.start == self.end
    }

    /// This part of the text as a span.
    pub fn span(&self) -> Span
        ensures start { result.start ≡ self.now.start }
        ensures end { result.end ≡ self.now.end }
    {
        Span::new(self.start, self.end)
    }
}

impl From<Span> for TextRange {
    ghost from_gives = { λ span range. (range.start ≡ span.start) × (range.end ≡ span.end) };

    fn from(span: Span) -> TextRange {
        let (start, end) = (span.start(), span.end());
        TextRange { start, end }
    }
}

impl From<TextRange> for Span {
    ghost from_gives = { λ range span. (span.start ≡ range.start) × (span.end ≡ range.end) };

    fn from(range: TextRange) -> Span {
        range.span()
    }
}
