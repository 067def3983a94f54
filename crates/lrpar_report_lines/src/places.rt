//! Places of a text: where a span lies whose ends may be anywhere.
ghost use Rattle.std.specs.Prelude.{◌≡◌};
ghost use Rattle.std.specs.Str.{IsCharBoundary};
ghost use Rattle.lrpar_grammar_places.specs.Span.{IsPartOf};
ghost use Rattle.lrpar_report_lines.specs.Places.{IsNextBoundary};

use lrpar_grammar_places::span::Span;

/// The boundary of characters to which a byte of a text is moved: the next one from the byte on, and the text's end if the byte is after
/// it. A boundary stays. Takes constant time.
pub fn next_boundary(text: &str, byte: usize) -> usize
    ensures { IsNextBoundary text.now byte result }
{
    text.ceil_char_boundary(byte)
}

/// The part of the text that a span is, if each of its ends is moved to the next boundary of characters, and from after the text's end to
/// that end. A part of the text stays as it is. Takes constant time.
#[tactic(auto, using(crate::proofs::PlaceLemmas::boundaries_ordered, crate::proofs::PlaceLemmas::boundary_stays))]
pub fn part_of(text: &str, span: Span) -> Span
    ensures part { IsPartOf text.now result }
    ensures start { IsNextBoundary text.now span.start result.start }
    ensures end { IsNextBoundary text.now span.end result.end }
    ensures same_start { IsCharBoundary text.now span.start → result.start ≡ span.start }
    ensures same_end { IsCharBoundary text.now span.end → result.end ≡ span.end }
{
    let start = next_boundary(text, span.start());
    let end = next_boundary(text, span.end());
    Span::new(start, end)
}
