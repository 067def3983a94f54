//! Lines and columns of a text.
ghost use Rattle.std.specs.Prelude.{◌≡◌, ◌↔◌, ◌≤◌, IsSome, IfSome, IfOk, count_by, length};
ghost use Rattle.std.specs.Str.{IsCharBoundary};
ghost use Rattle.lrpar_grammar_places.specs.Lines.{AreBoundaries, AreLineFeedsBefore, IsBoundary, IsLineEnd, IsLineOf, IsLineStart, begins_char, chars_before, column_of, line_of, line_table};

use crate::span::Span;
use std::alloc::{AllocError, Global};
use std::marker::Model;

// The distance in bytes between two places of a text up to which the characters are counted.
const STEP: usize = 128;

/// The lines of a text. A line starts at byte 0 and after each line feed, and lines count from 1. A line ends before its line
/// feed, and the last one at the text's end. Counts of characters are stored with the starts, so that a column in a long line is
/// found as fast as one in a short line.
#[derive(Debug, Drop)]
pub struct NewlineCache {
    // the start of each line but the first
    starts: Vec<usize>,
    // the number of characters that begin before each `STEP`th byte, from byte 0 on
    counts: Vec<usize>,
    len: usize,
}

impl Model for NewlineCache {
    ghost use Rattle.std.specs.Prelude.{◌<◌, All};
    ghost use Rattle.lrpar_grammar_places.specs.Lines.{LineTable};

    ghost Value = { LineTable };

    ghost view = { λ s. record { starts = s.starts.items; counts = s.counts.items; len = s.len } };

    ghost invariant = { λ s. All (λ start. 0 < start) s.starts.items };
}

impl NewlineCache {
    /// The lines of a text. Takes time linear in the text, and memory for each line feed and for each 128 bytes.
    pub fn new(alloc: Global, src: &str) -> Result<Self, AllocError>
        ensures { IfOk result (λ cache. cache ≡ line_table src.now) }
    {
        let mut starts = Vec::new(alloc);
        let mut counts = vec![in alloc; 0]?;
        let mut chars = 0;
        for (at, byte) in src.as_bytes().iter().enumerate() {
            chars += usize::from(begins_char(*byte));
            if *byte == b'\n' {
                starts.push(at + 1)?;
            }
            if (at + 1) % STEP == 0 {
                counts.push(chars)?;
            }
        }
        Ok(NewlineCache {
            starts,
            counts,
            len: src.len(),
        })
    }

    /// The line of a byte, counted from 1. The byte at the length of the text has a line; a later one gives `None`. Takes time
    /// logarithmic in the number of lines.
    pub fn byte_to_line_num(&self, byte: usize) -> Option<usize>
        ensures within { IsSome result ↔ (byte ≤ (self.now).len) }
        ensures line { IsLineOf self.now byte result }
    {
        if byte > self.len {
            return None;
        }
        Some(1 + self.line_feeds_before(byte))
    }

    /// The line and the column of a byte, each counted from 1, and columns in characters. The byte at the length of the text has
    /// them; a later one and one inside a character give `None`. `src` must be the text whose lines these are. Takes time
    /// logarithmic in the number of lines, however long they are.
    pub fn byte_to_line_num_and_col_num(&self, src: &str, byte: usize) -> Option<(usize, usize)>
        requires { self.now ≡ line_table src.now }
        ensures boundary { IsSome result ↔ IsCharBoundary src.now byte }
        ensures line { IfSome result (λ place. place.0 ≡ line_of src.now byte) }
        ensures column { IfSome result (λ place. place.1 ≡ column_of src.now byte) }
    {
        if !src.is_char_boundary(byte) {
            return None;
        }
        let line = 1 + self.line_feeds_before(byte);
        let before_line = self.chars_before(src, self.line_start(byte));
        let column = 1 + self.chars_before(src, byte) - before_line;
        Some((line, column))
    }

    /// The start of the line that has the span's start, and the end of the line that has its end, in bytes. The span must end
    /// within the text. Takes time logarithmic in the number of lines.
    pub fn span_line_bytes(&self, span: Span) -> (usize, usize)
        requires { span.end ≤ (self.now).len }
        ensures start { IsLineStart self.now span.start result.0 }
        ensures end { IsLineEnd self.now span.end result.1 }
        ensures boundaries { AreBoundaries self.now result }
    {
        (self.line_start(span.start()), self.line_end(span.end()))
    }

    // The number of line feeds before a byte.
    fn line_feeds_before(&self, byte: usize) -> usize
        requires { byte ≤ (self.now).len }
        ensures bound { result ≤ length (self.now).starts }
        ensures count { AreLineFeedsBefore self.now byte result }
    {
        self.starts.partition_point(|start| *start <= byte)
    }

    // The number of characters that begin before a byte. Looks at fewer than `STEP` bytes.
    fn chars_before(&self, src: &str, byte: usize) -> usize
        requires table { self.now ≡ line_table src.now }
        requires within { byte ≤ length src.now }
        ensures { result ≡ chars_before src.now byte }
    {
        let step = byte / STEP;
        self.counts[step] + chars_begun(&src.as_bytes()[step * STEP..byte])
    }

    // The byte at which the line of a byte starts.
    fn line_start(&self, byte: usize) -> usize
        requires { byte ≤ (self.now).len }
        ensures start { IsLineStart self.now byte result }
        ensures boundary { IsBoundary self.now result }
    {
        match self.line_feeds_before(byte) {
            0 => 0,
            feeds => self.starts[feeds - 1],
        }
    }

    // The byte at which the line of a byte ends, before its line feed.
    fn line_end(&self, byte: usize) -> usize
        requires { byte ≤ (self.now).len }
        ensures end { IsLineEnd self.now byte result }
        ensures boundary { IsBoundary self.now result }
    {
        match self.starts.get(self.line_feeds_before(byte)) {
            Some(next) => *next - 1,
            None => self.len,
        }
    }
}

// The number of characters that begin in bytes of a text.
fn chars_begun(bytes: &[u8]) -> usize
    ensures { result ≡ count_by begins_char bytes.now }
{
    bytes.iter().filter(|byte| begins_char(**byte)).count()
}

// Whether a byte begins a character; any other byte continues one.
fn begins_char(byte: u8) -> bool
    ensures { result ≡ begins_char byte }
{
    byte / 64 != 2
}
