//! A text and its lines.
ghost use Rattle.std.specs.Prelude.{◌≡◌, ◌↔◌, ◌≤◌, IfOk, IfSome, IsSome, OnOk, length};
ghost use Rattle.std.specs.Str.{IsCharBoundary};
ghost use Rattle.lrpar_grammar_places.specs.Lines.{column_of, line_of, line_table};
ghost use Rattle.lrpar_grammar_places.specs.Span.{IsPartOf};
ghost use Rattle.lrpar_grammar_places.specs.Strings.{Appends};
ghost use Rattle.lrpar_report_columns.specs.Columns.{margin, printed_line, repeated};
ghost use Rattle.lrpar_report_columns.specs.Lines.{AreCharBoundaries, AreColumnsOf, IsEndOfLine, IsEndOfMark, IsEndOfText, IsNumberOfLine, IsStartOfLine, IsStartOfMark, IsTextBetween};

use lrpar_grammar_places::lines::NewlineCache;
use lrpar_grammar_places::span::Span;
use std::alloc::{AllocError, Global};
use std::marker::Model;
use unicode_width::UnicodeWidthStr;

/// A text and its lines. Lines count from 1. A line ends before its line feed, and a carriage return directly before that isn't
/// printed.
///
/// Each call takes any bytes: one that is after the text's end is on its last line, and a part that starts or ends inside a character
/// is printed as an empty one. A call takes time logarithmic in the number of lines, and linear in what it prints or measures.
#[derive(Drop)]
pub struct Lines<'a> {
    text: &'a str,
    cache: NewlineCache,
}

impl<'a> Model for Lines<'a> {
    ghost use Rattle.std.specs.Prelude.{List, ℕ};
    ghost use Rattle.lrpar_report_columns.specs.Columns.{HasLines};

    ghost Value = { List ℕ };

    ghost view = { λ lines. lines.text.now };

    ghost invariant = { λ lines. HasLines lines.text.now lines.cache };
}

impl<'a> Lines<'a> {
    /// The text with its lines. Takes time linear in the text, and memory for each of its lines. `Err`: out of memory.
    pub fn new(alloc: Global, text: &'a str) -> Result<Self, AllocError>
        ensures { IfOk result (λ lines. lines ≡ text.now) }
    {
        let cache = NewlineCache::new(alloc, text)?;
        Ok(Lines { text, cache })
    }

    /// The text.
    pub fn text(&self) -> &str
        ensures { result.now ≡ self.now }
    {
        self.text
    }

    /// The places of the lines.
    pub fn cache(&self) -> &NewlineCache
        ensures { result.now ≡ line_table self.now }
    {
        &self.cache
    }

    /// The line of a byte, counted from 1; 0 after the text's end.
    pub fn number(&self, byte: usize) -> usize
        ensures { IsNumberOfLine self.now byte result }
    {
        self.cache.byte_to_line_num(byte).unwrap_or(0)
    }

    /// The line and the column of a byte, each counted from 1, and columns in characters, if the byte is a boundary of characters.
    pub fn position(&self, byte: usize) -> Option<(usize, usize)>
        ensures boundary { IsSome result ↔ IsCharBoundary self.now byte }
        ensures line { IfSome result (λ place. place.0 ≡ line_of self.now byte) }
        ensures column { IfSome result (λ place. place.1 ≡ column_of self.now byte) }
    {
        self.cache.byte_to_line_num_and_col_num(self.text, byte)
    }

    /// The byte at which the line of a byte starts.
    pub fn line_start(&self, byte: usize) -> usize
        ensures start { IsStartOfLine self.now byte result }
        ensures boundary { IsCharBoundary self.now result }
    {
        self.bounds(byte).0
    }

    /// The byte at which the line of a byte ends, before its line feed.
    pub fn line_end(&self, byte: usize) -> usize
        ensures end { IsEndOfLine self.now byte result }
        ensures boundary { IsCharBoundary self.now result }
    {
        self.bounds(byte).1
    }

    // The bytes at which the line of a byte starts and ends.
    fn bounds(&self, byte: usize) -> (usize, usize)
        ensures start { IsStartOfLine self.now byte result.0 }
        ensures end { IsEndOfLine self.now byte result.1 }
        ensures boundaries { AreCharBoundaries self.now result }
    {
        let at = byte.min(self.text.len());
        self.cache.span_line_bytes(Span::new(at, at))
    }

    /// The byte at which the text of the line that starts at a byte ends.
    pub fn text_end(&self, start: usize) -> usize
        ensures end { IsEndOfText self.now start result }
        ensures after { start ≤ length self.now → start ≤ result }
        ensures boundary { IsCharBoundary self.now result }
    {
        let end = self.line_end(start);
        let bytes = self.text.as_bytes();
        if start < end && end < bytes.len() && bytes[end - 1] == b'\r' {
            end - 1
        } else {
            end
        }
    }

    /// How many columns the bytes from one up to another one take, by `unicode_width`.
    pub fn columns(&self, start: usize, end: usize) -> usize
        ensures { AreColumnsOf self.now start end result }
    {
        part(self.text, start, end).width()
    }

    /// The bytes from which and up to which a part of the text is underlined on the line that starts at a byte: none before the line, and
    /// none after its text.
    pub fn mark(&self, part: Span, start: usize) -> (usize, usize)
        ensures from { IsStartOfMark self.now part start result.0 }
        ensures to { IsEndOfMark self.now part start result.1 }
        ensures after { start ≤ length self.now → start ≤ result.0 }
        ensures ordered { result.0 ≤ result.1 }
        ensures boundaries { IsCharBoundary self.now start → IsPartOf self.now part → AreCharBoundaries self.now result }
    {
        let text_end = self.text_end(start);
        let from = start.max(part.start()).min(text_end);
        (from, text_end.min(part.end()).max(from))
    }

    /// Adds the line that starts at a byte, as `LINE| TEXT` with a line feed. Returns how many bytes come before the line's text.
    pub fn push_line(&self, out: &mut String, start: usize) -> Result<usize, AllocError>
        ensures text { IsCharBoundary self.now start → OnOk result (Appends out.old out.new (printed_line self.now start)) }
        ensures margin { IsCharBoundary self.now start → IfOk result (λ bytes. bytes ≡ length (margin self.now start)) }
    {
        let number = self.number(start);
        let before = out.len();
        write!(out, "{number}| ")?;
        let margin = out.len() - before;
        out.push_str(part(self.text, start, self.text_end(start)))?;
        out.push('\n')?;
        Ok(margin)
    }
}

// The bytes of a text from one up to another one, or none if one of both isn't a boundary of characters.
fn part(text: &str, start: usize, end: usize) -> &str
    ensures { IsTextBetween text.now start end result.now }
{
    text.get(start..end).unwrap_or("")
}

/// Adds a character `count` times. `Err`: out of memory; then it may have been added less often.
pub fn push_repeated(out: &mut String, c: char, count: usize) -> Result<(), AllocError>
    ensures { OnOk result (Appends out.old out.new (repeated count c)) }
{
    for _i in 0..count {
        out.push(c)?;
    }
    Ok(())
}
