//! Parts of a text, with their places.
ghost use Rattle.std.specs.Prelude.{◌≡◌, ◌+◌, ◌^◌, ◌<◌, length};

use lrpar_grammar_places::span::Span;

// The characters between the words of a line, and the line feed.
const WHITE: [char; 4] = [' ', '\t', '\r', '\n'];

// A part of a text, with the byte of the text at which it starts.
#[derive(Clone, Copy)]
pub(crate) struct Part<'t> {
    pub(crate) text: &'t str,
    pub(crate) start: usize,
    ghost fits: { start + length text.now < 2 ^ 64 },
}

impl<'t> Part<'t> {
    ghost use Rattle.lrpar_lexer_lrlex.specs.Parts.{after_byte, after_cut, after_word, before_cut, before_last_byte, before_word, is_comment, last_word, placed, placed_if, span_of, trimmed, whole};

    // All of a text.
    pub(crate) fn whole(text: &'t str) -> Part<'t>
        ensures { placed result ≡ whole text.now }
    {
        Part { text, start: 0 }
    }

    // Its place in the text.
    pub(crate) fn span(self) -> Span
        ensures { result ≡ span_of (placed self.entry) }
    {
        Span::new(self.start, self.start + self.text.len())
    }

    // The part without spaces, tabs, carriage returns and line feeds at its ends.
    pub(crate) fn trimmed(self) -> Part<'t>
        ensures { placed result ≡ trimmed (placed self.entry) }
    {
        let after = self.text.trim_start_matches(WHITE);
        Part {
            text: after.trim_end_matches(WHITE),
            start: self.start + (self.text.len() - after.len()),
        }
    }

    // What comes before the first such character, and what comes after it, if there is one.
    pub(crate) fn cut(self, byte: char) -> (Part<'t>, Option<Part<'t>>)
        requires { byte < 128 }
        ensures before { placed result.0 ≡ before_cut byte (placed self.entry) }
        ensures after { placed_if result.1 ≡ after_cut byte (placed self.entry) }
    {
        let Some((text, rest)) = self.text.split_once(byte) else {
            return (self, None);
        };
        let start = self.start + (self.text.len() - rest.len());
        let before = Part {
            text,
            start: self.start,
        };
        (before, Some(Part { text: rest, start }))
    }

    // The part without its first character, if that is this one.
    pub(crate) fn after_byte(self, byte: char) -> Option<Part<'t>>
        requires { byte < 128 }
        ensures { placed_if result ≡ after_byte byte (placed self.entry) }
    {
        let text = self.text.strip_prefix(byte)?;
        Some(Part {
            text,
            start: self.start + 1,
        })
    }

    // The part without that word, if it begins with it.
    pub(crate) fn after_word(self, word: &str) -> Option<Part<'t>>
        ensures { placed_if result ≡ after_word word.now (placed self.entry) }
    {
        let text = self.text.strip_prefix(word)?;
        Some(Part {
            text,
            start: self.start + word.len(),
        })
    }

    // Whether it begins with `//`.
    pub(crate) fn is_comment(self) -> bool
        ensures { result ≡ is_comment (placed self.entry) }
    {
        self.after_word("//").is_some()
    }

    // The part without its last character, if that is this one.
    pub(crate) fn before_last(self, byte: char) -> Option<Part<'t>>
        requires { byte < 128 }
        ensures { placed_if result ≡ before_last_byte byte (placed self.entry) }
    {
        let text = self.text.strip_suffix(byte)?;
        Some(Part {
            text,
            start: self.start,
        })
    }

    // The last word, and what comes before it, without what is white between both.
    pub(crate) fn last_word(self) -> (Part<'t>, Part<'t>)
        ensures front { placed result.0 ≡ before_word (placed self.entry) }
        ensures word { placed result.1 ≡ last_word (placed self.entry) }
    {
        let (front, word) = self.text.rsplit_once(WHITE).unwrap_or(("", self.text));
        let before = Part {
            text: front.trim_end_matches(WHITE),
            start: self.start,
        };
        let start = self.start + (self.text.len() - word.len());
        (before, Part { text: word, start })
    }
}
