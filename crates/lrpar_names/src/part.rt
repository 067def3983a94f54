//! Parts of a text, with their places.
ghost use Rattle.std.specs.Prelude.{◌≡◌, ◌+◌, ◌^◌, ◌<◌, length};

use lrpar_grammar_places::span::Span;

// The blanks at the ends of a line, and the line feed.
const WHITE: [char; 4] = [' ', '\t', '\r', '\n'];

// A part of a text, with the byte of the text at which it starts.
#[derive(Clone, Copy)]
pub(crate) struct Part<'t> {
    pub(crate) text: &'t str,
    pub(crate) start: usize,
    ghost fits: { start + length text.now < 2 ^ 64 },
}

impl<'t> Part<'t> {
    ghost use Rattle.lrpar_names.specs.Parts.{after_byte, after_cut, after_word, before_cut, is_comment, plain, plain_if, span_of, trimmed, whole};

    // All of a text.
    pub(crate) fn whole(text: &'t str) -> Part<'t>
        ensures { plain result ≡ whole text.now }
    {
        Part { text, start: 0 }
    }

    // Its place in the text.
    pub(crate) fn span(self) -> Span
        ensures { result ≡ span_of (plain self.entry) }
    {
        Span::new(self.start, self.start + self.text.len())
    }

    // The part without spaces, tabs, carriage returns and line feeds at its ends.
    pub(crate) fn trimmed(self) -> Part<'t>
        ensures { plain result ≡ trimmed (plain self.entry) }
    {
        let after = self.text.trim_start_matches(WHITE);
        Part {
            text: after.trim_end_matches(WHITE),
            start: self.start + (self.text.len() - after.len()),
        }
    }

    // What comes before the first such character, and what comes after it, if there is one.
    pub(crate) fn cut(self, byte: char) -> (Part<'t>, Option<Part<'t>>)
        requires { byte < 128 }
        ensures before { plain result.0 ≡ before_cut byte (plain self.entry) }
        ensures after { plain_if result.1 ≡ after_cut byte (plain self.entry) }
    {
        let Some((text, rest)) = self.text.split_once(byte) else {
            return (self, None);
        };
        let start = self.start + (self.text.len() - rest.len());
        let before = Part {
            text,
            start: self.start,
        };
        (before, Some(Part { text: rest, start }))
    }

    // The part without its first character, if that is this one.
    pub(crate) fn after_byte(self, byte: char) -> Option<Part<'t>>
        requires { byte < 128 }
        ensures { plain_if result ≡ after_byte byte (plain self.entry) }
    {
        let text = self.text.strip_prefix(byte)?;
        Some(Part {
            text,
            start: self.start + 1,
        })
    }

    // The part without that word, if it begins with it.
    fn after_word(self, word: &str) -> Option<Part<'t>>
        ensures { plain_if result ≡ after_word word.now (plain self.entry) }
    {
        let text = self.text.strip_prefix(word)?;
        Some(Part {
            text,
            start: self.start + word.len(),
        })
    }

    // Whether it begins with `//`.
    pub(crate) fn is_comment(self) -> bool
        ensures { result ≡ is_comment (plain self.entry) }
    {
        self.after_word("//").is_some()
    }
}
