//! A search for one pattern at the start of a text.
ghost use Rattle.std.specs.Prelude.{◌≡◌, IfOk};
ghost use Rattle.lrpar_lexer.specs.Anchored.{FindsText};
ghost use Rattle.lrpar_lexer.specs.Finding.{FindsLen, found_by};

use crate::rule_tree::plain_text;
use regex_meta::{Program, Searcher};
use std::alloc::{AllocError, Global};

#[derive(Drop)]
pub(crate) enum Matcher<'r> {
    /// A pattern that is a text. Its bytes are compared.
    Text(PlainText<'r>),
    /// Any other.
    Search(Searcher<'r>),
}

/// A pattern that is a text.
#[derive(Drop)]
pub(crate) struct PlainText<'r> {
    program: &'r Program,
    text: &'r [u8],
    ghost finds: { FindsText program.now text.now },
}

impl<'r> PlainText<'r> {
    // What the program finds in a text.
    fn find(&self, text: &[u8]) -> Option<(usize, usize)>
        ensures { result ≡ found_by self.now.program.now text.now }
    {
        if text.starts_with(self.text) {
            Some((0, self.text.len()))
        } else {
            None
        }
    }
}

impl<'r> Matcher<'r> {
    ghost use Rattle.lrpar_lexer.specs.Searches.{program_of};

    /// The search for the program's pattern. Takes no memory for a pattern that is a text.
    pub(crate) fn new(alloc: Global, program: &'r Program) -> Result<Matcher<'r>, AllocError>
        ensures { IfOk result (λ matcher. program_of matcher ≡ program.now) }
    {
        match plain_text(program) {
            Some(text) => Ok(Matcher::Text(PlainText { program, text })),
            None => Ok(Matcher::Search(Searcher::new(alloc, program)?)),
        }
    }

    /// The number of bytes that the pattern matches at the start of a text, if it does.
    pub(crate) fn match_len(&mut self, rest: &str) -> Option<usize>
        ensures found { FindsLen (program_of self.old) rest.now result }
        ensures same { program_of self.new ≡ program_of self.old }
    {
        let (_, end) = self.find(rest.as_bytes())?;
        if end > 0 && rest.is_char_boundary(end) {
            Some(end)
        } else {
            None
        }
    }

    // What the program finds in a text.
    fn find(&mut self, text: &[u8]) -> Option<(usize, usize)>
        ensures found { result ≡ found_by (program_of self.old) text.now }
        ensures same { program_of self.new ≡ program_of self.old }
    {
        match self {
            Matcher::Text(plain) => plain.find(text),
            Matcher::Search(searcher) => searcher.find(text, 0),
        }
    }
}
