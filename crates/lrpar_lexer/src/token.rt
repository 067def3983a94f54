//! Lexemes, and the error for a place at which no rule matches.
ghost use Rattle.std.specs.Prelude.{◌≡◌, ◌+◌, ◌≤◌};
ghost use Rattle.lrpar_lexer.specs.Answers.{plain_token};
ghost use Rattle.lrpar_lexer.specs.Lexing.{lexeme_of, nothing_at};

use lrpar_grammar_places::span::{Span, StorageIndex};
use lrpar_parse_lexemes::{LexError, Lexeme, LexerTypes};
use std::error::Error;
use std::fmt;
use std::marker::PhantomData;

/// A lexeme: its token, its place, and whether a repair made it.
#[derive(Clone, Copy, Debug, PartialEq, Eq, Hash)]
pub struct Token<StorageT> {
    number: StorageT,
    span: Span,
    is_faulty: bool,
}

impl<StorageT: StorageIndex> Token<StorageT> {
    // The lexeme of `len` bytes from byte `at` on.
    pub(crate) fn read(number: StorageT, at: usize, len: usize) -> Token<StorageT>
        requires fits { at + len ≤ usize.MAX }
        ensures { plain_token StorageT.index result ≡ lexeme_of (StorageT.index number) at len }
    {
        Token {
            number,
            span: Span::new(at, at + len),
            is_faulty: false,
        }
    }
}

impl<StorageT: StorageIndex> fmt::Display for Token<StorageT> {
    ghost use Rattle.lrpar_lexer.specs.TokenTexts.{token_text};

    ghost output = { token_text StorageT.index };

    fn fmt<W: fmt::Write>(&self, f: &mut fmt::Formatter<W>) -> fmt::Result {
        let number = self.number.to_index();
        let start = self.span.start();
        let end = self.span.end();
        write!(f, "token {number} at {start}..{end}")
    }
}

impl<StorageT: StorageIndex> Lexeme<StorageT> for Token<StorageT> {
    ghost parts = { λ x. record { token = x.number; span = x.span; faulty = x.is_faulty } };

    fn new(tok_id: StorageT, start: usize, len: usize) -> Self {
        Token {
            number: tok_id,
            span: Span::new(start, start + len),
            is_faulty: false,
        }
    }

    fn new_faulty(tok_id: StorageT, start: usize, len: usize) -> Self {
        Token {
            number: tok_id,
            span: Span::new(start, start + len),
            is_faulty: true,
        }
    }

    fn tok_id(&self) -> StorageT {
        self.number
    }

    fn span(&self) -> Span {
        self.span
    }

    fn faulty(&self) -> bool {
        self.is_faulty
    }
}

/// The error for a place at which no token fits.
#[derive(Clone, Copy, Debug)]
pub struct NoToken {
    span: Span,
}

impl NoToken {
    /// The error at `span`.
    pub fn new(span: Span) -> NoToken
        ensures { result ≡ record { span = span } }
    {
        NoToken { span }
    }

    /// The error for the empty place at a byte.
    pub fn at(byte: usize) -> NoToken
        ensures { result ≡ nothing_at byte }
    {
        NoToken {
            span: Span::new(byte, byte),
        }
    }
}

impl fmt::Display for NoToken {
    ghost use Rattle.lrpar_lexer.specs.TokenTexts.{no_token_text};

    ghost output = { no_token_text };

    fn fmt<W: fmt::Write>(&self, f: &mut fmt::Formatter<W>) -> fmt::Result {
        let start = self.span.start();
        write!(f, "no token fits at byte {start}")
    }
}

impl Error for NoToken {}

impl LexError for NoToken {
    ghost place = { λ e. e.span };

    fn span(&self) -> Span {
        self.span
    }
}

/// The types of lexers with these lexemes and these errors. Tokens are numbered by `StorageT`.
#[derive(Clone, Debug, Drop)]
pub struct TokenTypes<StorageT = u32> {
    storage: PhantomData<StorageT>,
}

impl<StorageT: StorageIndex> LexerTypes for TokenTypes<StorageT> {
    type LexemeT = Token<StorageT>;

    type StorageT = StorageT;

    type LexErrorT = NoToken;
}
