//! What a parse takes from its caller: lexemes, lexing errors and lexers.
ghost use Rattle.std.specs.Prelude.{◌≡◌, ◌+◌, ◌<◌, ◌^◌, ℕ, List, Result, IfOk, slice_range};
ghost use Rattle.std.specs.Str.{IsCharBoundary};
ghost use Rattle.lrpar_grammar_places.specs.Span.{Extent};
ghost use Rattle.lrpar_parse_lexemes.specs.Lexemes.{LexemeParts, faulty_at, lexeme_at};
ghost use Rattle.lrpar_grammar_places.specs.Lines.{lines_of, line_of, column_of};

use lrpar_grammar_places::span::Span;
use std::alloc::{AllocError, Global};
use std::error::Error;
use std::fmt::{Debug, Display};
use std::hash::Hash;

/// The types that a lexer and its parser share.
pub trait LexerTypes: Debug + Clone {
    /// The lexemes.
    type LexemeT: Lexeme<Self::StorageT>;

    /// The integer type that numbers tokens, rules, productions and states. Parsers require it to be a `StorageIndex`.
    type StorageT;

    /// What the lexer answers for a part of the input that no token fits.
    type LexErrorT: LexError;
}

/// A lexeme: a part of the input, and the token that it is. A lexeme that a repair inserts is empty and faulty.
pub trait Lexeme<StorageT>: Copy + Debug + Display + Eq + Hash {
    /// The lexeme's token, its span, and whether a repair made it.
    ghost parts: { Self → LexemeParts StorageT };

    /// Makes a lexeme of token `tok_id`, with `len` bytes from byte `start` on. It isn't faulty.
    fn new(tok_id: StorageT, start: usize, len: usize) -> Self
        requires fits { start + len < 2 ^ 64 }
        ensures parts { parts result ≡ lexeme_at tok_id start len };

    /// Makes the lexeme that `new` makes of the same arguments, but faulty: a repair made it, and it needn't be in the input.
    fn new_faulty(tok_id: StorageT, start: usize, len: usize) -> Self
        requires fits { start + len < 2 ^ 64 }
        ensures parts { parts result ≡ faulty_at tok_id start len };

    /// The number of the lexeme's token.
    fn tok_id(&self) -> StorageT
        ensures token { result ≡ (parts self.now).token };

    /// The lexeme's span, in bytes of the input.
    fn span(&self) -> Span
        ensures span { result ≡ (parts self.now).span };

    /// Whether the lexeme is faulty: a repair made it.
    fn faulty(&self) -> bool
        ensures faulty { result ≡ (parts self.now).faulty };
}

/// A lexing error: a part of the input that no token fits.
pub trait LexError: Error {
    /// The span of the part.
    ghost place: { Self → Extent };

    /// The span of the part, in bytes of the input.
    fn span(&self) -> Span
        ensures place { result ≡ place self.now };
}

/// A lexer: it gives a parse the lexemes of its input.
pub trait Lexer<LexerTypesT: LexerTypes> {
    /// The answers that `iter` may give.
    ghost allows: { Self → List (Result LexerTypesT.LexemeT LexerTypesT.LexErrorT) → Type 0 };

    /// The lexemes and the lexing errors of the whole input, in order. A lexer may stop at an error or continue past it,
    /// and may answer another list the next time. `Err`: out of memory.
    fn iter(
        &self,
        alloc: Global,
    ) -> Result<Vec<Result<LexerTypesT::LexemeT, LexerTypesT::LexErrorT>>, AllocError>
        ensures allowed { IfOk result (λ answers. allows self.now answers.items) };
}

/// A lexer that has its whole input. So it can return parts of the input, and lines and columns.
pub trait NonStreamingLexer<'input, LexerTypesT: LexerTypes>: Lexer<LexerTypesT> {
    /// The input's bytes.
    ghost text: { Self → List ℕ };

    /// The input at `span`, which must start and end between two characters of the input.
    fn span_str(&self, span: Span) -> &'input str
        requires start { IsCharBoundary (text self.now) span.start }
        requires end { IsCharBoundary (text self.now) span.end }
        ensures part { result.now ≡ slice_range (text self.now) span.start span.end };

    /// The input's lines from the one where `span` starts to the one where it ends, without the last line feed. The span
    /// must start and end between two characters of the input.
    fn span_lines_str(&self, span: Span) -> &'input str
        requires start { IsCharBoundary (text self.now) span.start }
        requires end { IsCharBoundary (text self.now) span.end }
        ensures lines { result.now ≡ lines_of (text self.now) span.start span.end };

    /// The line and the column of the start of `span`, and those of its end. Both count from 1, and columns count
    /// characters. The span must start and end between two characters of the input.
    fn line_col(&self, span: Span) -> ((usize, usize), (usize, usize))
        requires start { IsCharBoundary (text self.now) span.start }
        requires end { IsCharBoundary (text self.now) span.end }
        ensures start_line { result.0.0 ≡ line_of (text self.now) span.start }
        ensures start_column { result.0.1 ≡ column_of (text self.now) span.start }
        ensures end_line { result.1.0 ≡ line_of (text self.now) span.end }
        ensures end_column { result.1.1 ≡ column_of (text self.now) span.end };
}

/// A lexer that can also return its whole input.
pub trait InputLexer<'input, LexerTypesT: LexerTypes>: NonStreamingLexer<'input, LexerTypesT> {
    /// The whole input.
    fn input(&self) -> &'input str
        ensures input { result.now ≡ Self.text self.now };
}
