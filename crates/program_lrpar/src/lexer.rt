//! The lexer of sums: a lexeme or an error for each character of the text.
ghost use Rattle.std.specs.Prelude.{◌≡◌, ◌+◌, ◌≤◌, IfOk};
ghost use Rattle.std.specs.Char.{len_utf8};
ghost use Rattle.std.specs.Str.{IsCharBoundary};
ghost use Rattle.lrpar_grammar_places.specs.Lines.{line_of, column_of, line_table};
ghost use Rattle.program_lrpar.specs.Sums.{token_of};
ghost use Rattle.program_lrpar.specs.SumAnswers.{answer_of};

use lrpar_grammar::lines::NewlineCache;
use lrpar_grammar::span::Span;
use lrpar_lexer::{NoToken, Token, TokenTypes};
use lrpar_parse_lexemes::lex_api::{Lexeme, Lexer, NonStreamingLexer};
use std::alloc::{AllocError, Global};

/// The token `+`.
const PLUS: u32 = 0;

/// The token `ID`.
const ID: u32 = 1;

/// The lexer of sums over a text: `+` is a token, each ASCII letter and `_` is the token `ID`, and no token fits
/// any other character.
#[derive(Drop)]
pub(crate) struct SumLexer<'input> {
    input: &'input str,
    lines: NewlineCache,
    ghost lines_of_input: { lines ≡ line_table input.now },
}

impl<'input> SumLexer<'input> {
    /// The lexer over this text. Takes time linear in it, and memory for each of its lines.
    pub(crate) fn new(alloc: Global, input: &'input str) -> Result<Self, AllocError>
        ensures { IfOk result (λ lexer. lexer.input.now ≡ input.now) }
    {
        let lines = NewlineCache::new(alloc, input)?;
        Ok(SumLexer { input, lines })
    }

    // The line and the column of a byte.
    fn position(&self, byte: usize) -> (usize, usize)
        requires { IsCharBoundary self.now.input.now byte }
        ensures line { result.0 ≡ line_of self.now.input.now byte }
        ensures column { result.1 ≡ column_of self.now.input.now byte }
    {
        self.lines
            .byte_to_line_num_and_col_num(self.input, byte)
            .unwrap()
    }
}

impl<'input> Lexer<TokenTypes> for SumLexer<'input> {
    ghost use Rattle.program_lrpar.specs.SumAnswers.{answers};

    ghost allows = { λ lexer given. given ≡ answers lexer.input.now };

    fn iter(&self, alloc: Global) -> Result<Vec<Result<Token<u32>, NoToken>>, AllocError> {
        let mut answers = Vec::new(alloc);
        for (at, c) in self.input.char_indices() {
            answers.push(answer(at, c))?;
        }
        Ok(answers)
    }
}

impl<'input> NonStreamingLexer<'input, TokenTypes> for SumLexer<'input> {
    ghost text = { λ lexer. lexer.input.now };

    fn span_str(&self, span: Span) -> &'input str {
        &self.input[span.start()..span.end()]
    }

    fn span_lines_str(&self, span: Span) -> &'input str {
        let (start, end) = self.lines.span_line_bytes(span);
        &self.input[start..end]
    }

    fn line_col(&self, span: Span) -> ((usize, usize), (usize, usize)) {
        (self.position(span.start()), self.position(span.end()))
    }
}

// The answer for the character that starts at byte `at`.
fn answer(at: usize, c: char) -> Result<Token<u32>, NoToken>
    requires fits { at + len_utf8 c ≤ usize.MAX }
    ensures { result ≡ answer_of at c }
{
    match token_of(c) {
        Some(number) => Ok(Token::new(number, at, c.len_utf8())),
        None => Err(NoToken::new(Span::new(at, at + c.len_utf8()))),
    }
}

// The token of a character, if one fits.
fn token_of(c: char) -> Option<u32>
    ensures { result ≡ token_of c }
{
    match c {
        '+' => Some(PLUS),
        '_' => Some(ID),
        _ if c.is_ascii_alphabetic() => Some(ID),
        _ => None,
    }
}
