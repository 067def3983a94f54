//! A lexer that gives the lexemes of a list, and counts its calls. It shows no input: its text is empty.
ghost use Rattle.std.specs.Prelude.{[]};

use lrpar_grammar::span::Span;
use lrpar_lexer::{NoToken, Token, TokenTypes};
use lrpar_parse_lexemes::lex_api::{Lexeme, Lexer, NonStreamingLexer};
use std::alloc::{AllocError, Global};
use std::cell::Cell;

/// A lexeme: its token, and how many bytes it has. It begins where the one before it ends.
pub type Given = (u32, usize);

/// What a lexer gives after its lexemes.
#[derive(Clone, Copy)]
pub enum Last {
    /// Nothing more.
    Nothing,
    /// An error at the end of the lexemes.
    NoToken,
    /// A lexeme of the token 0, of one byte, at byte 0.
    First,
}

/// The lexer. The call with the number `fails_at` finds no memory.
#[derive(Drop)]
pub struct ListLexer<'a> {
    pub given: &'a [Given],
    pub last: Last,
    pub calls: Cell<usize>,
    pub fails_at: usize,
}

/// The lexer of these lexemes. None of its calls fails by itself.
pub fn lexer_of(given: &[Given]) -> ListLexer<'_> {
    ListLexer {
        given,
        last: Last::Nothing,
        calls: Cell::new(0),
        fails_at: 0,
    }
}

// What follows lexemes that end at this byte, if anything does.
fn answer_after(last: Last, end: usize) -> Option<Result<Token<u32>, NoToken>> {
    match last {
        Last::Nothing => None,
        Last::NoToken => Some(Err(NoToken::new(Span::new(end, end)))),
        Last::First => Some(Ok(Token::new(0, 0, 1))),
    }
}

impl<'a> Lexer<TokenTypes> for ListLexer<'a> {
    ghost allows = { λ _ _. Unit {0} };

    fn iter(&self, alloc: Global) -> Result<Vec<Result<Token<u32>, NoToken>>, AllocError> {
        self.calls.set(self.calls.get().saturating_add(1));
        if self.calls.get() == self.fails_at {
            return Err(AllocError);
        }
        let (mut answers, mut at) = (Vec::new(alloc), 0usize);
        for (token, len) in self.given {
            let len = (*len).min(1_000);
            answers.push(Ok(Token::new(*token, at.min(1_000_000), len)))?;
            at = at.saturating_add(len);
        }
        if let Some(answer) = answer_after(self.last, at) {
            answers.push(answer)?;
        }
        Ok(answers)
    }
}

impl<'a, 'input> NonStreamingLexer<'input, TokenTypes> for ListLexer<'a> {
    ghost text = { λ _. [] };

    fn span_str(&self, _: Span) -> &'input str {
        ""
    }

    fn span_lines_str(&self, _: Span) -> &'input str {
        ""
    }

    fn line_col(&self, _: Span) -> ((usize, usize), (usize, usize)) {
        ((1, 1), (1, 1))
    }
}
