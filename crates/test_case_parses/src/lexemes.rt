//! Lexemes of cases, and the lexer that gives them.
ghost use Rattle.std.specs.Prelude.{◌≡◌, IfOk};

use lrpar_grammar::grammar::YaccGrammar;
use lrpar_grammar::span::Span;
use lrpar_lexer::{NoToken, RuleLexer, Token, TokenTypes};
use lrpar_parse_lexemes::lex_api::{Lexeme, Lexer, NonStreamingLexer};
use std::alloc::{AllocError, Global};
use test_case_lines::cases::Case;
use test_case_lines::fault::Fault;

/// What a lexer gives.
#[derive(Clone, Copy)]
pub(crate) enum Given {
    /// A lexeme.
    Lexeme(Token<u32>),
    /// An error, and where it lies.
    NoToken(Span),
}

/// What the line `lexemes` of a case says.
pub(crate) fn given_of(
    alloc: Global,
    grm: &YaccGrammar<u32>,
    case: Case<'_, '_>,
) -> Result<Vec<Given>, Fault> {
    let (text, number) = case.value("lexemes").unwrap_or(("", case.number));
    let (mut given, mut at) = (Vec::new(alloc), 0);
    for word in text.split(' ') {
        if !word.is_empty() {
            let Some((next, end)) = given_at(grm, word, at) else {
                return Err(Fault::Line(number, "a lexeme is wanted"));
            };
            given.push(next)?;
            at = end;
        }
    }
    Ok(given)
}

// What a word says, and where it ends; `at` is where it starts unless it says so.
fn given_at(grm: &YaccGrammar<u32>, word: &str, at: usize) -> Option<(Given, usize)> {
    let (name, start, len) = placed(word, at)?;
    let end = start.checked_add(len)?;
    if name == "no-token" {
        return Some((Given::NoToken(Span::new(start, end)), end));
    }
    let token = token_number(grm, name)?;
    Some((Given::Lexeme(Token::new(token, start, len)), end))
}

// The name, the start and the length of a word `NAME`, `NAME@START` or `NAME@START+LEN`.
fn placed(word: &str, at: usize) -> Option<(&str, usize, usize)> {
    let Some((name, place)) = word.split_once('@') else {
        return Some((word, at, 1));
    };
    match place.split_once('+') {
        Some((start, len)) => Some((name, start.parse().ok()?, len.parse().ok()?)),
        None => Some((name, place.parse().ok()?, 1)),
    }
}

/// The number of the token of this name: `$` is the end token, and `#7` the number 7, whether the grammar has it or not.
pub(crate) fn token_number(grm: &YaccGrammar<u32>, name: &str) -> Option<u32> {
    if name == "$" {
        return Some(grm.eof_token_idx().as_storaget());
    }
    match name.strip_prefix('#') {
        Some(number) => number.parse().ok(),
        None => Some(grm.token_idx(name)?.as_storaget()),
    }
}

/// A lexer that gives the lexemes and errors of a list, over a text.
#[derive(Drop)]
pub(crate) struct ListLexer<'a> {
    given: &'a [Given],
    text: RuleLexer<'a, 'a>,
}

impl<'a> ListLexer<'a> {
    /// The lexer of this list over this text.
    pub(crate) fn new(alloc: Global, given: &'a [Given], input: &'a str) -> Result<Self, AllocError>
        ensures { IfOk result (λ lexer. lexer.text.input.now ≡ input.now) }
    {
        let text = RuleLexer::new(alloc, &[], input)?;
        Ok(ListLexer { given, text })
    }

    /// Whether a lexeme ends past the byte.
    pub(crate) fn is_past(&self, byte: usize) -> bool {
        self.given.iter().any(|given| match given {
            Given::Lexeme(lexeme) => lexeme.span().end() > byte,
            Given::NoToken(_) => false,
        })
    }
}

impl<'a> Lexer<TokenTypes> for ListLexer<'a> {
    ghost allows = { λ _ _. Unit {0} };

    fn iter(&self, alloc: Global) -> Result<Vec<Result<Token<u32>, NoToken>>, AllocError> {
        let mut answers = Vec::with_capacity(alloc, self.given.len())?;
        for given in self.given {
            answers.push(match *given {
                Given::Lexeme(lexeme) => Ok(lexeme),
                Given::NoToken(span) => Err(NoToken::new(span)),
            })?;
        }
        Ok(answers)
    }
}

impl<'a> NonStreamingLexer<'a, TokenTypes> for ListLexer<'a> {
    ghost text = { λ lexer. lexer.text.input.now };

    fn span_str(&self, span: Span) -> &'a str {
        self.text.span_str(span)
    }

    fn span_lines_str(&self, span: Span) -> &'a str {
        self.text.span_lines_str(span)
    }

    fn line_col(&self, span: Span) -> ((usize, usize), (usize, usize)) {
        self.text.line_col(span)
    }
}
