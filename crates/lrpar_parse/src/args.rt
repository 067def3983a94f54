//! Arguments of a production, taken one by one.
ghost use Rattle.std.specs.Prelude.{◌≡◌, ◌↔◌, [], IsTrue, length};
ghost use Rattle.std.specs.Iterator.{YieldsFirst, item_count};
ghost use Rattle.lrpar_parse.specs.ValueArguments.{IsLexemeNext, IsValueNext, KeepsPlace, LacksLexeme, LacksValue, TakesLexeme, TakesValue, first_failure, given_of};

use crate::fault::ParseFault;
use lrpar_grammar::span::Span;
use lrpar_parse_run::values::AStackType;
use std::collections::VecDeque;
use std::marker::Model;

/// The arguments for the symbols of a production that are left, from left to right: a lexeme for a token, and a value for a rule.
///
/// `value` and `lexeme` take the next one. As an iterator it gives what is left, of either kind.
#[derive(Drop)]
pub struct Args<'a, LexerT, LexemeT, V, E = ParseFault> {
    lexer: &'a LexerT,
    span: Span,
    left: VecDeque<AStackType<LexemeT, Result<V, E>>>,
}

impl<'a, LexerT, LexemeT, V, E> Model for Args<'a, LexerT, LexemeT, V, E> {
    ghost use Rattle.std.specs.Prelude.{◌≡◌, None};
    ghost use Rattle.lrpar_parse.specs.ValueArguments.{ValueArguments, first_failure, given_of};

    ghost Value = { ValueArguments LexerT LexemeT V };

    ghost view = { λ args. record { lexer = args.lexer.now; span = args.span; left = given_of args.left.items } };

    ghost invariant = { λ args. first_failure args.left.items ≡ None };
}

impl<'a, LexerT, LexemeT: Drop, V: Drop, E: Drop> Args<'a, LexerT, LexemeT, V, E> {
    /// The arguments of a list without an error. Internal: parses make them.
    pub fn new(lexer: &'a LexerT, span: Span, args: Vec<AStackType<LexemeT, Result<V, E>>>) -> Self
        requires { first_failure args.items ≡ None }
        ensures { result ≡ record { lexer = lexer.now; span = span; left = given_of args.items } }
    {
        Args {
            lexer,
            span,
            left: VecDeque::from(args),
        }
    }

    /// The lexer of the parse.
    pub fn lexer(&self) -> &'a LexerT
        ensures { result.now ≡ self.now.lexer }
    {
        self.lexer
    }

    /// The span of the production, in bytes: from the start of its first symbol to the end of its last one. A production without symbols
    /// has the span of the symbol before it, or 0..0 if there is none.
    pub fn span(&self) -> Span
        ensures { result ≡ self.now.span }
    {
        self.span
    }

    /// How many arguments are left.
    pub fn len(&self) -> usize
        ensures { result ≡ length self.now.left }
    {
        self.left.len()
    }

    /// Whether no argument is left.
    pub fn is_empty(&self) -> bool
        ensures { IsTrue result ↔ (self.now.left ≡ []) }
    {
        self.len() == 0
    }

    /// Takes the next argument if it is a value. `None`: no argument is left, or the next one is a lexeme, and stays.
    pub fn value(&mut self) -> Option<V>
        ensures some { TakesValue self.old self.new result }
        ensures none { LacksValue self.old self.new result }
        ensures same { KeepsPlace self.old self.new }
    {
        if !self.is_value_next() {
            return None;
        }
        match self.left.pop_front() {
            Some(AStackType::ActionType(Ok(value))) => Some(value),
            _ => unreachable!(),
        }
    }

    /// Takes the next argument if it is a lexeme. `None`: no argument is left, or the next one is a value, and stays.
    pub fn lexeme(&mut self) -> Option<LexemeT>
        ensures some { TakesLexeme self.old self.new result }
        ensures none { LacksLexeme self.old self.new result }
        ensures same { KeepsPlace self.old self.new }
    {
        if !self.is_lexeme_next() {
            return None;
        }
        match self.left.pop_front() {
            Some(AStackType::Lexeme(lexeme)) => Some(lexeme),
            _ => unreachable!(),
        }
    }

    // Whether the next argument is a value.
    fn is_value_next(&self) -> bool
        ensures { IsTrue result ↔ IsValueNext self.now.left }
    {
        matches!(self.left.front(), Some(AStackType::ActionType(_)))
    }

    // Whether the next argument is a lexeme.
    fn is_lexeme_next(&self) -> bool
        ensures { IsTrue result ↔ IsLexemeNext self.now.left }
    {
        matches!(self.left.front(), Some(AStackType::Lexeme(_)))
    }
}

impl<'a, LexerT, LexemeT: Drop, V: Drop, E: Drop> Iterator for Args<'a, LexerT, LexemeT, V, E> {
    type Item = AStackType<LexemeT, V>;

    ghost next_gives = { YieldsFirst (λ args. args.left) };

    ghost remaining = { item_count (λ args. args.left) };

    fn next(&mut self) -> Option<AStackType<LexemeT, V>> {
        match self.left.pop_front() {
            Some(AStackType::ActionType(Ok(value))) => Some(AStackType::ActionType(value)),
            Some(AStackType::Lexeme(lexeme)) => Some(AStackType::Lexeme(lexeme)),
            Some(AStackType::ActionType(Err(_))) => unreachable!(),
            None => None,
        }
    }
}
