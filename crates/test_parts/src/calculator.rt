//! A calculator as a user writes it, over `Expr: Expr '+' Term | Term; Term: Term '*' Factor | Factor; Factor: 'INT';`. A
//! number is as large as its lexeme is long.
ghost use Rattle.std.specs.Prelude.{◌≡◌, ◌↔◌, [], ◌∷◌, IfOk, IsSomeAnd, IsTrue, map};
ghost use Rattle.lrpar_grammar.specs.Grammar.{Nonterminal, Terminal};
ghost use Rattle.lrpar_grammar.specs.Symbols.{symbol_of};
ghost use Rattle.lrpar_parse.specs.Arguments.{AreArguments, IsArgument};
ghost use Rattle.test_parts.specs.Calculator.{IsOfKind, IsTaken};

use lrpar_grammar::span::{PIdx, RIdx, Span, Symbol, TIdx};
use lrpar_parse::parser::{AStackType, Actions};
use lrpar_parse_lexemes::lex_api::Lexeme;
use std::alloc::{AllocError, Global};

/// The value of a rule. Each rule has a kind of its own.
#[derive(Debug, Drop, PartialEq, Eq)]
pub enum Value {
    /// Of `Expr`.
    Sum(u64),
    /// Of `Term`.
    Product(u64),
    /// Of `Factor`.
    Number(usize),
}

/// The calculator.
#[derive(Drop)]
pub struct Calculator;

impl<LexemeT: Lexeme<u32>, LexerT> Actions<u32, LexemeT, LexerT> for Calculator {
    type ActionT = Value;

    type ParamT = ();

    ghost taken = { λ b p r symbols. IsTaken p r symbols };

    ghost fact = { λ b r v. IsOfKind r v };

    ghost answers = { λ b p r lexer span args param v. Unit {0} };

    fn takes(&self, pidx: PIdx<u32>, ridx: RIdx<u32>, symbols: &[Symbol<u32>]) -> bool
        ensures { IsTrue result ↔ IsTaken pidx.0 ridx.0 (map (symbol_of (λ number. number)) symbols.now) }
    {
        match (pidx.as_storaget(), ridx.as_storaget()) {
            (0, 1) => is_operation(symbols, 1, 0, 2),
            (1, 1) => is_rule(symbols, 2),
            (2, 2) => is_operation(symbols, 2, 1, 3),
            (3, 2) => is_rule(symbols, 3),
            (4, 3) => is_token(symbols, 2),
            _ => false,
        }
    }

    fn act(
        &self,
        _alloc: Global,
        pidx: PIdx<u32>,
        ridx: RIdx<u32>,
        _lexer: &LexerT,
        _span: Span,
        args: Vec<AStackType<LexemeT, Value>>,
        _param: &(),
    ) -> Result<Value, AllocError>
        requires { AreArguments (λ x. (LexemeT.parts x).token) IsOfKind (IsTaken pidx.0 ridx.0) args.items }
        ensures { IfOk result (IsOfKind ridx.0) }
    {
        let mut args = args.into_iter();
        Ok(match pidx.as_storaget() {
            0 => {
                let left = sum_of(args.next());
                let _ = args.next();
                Value::Sum(left.saturating_add(product_of(args.next())))
            }
            1 => Value::Sum(product_of(args.next())),
            2 => {
                let left = product_of(args.next());
                let _ = args.next();
                Value::Product(left.saturating_mul(number_of(args.next()) as u64))
            }
            3 => Value::Product(number_of(args.next()) as u64),
            4 => Value::Number(lexeme_of(args.next()).span().len()),
            _ => unreachable!(),
        })
    }
}

// Whether the symbols are this rule alone.
fn is_rule(symbols: &[Symbol<u32>], rule: u32) -> bool
    ensures { IsTrue result ↔ (map (symbol_of (λ number. number)) symbols.now ≡ Nonterminal rule ∷ []) }
{
    matches!(symbols, [Symbol::Rule(RIdx(only))] if *only == rule)
}

// Whether the symbols are this token alone.
fn is_token(symbols: &[Symbol<u32>], token: u32) -> bool
    ensures { IsTrue result ↔ (map (symbol_of (λ number. number)) symbols.now ≡ Terminal token ∷ []) }
{
    matches!(symbols, [Symbol::Token(TIdx(only))] if *only == token)
}

// Whether the symbols are these two rules, with this token between them.
fn is_operation(symbols: &[Symbol<u32>], left: u32, sign: u32, right: u32) -> bool
    ensures { IsTrue result ↔ (map (symbol_of (λ number. number)) symbols.now
        ≡ Nonterminal left ∷ (Terminal sign ∷ (Nonterminal right ∷ []))) }
{
    match symbols {
        [
            Symbol::Rule(RIdx(first)),
            Symbol::Token(TIdx(between)),
            Symbol::Rule(RIdx(last)),
        ] => *first == left && *between == sign && *last == right,
        _ => false,
    }
}

// The value of a sum.
fn sum_of<LexemeT: Lexeme<u32>>(arg: Option<AStackType<LexemeT, Value>>) -> u64
    requires { IsSomeAnd arg (IsArgument (λ x. (LexemeT.parts x).token) IsOfKind (Nonterminal 1)) }
{
    match arg {
        Some(AStackType::ActionType(Value::Sum(value))) => value,
        _ => unreachable!(),
    }
}

// The value of a product.
fn product_of<LexemeT: Lexeme<u32>>(arg: Option<AStackType<LexemeT, Value>>) -> u64
    requires { IsSomeAnd arg (IsArgument (λ x. (LexemeT.parts x).token) IsOfKind (Nonterminal 2)) }
{
    match arg {
        Some(AStackType::ActionType(Value::Product(value))) => value,
        _ => unreachable!(),
    }
}

// The value of a number.
fn number_of<LexemeT: Lexeme<u32>>(arg: Option<AStackType<LexemeT, Value>>) -> usize
    requires { IsSomeAnd arg (IsArgument (λ x. (LexemeT.parts x).token) IsOfKind (Nonterminal 3)) }
{
    match arg {
        Some(AStackType::ActionType(Value::Number(value))) => value,
        _ => unreachable!(),
    }
}

// The lexeme.
fn lexeme_of<LexemeT: Lexeme<u32>>(arg: Option<AStackType<LexemeT, Value>>) -> LexemeT
    requires { IsSomeAnd arg (IsArgument (λ x. (LexemeT.parts x).token) IsOfKind (Terminal 2)) }
{
    match arg {
        Some(AStackType::Lexeme(lexeme)) => lexeme,
        _ => unreachable!(),
    }
}
