//! A calculator: for each line of a text its errors with fixes, and then its value, or that it has none.
ghost use Rattle.std.specs.Prelude.{◌↔◌, IfOk, IsTrue};

use crate::language::{Failed, language_of, push_reports};
use lrpar::parser::AStackType::ActionType;
use lrpar::parser::{AStackType, Actions};
use lrpar::repair::CpctPlus;
use lrpar::span::{PIdx, RIdx, Span, Symbol};
use lrpar::{LexParseError, RTParserBuilder};
use lrpar_language::Language;
use lrpar_lexer::{RuleLexer, Token, TokenTypes};
use std::alloc::{AllocError, Global};

const GRAMMAR: &str = "%% Expr: Expr '+' Term | Term;
    Term: Term '*' Factor | Factor;
    Factor: '(' Expr ')' | 'INT';";

const LEXER: &str = r"
    [0-9]+ 'INT'
    \+ '+'
    \* '*'
    \( '('
    \) ')'
    [ \t\r]+ ;";

/// The value of a line, if it has one, and its errors.
type Parsed = (Option<u64>, Vec<LexParseError<u32, TokenTypes>>);

/// The values of a line: a number, or nothing if it is too large, or a repair inserted it.
#[derive(Drop)]
struct Calculation<'a> {
    line: &'a str,
}

impl<'a, 'rules, 'input> Actions<u32, Token<u32>, RuleLexer<'rules, 'input>> for Calculation<'a> {
    type ActionT = Option<u64>;

    type ParamT = ();

    ghost taken = { λ _ _ _ _. Unit {0} };

    ghost fact = { λ _ _ _. Unit {0} };

    ghost answers = { λ _ _ _ _ _ _ _ _. Unit {0} };

    fn takes(&self, _: PIdx<u32>, _: RIdx<u32>, _: &[Symbol<u32>]) -> bool
        ensures { IsTrue result ↔ Unit {0} }
    {
        true
    }

    fn act(
        &self,
        _: Global,
        pidx: PIdx<u32>,
        _: RIdx<u32>,
        _: &RuleLexer<'rules, 'input>,
        span: Span,
        args: Vec<AStackType<Token<u32>, Option<u64>>>,
        _: &(),
    ) -> Result<Option<u64>, AllocError>
        ensures fact { IfOk result (λ _. Unit {0}) }
        ensures answers { IfOk result (λ _. Unit {0}) }
    {
        // Productions are numbered in the order in which the grammar has them.
        let word = self.line.get(span.start()..span.end()).unwrap_or("");
        Ok(match (pidx.as_storaget(), args.as_slice()) {
            (0, [ActionType(Some(left)), _, ActionType(Some(right))]) => left.checked_add(*right),
            (2, [ActionType(Some(left)), _, ActionType(Some(right))]) => left.checked_mul(*right),
            (1 | 3, [ActionType(number)]) | (4, [_, ActionType(number), _]) => *number,
            (5, [_]) => word.parse::<u64>().ok(),
            _ => None,
        })
    }
}

/// The errors of each line of the text, and its value.
pub(crate) fn run(alloc: Global, text: &str) -> Result<String, Failed> {
    let sums = language_of(alloc, GRAMMAR, LEXER)?;
    let mut out = String::new(alloc);
    for line in text.split_terminator('\n') {
        push_line(&mut out, alloc, &sums, line)?;
    }
    Ok(out)
}

// Adds the errors of a line, and its value.
fn push_line(out: &mut String, alloc: Global, sums: &Language, line: &str) -> Result<(), Failed> {
    let (value, errors) = parse(alloc, sums, line)?;
    let reports = sums.error_reports(alloc, line, &errors)?;
    push_reports(out, alloc, "line", line, &reports)?;
    Ok(push_value(out, line, value)?)
}

// Adds a line, and its value.
fn push_value(out: &mut String, line: &str, value: Option<u64>) -> Result<(), AllocError> {
    match value {
        Some(number) => writeln!(out, "{line} = {number}"),
        None => writeln!(out, "{line} has no value"),
    }
}

// The value of a line, if it has one, and its errors.
fn parse(alloc: Global, sums: &Language, line: &str) -> Result<Parsed, Failed> {
    let lexer = sums.lexer(alloc, line)?;
    let parser = RTParserBuilder::new(sums.data()).recoverer(CpctPlus::new(10_000));
    let (value, errors) = parser.parse_actions(alloc, &lexer, &Calculation { line }, &())?;
    Ok((value.unwrap_or(None), errors))
}
