//! Actions that count their calls, and the calculator's.
ghost use Rattle.std.specs.Prelude.{◌↔◌, IfOk, IsTrue};

use crate::expectations::{holds, same};
use lrpar_grammar::span::{PIdx, RIdx, Span, Symbol};
use lrpar_lexer::{Token, TokenTypes};
use lrpar_parse::RTParserBuilder;
use lrpar_parse::parser::{AStackType, Actions, ParseFault};
use lrpar_table::check::ParserData;
use std::alloc::{AllocError, Global};
use std::cell::Cell;
use std::process::Abort;
use std::test::Fail;
use test_parts::built::{ARITHMETIC, SUM, built};
use test_parts::calculator::{Calculator, Value};
use test_parts::drops::drop_errors;
use test_parts::lexer::{Given, ListLexer, lexer_of};

/// Counts its calls, and finds no memory at one of them. Its contracts claim nothing of its values.
#[derive(Drop)]
pub(crate) struct Counting {
    calls: Cell<usize>,
    fails_at: usize,
}

/// Actions that find no memory at this call.
pub(crate) fn failing_at(fails_at: usize) -> Counting {
    Counting {
        calls: Cell::new(0),
        fails_at,
    }
}

impl<LexerT> Actions<u32, Token<u32>, LexerT> for Counting {
    type ActionT = ();

    type ParamT = ();

    ghost taken = { λ _ _ _ _. Unit {0} };

    ghost fact = { λ _ _ _. Unit {0} };

    ghost answers = { λ _ _ _ _ _ _ _ _. Unit {0} };

    fn takes(&self, _: PIdx<u32>, _: RIdx<u32>, _: &[Symbol<u32>]) -> bool
        ensures { IsTrue result ↔ Unit {0} }
    {
        true
    }

    fn act(
        &self,
        _: Global,
        _: PIdx<u32>,
        _: RIdx<u32>,
        _: &LexerT,
        _: Span,
        _: Vec<AStackType<Token<u32>, ()>>,
        _: &(),
    ) -> Result<(), AllocError>
        ensures fact { IfOk result (λ _. Unit {0}) }
        ensures answers { IfOk result (λ _. Unit {0}) }
    {
        self.calls.set(self.calls.get().saturating_add(1));
        if self.calls.get() == self.fails_at {
            Err(AllocError)
        } else {
            Ok(())
        }
    }
}

/// A parser without a recoverer.
type Parser<'a> = RTParserBuilder<'a, u32, TokenTypes>;

// Two parses by one parser and by actions that find no memory at this call, as text: each fault, or whether there is a value, and how
// often the actions were called up to there.
fn acted_twice(
    rt: &impl Abort,
    alloc: Global,
    data: &ParserData<u32>,
    given: &[Given],
    fails_at: usize,
) -> String {
    let (lexer, mut text) = (lexer_of(given), String::new(alloc));
    let (parser, counting) = (Parser::new(data), failing_at(fails_at));
    for _ in 0..2 {
        let found = has_value(alloc, &parser, &lexer, &counting);
        push_found(rt, &mut text, found, counting.calls.get());
    }
    text
}

// Whether the parse has a value.
fn has_value(
    alloc: Global,
    parser: &Parser<'_>,
    lexer: &ListLexer<'_>,
    counting: &Counting,
) -> Result<bool, ParseFault> {
    let (value, errors) = parser.parse_actions(alloc, lexer, counting, &())?;
    drop_errors(errors);
    Ok(value.is_some())
}

// Adds whether a parse has a value, or its fault; and a number of calls.
fn push_found(rt: &impl Abort, text: &mut String, found: Result<bool, ParseFault>, calls: usize) {
    let pushed = match found {
        Ok(has_value) => write!(text, "{has_value} {calls} "),
        Err(fault) => write!(text, "{fault} {calls} "),
    };
    holds(rt, &"memory", pushed.is_ok());
}

// Lexemes of the grammar *sum*, the call at which the actions find no memory, and what comes of two parses.
const TWO_PARSES: [(&[Given], usize, &str); 4] = [
    (&[(1, 1), (0, 1), (1, 1)], 0, "true 4 true 8 "),
    (&[(1, 1), (0, 1)], 0, "false 1 false 2 "),
    (&[], 0, "false 0 false 0 "),
    (&[(1, 1), (0, 1), (1, 1)], 2, "out of memory 2 true 6 "),
];

#[test]
fn calls_of_actions(rt: HostRuntime) -> Result<(), Fail> {
    let data = built(rt.alloc(), SUM)?;
    are_called(&rt, rt.alloc(), &data);
    Ok(())
}

// In each row the actions are called as the row says.
fn are_called(rt: &impl Abort, alloc: Global, data: &ParserData<u32>) {
    for (given, fails_at, expected) in &TWO_PARSES {
        let text = acted_twice(rt, alloc, data, *given, *fails_at);
        same(rt, fails_at, &text.as_str(), expected);
    }
}

// The value that the calculator makes of these lexemes, if there is one.
fn value_of(
    rt: &impl Abort,
    alloc: Global,
    data: &ParserData<u32>,
    given: &[Given],
) -> Option<Value> {
    let lexer = lexer_of(given);
    let parser = Parser::new(data);
    if !parser.takes_all(&lexer, &Calculator) {
        panic!(rt; "a production that the calculator doesn't take");
    }
    match parser.parse_actions(alloc, &lexer, &Calculator, &()) {
        Ok((value, errors)) => {
            drop_errors(errors);
            value
        }
        Err(fault) => panic!(rt; "{fault}"),
    }
}

// The lexemes of `2+3*4`, `2*3+4` and `2+`, where each number is as long as it says, and the value that the calculator makes of them.
const COMPUTED: [(&[Given], Option<Value>); 3] = [
    (
        &[(2, 2), (0, 1), (2, 3), (1, 1), (2, 4)],
        Some(Value::Sum(14)),
    ),
    (
        &[(2, 2), (1, 1), (2, 3), (0, 1), (2, 4)],
        Some(Value::Sum(10)),
    ),
    (&[(2, 2), (0, 1)], None),
];

#[test]
fn values_of_a_calculator(rt: HostRuntime) -> Result<(), Fail> {
    let data = built(rt.alloc(), ARITHMETIC)?;
    are_computed(&rt, rt.alloc(), &data);
    Ok(())
}

// In each row the calculator makes the value that the row says.
fn are_computed(rt: &impl Abort, alloc: Global, data: &ParserData<u32>) {
    for (given, expected) in &COMPUTED {
        same(rt, &"a value", &value_of(rt, alloc, data, *given), expected);
    }
}
