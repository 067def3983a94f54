//! Values that a function makes: the order of its calls, errors that are carried up, and differences, whose values are stated.
ghost use Rattle.std.specs.Prelude.{IfOk};
ghost use Rattle.test_library.specs.Differences.{IsDifference};

use crate::expectations::same;
use lrpar_lexer::{Token, TokenTypes};
use lrpar_parse::RTParserBuilder;
use lrpar_parse::parser::{Args, ParseFault, Values};
use lrpar_parse_lexemes::lex_api::Lexeme;
use lrpar_table::check::ParserData;
use std::alloc::Global;
use std::cell::Cell;
use std::process::Abort;
use std::test::Fail;
use test_parts::built::{ARITHMETIC, built};
use test_parts::drops::drop_errors;
use test_parts::lexer::{Given, lexer_of};

/// Why there is no value.
#[derive(Debug, Drop, PartialEq, Eq)]
pub(crate) enum Failed {
    /// This call failed.
    Call(usize),
    /// The right number of a difference is the greater one.
    Negative,
    /// A production has other symbols.
    Arguments,
    /// The parse returned this fault.
    Parse(ParseFault),
}

impl From<ParseFault> for Failed {
    fn from(fault: ParseFault) -> Failed {
        Failed::Parse(fault)
    }
}

/// Records its calls, two digits each: the production, and the start of its span. Some calls fail.
#[derive(Drop)]
pub(crate) struct Recording<'a> {
    calls: Cell<u64>,
    fails: &'a [usize],
}

impl<'a, L> Values<Token<u32>, L> for Recording<'a> {
    type Value = ();

    type Error = Failed;

    fn value(
        &self,
        _: Global,
        production: usize,
        args: &mut Args<'_, L, Token<u32>, (), Failed>,
    ) -> Result<(), Failed> {
        let call = production
            .saturating_mul(10)
            .saturating_add(args.span().start());
        let calls = self.calls.get().saturating_mul(100);
        self.calls.set(calls.saturating_add(call as u64));
        if self.fails.contains(&call) {
            return Err(Failed::Call(call));
        }
        Ok(())
    }
}

/// Whether there is a value, and how many errors the parse found.
type Found = Result<(bool, usize), Failed>;

// What comes of a parse of these lexemes, and the calls that it made.
fn recorded(
    alloc: Global,
    data: &ParserData<u32>,
    given: &[Given],
    fails: &[usize],
) -> (u64, Found) {
    let recording = Recording {
        calls: Cell::new(0),
        fails,
    };
    let found = found_by(alloc, data, given, &recording);
    (recording.calls.get(), found)
}

fn found_by(
    alloc: Global,
    data: &ParserData<u32>,
    given: &[Given],
    recording: &Recording<'_>,
) -> Found {
    let parser: RTParserBuilder<'_, u32, TokenTypes> = RTParserBuilder::new(data);
    let (value, errors) = parser.parse_values(alloc, &lexer_of(given), recording)?;
    let count = errors.len();
    drop_errors(errors);
    Ok((value.is_some(), count))
}

// `2+3*4`, `2+`, and a lexeme of no token of the grammar.
const SUM: &[Given] = &[(2, 1), (0, 1), (2, 1), (1, 1), (2, 1)];

const HALF: &[Given] = &[(2, 1), (0, 1)];

const FAULTY: &[Given] = &[(9, 1)];

// Lexemes of the grammar *arithmetic*, the calls that fail, the calls that are made, and what comes of the parse.
const RECORDED: [(&[Given], &[usize], u64, Found); 7] = [
    (SUM, &[], 40_30_10_42_32_44_22_00, Ok((true, 0))),
    (SUM, &[00], 40_30_10_42_32_44_22_00, Err(Failed::Call(00))),
    (SUM, &[40], 40_42_32_44_22, Err(Failed::Call(40))),
    (SUM, &[44, 42], 40_30_10_42_44, Err(Failed::Call(42))),
    (HALF, &[], 40_30_10, Ok((false, 1))),
    (HALF, &[40], 40, Ok((false, 1))),
    (FAULTY, &[], 0, Err(Failed::Parse(ParseFault::BadToken(0)))),
];

#[test]
fn calls_of_values(rt: HostRuntime) -> Result<(), Fail> {
    let data = built(rt.alloc(), ARITHMETIC)?;
    are_recorded(&rt, rt.alloc(), &data);
    Ok(())
}

// In each row the calls and what comes of them are as the row says.
fn are_recorded(rt: &impl Abort, alloc: Global, data: &ParserData<u32>) {
    for (given, fails, calls, expected) in &RECORDED {
        let (made, found) = recorded(alloc, data, *given, *fails);
        same(rt, &"calls", &made, calls);
        same(rt, &"a result", &found, expected);
    }
}

/// Differences, over `Expr: Expr '-' Term | Term; Term: 'INT';`. A number is as large as its lexeme is long.
#[derive(Drop)]
pub(crate) struct Differences;

impl<L> Values<Token<u32>, L> for Differences {
    type Value = usize;

    type Error = Failed;

    ghost gives = { λ _ p args result. IfOk result (IsDifference p args.left) };

    fn value(
        &self,
        _: Global,
        production: usize,
        args: &mut Args<'_, L, Token<u32>, usize, Failed>,
    ) -> Result<usize, Failed> {
        match production {
            0 => {
                let (left, _, right) = (args.value(), args.lexeme(), args.value());
                let (Some(left), Some(right)) = (left, right) else {
                    return Err(Failed::Arguments);
                };
                left.checked_sub(right).ok_or(Failed::Negative)
            }
            1 => args.value().ok_or(Failed::Arguments),
            _ => match args.lexeme() {
                Some(lexeme) => Ok(lexeme.span().len()),
                None => Err(Failed::Arguments),
            },
        }
    }
}

/// The grammar *differences*: tokens `-` 0, `INT` 1.
const DIFFERENCES: &str = "%% Expr: Expr '-' Term | Term; Term: 'INT';";

// The number of these lexemes.
fn difference(
    alloc: Global,
    data: &ParserData<u32>,
    given: &[Given],
) -> Result<Option<usize>, Failed> {
    let parser: RTParserBuilder<'_, u32, TokenTypes> = RTParserBuilder::new(data);
    let (value, errors) = parser.parse_values(alloc, &lexer_of(given), &Differences)?;
    drop_errors(errors);
    Ok(value)
}

// `9-3-2`, `2-3-9`, `9-`, where each number is as long as it says.
const COMPUTED: [(&[Given], Result<Option<usize>, Failed>); 3] = [
    (&[(1, 9), (0, 1), (1, 3), (0, 1), (1, 2)], Ok(Some(4))),
    (
        &[(1, 2), (0, 1), (1, 3), (0, 1), (1, 9)],
        Err(Failed::Negative),
    ),
    (&[(1, 9), (0, 1)], Ok(None)),
];

#[test]
fn values_of_differences(rt: HostRuntime) -> Result<(), Fail> {
    let data = built(rt.alloc(), DIFFERENCES)?;
    are_differences(&rt, rt.alloc(), &data);
    Ok(())
}

// In each row the number is the one that the row says.
fn are_differences(rt: &impl Abort, alloc: Global, data: &ParserData<u32>) {
    for (given, expected) in &COMPUTED {
        same(
            rt,
            &"a difference",
            &difference(alloc, data, *given),
            expected,
        );
    }
}
