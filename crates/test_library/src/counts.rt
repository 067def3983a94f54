//! How often a parse calls its lexer and its recoverer, in which order it calls the functions of its caller, and what comes of it if one
//! of them finds no memory; and how often the text of an error asks for a token's.
use crate::actions::failing_at;
use crate::expectations::{holds, same};
use crate::recoverer::Deleting;
use lrpar_grammar::span::{StIdx, TIdx};
use lrpar_lexer::{Token, TokenTypes};
use lrpar_parse::RTParserBuilder;
use lrpar_parse::parser::ParseFault;
use lrpar_parse_errors::errors::{LexParseError, ParseError, ParseRepair};
use lrpar_parse_lexemes::lex_api::Lexeme;
use lrpar_table::check::ParserData;
use std::alloc::Global;
use std::cell::Cell;
use std::process::Abort;
use std::test::Fail;
use test_parts::built::{BRACKETS, SUM, TWICE, built};
use test_parts::drops::{drop_error, drop_errors};
use test_parts::lexer::{Given, Last, ListLexer, lexer_of};

/// One of the four calls.
#[derive(Clone, Copy, Debug, PartialEq, Eq)]
enum Call {
    Map,
    Actions,
    Tree,
    Errors,
}

/// All of them.
const FOUR: [Call; 4] = [Call::Map, Call::Actions, Call::Tree, Call::Errors];

/// The errors of a parse, or its fault.
type Errors = Result<Vec<LexParseError<u32, TokenTypes>>, ParseFault>;

/// A parser with a recoverer that counts.
type Parser<'a> = RTParserBuilder<'a, u32, TokenTypes, Deleting<'a>>;

// The errors of the parse by the call.
fn errors_by(alloc: Global, call: Call, parser: &Parser<'_>, lexer: &ListLexer<'_>) -> Errors {
    match call {
        Call::Map => mapped_errors(alloc, parser, lexer),
        Call::Actions => acted_errors(alloc, parser, lexer),
        Call::Tree => tree_errors(alloc, parser, lexer),
        Call::Errors => parser.parse_noaction(alloc, lexer),
    }
}

// Those of a parse by two functions.
fn mapped_errors(alloc: Global, parser: &Parser<'_>, lexer: &ListLexer<'_>) -> Errors {
    let (_, errors) = parser.parse_map(alloc, lexer, |_| {}, |_, _| {})?;
    Ok(errors)
}

// Those of a parse by actions.
fn acted_errors(alloc: Global, parser: &Parser<'_>, lexer: &ListLexer<'_>) -> Errors {
    let (_, errors) = parser.parse_actions(alloc, lexer, &failing_at(0), &())?;
    Ok(errors)
}

// Those of a parse to a tree.
fn tree_errors(alloc: Global, parser: &Parser<'_>, lexer: &ListLexer<'_>) -> Errors {
    let (_tree, errors) = parser.parse_generictree(alloc, lexer)?;
    Ok(errors)
}

// Adds the state and the start of each parse error, or the fault.
fn push_outcome(rt: &impl Abort, text: &mut String, answer: Errors) {
    match answer {
        Err(fault) => holds(rt, &"memory", write!(text, "{fault} ").is_ok()),
        Ok(errors) => {
            push_places(rt, text, &errors);
            drop_errors(errors);
        }
    }
}

// Adds the state and the start of each parse error, and the text of a lexing error.
fn push_places(rt: &impl Abort, text: &mut String, errors: &[LexParseError<u32, TokenTypes>]) {
    for error in errors {
        let pushed = match error {
            LexParseError::LexError(error) => write!(text, "{error} "),
            LexParseError::ParseError(error) => {
                let (state, start) = (error.stidx().as_storaget(), error.lexeme().span().start());
                write!(text, "{state}@{start} ")
            }
        };
        holds(rt, &"memory", pushed.is_ok());
    }
}

/// Lexemes of the grammar *brackets* and what comes after them, the calls at which the lexer and the recoverer find no memory, what comes
/// of two parses, and how often both parses call the lexer and the recoverer.
type Row = (
    &'static [Given],
    Last,
    (usize, usize),
    &'static str,
    (usize, usize),
);

// Without an error; with one that a deletion mends, and with two; with one that none mends, before another; with two if memory
// runs out once; with a lexing error, after a parse error; with a lexeme of no token; and with one that starts too early.
const ROWS: [Row; 9] = [
    (&[(0, 1)], Last::Nothing, (0, 0), "", (2, 0)),
    (&[(0, 1), (0, 1)], Last::Nothing, (0, 0), "2@1 2@1 ", (2, 2)),
    (&TWICE, Last::Nothing, (0, 0), "2@1 8@8 2@1 8@8 ", (2, 4)),
    (
        &[(0, 1), (0, 1), (1, 1), (0, 1), (3, 1)],
        Last::Nothing,
        (0, 0),
        "2@1 2@1 ",
        (2, 2),
    ),
    (
        &TWICE,
        Last::Nothing,
        (1, 0),
        "out of memory 2@1 8@8 ",
        (2, 2),
    ),
    (
        &TWICE,
        Last::Nothing,
        (0, 2),
        "out of memory 2@1 8@8 ",
        (2, 4),
    ),
    (
        &[(0, 1), (0, 1)],
        Last::NoToken,
        (0, 0),
        "no token fits at byte 2 no token fits at byte 2 ",
        (2, 0),
    ),
    (
        &[(0, 1), (9, 1), (0, 1)],
        Last::Nothing,
        (0, 0),
        "bad token at lexeme 1 bad token at lexeme 1 ",
        (2, 0),
    ),
    (
        &[(0, 1), (1, 1)],
        Last::First,
        (0, 0),
        "start decreases at lexeme 2 start decreases at lexeme 2 ",
        (2, 0),
    ),
];

#[test]
fn lexers_and_recoverers_are_asked_once(rt: HostRuntime) -> Result<(), Fail> {
    let data = built(rt.alloc(), BRACKETS)?;
    for row in &ROWS {
        each_asks(&rt, rt.alloc(), &data, row);
    }
    Ok(())
}

// Each of the four calls asks as often as the row says.
fn each_asks(rt: &impl Abort, alloc: Global, data: &ParserData<u32>, row: &Row) {
    let (_, _, _, expected, asked) = *row;
    for call in &FOUR {
        let (text, found) = asks(rt, alloc, *call, data, row);
        let found = (*call, text.as_str(), found);
        same(rt, &expected, &found, &(*call, expected, asked));
    }
}

// What comes of two parses of the row by the call, and how often they ask.
fn asks(
    rt: &impl Abort,
    alloc: Global,
    call: Call,
    data: &ParserData<u32>,
    row: &Row,
) -> (String, (usize, usize)) {
    let (given, last, (lexing, recovery), _, _) = *row;
    let calls = Cell::new(0);
    let lexer = ListLexer {
        given,
        last,
        calls: Cell::new(0),
        fails_at: lexing,
    };
    let parser = RTParserBuilder::new(data).recoverer(Deleting {
        calls: &calls,
        fails_at: recovery,
    });
    let mut text = String::new(alloc);
    push_outcome(rt, &mut text, errors_by(alloc, call, &parser, &lexer));
    push_outcome(rt, &mut text, errors_by(alloc, call, &parser, &lexer));
    (text, (lexer.calls.get(), calls.get()))
}

// Counts one more question.
fn count(asked: &Cell<usize>) {
    asked.set(asked.get().saturating_add(1));
}

// How often the text of the error asks what is printed for a token.
fn names_asked(rt: &impl Abort, alloc: Global, error: &LexParseError<u32, TokenTypes>) -> usize {
    if !error.fits("") {
        panic!(rt; "an error outside of its text");
    }
    let asked = Cell::new(0);
    let text = error.pp(alloc, &lexer_of(&[]), |_| {
        count(&asked);
        Some("x")
    });
    holds(rt, &"a text", text.is_ok());
    asked.get()
}

// An error with two sequences of repairs, of three insertions and a deletion in all.
fn error_of(rt: &impl Abort, alloc: Global) -> LexParseError<u32, TokenTypes> {
    let (first, second) = (ParseRepair::Insert(TIdx(0)), ParseRepair::Insert(TIdx(1)));
    let (other, deleted) = (ParseRepair::Insert(TIdx(1)), Token::new(1, 0, 0));
    let long = vec![in alloc; first, second, ParseRepair::Delete(deleted)].expect(rt, "memory");
    let short = vec![in alloc; other].expect(rt, "memory");
    let repairs = vec![in alloc; long, short].expect(rt, "memory");
    LexParseError::from(ParseError::new(StIdx(0), Token::new(1, 0, 0), repairs))
}

#[test]
fn each_insertion_is_asked_for_once(rt: HostRuntime) -> Result<(), Fail> {
    let error = error_of(&rt, rt.alloc());
    let asked = names_asked(&rt, rt.alloc(), &error);
    drop_error(error);
    same(&rt, &"asked", &asked, &3);
    Ok(())
}

/// A call of one of the two functions of `parse_map`: for the lexeme that starts at this byte, or for this rule.
#[derive(Clone, Copy, Debug, PartialEq, Eq)]
enum Called {
    Lexeme(usize),
    Rule(u32),
}

/// How many calls there were, and which were the first eight.
type Calls = (usize, [Called; 8]);

// Notes the call, if it is one of the first eight.
fn note(calls: &Cell<Calls>, call: Called) {
    let (count, mut noted) = calls.get();
    if let Some(place) = noted.get_mut(count) {
        *place = call;
    }
    calls.set((count.saturating_add(1), noted));
}

// The calls of the two functions in the parse of these lexemes.
fn calls_of(rt: &impl Abort, alloc: Global, data: &ParserData<u32>, given: &[Given]) -> Calls {
    let calls = Cell::new((0, [Called::Rule(0); 8]));
    let parser = RTParserBuilder::<u32, TokenTypes>::new(data);
    let answer = parser.parse_map(
        alloc,
        &lexer_of(given),
        |lexeme: Token<u32>| note(&calls, Called::Lexeme(lexeme.span().start())),
        |rule, _| note(&calls, Called::Rule(rule.as_storaget())),
    );
    match answer {
        Ok((_, errors)) => drop_errors(errors),
        Err(fault) => panic!(rt; "{fault}"),
    }
    calls.get()
}

/// A grammar, lexemes, and the calls of the functions in their order.
type Order = (&'static str, &'static [Given], &'static [Called]);

// The sums `a+b`, `a+` and the empty one, and the lexemes of one right side, from left to right: `(n)`. A token's value is asked for when
// its production is reduced, so not for tokens that are on the stack at an error; and there is no call for the start rule of the augmented
// grammar.
const ORDERS: [Order; 4] = [
    (
        SUM,
        &[(1, 1), (0, 1), (1, 1)],
        &[
            Called::Lexeme(0),
            Called::Rule(2),
            Called::Lexeme(2),
            Called::Rule(2),
            Called::Rule(1),
            Called::Lexeme(1),
            Called::Rule(1),
        ],
    ),
    (
        SUM,
        &[(1, 1), (0, 1)],
        &[Called::Lexeme(0), Called::Rule(2)],
    ),
    (SUM, &[], &[]),
    (
        BRACKETS,
        &[(2, 1), (0, 1), (3, 1)],
        &[
            Called::Lexeme(1),
            Called::Rule(1),
            Called::Lexeme(0),
            Called::Lexeme(2),
            Called::Rule(1),
        ],
    ),
];

#[test]
fn calls_of_the_functions(rt: HostRuntime) -> Result<(), Fail> {
    for (text, given, expected) in ORDERS {
        let data = built(rt.alloc(), text)?;
        let (count, noted) = calls_of(&rt, rt.alloc(), &data, given);
        same(&rt, &count, &noted.get(..count), &Some(expected));
    }
    Ok(())
}
