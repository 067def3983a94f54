//! A parse by a table that the user made, and a calculation, as a user writes them.
use crate::calculation::calculated;
use crate::expectations::same;
use lrpar::grammar::YaccGrammar;
use lrpar::span::{PIdx, StIdx, TIdx};
use lrpar::table::{Action, Item, StateGraph, StateTable, TableRows};
use lrpar::{LexParseError, Node, ParserData, RTParserBuilder};
use lrpar_lexer::{Token, TokenTypes};
use std::alloc::Global;
use std::process::Abort;
use std::test::Fail as Failed;
use test_parts::built::{CALC, built, lists};
use test_parts::lexer::{ListLexer, lexer_of};

/// A tree, if there is one, and the errors.
type Answer = (
    Option<Node<Token<u32>, u32>>,
    Vec<LexParseError<u32, TokenTypes>>,
);

// The tree of the lexemes, by a grammar text, item sets and rows.
fn tree_of(
    alloc: Global,
    text: &str,
    items: Vec<Vec<Item<u32>>>,
    rows: TableRows<u32>,
    lexer: &ListLexer<'_>,
) -> Result<Answer, Failed> {
    let grm = YaccGrammar::new_with_storaget(alloc, text)?;
    let sgraph = StateGraph::from_rows(alloc, items)?;
    let stable = StateTable::from_rows(alloc, rows)?;
    let data = ParserData::new(alloc, grm, sgraph, stable, 2).map_err(|refused| refused.fault())?;
    Ok(RTParserBuilder::new(&data).parse_generictree(alloc, lexer)?)
}

// The items, the actions and the gotos of the three states of `%% S: 'a';`, whose end token is 1.
const ITEMS: [&[Item<u32>]; 3] = [
    &[(PIdx(1), 0, TIdx(1)), (PIdx(0), 0, TIdx(1))],
    &[(PIdx(1), 1, TIdx(1))],
    &[(PIdx(0), 1, TIdx(1))],
];

const ACTIONS: [&[Action<u32>]; 3] = [
    &[Action::Shift(StIdx(2)), Action::Error],
    &[Action::Error, Action::Accept],
    &[Action::Error, Action::Reduce(PIdx(0))],
];

const GOTOS: [&[Option<StIdx<u32>>]; 3] = [&[None, Some(StIdx(1))], &[None, None], &[None, None]];

// The rows of these states.
fn rows(alloc: Global) -> Result<TableRows<u32>, Failed> {
    Ok(TableRows {
        start: StIdx(0),
        tokens: 2,
        rules: 2,
        actions: lists(alloc, &ACTIONS)?,
        gotos: lists(alloc, &GOTOS)?,
        conflicts: None,
    })
}

#[test]
fn tree_of_a_token(rt: HostRuntime) -> Result<(), Failed> {
    let alloc = rt.alloc();
    let (items, rows) = (lists(alloc, &ITEMS)?, rows(alloc)?);
    let (tree, errors) = tree_of(alloc, "%% S: 'a';", items, rows, &lexer_of(&[(0, 1)]))?;
    same(&rt, &"a tree", &(tree.is_some(), errors.len()), &(true, 0));
    Ok(())
}

// A line, its errors, and its number.
const LINES: [(&str, &str, Option<u64>); 9] = [
    ("2 + 3", "", Some(5)),
    ("2 + 3 * 4", "", Some(14)),
    ("(2 + 3) * 4", "", Some(20)),
    ("12*10", "", Some(120)),
    (
        "2 + + 3",
        "Parsing error at line 1 column 5. Repair sequences found:\n   1: Delete +\n   2: Insert INT\n",
        Some(5),
    ),
    (
        "2 + 3 3",
        "Parsing error at line 1 column 7. Repair sequences found:\n   1: Delete 3\n",
        Some(5),
    ),
    (
        "2 +",
        "Parsing error at line 1 column 4. Repair sequences found:\n   1: Insert INT\n",
        None,
    ),
    ("2 ? 3", "Lexing error at line 1 column 3.\n", None),
    ("18446744073709551615 + 1", "", None),
];

// Each line has its errors and its number.
fn are_calculated(rt: &impl Abort, alloc: Global, data: &ParserData<u32>) -> Result<(), Failed> {
    for (line, errors, number) in LINES {
        let (text, found) = calculated(alloc, data, line)?;
        same(rt, &line, &(text.as_str(), found), &(errors, number));
    }
    Ok(())
}

#[test]
fn lines_of_a_calculator(rt: HostRuntime) -> Result<(), Failed> {
    let data = built(rt.alloc(), CALC)?;
    are_calculated(&rt, rt.alloc(), &data)
}
