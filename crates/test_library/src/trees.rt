//! Trees of many levels, which are parsed and printed.
use crate::expectations::{holds, same};
use lrpar_grammar::grammar::YaccGrammar;
use lrpar_grammar::span::RIdx;
use lrpar_lexer::{Token, TokenTypes};
use lrpar_parse::RTParserBuilder;
use lrpar_parse_lexemes::lex_api::Lexeme;
use lrpar_parse_trees::node::Node;
use lrpar_table::check::ParserData;
use std::alloc::Global;
use std::io;
use std::process::Abort;
use std::test::Fail;
use test_parts::built::{SUM, built};
use test_parts::drops::drop_errors;
use test_parts::lexer::{Given, lexer_of};

/// A tree of the tests.
pub(crate) type Tree = Node<Token<u32>, u32>;

// How many levels a deep tree has. A parse or a drop by recursion has no stack for them.
const LEVELS: usize = 200_000;

// The lexemes of a sum of this number of terms.
fn sum_of(rt: &impl Abort, alloc: Global, terms: usize) -> Vec<Given> {
    let mut given = Vec::new(alloc);
    for _ in 1..terms {
        given
            .extend_from_slice(&[(1, 1), (0, 1)])
            .expect(rt, "memory");
    }
    given.push((1, 1)).expect(rt, "memory");
    given
}

// The tree of these lexemes.
fn tree_of(rt: &impl Abort, alloc: Global, data: &ParserData<u32>, given: &[Given]) -> Tree {
    let parser = RTParserBuilder::<u32, TokenTypes>::new(data);
    match parser.parse_generictree(alloc, &lexer_of(given)) {
        Ok((tree, errors)) => {
            drop_errors(errors);
            tree.expect(rt, "a tree")
        }
        Err(fault) => panic!(rt; "{fault}"),
    }
}

// How many rules the last lexeme lies in.
fn levels(tree: &Tree) -> usize {
    let mut levels = 0usize;
    let mut node = tree;
    while let Node::Nonterm { ridx: _, nodes } = node {
        let Some(last) = nodes.last() else {
            return levels;
        };
        levels = levels.saturating_add(1);
        node = last;
    }
    levels
}

/// A lexeme below this number of rules, each of which has one tree.
pub(crate) fn chain_of(rt: &impl Abort, alloc: Global, levels: usize) -> Tree {
    let mut tree: Tree = Node::Term {
        lexeme: Token::new(1, 0, 1),
    };
    for _ in 0..levels {
        let mut nodes = Vec::new(alloc);
        if nodes.push(tree).is_err() {
            panic!(rt; "memory");
        }
        tree = Node::Nonterm {
            ridx: RIdx(1),
            nodes,
        };
    }
    tree
}

#[test]
fn deep_trees(rt: HostRuntime) -> Result<(), Fail> {
    let data = built(rt.alloc(), SUM)?;
    are_parsed(&rt, rt.alloc(), &data);
    Ok(())
}

// Each term of a sum but the last is beside the sum of those after it.
fn are_parsed(rt: &impl Abort, alloc: Global, data: &ParserData<u32>) {
    let given = sum_of(rt, alloc, LEVELS);
    let tree = tree_of(rt, alloc, data, &given);
    same(rt, &"levels", &levels(&tree), &(LEVELS + 1));
}

#[test]
fn deep_trees_are_printed(rt: HostRuntime) -> Result<(), Fail> {
    let data = built(rt.alloc(), SUM)?;
    are_printed(&rt, rt.alloc(), data.grm());
    Ok(())
}

// A chain of 20,000 rules `E` has a text of this number of bytes: each line has a space for each level.
fn are_printed(rt: &impl Abort, alloc: Global, grm: &YaccGrammar<u32>) {
    let tree = chain_of(rt, alloc, 20_000);
    if !tree.fits(grm, "a") {
        panic!(rt; "a chain that doesn't fit");
    }
    let text = tree.pp(alloc, grm, "a").expect(rt, "memory");
    same(rt, &"bytes", &text.len(), &200_050_005);
}

#[test]
fn deep_trees_are_written(rt: HostRuntime) -> Result<(), Fail> {
    let data = built(rt.alloc(), SUM)?;
    are_written(&rt, rt.alloc(), data.grm());
    Ok(())
}

// A chain of 50,000 rules is written.
fn are_written(rt: &impl Abort, alloc: Global, grm: &YaccGrammar<u32>) {
    let tree = chain_of(rt, alloc, 50_000);
    let written = tree.write(alloc, grm, "a", &mut io::sink());
    holds(rt, &"a chain is written", written.is_ok());
}
