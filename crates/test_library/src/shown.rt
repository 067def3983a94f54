//! Trees as `Debug` shows them.
use crate::expectations::{holds, same};
use crate::trees::{Tree, chain_of};
use lrpar_grammar::span::RIdx;
use lrpar_lexer::Token;
use lrpar_parse_lexemes::lex_api::Lexeme;
use lrpar_parse_trees::node::Node;
use std::alloc::Global;
use std::fmt;
use std::fmt::Write;
use std::process::Abort;
use std::test::Fail;

// A rule over a lexeme, over a rule of nothing and over another lexeme.
fn small_tree(rt: &impl Abort, alloc: Global) -> Tree {
    let nodes = vec![in alloc;
        Node::Term {
            lexeme: Token::new(1, 0, 1),
        },
        Node::Nonterm {
            ridx: RIdx(2),
            nodes: Vec::new(alloc),
        },
        Node::Term {
            lexeme: Token::new_faulty(0, 1, 2),
        },
    ];
    Node::Nonterm {
        ridx: RIdx(1),
        nodes: nodes.expect(rt, "memory"),
    }
}

// The texts of that tree.
const SMALL: &str =
    "Nonterm { ridx: RIdx(1), nodes: [Term { lexeme: Token { number: 1, span: Span { start: 0, end: 1 }, is_faulty: false } }, Nonterm { ridx: RIdx(2), nodes: [] }, Term { lexeme: Token { number: 0, span: Span { start: 1, end: 3 }, is_faulty: true } }] }";

const SMALL_IN_LINES: &str = "Nonterm {
    ridx: RIdx(
        1,
    ),
    nodes: [
        Term {
            lexeme: Token {
                number: 1,
                span: Span {
                    start: 0,
                    end: 1,
                },
                is_faulty: false,
            },
        },
        Nonterm {
            ridx: RIdx(
                2,
            ),
            nodes: [],
        },
        Term {
            lexeme: Token {
                number: 0,
                span: Span {
                    start: 1,
                    end: 3,
                },
                is_faulty: true,
            },
        },
    ],
}";

#[test]
fn small_trees(rt: HostRuntime) -> Result<(), Fail> {
    let tree = small_tree(&rt, rt.alloc());
    is_small(&rt, rt.alloc(), &tree);
    Ok(())
}

// These are the texts of the tree.
fn is_small(rt: &impl Abort, alloc: Global, tree: &Tree) {
    let text = format!(in alloc; "{tree:?}").expect(rt, "memory");
    same(rt, &"on one line", &text.as_str(), &SMALL);
    let text = format!(in alloc; "{tree:#?}").expect(rt, "memory");
    same(rt, &"in lines", &text.as_str(), &SMALL_IN_LINES);
}

// How many bytes are written.
#[derive(Drop)]
struct Counter {
    bytes: usize,
}

impl fmt::Write for Counter {
    fn write_str(&mut self, text: &str) -> fmt::Result {
        self.bytes = self.bytes.saturating_add(text.len());
        Ok(())
    }
}

#[test]
fn lines_of_a_thousand_levels(rt: HostRuntime) -> Result<(), Fail> {
    let tree = chain_of(&rt, rt.alloc(), 1_000);
    are_shown(&rt, &tree);
    Ok(())
}

// A rule at level `n`, from 0 on, has seven lines with 56 `n` + 67 bytes, and the lexeme below a thousand levels has ten with 80,154.
fn are_shown(rt: &impl Abort, tree: &Tree) {
    let mut counter = Counter { bytes: 0 };
    let is_written = write!(counter, "{tree:#?}").is_ok();
    holds(rt, &"a chain is shown", is_written);
    same(rt, &"bytes", &counter.bytes, &28_119_154);
}
