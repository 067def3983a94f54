//! Cases of deep trees: what the calls of a tree return.
use crate::shown::Tree;
use lrpar_grammar::span::RIdx;
use lrpar_lexer::Token;
use lrpar_parse_lexemes::lex_api::Lexeme;
use lrpar_parse_trees::node::Node;
use std::alloc::Global;
use std::fmt;
use std::fmt::Write;
use test_case_lines::cases::Case;
use test_case_lines::fault::Fault;
use test_case_lines::printed::Printed;
use test_case_lines::values::number_at;
use test_case_tables::subject::Subject;

/// The keys that say what is done.
pub const INPUTS: &[&str] = &["levels", "input"];

/// What the calls of a tree return, which has a lexeme below `levels` rules. The calls that need no memory come before anything is
/// written: if one of them is wrong, saying so needs no memory either.
pub fn outcome(
    out: &mut Printed,
    alloc: Global,
    subject: Subject<'_, '_, '_>,
    case: Case<'_, '_>,
) -> Result<(), Fault> {
    let Subject { case: _, tables } = subject;
    let grm = tables.by_rows.grm();
    let levels = number_at(case, "levels", 1)?;
    let input = case.text(alloc, "input")?;
    let tree = chain_of(alloc, levels, 1)?;
    let (same, longer) = (chain_of(alloc, levels, 1)?, chain_of(alloc, levels, 2)?);
    if tree != same || tree == longer {
        return Err(Fault::Line(case.number, "trees are equal where their lexemes are"));
    }
    if tree.fits(grm, "") || !tree.fits(grm, &input) {
        return Err(Fault::Line(case.number, "the tree fits its input alone"));
    }
    match bytes_of(&tree) {
        Some(bytes) => out.line("shown ", &bytes),
        None => out.lack_memory(),
    }
    let again = tree.clone(alloc)?;
    out.text(if again == tree {
        "cloned\n"
    } else {
        "differs\n"
    });
    Ok(())
}

// A lexeme of `len` bytes below `levels` rules.
fn chain_of(alloc: Global, levels: usize, len: usize) -> Result<Tree, Fault> {
    let mut tree: Tree = Node::Term {
        lexeme: Token::new(1, 0, len),
    };
    for _ in 0..levels {
        let mut nodes = Vec::new(alloc);
        nodes.push(tree)?;
        tree = Node::Nonterm {
            ridx: RIdx(1),
            nodes,
        };
    }
    Ok(tree)
}

// How many bytes are written.
#[derive(Drop)]
struct Counter {
    bytes: usize,
}

impl fmt::Write for Counter {
    fn write_str(&mut self, text: &str) -> fmt::Result {
        self.bytes = self.bytes.saturating_add(text.len());
        Ok(())
    }
}

// How many bytes `Debug` writes of the tree, unless memory runs out.
fn bytes_of(tree: &Tree) -> Option<usize> {
    let mut counter = Counter { bytes: 0 };
    match write!(counter, "{tree:?}") {
        Ok(()) => Some(counter.bytes),
        Err(_) => None,
    }
}
