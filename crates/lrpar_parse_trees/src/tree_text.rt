//! The text of a tree, with a line for each node, and the test whether a tree fits a grammar and an input.
ghost use Rattle.std.specs.Prelude.{◌≡◌, ◌↔◌, ℕ, [], IfOk, IsTrue, OnOk};
ghost use Rattle.lrpar_grammar_places.specs.Strings.{HasText};
ghost use Rattle.lrpar_parse_trees.specs.StoredTrees.{FitIn, FitsIn, IsTextOf, PushesRoot, RootFits};

use crate::node::Node;
use crate::node::bounded::{CALLS, have_fewer_nodes};
use lrpar_grammar::grammar::YaccGrammar;
use lrpar_grammar::span::{StorageIndex, TIdx};
use lrpar_parse_lexemes::lex_api::Lexeme;
use lrpar_parse_lexemes::spaces::push_spaces;
use std::alloc::{AllocError, Global};

impl<LexemeT: Lexeme<StorageT>, StorageT: StorageIndex> Node<LexemeT, StorageT> {
    /// Whether the tree fits the grammar and the input: its rules are the grammar's, its lexemes have tokens of the grammar other
    /// than the end token, and each lexeme starts and ends between two characters of the input. `pp` requires it.
    ///
    /// Takes time linear in the tree, and a list with an entry for each level. If it runs out of memory, it goes on without the
    /// list: its stack stays bounded, but a deep tree with many branches takes longer.
    pub fn fits(&self, grm: &YaccGrammar<StorageT>, input: &str) -> bool
        ensures { IsTrue result ↔ FitsIn StorageT.index LexemeT.parts grm.now input.now self.now }
    {
        if !root_fits(grm, input, self) {
            return false;
        }
        match self {
            Node::Term { lexeme: _ } => true,
            Node::Nonterm { ridx: _, nodes } => {
                let mut left = Vec::new(*nodes.allocator());
                all_fit(&mut left, grm, input, nodes)
            }
        }
    }

    /// The text of the tree: a line for each node, before the lines of its children, indented by one space for each level. A
    /// lexeme's line has its token's name, a space and its part of the input; a rule's line has its name. The tree must fit the
    /// grammar and the input, as `fits` tests. `Err`: out of memory.
    ///
    /// Takes time linear in the text, and memory for the text and for a list with an entry for each level. Its stack doesn't grow
    /// with the depth of the tree.
    pub fn pp(
        &self,
        alloc: Global,
        grm: &YaccGrammar<StorageT>,
        input: &str,
    ) -> Result<String, AllocError>
        requires fits { FitsIn StorageT.index LexemeT.parts grm.now input.now self.now }
        ensures text { IfOk result (IsTextOf StorageT.index LexemeT.parts grm.now input.now self.now) }
    {
        let mut out = String::new(alloc);
        let mut below = Vec::new(alloc);
        self.push_lines(&mut out, &mut below, grm, input)?;
        Ok(out)
    }

    // Adds the text of the tree. `below` holds the trees that are left, an entry for each level.
    fn push_lines<'a>(
        &'a self,
        out: &mut String,
        below: &mut Vec<&'a [Node<LexemeT, StorageT>]>,
        grm: &YaccGrammar<StorageT>,
        input: &str,
    ) -> Result<(), AllocError>
        requires fits { FitsIn StorageT.index LexemeT.parts grm.now input.now self.now }
        requires out { HasText [] out.old }
        requires below { below.old.items ≡ [] }
        ensures { OnOk result (IsTextOf StorageT.index LexemeT.parts grm.now input.now self.now out.new) }
    {
        push_line(out, grm, input, 0, self)?;
        let mut left = self.children();
        loop {
            match left.split_first() {
                Some((node, rest)) => {
                    below.push(rest)?;
                    push_line(out, grm, input, below.len(), node)?;
                    left = node.children();
                }
                None => match below.pop() {
                    Some(rest) => left = rest,
                    None => return Ok(()),
                },
            }
        }
    }
}

// Whether these trees fit. `left` holds the trees that are left, an entry for each level. If it can't grow, the trees below a node
// are tested without it.
fn all_fit<'a, LexemeT: Lexeme<StorageT>, StorageT: StorageIndex>(
    left: &mut Vec<&'a [Node<LexemeT, StorageT>]>,
    grm: &YaccGrammar<StorageT>,
    input: &str,
    mut nodes: &'a [Node<LexemeT, StorageT>],
) -> bool
    requires { left.old.items ≡ [] }
    ensures { IsTrue result ↔ FitIn StorageT.index LexemeT.parts grm.now input.now nodes.entry.now }
{
    loop {
        match nodes.split_first() {
            Some((node, rest)) => {
                if !root_fits(grm, input, node) {
                    return false;
                }
                match left.push(rest) {
                    Ok(()) => nodes = node.children(),
                    Err(_) => {
                        if !fit_by_calls(grm, input, node.children(), CALLS) {
                            return false;
                        }
                        nodes = rest;
                    }
                }
            }
            None => match left.pop() {
                Some(rest) => nodes = rest,
                None => return true,
            },
        }
    }
}

// Whether these trees fit, without a list. After a node, the trees below it and those beside it are left: a recursive call tests the
// ones, and the loop goes on with the others. Down to the depth `calls` a call takes the trees below the node; deeper, it takes
// those that have fewer nodes.
fn fit_by_calls<'a, LexemeT: Lexeme<StorageT>, StorageT: StorageIndex>(
    grm: &YaccGrammar<StorageT>,
    input: &str,
    mut nodes: &'a [Node<LexemeT, StorageT>],
    calls: usize,
) -> bool
    ensures { IsTrue result ↔ FitIn StorageT.index LexemeT.parts grm.now input.now nodes.entry.now }
{
    while let Some((node, rest)) = nodes.split_first() {
        if !root_fits(grm, input, node) {
            return false;
        }
        let below = node.children();
        if calls > 0 || have_fewer_nodes(below, rest) {
            if !fit_by_calls(grm, input, below, calls.saturating_sub(1)) {
                return false;
            }
            nodes = rest;
        } else {
            if !fit_by_calls(grm, input, rest, 0) {
                return false;
            }
            nodes = below;
        }
    }
    true
}

// Whether the root of the tree fits.
pub(crate) fn root_fits<LexemeT: Lexeme<StorageT>, StorageT: StorageIndex>(
    grm: &YaccGrammar<StorageT>,
    input: &str,
    node: &Node<LexemeT, StorageT>,
) -> bool
    ensures { (level : ℕ) → IsTrue result ↔ RootFits StorageT.index LexemeT.parts grm.now input.now level node.now }
{
    match node {
        Node::Term { lexeme } => {
            let span = lexeme.span();
            lexeme.tok_id().to_index() < grm.tokens_len() - 1
                && input.is_char_boundary(span.start())
                && input.is_char_boundary(span.end())
        }
        Node::Nonterm { ridx, nodes: _ } => usize::from(*ridx) < grm.rules_len(),
    }
}

// Adds the line of the root of a tree, at a level.
pub(crate) fn push_line<LexemeT: Lexeme<StorageT>, StorageT: StorageIndex>(
    out: &mut String,
    grm: &YaccGrammar<StorageT>,
    input: &str,
    level: usize,
    node: &Node<LexemeT, StorageT>,
) -> Result<(), AllocError>
    requires { RootFits StorageT.index LexemeT.parts grm.now input.now level node.now }
    ensures { PushesRoot StorageT.index LexemeT.parts grm.now input.now level node.now out.old out.new result }
{
    push_spaces(out, level)?;
    push_node(out, grm, input, node)
}

// Adds the line of the root of a tree, after the spaces that indent it.
pub(crate) fn push_node<LexemeT: Lexeme<StorageT>, StorageT: StorageIndex>(
    out: &mut String,
    grm: &YaccGrammar<StorageT>,
    input: &str,
    node: &Node<LexemeT, StorageT>,
) -> Result<(), AllocError>
    requires { RootFits StorageT.index LexemeT.parts grm.now input.now 0 node.now }
    ensures { PushesRoot StorageT.index LexemeT.parts grm.now input.now 0 node.now out.old out.new result }
{
    match node {
        Node::Term { lexeme } => {
            let name = grm.token_name(TIdx(lexeme.tok_id())).unwrap();
            out.push_str(name)?;
            out.push(' ')?;
            let span = lexeme.span();
            out.push_str(&input[span.start()..span.end()])?;
        }
        Node::Nonterm { ridx, nodes: _ } => out.push_str(grm.rule_name_str(*ridx))?,
    }
    out.push('\n')
}
