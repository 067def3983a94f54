//! Trees as graphs for Graphviz.
ghost use Rattle.std.specs.Prelude.{◌≡◌, ◌+◌, [], IfOk};
ghost use Rattle.lrpar_parse_lexemes.specs.Strings.{Pushes};
ghost use Rattle.lrpar_parse_trees.specs.Graph.{edge_line, label_front, leaf_shape, name_label, rule_line};
ghost use Rattle.lrpar_parse_trees.specs.Leaves.{PushesLabel, PushesLeafLine};
ghost use Rattle.lrpar_parse_trees.specs.StoredTrees.{WritesBelow, WritesGraph, WritesNode};
ghost use Rattle.lrpar_parse_trees.specs.Written.{WritesAll};

use crate::Node;
use crate::labels::push_label;
use crate::node_parts::{Leaf, leaf_of, rule_name};
use lrpar_grammar::grammar::YaccGrammar;
use lrpar_grammar::span::StorageIndex;
use lrpar_parse_lexemes::lex_api::Lexeme;
use std::alloc::{AllocError, Global};
use std::io::{self, ErrorKind, Write};

/// Writes the tree as a graph in the language of Graphviz (<https://graphviz.org/doc/info/lang.html>). Each node has a line, before
/// the nodes below it; and each node but the root then has a line for the edge from the node above. A rule is labelled with its name; a
/// lexeme is a box, labelled with its part of the input, after its token's name if that is another text. The box of one that a repair made
/// is dashed, and has the name alone. Nodes are numbered from 0 in the order of the lines.
///
/// Fails as `write_nested` does, and as out of memory if `usize` has no number for a node. Takes the time and the memory that
/// `write_nested` takes.
pub fn write_graph<LexemeT: Lexeme<StorageT>, StorageT: StorageIndex, W: Write>(
    alloc: Global,
    grm: &YaccGrammar<StorageT>,
    input: &str,
    tree: &Node<LexemeT, StorageT>,
    out: &mut W,
) -> io::Result<()>
    ensures { WritesGraph StorageT.index LexemeT.parts grm.now input.now W.contents tree.now out.old out.new result }
{
    out.write_all(b"digraph tree {\n")?;
    let mut line = String::new(alloc);
    write_node(out, &mut line, grm, input, 0, tree)?;
    let mut above = Vec::new(alloc);
    write_below(out, &mut line, &mut above, grm, input, tree.children())?;
    out.write_all(b"}\n")
}

// Writes the lines of the trees below the root. `line` is a buffer for one line, and `above` holds for each level the number of the node
// above and the trees that are left.
fn write_below<'a, LexemeT: Lexeme<StorageT>, StorageT: StorageIndex, W: Write>(
    out: &mut W,
    line: &mut String,
    above: &mut Vec<(usize, &'a [Node<LexemeT, StorageT>])>,
    grm: &YaccGrammar<StorageT>,
    input: &str,
    nodes: &'a [Node<LexemeT, StorageT>],
) -> io::Result<()>
    requires { above.old.items ≡ [] }
    ensures { WritesBelow StorageT.index LexemeT.parts grm.now input.now W.contents nodes.now out.old out.new result }
{
    let mut left = nodes;
    let mut parent = 0;
    let mut next = 1;
    'nodes: loop {
        match left.split_first() {
            Some((node, rest)) => {
                write_node(out, line, grm, input, next, node)?;
                write_edge(out, line, parent, next)?;
                above.push((parent, rest))?;
                parent = next;
                next = number_after(next)?;
                left = node.children();
            }
            None => match above.pop() {
                Some((number, rest)) => {
                    parent = number;
                    left = rest;
                }
                None => return Ok(()),
            },
        }
    }
}

// The next number. A tree with more nodes than `usize` can count doesn't fit in memory, so this is out of memory.
fn number_after(number: usize) -> io::Result<usize>
    ensures { IfOk result (λ next. next ≡ number + 1) }
{
    match number.checked_add(1) {
        Some(next) => Ok(next),
        None => Err(io::Error::from(ErrorKind::OutOfMemory)),
    }
}

// Writes the line of the node of this number.
fn write_node<LexemeT: Lexeme<StorageT>, StorageT: StorageIndex, W: Write>(
    out: &mut W,
    line: &mut String,
    grm: &YaccGrammar<StorageT>,
    input: &str,
    number: usize,
    node: &Node<LexemeT, StorageT>,
) -> io::Result<()>
    ensures { WritesNode StorageT.index LexemeT.parts grm.now input.now W.contents number node.now out.old out.new result }
{
    line.clear();
    match node {
        Node::Term { lexeme } => match leaf_of(grm, input, lexeme) {
            Some(leaf) => push_leaf(line, number, leaf)?,
            None => return Err(io::Error::from(ErrorKind::InvalidInput)),
        },
        Node::Nonterm { ridx, nodes: _ } => match rule_name(grm, *ridx) {
            Some(rule) => push_rule(line, number, rule)?,
            None => return Err(io::Error::from(ErrorKind::InvalidInput)),
        },
    }
    out.write_all(line.as_bytes())
}

// Adds the line of a node of a rule.
fn push_rule(line: &mut String, number: usize, rule: &str) -> Result<(), AllocError>
    ensures { Pushes (rule_line number rule.now) line.old line.new result }
{
    push_front(line, number)?;
    push_label(line, rule)?;
    line.push_str("\"];\n")
}

// Adds the line of a lexeme.
fn push_leaf(line: &mut String, number: usize, leaf: Leaf<'_>) -> Result<(), AllocError>
    ensures { PushesLeafLine number leaf.entry line.old line.new result }
{
    push_front(line, number)?;
    push_leaf_label(line, leaf)?;
    line.push_str(leaf_shape(leaf.is_faulty))?;
    Ok(())
}

// How a lexeme is drawn.
fn leaf_shape(is_faulty: bool) -> &'static str
    ensures { result.now ≡ leaf_shape is_faulty }
{
    if is_faulty {
        "\", shape=box, style=dashed];\n"
    } else {
        "\", shape=box];\n"
    }
}

// Adds the beginning of a node's line, up to its label.
fn push_front(line: &mut String, number: usize) -> Result<(), AllocError>
    ensures { Pushes (label_front number) line.old line.new result }
{
    write!(line, "  n{number} [label=\"")
}

// Adds the label of a lexeme.
fn push_leaf_label(line: &mut String, leaf: Leaf<'_>) -> Result<(), AllocError>
    ensures { PushesLabel leaf.entry line.old line.new result }
{
    if leaf.is_faulty {
        return push_label(line, leaf.name);
    }
    push_other_name(line, leaf.name, leaf.text)?;
    push_label(line, leaf.text)
}

// Adds the name of a token as a line of a label, if the name isn't the text.
fn push_other_name(line: &mut String, name: &str, text: &str) -> Result<(), AllocError>
    ensures { Pushes (name_label name.now text.now) line.old line.new result }
{
    if name == text {
        return Ok(());
    }
    push_label(line, name)?;
    line.push_str("\\n")
}

// Writes the line of the edge between nodes of these numbers.
fn write_edge<W: Write>(
    out: &mut W,
    line: &mut String,
    parent: usize,
    child: usize,
) -> io::Result<()>
    ensures { WritesAll (edge_line parent child) W.contents out.old out.new result }
{
    line.clear();
    writeln!(line, "  n{parent} -> n{child};")?;
    out.write_all(line.as_bytes())
}
