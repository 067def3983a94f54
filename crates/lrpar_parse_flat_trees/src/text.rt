//! The text of a tree, written line by line.
ghost use Rattle.std.specs.Prelude.{◌≡◌, OnOk};
ghost use Rattle.lrpar_grammar_places.specs.Strings.{HasText};
ghost use Rattle.lrpar_parse_trees.specs.TreeText.{line_at};
ghost use Rattle.lrpar_parse_flat_trees.specs.FlatText.{WritesFlat, WritesLine, node_text};
ghost use Rattle.lrpar_parse_flat_trees.specs.LeftNodes.{AddsChildren};
ghost use Rattle.lrpar_parse_lexemes.specs.Strings.{Pushes};

use crate::growing::below_last;
use crate::kind::SyntaxKind;
use crate::syntax_node::SyntaxNode;
use crate::syntax_tree::SyntaxTree;
use lrpar_grammar::grammar::YaccGrammar;
use lrpar_grammar::span::StorageIndex;
use lrpar_parse_lexemes::spaces::push_spaces;
use std::alloc::{AllocError, Global};
use std::io::{self, ErrorKind, Write};

/// A node that is left to be written, and its level.
#[derive(Drop)]
pub struct LeftNode<'t, StorageT: StorageIndex> {
    node: SyntaxNode<'t, StorageT>,
    level: usize,
}

impl<StorageT: StorageIndex> SyntaxTree<StorageT> {
    /// Writes the text of the tree: a line for each node, before the lines of its children, indented by one space for each level. A
    /// lexeme's line has its token's name, a space and its part of the input; a production's line has the name of its rule. Fails if a write
    /// fails or an allocation fails, and with `InvalidInput` at the first node whose production or token isn't the grammar's, or whose span
    /// isn't one of the input. All lines before this node's are then written.
    ///
    /// Takes time linear in the text, and memory for one line and for the nodes that are left beside those that are written.
    pub fn write<W: Write>(
        &self,
        alloc: Global,
        grm: &YaccGrammar<StorageT>,
        input: &str,
        out: &mut W,
    ) -> io::Result<()>
        ensures { WritesFlat grm.now input.now W.contents self.now out.old out.new result }
    {
        // No node has a level past the number of nodes.
        let _lemma = self.len();
        let mut line = String::new(alloc);
        let mut left = Vec::new(alloc);
        left.push(LeftNode {
            node: self.root(),
            level: 0,
        })?;
        'nodes: while let Some(LeftNode { node, level }) = left.pop() {
            write_line(out, &mut line, grm, input, &node, level)?;
            push_children(&node, level + 1, &mut left)?;
        }
        Ok(())
    }
}

// Adds the children of the node at a level, the last one first.
fn push_children<'t, StorageT: StorageIndex>(
    node: &SyntaxNode<'t, StorageT>,
    level: usize,
    left: &mut Vec<LeftNode<'t, StorageT>>,
) -> Result<(), AllocError>
    ensures { OnOk result (AddsChildren level node.now left.old.items left.new.items) }
{
    let first = node.nodes.len() - node.own().count();
    let mut rest = &node.nodes[..node.nodes.len() - 1];
    'children: while rest.len() > first {
        left.push(LeftNode {
            node: SyntaxNode { nodes: rest },
            level,
        })?;
        rest = below_last(rest);
    }
    Ok(())
}

// Writes the line of the node at a level. `line` is a buffer for it.
fn write_line<StorageT: StorageIndex, W: Write>(
    out: &mut W,
    line: &mut String,
    grm: &YaccGrammar<StorageT>,
    input: &str,
    node: &SyntaxNode<'_, StorageT>,
    level: usize,
) -> io::Result<()>
    ensures { WritesLine grm.now input.now W.contents level node.now.tree out.old out.new result }
{
    line.clear();
    push_spaces(line, level)?;
    push_node(line, grm, input, node)?;
    line.push('\n')?;
    out.write_all(line.as_bytes())
}

// Adds what the line of the node says.
fn push_node<StorageT: StorageIndex>(
    line: &mut String,
    grm: &YaccGrammar<StorageT>,
    input: &str,
    node: &SyntaxNode<'_, StorageT>,
) -> io::Result<()>
    ensures { Pushes (node_text grm.now input.now node.now.tree) line.old line.new result }
{
    match node.kind() {
        SyntaxKind::Token(token) => {
            if usize::from(token) >= grm.tokens_len() {
                return Err(io::Error::from(ErrorKind::InvalidInput));
            }
            let span = node.span();
            let (Some(name), Some(part)) = (
                grm.token_name(token),
                input.get(span.start()..span.end()),
            ) else {
                return Err(io::Error::from(ErrorKind::InvalidInput));
            };
            line.push_str(name)?;
            line.push(' ')?;
            line.push_str(part)?;
        }
        SyntaxKind::Production(prod) => {
            if usize::from(prod) >= grm.prods_len() {
                return Err(io::Error::from(ErrorKind::InvalidInput));
            }
            line.push_str(grm.rule_name_str(grm.prod_to_rule(prod)))?;
        }
    }
    Ok(())
}
