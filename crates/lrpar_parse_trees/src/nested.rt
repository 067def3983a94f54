//! Trees on one line: the text of a node encloses the texts of its trees.
ghost use Rattle.std.specs.Prelude.{◌≡◌, [], false};
ghost use Rattle.lrpar_parse_lexemes.specs.Strings.{Pushes};
ghost use Rattle.lrpar_parse_trees.specs.Leaves.{PushesBracketLeaf, PushesJsonLeaf, PushesJsonPlace, PushesLeaf};
ghost use Rattle.lrpar_parse_trees.specs.Nested.{bracket_leaf, bracket_rule, json_inserted, json_rule, name_before, rule_front};
ghost use Rattle.lrpar_parse_trees.specs.StoredTrees.{WritesFront, WritesNested, WritesTrees};

use crate::Node;
use crate::escapes::push_escaped;
use crate::form::Form;
use crate::node_parts::{Leaf, is_rule, leaf_of, rule_name};
use lrpar_grammar::grammar::YaccGrammar;
use lrpar_grammar::span::StorageIndex;
use lrpar_parse_lexemes::lex_api::Lexeme;
use std::alloc::{AllocError, Global};
use std::io::{self, ErrorKind, Write};

/// Writes the tree on one line, without a line feed at the end. Fails if a write fails or an allocation fails, and with `InvalidInput`
/// at the first node that doesn't fit the grammar and the input, as `Node::fits` tests. All that comes before this node is then written.
///
/// Takes time linear in the text, which is linear in the tree, and memory for a piece of the text and for a list with an entry for each
/// level of the tree. Its stack doesn't grow with the depth of the tree.
pub fn write_nested<LexemeT: Lexeme<StorageT>, StorageT: StorageIndex, W: Write>(
    alloc: Global,
    form: Form,
    grm: &YaccGrammar<StorageT>,
    input: &str,
    tree: &Node<LexemeT, StorageT>,
    out: &mut W,
) -> io::Result<()>
    ensures { WritesNested StorageT.index LexemeT.parts grm.now input.now W.contents form tree.now out.old out.new result }
{
    let mut piece = String::new(alloc);
    write_front(out, &mut piece, form, grm, input, tree)?;
    if is_rule(tree) {
        let mut below = Vec::new(alloc);
        write_trees(
            out,
            &mut piece,
            &mut below,
            form,
            grm,
            input,
            tree.children(),
        )
    } else {
        Ok(())
    }
}

// Writes the trees of a node of a rule, and its end. `piece` is a buffer for one piece, and `below` holds the trees that are left, an
// entry for each level.
fn write_trees<'a, LexemeT: Lexeme<StorageT>, StorageT: StorageIndex, W: Write>(
    out: &mut W,
    piece: &mut String,
    below: &mut Vec<&'a [Node<LexemeT, StorageT>]>,
    form: Form,
    grm: &YaccGrammar<StorageT>,
    input: &str,
    nodes: &'a [Node<LexemeT, StorageT>],
) -> io::Result<()>
    requires { below.old.items ≡ [] }
    ensures { WritesTrees StorageT.index LexemeT.parts grm.now input.now W.contents form nodes.now out.old out.new result }
{
    let mut left = nodes;
    let mut is_first = true;
    'nodes: loop {
        match left.split_first() {
            Some((node, rest)) => {
                out.write_all(form.gap(is_first).as_bytes())?;
                write_front(out, piece, form, grm, input, node)?;
                is_first = is_rule(node);
                if is_first {
                    below.push(rest)?;
                    left = node.children();
                } else {
                    left = rest;
                }
            }
            None => {
                out.write_all(form.end().as_bytes())?;
                is_first = false;
                match below.pop() {
                    Some(rest) => left = rest,
                    None => return Ok(()),
                }
            }
        }
    }
}

// Writes a lexeme, or what comes before the trees of a node. `piece` is the buffer for it.
fn write_front<LexemeT: Lexeme<StorageT>, StorageT: StorageIndex, W: Write>(
    out: &mut W,
    piece: &mut String,
    form: Form,
    grm: &YaccGrammar<StorageT>,
    input: &str,
    node: &Node<LexemeT, StorageT>,
) -> io::Result<()>
    ensures { WritesFront StorageT.index LexemeT.parts grm.now input.now W.contents form node.now out.old out.new result }
{
    piece.clear();
    match node {
        Node::Term { lexeme } => match leaf_of(grm, input, lexeme) {
            Some(leaf) => push_leaf(piece, form, leaf)?,
            None => return Err(io::Error::from(ErrorKind::InvalidInput)),
        },
        Node::Nonterm { ridx, nodes: _ } => match rule_name(grm, *ridx) {
            Some(name) => push_rule(piece, form, name)?,
            None => return Err(io::Error::from(ErrorKind::InvalidInput)),
        },
    }
    out.write_all(piece.as_bytes())
}

// Adds what comes before the trees of a rule.
fn push_rule(out: &mut String, form: Form, name: &str) -> Result<(), AllocError>
    ensures { Pushes (rule_front form name.now) out.old out.new result }
{
    match form {
        Form::Brackets => push_bracket_rule(out, name),
        Form::Json => push_json_rule(out, name),
    }
}

// Adds a rule's name and a bracket.
fn push_bracket_rule(out: &mut String, name: &str) -> Result<(), AllocError>
    ensures { Pushes (bracket_rule name.now) out.old out.new result }
{
    out.push_str(name)?;
    out.push('[')
}

// Adds what comes before the trees of a rule in JSON, with its name.
fn push_json_rule(out: &mut String, name: &str) -> Result<(), AllocError>
    ensures { Pushes (json_rule name.now) out.old out.new result }
{
    out.push_str("{\"rule\":\"")?;
    push_escaped(out, name)?;
    out.push_str("\",\"children\":[")?;
    Ok(())
}

// Adds a lexeme.
fn push_leaf(out: &mut String, form: Form, leaf: Leaf<'_>) -> Result<(), AllocError>
    ensures { PushesLeaf form leaf.entry out.old out.new result }
{
    match form {
        Form::Brackets => push_bracket_leaf(out, leaf),
        Form::Json => push_json_leaf(out, leaf),
    }
}

// Adds a lexeme: its token's name, if that isn't its text, and its text between double quotes; or its name and that it was inserted.
fn push_bracket_leaf(out: &mut String, leaf: Leaf<'_>) -> Result<(), AllocError>
    ensures { PushesBracketLeaf leaf.entry out.old out.new result }
{
    if leaf.is_faulty {
        out.push_str(leaf.name)?;
        out.push_str(" (inserted)")
    } else {
        push_bracket_text(out, leaf.name, leaf.text)
    }
}

// Adds the name of a token, if that isn't the text, and the text between double quotes.
fn push_bracket_text(out: &mut String, name: &str, text: &str) -> Result<(), AllocError>
    ensures { Pushes (bracket_leaf name.now text.now false) out.old out.new result }
{
    push_other_name(out, name, text)?;
    out.push('"')?;
    push_escaped(out, text)?;
    out.push('"')
}

// Adds the name of a token and a space, if the name isn't the text.
fn push_other_name(out: &mut String, name: &str, text: &str) -> Result<(), AllocError>
    ensures { Pushes (name_before name.now text.now) out.old out.new result }
{
    if name == text {
        return Ok(());
    }
    out.push_str(name)?;
    out.push(' ')
}

// Adds a lexeme as JSON.
fn push_json_leaf(out: &mut String, leaf: Leaf<'_>) -> Result<(), AllocError>
    ensures { PushesJsonLeaf leaf.entry out.old out.new result }
{
    out.push_str("{\"token\":\"")?;
    push_escaped(out, leaf.name)?;
    out.push_str("\",\"text\":\"")?;
    push_escaped(out, leaf.text)?;
    push_json_place(out, leaf)
}

// Adds the place of a lexeme as JSON, and whether a repair made it.
fn push_json_place(out: &mut String, leaf: Leaf<'_>) -> Result<(), AllocError>
    ensures { PushesJsonPlace leaf.entry out.old out.new result }
{
    let start = leaf.start;
    let end = leaf.end;
    write!(out, "\",\"start\":{start},\"end\":{end}")?;
    push_inserted(out, leaf.is_faulty)?;
    out.push('}')
}

// Adds that a repair made the lexeme, if one did.
fn push_inserted(out: &mut String, is_faulty: bool) -> Result<(), AllocError>
    ensures { Pushes (json_inserted is_faulty) out.old out.new result }
{
    if is_faulty {
        out.push_str(",\"inserted\":true")
    } else {
        Ok(())
    }
}
