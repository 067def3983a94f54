//! The text of a tree, written line by line.
ghost use Rattle.std.specs.Prelude.{◌≡◌, ◌+◌, ◌++◌, ◌∷◌, [], OnOk, length};
ghost use Rattle.lrpar_parse_trees.specs.StoredTrees.{FitsIn, RootFitsAfter, RootFitsUnder, WritesRoot, WritesTree, WritesUnder};
ghost use Rattle.lrpar_parse_trees.specs.Written.{BeginsWithSpaces, HasOnlySpaces, IsSpaces, KeepsSpaces};

use crate::node::Node;
use crate::tree_text::{push_node, root_fits};
use lrpar_grammar::grammar::YaccGrammar;
use lrpar_grammar::span::StorageIndex;
use lrpar_parse_lexemes::lex_api::Lexeme;
use std::alloc::{AllocError, Global};
use std::io::{self, ErrorKind, Write};

impl<LexemeT: Lexeme<StorageT>, StorageT: StorageIndex> Node<LexemeT, StorageT> {
    /// Writes the text of the tree, which `pp` returns, line by line. Fails if a write fails or an allocation fails, and with
    /// `InvalidInput` at the first node that doesn't fit the grammar and the input, as `fits` tests. All lines before this node's are
    /// then written.
    ///
    /// Takes time linear in the text, and memory for one line and for a list with an entry for each level. Its stack doesn't grow
    /// with the depth of the tree.
    pub fn write<W: Write>(
        &self,
        alloc: Global,
        grm: &YaccGrammar<StorageT>,
        input: &str,
        out: &mut W,
    ) -> io::Result<()>
        ensures text { WritesTree StorageT.index LexemeT.parts grm.now input.now W.contents self.now out.old out.new result }
        ensures fits { OnOk result (FitsIn StorageT.index LexemeT.parts grm.now input.now self.now) }
    {
        let mut line = String::new(alloc);
        let mut below = Vec::new(alloc);
        self.write_lines(out, &mut line, &mut below, grm, input)
    }

    // Writes the lines of the tree. `line` is a buffer for one line, and `below` holds the trees that are left, an entry for each level.
    fn write_lines<'a, W: Write>(
        &'a self,
        out: &mut W,
        line: &mut String,
        below: &mut Vec<&'a [Node<LexemeT, StorageT>]>,
        grm: &YaccGrammar<StorageT>,
        input: &str,
    ) -> io::Result<()>
        requires line { IsSpaces 0 line.old }
        requires below { below.old.items ≡ [] }
        ensures text { WritesTree StorageT.index LexemeT.parts grm.now input.now W.contents self.now out.old out.new result }
        ensures fits { OnOk result (FitsIn StorageT.index LexemeT.parts grm.now input.now self.now) }
    {
        write_line(out, line, grm, input, self)?;
        let mut left = self.children();
        loop {
            match left.split_first() {
                Some((node, rest)) => {
                    write_child(out, line, below, grm, input, node, rest)?;
                    left = node.children();
                }
                None => match below.pop() {
                    Some(rest) => left = rest,
                    None => return Ok(()),
                },
            }
        }
    }
}

// Writes the line of the root of a tree, a level deeper than the trees that are left; `rest`, the trees beside it, are left, too.
#[tactic(auto, using(lrpar_grammar_places::proofs::FaultLemmas::nothing_done))]
fn write_child<'a, LexemeT: Lexeme<StorageT>, StorageT: StorageIndex, W: Write>(
    out: &mut W,
    line: &mut String,
    below: &mut Vec<&'a [Node<LexemeT, StorageT>]>,
    grm: &YaccGrammar<StorageT>,
    input: &str,
    node: &Node<LexemeT, StorageT>,
    rest: &'a [Node<LexemeT, StorageT>],
) -> io::Result<()>
    requires { BeginsWithSpaces (length below.old.items) line.old }
    ensures text { WritesUnder StorageT.index LexemeT.parts grm.now input.now W.contents below.new node.now out.old out.new result }
    ensures fits { OnOk result (RootFitsUnder StorageT.index LexemeT.parts grm.now input.now below.new node.now) }
    ensures rest { OnOk result (below.new.items ≡ below.old.items ++ rest.entry ∷ []) }
    ensures indent { OnOk result (BeginsWithSpaces (length below.new.items) line.new) }
{
    indent(line, below.len())?;
    below.push(rest)?;
    write_line(out, line, grm, input, node)
}

// Leaves this number of the spaces that a line begins with, and adds one.
fn indent(line: &mut String, spaces: usize) -> Result<(), AllocError>
    requires { BeginsWithSpaces spaces line.old }
    ensures { OnOk result (IsSpaces (spaces + 1) line.new) }
{
    line.truncate(spaces);
    line.push(' ')
}

// Writes the line of the root of a tree. `line` has the spaces that indent it, and gets the rest.
fn write_line<LexemeT: Lexeme<StorageT>, StorageT: StorageIndex, W: Write>(
    out: &mut W,
    line: &mut String,
    grm: &YaccGrammar<StorageT>,
    input: &str,
    node: &Node<LexemeT, StorageT>,
) -> io::Result<()>
    requires { HasOnlySpaces line.old }
    ensures text { WritesRoot StorageT.index LexemeT.parts grm.now input.now W.contents line.old node.now out.old out.new result }
    ensures fits { OnOk result (RootFitsAfter StorageT.index LexemeT.parts grm.now input.now line.old node.now) }
    ensures indent { OnOk result (KeepsSpaces line.old line.new) }
{
    if !root_fits(grm, input, node) {
        return Err(io::Error::from(ErrorKind::InvalidInput));
    }
    push_node(line, grm, input, node)?;
    out.write_all(line.as_bytes())
}
