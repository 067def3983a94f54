//! The `Debug` text of trees.
ghost use Rattle.std.specs.Prelude.{◌≡◌, []};
ghost use Rattle.std.specs.Fmt.{DisplaysOnOk, WritesOnOk};
ghost use Rattle.lrpar_parse_trees.specs.Shown.{ShowsTrees, shown, shown_lexeme, shown_rule};

use crate::node::Node;
use lrpar_grammar::span::RIdx;
use std::fmt;
use std::fmt::Write;

impl<LexemeT: fmt::Debug, StorageT: fmt::Debug> fmt::Debug for Node<LexemeT, StorageT> {
    ghost debug_output = { shown LexemeT.debug_output StorageT.debug_output };

    // The text of a derived `Debug`. A list of the trees that are left is allocated as the tree's own lists are. If it can't grow, the
    // result is an error.
    fn fmt<W: fmt::Write>(&self, f: &mut fmt::Formatter<W>) -> fmt::Result {
        if f.alternate() {
            return write_lines(f, self);
        }
        match self {
            Node::Term { lexeme } => write_lexeme(f, lexeme),
            Node::Nonterm { ridx, nodes } => {
                write_rule(f, ridx)?;
                let mut left = Vec::new(*nodes.allocator());
                write_nodes(f, &mut left, nodes)
            }
        }
    }
}

// Writes a lexeme as a tree.
fn write_lexeme<LexemeT: fmt::Debug, W: fmt::Write>(
    f: &mut fmt::Formatter<W>,
    lexeme: &LexemeT,
) -> fmt::Result
    ensures { DisplaysOnOk W.write_str_gives f.old result (shown_lexeme (LexemeT.debug_output lexeme.now)) f.new }
{
    f.write_str("Term { lexeme: ")?;
    lexeme.fmt(f)?;
    f.write_str(" }")
}

// Writes a rule, up to the first of its trees.
fn write_rule<StorageT: fmt::Debug, W: fmt::Write>(
    f: &mut fmt::Formatter<W>,
    ridx: &RIdx<StorageT>,
) -> fmt::Result
    ensures { DisplaysOnOk W.write_str_gives f.old result (shown_rule (StorageT.debug_output ridx.now.0)) f.new }
{
    f.write_str("Nonterm { ridx: RIdx(")?;
    ridx.0.fmt(f)?;
    f.write_str("), nodes: [")
}

// Writes the trees of a rule, and its end. `left` holds the trees that are left on the levels above, an entry for each level.
fn write_nodes<'a, LexemeT: fmt::Debug, StorageT: fmt::Debug, W: fmt::Write>(
    f: &mut fmt::Formatter<W>,
    left: &mut Vec<&'a [Node<LexemeT, StorageT>]>,
    mut nodes: &'a [Node<LexemeT, StorageT>],
) -> fmt::Result
    requires { left.old.items ≡ [] }
    ensures { ShowsTrees LexemeT.debug_output StorageT.debug_output W.write_str_gives nodes.entry.now f.old result f.new }
{
    let mut mark = "";
    loop {
        match nodes.split_first() {
            Some((node, rest)) => {
                write_mark(f, mark)?;
                match node {
                    Node::Term { lexeme } => {
                        write_lexeme(f, lexeme)?;
                        nodes = rest;
                        mark = ", ";
                    }
                    Node::Nonterm { ridx, nodes: below } => {
                        write_rule(f, ridx)?;
                        match left.push(rest) {
                            Ok(()) => nodes = below,
                            Err(_) => return Err(fmt::Error),
                        }
                        mark = "";
                    }
                }
            }
            None => {
                f.write_str("] }")?;
                match left.pop() {
                    Some(rest) => nodes = rest,
                    None => return Ok(()),
                }
                mark = ", ";
            }
        }
    }
}

// Writes the separator before a tree. For the first tree it is empty, and the writer isn't called.
fn write_mark<W: fmt::Write>(f: &mut fmt::Formatter<W>, mark: &str) -> fmt::Result
    ensures { WritesOnOk W.write_str_gives f.old result mark.now f.new }
{
    if mark.is_empty() {
        Ok(())
    } else {
        f.write_str(mark)
    }
}

// Writes a tree as `{:#?}` does, with a line for each of its parts.
fn write_lines<LexemeT: fmt::Debug, StorageT: fmt::Debug, W: fmt::Write>(
    f: &mut fmt::Formatter<W>,
    node: &Node<LexemeT, StorageT>,
) -> fmt::Result {
    let mut lines = Lines {
        f,
        level: 0,
        is_begun: true,
    };
    match node {
        Node::Term { lexeme } => lines.write_lexeme(lexeme),
        Node::Nonterm { ridx, nodes } => {
            lines.write_rule(ridx, nodes.is_empty())?;
            let mut left = Vec::new(*nodes.allocator());
            write_lines_of(&mut lines, &mut left, nodes)
        }
    }
}

// Writes the trees of a rule, and its end, as `{:#?}` does. `left` is a list for the trees that are left on the levels above.
fn write_lines_of<'a, LexemeT: fmt::Debug, StorageT: fmt::Debug, W: fmt::Write>(
    lines: &mut Lines<W>,
    left: &mut Vec<&'a [Node<LexemeT, StorageT>]>,
    mut nodes: &'a [Node<LexemeT, StorageT>],
) -> fmt::Result {
    loop {
        match nodes.split_first() {
            Some((node, rest)) => match node {
                Node::Term { lexeme } => {
                    lines.write_lexeme(lexeme)?;
                    lines.write_str(",\n")?;
                    nodes = rest;
                }
                Node::Nonterm { ridx, nodes: below } => {
                    lines.write_rule(ridx, below.is_empty())?;
                    match left.push(rest) {
                        Ok(()) => nodes = below,
                        Err(_) => return Err(fmt::Error),
                    }
                }
            },
            None => {
                lines.write_end()?;
                match left.pop() {
                    Some(rest) => nodes = rest,
                    None => return Ok(()),
                }
                lines.write_str(",\n")?;
            }
        }
    }
}

// The indent of a line at level 8.
const EIGHT_LEVELS: &str = "                                ";

// A writer that indents each line that it begins, by four spaces for each level.
#[derive(Drop)]
struct Lines<'a, W> {
    f: &'a mut fmt::Formatter<W>,
    level: usize,
    is_begun: bool,
}

impl<'a, W: fmt::Write> Lines<'a, W> {
    // Writes a lexeme as a tree.
    fn write_lexeme<LexemeT: fmt::Debug>(&mut self, lexeme: &LexemeT) -> fmt::Result {
        self.write_str("Term {\n")?;
        self.level = self.level.saturating_add(1);
        write!(self, "lexeme: {lexeme:#?},\n")?;
        self.level = self.level.saturating_sub(1);
        self.write_str("}")
    }

    // Writes a rule, up to the first of its trees, and goes two levels down.
    fn write_rule<StorageT: fmt::Debug>(
        &mut self,
        ridx: &RIdx<StorageT>,
        is_empty: bool,
    ) -> fmt::Result {
        self.write_str("Nonterm {\n")?;
        self.level = self.level.saturating_add(1);
        write!(self, "ridx: {ridx:#?},\nnodes: [")?;
        self.level = self.level.saturating_add(1);
        if is_empty {
            Ok(())
        } else {
            self.write_str("\n")
        }
    }

    // Writes the end of a rule, and goes two levels up.
    fn write_end(&mut self) -> fmt::Result {
        self.level = self.level.saturating_sub(1);
        self.write_str("],\n")?;
        self.level = self.level.saturating_sub(1);
        self.write_str("}")
    }
}

impl<'a, W: fmt::Write> fmt::Write for Lines<'a, W> {
    fn write_str(&mut self, text: &str) -> fmt::Result {
        for line in text.split_inclusive('\n') {
            if !self.is_begun {
                self.f.write_repeated(EIGHT_LEVELS, self.level / 8)?;
                self.f.write_repeated("    ", self.level % 8)?;
            }
            self.f.write_str(line)?;
            self.is_begun = !line.ends_with('\n');
        }
        Ok(())
    }
}
