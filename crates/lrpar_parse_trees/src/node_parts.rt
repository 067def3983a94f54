//! The parts of a tree's node: the name and the text of a lexeme, the name of a rule, and the trees below.
ghost use Rattle.std.specs.Prelude.{◌≡◌, IfSome};
ghost use Rattle.lrpar_parse_trees.specs.Fronts.{is_rule};
ghost use Rattle.lrpar_parse_trees.specs.Leaves.{HasNameOf, HasPlaceOf, HasTextOf, IsFaultyAs, IsNameOf};

use crate::Node;
use lrpar_grammar::grammar::YaccGrammar;
use lrpar_grammar::span::{RIdx, StorageIndex, TIdx};
use lrpar_parse_lexemes::lex_api::Lexeme;

/// A lexeme as trees print it: its token's name, its part of the input, and where that starts and ends.
#[derive(Clone, Copy)]
pub(crate) struct Leaf<'a> {
    pub(crate) name: &'a str,
    pub(crate) text: &'a str,
    pub(crate) start: usize,
    pub(crate) end: usize,
    /// Whether a repair made it.
    pub(crate) is_faulty: bool,
}

/// The parts of a lexeme. `None`, if its token is the end token or isn't the grammar's, or if it doesn't start and end between two
/// characters of the input.
pub(crate) fn leaf_of<'a, LexemeT: Lexeme<StorageT>, StorageT: StorageIndex>(
    grm: &'a YaccGrammar<StorageT>,
    input: &'a str,
    lexeme: &LexemeT,
) -> Option<Leaf<'a>>
    ensures name { IfSome result (HasNameOf StorageT.index grm.now (LexemeT.parts lexeme.now)) }
    ensures text { IfSome result (HasTextOf input.now (LexemeT.parts lexeme.now)) }
    ensures place { IfSome result (HasPlaceOf (LexemeT.parts lexeme.now)) }
    ensures faulty { IfSome result (IsFaultyAs (LexemeT.parts lexeme.now)) }
{
    let token = TIdx(lexeme.tok_id());
    if usize::from(token) >= grm.tokens_len() {
        return None;
    }
    let name = grm.token_name(token)?;
    let span = lexeme.span();
    let text = input.get(span.start()..span.end())?;
    Some(Leaf {
        name,
        text,
        start: span.start(),
        end: span.end(),
        is_faulty: lexeme.faulty(),
    })
}

/// The name of a rule; `None`, if the grammar doesn't have it.
pub(crate) fn rule_name<StorageT: StorageIndex>(
    grm: &YaccGrammar<StorageT>,
    rule: RIdx<StorageT>,
) -> Option<&str>
    ensures { IfSome result (IsNameOf StorageT.index grm.now rule) }
{
    if usize::from(rule) < grm.rules_len() {
        Some(grm.rule_name_str(rule))
    } else {
        None
    }
}

impl<LexemeT, StorageT> Node<LexemeT, StorageT> {
    ghost use Rattle.lrpar_parse_trees.specs.Walks.{children};

    /// The trees of the node's symbols. A lexeme has none.
    pub(crate) fn children(&self) -> &[Node<LexemeT, StorageT>]
        ensures { result.now ≡ children self.now }
    {
        match self {
            Node::Term { lexeme: _ } => &[],
            Node::Nonterm { ridx: _, nodes } => nodes,
        }
    }
}

/// Whether the node is a rule's.
pub(crate) fn is_rule<LexemeT, StorageT>(node: &Node<LexemeT, StorageT>) -> bool
    ensures { result ≡ is_rule node.now }
{
    match node {
        Node::Term { lexeme: _ } => false,
        Node::Nonterm { ridx: _, nodes: _ } => true,
    }
}
