//! An action that makes the parse tree.
ghost use Rattle.std.specs.Prelude.{◌≡◌, IfOk, map};
ghost use Rattle.lrpar_parse_run.specs.Nodes.{IsNonterm, node_of};

use lrpar_grammar::span::{RIdx, Span, StorageIndex};
use lrpar_parse_lexemes::lex_api::{LexerTypes, NonStreamingLexer};
use lrpar_parse_run::values::AStackType;
use lrpar_parse_trees::node::Node;
use std::alloc::{AllocError, Global};

/// An action that makes the tree: the node of the rule over the arguments, of which each lexeme becomes a node. It uses neither the
/// lexer, nor the span, nor the parameter. `Err`: out of memory.
pub fn action_generictree<
    'input,
    StorageT: StorageIndex,
    LexerTypesT: LexerTypes<StorageT = StorageT>,
    L: NonStreamingLexer<'input, LexerTypesT>,
>(
    alloc: Global,
    ridx: RIdx<StorageT>,
    _lexer: &L,
    _span: Span,
    args: Vec<AStackType<LexerTypesT::LexemeT, Node<LexerTypesT::LexemeT, StorageT>>>,
    _param: &(),
) -> Result<Node<LexerTypesT::LexemeT, StorageT>, AllocError>
    ensures { IfOk result (IsNonterm StorageT.index (StorageT.index ridx.0) (map node_of args.items)) }
{
    let nodes = nodes_of(alloc, args)?;
    Ok(Node::Nonterm { ridx, nodes })
}

// The nodes of arguments, in order.
fn nodes_of<LexemeT: Drop, StorageT: Drop>(
    alloc: Global,
    args: Vec<AStackType<LexemeT, Node<LexemeT, StorageT>>>,
) -> Result<Vec<Node<LexemeT, StorageT>>, AllocError>
    ensures { IfOk result (λ nodes. nodes.items ≡ map node_of args.items) }
{
    let mut nodes = Vec::with_capacity(alloc, args.len())?;
    for arg in args {
        nodes.push(node_of(arg))?;
    }
    Ok(nodes)
}

// The node of an argument.
fn node_of<LexemeT: Drop, StorageT: Drop>(
    arg: AStackType<LexemeT, Node<LexemeT, StorageT>>,
) -> Node<LexemeT, StorageT>
    ensures { result ≡ node_of arg }
{
    match arg {
        AStackType::ActionType(node) => node,
        AStackType::Lexeme(lexeme) => Node::Term { lexeme },
    }
}
