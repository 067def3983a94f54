//! The parse calls. Each one that makes a value makes a tree.
ghost use Rattle.std.specs.Prelude.{◌↔◌, IfOk, IsTrue, map};
ghost use Rattle.lrpar_parse_run.specs.Nodes.{IsNonterm, node_of};

use crate::lexemes::ListLexer;
use crate::recoverer::CaseRecoverer;
use crate::shown::{CaseError, Tree};
use lrpar_grammar::grammar::YaccGrammar;
use lrpar_grammar::span::{PIdx, RIdx, Span, Symbol};
use lrpar_lexer::{Token, TokenTypes};
use lrpar_parse::RTParserBuilder;
use lrpar_parse::generictree::action_generictree;
use lrpar_parse::parser::{AStackType, Actions, ParseFault, SyntaxKind, SyntaxTree};
use lrpar_parse_lexemes::lex_api::Lexeme;
use lrpar_parse_trees::node::Node;
use std::alloc::{AllocError, Global};
use std::cell::RefCell;

/// A parser of a case.
pub(crate) type Parser<'a> = RTParserBuilder<'a, u32, TokenTypes, CaseRecoverer<'a>>;

/// The result of a parse.
pub(crate) type Answer = Result<(Option<Tree>, Vec<CaseError>), ParseFault>;

/// Where rules lie, in the order of the reductions.
pub(crate) type Places = RefCell<Vec<(RIdx<u32>, Span)>>;

/// One of the calls.
#[derive(Clone, Copy, Debug)]
pub(crate) enum Call {
    ParseMap,
    ParseActions,
    ParseGenerictree,
    ParseTree,
    ParseNoaction,
}

/// All of them.
pub(crate) const CALLS: [Call; 5] = [
    Call::ParseMap,
    Call::ParseActions,
    Call::ParseGenerictree,
    Call::ParseTree,
    Call::ParseNoaction,
];

/// Makes trees, and notes where their rules lie.
#[derive(Drop)]
struct Noting;

impl<'a> Actions<u32, Token<u32>, ListLexer<'a>> for Noting {
    type ActionT = Tree;

    type ParamT = Places;

    ghost taken = { λ _ _ _ _. Unit {0} };

    ghost fact = { λ _ _ _. Unit {0} };

    ghost answers = { λ _ _ r _ _ args _ v. IsNonterm (λ number. number) r (map node_of args) v };

    fn takes(&self, _: PIdx<u32>, _: RIdx<u32>, _: &[Symbol<u32>]) -> bool
        ensures { IsTrue result ↔ Unit {0} }
    {
        true
    }

    fn act(
        &self,
        alloc: Global,
        _: PIdx<u32>,
        ridx: RIdx<u32>,
        lexer: &ListLexer<'a>,
        span: Span,
        args: Vec<AStackType<Token<u32>, Tree>>,
        places: &Places,
    ) -> Result<Tree, AllocError>
        ensures fact { IfOk result (λ _. Unit {0}) }
        ensures answers { IfOk result (IsNonterm (λ number. number) ridx.0 (map node_of args.items)) }
    {
        if let Ok(mut noted) = places.try_borrow_mut() {
            noted.push((ridx, span))?;
        }
        action_generictree::<u32, TokenTypes, ListLexer<'a>>(alloc, ridx, lexer, span, args, &())
    }
}

/// The result of the call. If it has actions or spans, it is noted where the rules lie.
pub(crate) fn answer_by(
    alloc: Global,
    call: Call,
    parser: &Parser<'_>,
    lexer: &ListLexer<'_>,
    places: &Places,
) -> Answer {
    match call {
        Call::ParseMap => parser.parse_map(
            alloc,
            lexer,
            |lexeme| Node::Term { lexeme },
            |ridx, nodes| Node::Nonterm { ridx, nodes },
        ),
        Call::ParseActions => parser.parse_actions(alloc, lexer, &Noting, places),
        Call::ParseGenerictree => parser.parse_generictree(alloc, lexer),
        Call::ParseTree => answer_in_nodes(alloc, parser, lexer, places),
        Call::ParseNoaction => match parser.parse_noaction(alloc, lexer) {
            Ok(errors) => Ok((None, errors)),
            Err(fault) => Err(fault),
        },
    }
}

// The result of `parse_tree`, as nodes within nodes. Of lexemes that have no place in such a tree, that of `parse_generictree`.
fn answer_in_nodes(
    alloc: Global,
    parser: &Parser<'_>,
    lexer: &ListLexer<'_>,
    places: &Places,
) -> Answer {
    if lexer.is_past(u32::MAX as usize) {
        return parser.parse_generictree(alloc, lexer);
    }
    let (tree, errors) = parser.parse_tree(alloc, lexer)?;
    match tree {
        Some(tree) => Ok((nested(alloc, parser.grammar(), &tree, places)?, errors)),
        None => Ok((None, errors)),
    }
}

// The tree as nodes within nodes, made of its nodes in their order. It is noted where the rules lie. `None`: a node has fewer children than
// its production has symbols.
fn nested(
    alloc: Global,
    grm: &YaccGrammar<u32>,
    tree: &SyntaxTree<u32>,
    places: &Places,
) -> Result<Option<Tree>, AllocError> {
    let mut made = Vec::new(alloc);
    for node in tree.nodes() {
        let span = node.span();
        let next = match node.kind() {
            SyntaxKind::Token(token) => leaf(token.0, span, node.is_faulty()),
            SyntaxKind::Production(prod) => {
                if prod.0 as usize >= grm.prods_len() {
                    return Ok(None);
                }
                let ridx = grm.prod_to_rule(prod);
                if let Ok(mut noted) = places.try_borrow_mut() {
                    noted.push((ridx, span))?;
                }
                let Some(below) = made.len().checked_sub(grm.prod(prod).len()) else {
                    return Ok(None);
                };
                let nodes = made.split_off(below)?;
                Node::Nonterm { ridx, nodes }
            }
        };
        made.push(next)?;
    }
    Ok(made.pop())
}

// The leaf of this token with this span.
fn leaf(token: u32, span: Span, is_faulty: bool) -> Tree {
    let lexeme = if is_faulty {
        Token::new_faulty(token, span.start(), span.len())
    } else {
        Token::new(token, span.start(), span.len())
    };
    Node::Term { lexeme }
}
