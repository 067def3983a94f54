//! Lexemes, errors and trees as cases write them.
use lrpar_grammar::grammar::YaccGrammar;
use lrpar_grammar::span::{RIdx, Span, TIdx};
use lrpar_lexer::{Token, TokenTypes};
use lrpar_parse_errors::errors::{LexParseError, ParseError, ParseRepair};
use lrpar_parse_lexemes::lex_api::{LexError, Lexeme};
use lrpar_parse_trees::node::Node;
use test_case_lines::printed::Printed;

/// A tree of a case.
pub(crate) type Tree = Node<Token<u32>, u32>;

/// An error of a case.
pub(crate) type CaseError = LexParseError<u32, TokenTypes>;

/// A step of a sequence that is listed.
type Repair = ParseRepair<Token<u32>, u32>;

/// Adds the errors, a line each, with the states of parse errors if `shows_states`.
pub(crate) fn push_errors(
    out: &mut Printed,
    grm: &YaccGrammar<u32>,
    shows_states: bool,
    errors: &[CaseError],
) {
    for error in errors {
        match error {
            LexParseError::LexError(error) => out.span_line("lexing error ", error.span()),
            LexParseError::ParseError(error) => push_error(out, grm, shows_states, error),
        }
    }
}

// Adds the line of a parse error: its state, its lexeme and its sequences.
fn push_error(
    out: &mut Printed,
    grm: &YaccGrammar<u32>,
    shows_state: bool,
    error: &ParseError<Token<u32>, u32>,
) {
    out.text("error ");
    if shows_state {
        out.number("state ", usize::from(error.stidx()));
        out.text(", ");
    }
    push_lexeme(out, grm, *error.lexeme());
    let mut mark = ":";
    for sequence in error.repairs() {
        out.text(mark);
        push_sequence(out, grm, sequence);
        mark = " |";
    }
    out.text("\n");
}

// Adds the steps of a sequence, each after a blank.
fn push_sequence(out: &mut Printed, grm: &YaccGrammar<u32>, sequence: &[Repair]) {
    for repair in sequence {
        match repair {
            ParseRepair::Insert(token) => {
                out.texts(" insert '", token_name(grm, *token).unwrap_or("$"));
                out.text("'");
            }
            ParseRepair::Delete(lexeme) => {
                out.text(" delete ");
                push_lexeme(out, grm, *lexeme);
            }
            ParseRepair::Shift(lexeme) => {
                out.text(" shift ");
                push_lexeme(out, grm, *lexeme);
            }
        }
    }
}

// The name of a token. The end token has none.
fn token_name(grm: &YaccGrammar<u32>, token: TIdx<u32>) -> Option<&str> {
    if usize::from(token) < grm.tokens_len() {
        grm.token_name(token)
    } else {
        None
    }
}

// Adds a lexeme: the name of its token, `@` and its start, its length unless that is 1, and `!` if it is faulty.
fn push_lexeme(out: &mut Printed, grm: &YaccGrammar<u32>, lexeme: Token<u32>) {
    match token_name(grm, TIdx(lexeme.tok_id())) {
        None => out.text("$"),
        Some(name) if is_word(name) => out.text(name),
        Some(name) => {
            out.texts("'", name);
            out.text("'");
        }
    }
    out.number("@", lexeme.span().start());
    if lexeme.span().len() != 1 {
        out.number("+", lexeme.span().len());
    }
    if lexeme.faulty() {
        out.text("!");
    }
}

// Whether a name has only letters, digits and `_`.
fn is_word(name: &str) -> bool {
    name.bytes().all(|b| b.is_ascii_alphanumeric() || b == b'_')
}

// The name of a rule, if the grammar has it.
fn rule_name(grm: &YaccGrammar<u32>, rule: RIdx<u32>) -> &str {
    if usize::from(rule) < grm.rules_len() {
        grm.rule_name_str(rule)
    } else {
        "#"
    }
}

/// Adds a tree: a lexeme, or a rule's name and, in brackets, the trees of its symbols.
pub(crate) fn push_tree(out: &mut Printed, grm: &YaccGrammar<u32>, tree: &Tree) {
    match tree {
        Node::Term { lexeme } => push_lexeme(out, grm, *lexeme),
        Node::Nonterm { ridx, nodes } => {
            out.text(rule_name(grm, *ridx));
            let mut mark = '(';
            for node in nodes {
                out.show(&mark);
                push_tree(out, grm, node);
                mark = ' ';
            }
            out.text(if nodes.is_empty() { "()" } else { ")" });
        }
    }
}

/// Adds where rules lie.
pub(crate) fn push_places(out: &mut Printed, grm: &YaccGrammar<u32>, places: &[(RIdx<u32>, Span)]) {
    let mut mark = "places ";
    for (rule, span) in places {
        out.texts(mark, rule_name(grm, *rule));
        out.number(" ", span.start());
        out.number("..", span.end());
        mark = ", ";
    }
    if !places.is_empty() {
        out.text("\n");
    }
}
