//! Typed grammars as they are written. Names and types are spans, without quotes and brackets.
use lrpar_grammar::span::Span;

/// How deep groups may nest. The notation refuses deeper ones, so code that recurses over a file needs a bounded stack.
pub const MAX_DEPTH: usize = 100;

/// A symbol as it is written.
#[derive(Clone, Copy, Debug, PartialEq, Eq)]
pub struct Mention {
    /// Where its name is, without quotes.
    pub name: Span,
    /// Whether the name is in quotes, as that of a token.
    pub is_quoted: bool,
}

/// A typed grammar: its declarations and its rules.
#[derive(Drop)]
pub struct File {
    /// The declarations, in the order of the text.
    pub declarations: Vec<Declaration>,
    /// The definitions of rules, in the order of the text.
    pub rules: Vec<Rule>,
}

/// A declaration.
#[derive(Drop)]
pub enum Declaration {
    /// `%use PATH;`: what the types of rules name.
    Use(Span),
    /// `%start RULE`.
    Start(Span),
    /// `%token TOKEN..`.
    Tokens(Vec<Mention>),
    /// `%type <TYPE> RULE..`.
    Type(Span, Vec<Span>),
}

/// A definition of a rule.
#[derive(Drop)]
pub struct Rule {
    /// Its name.
    pub name: Span,
    /// What it may be.
    pub alternatives: Vec<Alternative>,
}

/// An alternative of a rule or of a group.
#[cycle(alternatives)]
#[derive(Drop)]
pub struct Alternative {
    /// What it is made of, from left to right.
    pub parts: Vec<Part>,
    /// What it is called.
    pub label: Option<Label>,
    /// Where it is.
    pub span: Span,
}

/// A label: the name of the action of an alternative.
#[derive(Clone, Copy, Debug, PartialEq, Eq)]
pub struct Label {
    /// The name.
    pub name: Span,
    /// A constant that is the first argument of the action, as `Operator::Plus`.
    pub kind: Option<Span>,
}

/// A part of an alternative.
#[cycle(alternatives)]
#[derive(Drop)]
pub struct Part {
    /// What is there.
    pub item: Item,
    /// The name of its value.
    pub name: Option<Span>,
}

/// A symbol or a group, and how often it may be there.
#[cycle(alternatives)]
#[derive(Drop)]
pub struct Item {
    /// The symbol, or the group.
    pub atom: Atom,
    /// How often, from the inside out.
    pub repeats: Vec<Repeat>,
    /// Where it is.
    pub span: Span,
    /// How deep groups nest in it: at most [`MAX_DEPTH`].
    pub depth: usize,
}

/// A symbol, or a group.
#[cycle(alternatives)]
#[derive(Drop)]
pub enum Atom {
    /// A symbol.
    Symbol(Mention),
    /// `(A | B)`.
    Group(Vec<Alternative>),
}

/// How often something may be there.
#[derive(Clone, Copy, Debug, PartialEq, Eq)]
pub enum Repeat {
    /// `*`: any number of times.
    ZeroOrMore,
    /// `+`: at least once.
    OneOrMore,
    /// `?`: at most once.
    Optional,
    /// `% TOKEN`: at least once, with the token between.
    Separated(Mention),
    /// `%? TOKEN`: any number of times, with the token between, and perhaps once more after the last.
    Terminated(Mention),
}
