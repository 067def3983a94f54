//! Typed grammars as they are expanded: rules with types, and productions with what makes their values.
ghost use Rattle.std.specs.Prelude.{◌≡◌, ◌↔◌, ◌+◌, ◌<◌, ◌^◌, ◌++◌, IfOk, IfSome, None, OnOk, length, map, vec_len};
ghost use Rattle.lrpar_grammar_reader.specs.Parts.{prod_of};
ghost use Rattle.lrpar_grammar_typed.specs.PartsOf.{AreProductionsOf, AreRulesOf, AreTokensOf, IsProdPartOf, production_of};
ghost use Rattle.lrpar_grammar_typed.specs.Words.{IsWordAt};

use crate::file::Label;
use lrpar_grammar::grammar::GrammarFault;
use lrpar_grammar::span::{RIdx, Span, Symbol, TIdx};
use lrpar_grammar_reader::parts::{GrammarParts, ProdPart, RulePart, TokenPart};
use lrpar_lexer::part_of;
use std::alloc::{AllocError, Global};
use thiserror::Error;

/// A typed grammar: each rule has a type, and each production says what makes its value.
#[derive(Drop)]
pub struct TypedGrammar {
    /// What the types name, each as in a `use`.
    pub uses: Vec<Span>,
    /// The rules, numbered from 1: those that are written, and then groups, lists and options.
    pub rules: Vec<TypedRule>,
    /// The tokens, numbered from 0.
    pub tokens: Vec<TypedToken>,
    /// The number of the start rule.
    pub start: RIdx<u32>,
}

/// A rule.
#[derive(Drop)]
pub struct TypedRule {
    /// Its name.
    pub name: String,
    /// Where it is first written.
    pub span: Span,
    /// What its productions are.
    pub form: Form,
    /// The type of its values.
    pub value: String,
    /// Its productions.
    pub prods: Vec<TypedProd>,
}

/// A token.
#[derive(Drop)]
pub struct TypedToken {
    /// Its name.
    pub name: String,
    /// Where it is first written.
    pub span: Span,
}

/// What the productions of a rule are.
#[derive(Clone, Copy, Debug, PartialEq, Eq)]
pub enum Form {
    /// Those that are written.
    Written,
    /// Those of a group.
    Group,
    /// Nothing, or one symbol more: `X*`.
    ZeroOrMore(Symbol<u32>),
    /// The symbol, or one more: `X+`.
    OneOrMore(Symbol<u32>),
    /// Nothing, or the symbol: `X?`.
    Optional(Symbol<u32>),
    /// The symbol, or one more after a separator: `X % S`.
    Separated(Symbol<u32>, Symbol<u32>),
    /// Nothing, a list with separators, or one with another separator after it: `X %? S`. The first symbol is the list `X % S`, not X.
    Terminated(Symbol<u32>, Symbol<u32>),
}

/// A production.
#[derive(Drop)]
pub struct TypedProd {
    /// Its symbols, from left to right.
    pub symbols: Vec<TypedSymbol>,
    /// What makes its value.
    pub making: Making,
    /// Where it is.
    pub span: Span,
}

/// A symbol of a production.
#[derive(Clone, Copy, Debug, PartialEq, Eq)]
pub struct TypedSymbol {
    /// The symbol.
    pub symbol: Symbol<u32>,
    /// Where it is.
    pub span: Span,
    /// The name of its value, if it is written: `_` for none.
    pub name: Option<Span>,
}

/// What makes the value of a production.
#[derive(Clone, Copy, Debug, PartialEq, Eq)]
pub enum Making {
    /// The action with this label, if it is written.
    Action(Option<Label>),
    /// An empty list.
    Empty,
    /// A list of the only value.
    First,
    /// The first value, a list, with the last one at its end.
    Push,
    /// `None`.
    Nothing,
    /// `Some` with the only value.
    Just,
    /// The first value.
    Same,
}

/// Why a typed grammar as it is written has no meaning.
#[derive(Clone, Debug, Drop, PartialEq, Eq, Error)]
pub enum TypedFault {
    /// What may be wrong with any grammar: no rules, a name that is no rule and no declared token, a token with the name of a rule, a second
    /// `%start`, or too many rules or tokens.
    #[error("{0}")]
    Grammar(#[from] GrammarFault),
    /// A second `%type` of a rule.
    #[error("repeated %type at byte {at}", at = .0.start())]
    RepeatedType(Span),
    /// A list, an option or a group here would have the name of another rule.
    #[error("the name of the list, option or group at byte {at} is taken", at = .0.start())]
    TakenName(Span),
    /// Groups are nested too deeply.
    #[error("groups are nested too deeply at byte {at}", at = .0.start())]
    TooDeep(Span),
    /// An allocation failed.
    #[error("out of memory")]
    Memory(#[from(alloc)] AllocError),
}

impl TypedGrammar {
    /// The rule of this number; `None` if there is none.
    pub fn rule(&self, ridx: RIdx<u32>) -> Option<&TypedRule> {
        self.rules.get(rule_index(ridx)?)
    }

    /// The name of a symbol; `""` of a number that no rule or token has.
    pub fn name(&self, symbol: Symbol<u32>) -> &str {
        match symbol {
            Symbol::Rule(ridx) => match self.rule(ridx) {
                Some(rule) => rule.name.as_str(),
                None => "",
            },
            Symbol::Token(TIdx(token)) => match self.tokens.get(token as usize) {
                Some(token) => token.name.as_str(),
                None => "",
            },
        }
    }

    /// The type of a symbol's values; `"()"` of a number that no rule has.
    pub fn type_of(&self, symbol: Symbol<u32>) -> &str {
        match symbol {
            Symbol::Rule(ridx) => match self.rule(ridx) {
                Some(rule) => rule.value.as_str(),
                None => "()",
            },
            Symbol::Token(_) => "Token<u32>",
        }
    }

    /// Whether the value of a symbol of a production is passed to its action: that of a rule whose type isn't `()`, and any that has a name
    /// but `_`.
    pub fn is_passed(&self, text: &str, symbol: &TypedSymbol) -> bool {
        match symbol.name {
            Some(name) => word_at(text, name) != "_",
            None => matches!(symbol.symbol, Symbol::Rule(_)) && self.type_of(symbol.symbol) != "()",
        }
    }

    /// The parts of the grammar: its rules, tokens and productions, without types and values. `Err`: an allocation failed.
    pub fn parts(&self, alloc: Global) -> Result<GrammarParts<u32>, AllocError>
        ensures rules { IfOk result (λ parts. AreRulesOf self.now.rules.items parts.rules.items) }
        ensures tokens { IfOk result (λ parts. AreTokensOf self.now.tokens.items parts.tokens.items) }
        ensures prods { vec_len self.now.rules < 2 ^ 32 → IfOk result (λ parts. AreProductionsOf self.now.rules.items parts.prods.items) }
        ensures start { IfOk result (λ parts. parts.start ≡ self.now.start) }
    {
        Ok(GrammarParts {
            rules: rule_parts(alloc, &self.rules)?,
            tokens: token_parts(alloc, &self.tokens)?,
            prods: prod_parts(alloc, &self.rules)?,
            start: self.start,
        })
    }
}

/// The index of the rule of a number; `None` for 0, which no rule has.
pub fn rule_index(ridx: RIdx<u32>) -> Option<usize>
    ensures some { IfSome result (λ index. index + 1 ≡ ridx.0) }
    ensures none { (result ≡ None) ↔ (ridx.0 ≡ 0) }
{
    (ridx.0 as usize).checked_sub(1)
}

/// The word at a place of the text.
pub fn word_at(text: &str, span: Span) -> &str
    ensures { IsWordAt text.now span result.now }
{
    part_of(text, span).trim()
}

// The parts of rules.
fn rule_parts(alloc: Global, rules: &[TypedRule]) -> Result<Vec<RulePart>, AllocError>
    ensures { IfOk result (λ parts. AreRulesOf rules.now parts.items) }
{
    let mut parts = Vec::with_capacity(alloc, rules.len())?;
    for rule in rules {
        parts.push(RulePart {
            name: String::from_str(alloc, rule.name.as_str())?,
            span: rule.span,
        })?;
    }
    Ok(parts)
}

// The parts of tokens.
fn token_parts(alloc: Global, tokens: &[TypedToken]) -> Result<Vec<TokenPart>, AllocError>
    ensures { IfOk result (λ parts. AreTokensOf tokens.now parts.items) }
{
    let mut parts = Vec::with_capacity(alloc, tokens.len())?;
    for token in tokens {
        parts.push(TokenPart {
            name: String::from_str(alloc, token.name.as_str())?,
            epp: None,
            span: token.span,
        })?;
    }
    Ok(parts)
}

// The parts of the productions of rules.
fn prod_parts(alloc: Global, rules: &[TypedRule]) -> Result<Vec<ProdPart<u32>>, AllocError>
    ensures { length rules.now < 2 ^ 32 → IfOk result (λ parts. AreProductionsOf rules.now parts.items) }
{
    let mut parts = Vec::new(alloc);
    for (index, rule) in rules.iter().enumerate() {
        push_prods(
            alloc,
            &mut parts,
            RIdx(saturated_number(index)),
            &rule.prods,
        )?;
    }
    Ok(parts)
}

// The number of the rule with this index; past what can be numbered, the last number.
fn saturated_number(index: usize) -> u32
    ensures { index + 1 < 2 ^ 32 → result ≡ index + 1 }
{
    u32::try_from(index).unwrap_or(u32::MAX).saturating_add(1)
}

// Appends the parts of the productions of this rule.
fn push_prods(
    alloc: Global,
    parts: &mut Vec<ProdPart<u32>>,
    rule: RIdx<u32>,
    prods: &[TypedProd],
) -> Result<(), AllocError>
    ensures { OnOk result (map (prod_of (λ n. n)) parts.new.items
        ≡ map (prod_of (λ n. n)) parts.old.items ++ map (production_of rule.0) prods.now) }
{
    for prod in prods {
        parts.push(prod_part(alloc, rule, prod)?)?;
    }
    Ok(())
}

// The part of a production of this rule.
fn prod_part(alloc: Global, rule: RIdx<u32>, prod: &TypedProd) -> Result<ProdPart<u32>, AllocError>
    ensures { IfOk result (IsProdPartOf rule prod.now) }
{
    let mut symbols = Vec::with_capacity(alloc, prod.symbols.len())?;
    for symbol in &prod.symbols {
        symbols.push((symbol.symbol, symbol.span))?;
    }
    Ok(ProdPart {
        rule,
        symbols,
        span: prod.span,
    })
}
