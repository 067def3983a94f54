//! Grammars of parts.
use crate::grammars::push_made;
use lrpar_grammar::grammar::{GrammarParts, ProdPart, RulePart, TokenPart, YaccGrammar};
use lrpar_grammar::span::{RIdx, Span, Symbol, TIdx};
use std::alloc::Global;
use test_case_lines::cases::Case;
use test_case_lines::fault::Fault;
use test_case_lines::line::{Content, in_two};
use test_case_lines::printed::Printed;
use test_case_lines::values::{index_of, number_of, span_of};

/// The keys that say what is done.
pub const INPUTS: &[&str] = &[
    "add-rule",
    "add-token",
    "add-tokens",
    "add-production",
    "start",
    "unmatched",
    "over",
    "show",
    "find",
];

/// The reason if a span can't be read.
const NO_SPAN: &str = "a span is wanted, as 3..4";

/// The grammar of the parts, in the smallest storage type.
pub fn outcome(out: &mut Printed, alloc: Global, case: Case<'_, '_>) -> Result<(), Fault> {
    let parts = parts_of(alloc, case)?;
    push_made(out, alloc, case, YaccGrammar::from_parts(alloc, parts))
}

// The parts that the lines have.
fn parts_of(alloc: Global, case: Case<'_, '_>) -> Result<GrammarParts<u8>, Fault> {
    let mut parts = GrammarParts {
        rules: Vec::new(alloc),
        tokens: Vec::new(alloc),
        prods: Vec::new(alloc),
        start: RIdx(1),
    };
    for line in case.lines {
        if let Content::Field { key, value } = line.content {
            add(&mut parts, alloc, key, value, line.number)?;
        }
    }
    Ok(parts)
}

// Adds what a line has.
fn add(
    parts: &mut GrammarParts<u8>,
    alloc: Global,
    key: &str,
    value: &str,
    line: usize,
) -> Result<(), Fault> {
    match key {
        "add-rule" => add_rule(&mut parts.rules, alloc, value, line),
        "add-token" => add_token(&mut parts.tokens, alloc, value, line),
        "add-tokens" => add_tokens(&mut parts.tokens, alloc, number_of(value, line)?),
        "add-production" => add_prod(&mut parts.prods, alloc, value, line),
        "start" => {
            parts.start = RIdx(index_of(value, line)?);
            Ok(())
        }
        _ => Ok(()),
    }
}

// Adds the rule `NAME START..END`.
fn add_rule(
    rules: &mut Vec<RulePart>,
    alloc: Global,
    value: &str,
    line: usize,
) -> Result<(), Fault> {
    let (name, place) = in_two(value);
    let Some(span) = span_of(place) else {
        return Err(Fault::Line(line, NO_SPAN));
    };
    let name = String::from_str(alloc, name)?;
    Ok(rules.push(RulePart { name, span })?)
}

// Adds the token `NAME START..END PRINTED TEXT`.
fn add_token(
    tokens: &mut Vec<TokenPart>,
    alloc: Global,
    value: &str,
    line: usize,
) -> Result<(), Fault> {
    let (name, rest) = in_two(value);
    let (place, printed) = in_two(rest);
    match span_of(place) {
        Some(span) => push_token(tokens, alloc, name, span, printed),
        None => Err(Fault::Line(line, NO_SPAN)),
    }
}

// Adds this number of tokens, all of one name.
fn add_tokens(tokens: &mut Vec<TokenPart>, alloc: Global, count: usize) -> Result<(), Fault> {
    for _ in 0..count {
        push_token(tokens, alloc, "t", Span::new(0, 1), "")?;
    }
    Ok(())
}

// Adds the token. It has no printed text of its own if this one is empty.
fn push_token(
    tokens: &mut Vec<TokenPart>,
    alloc: Global,
    name: &str,
    span: Span,
    printed: &str,
) -> Result<(), Fault> {
    let epp = match printed.is_empty() {
        true => None,
        false => Some(String::from_str(alloc, printed)?),
    };
    let name = String::from_str(alloc, name)?;
    Ok(tokens.push(TokenPart { name, epp, span })?)
}

// Adds the production `RULE START..END: SYMBOLS`.
fn add_prod(
    prods: &mut Vec<ProdPart<u8>>,
    alloc: Global,
    value: &str,
    line: usize,
) -> Result<(), Fault> {
    let (head, list) = value.split_once(':').unwrap_or((value, ""));
    let (rule, place) = in_two(head);
    let rule = RIdx(index_of(rule, line)?);
    let Some(span) = span_of(place) else {
        return Err(Fault::Line(line, NO_SPAN));
    };
    let mut symbols = Vec::new(alloc);
    push_symbols(&mut symbols, list, line)?;
    Ok(prods.push(ProdPart {
        rule,
        symbols,
        span,
    })?)
}

// Adds the symbols of a list.
fn push_symbols(
    symbols: &mut Vec<(Symbol<u8>, Span)>,
    list: &str,
    line: usize,
) -> Result<(), Fault> {
    for entry in list.split(',') {
        match symbol_of(entry) {
            Some(symbol) => symbols.push(symbol)?,
            None if entry.is_empty() => {}
            None => return Err(Fault::Line(line, "a symbol is wanted, as rule 1 3..4")),
        }
    }
    Ok(())
}

// The symbol `rule NUMBER START..END` or `token NUMBER START..END`, if it is one.
fn symbol_of(entry: &str) -> Option<(Symbol<u8>, Span)> {
    let (kind, rest) = in_two(entry);
    let (number, place) = in_two(rest);
    let span = span_of(place)?;
    match (kind, number.parse::<u8>()) {
        ("rule", Ok(number)) => Some((Symbol::Rule(RIdx(number)), span)),
        ("token", Ok(number)) => Some((Symbol::Token(TIdx(number)), span)),
        _ => None,
    }
}
