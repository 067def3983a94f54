//! Grammars of texts: why there is none, or what the case asks of it.
use crate::uses::push_uses;
use lrpar_grammar::grammar::{GrammarFault, YaccGrammar};
use lrpar_grammar::span::{Span, Symbol};
use lrpar_grammar_unmatched::{UnmatchedFault, with_unmatched};
use std::alloc::Global;
use test_case_lines::cases::Case;
use test_case_lines::fault::Fault;
use test_case_lines::names::{rule_name, token_name};
use test_case_lines::printed::Printed;

/// The keys that say what is done.
pub const INPUTS: &[&str] = &["text", "unmatched", "over", "show", "find"];

/// The grammar of the text, in the smallest storage type.
pub fn outcome(out: &mut Printed, alloc: Global, case: Case<'_, '_>) -> Result<(), Fault> {
    let text = case.text(alloc, "text")?;
    let made = YaccGrammar::new_with_storaget(alloc, text.as_str());
    push_made(out, alloc, case, made)
}

/// Adds what the case asks of the grammar, or why there is none.
pub fn push_made(
    out: &mut Printed,
    alloc: Global,
    case: Case<'_, '_>,
    made: Result<YaccGrammar<u8>, GrammarFault>,
) -> Result<(), Fault> {
    match made {
        Ok(grm) => push_grammar(out, alloc, case, &grm),
        Err(fault) => {
            push_fault(out, &fault);
            Ok(())
        }
    }
}

// Adds what the case asks of the grammar, or of that with one more token, if the case names one; or why there is no such grammar.
fn push_grammar(
    out: &mut Printed,
    alloc: Global,
    case: Case<'_, '_>,
    grm: &YaccGrammar<u8>,
) -> Result<(), Fault> {
    let Some((name, _)) = case.value("unmatched") else {
        return push_shown(out, alloc, case, grm);
    };
    match with_unmatched(alloc, grm, name) {
        Ok((grm, token)) => {
            out.line("new-token ", &usize::from(token));
            push_shown(out, alloc, case, &grm)
        }
        Err(fault) => {
            push_refusal(out, fault);
            Ok(())
        }
    }
}

// Adds why there is no grammar with one more token.
fn push_refusal(out: &mut Printed, fault: UnmatchedFault) {
    if fault == UnmatchedFault::Memory {
        out.lack_memory();
    }
    out.line("fault ", &fault);
}

/// Why there is no grammar of each beginning of a text.
pub fn outcome_of_cuts(out: &mut Printed, alloc: Global, case: Case<'_, '_>) -> Result<(), Fault> {
    let text = case.text(alloc, "text")?;
    for (len, _) in text.as_str().char_indices() {
        out.number("cut ", len);
        out.text(": ");
        push_cut(out, alloc, text.as_str().get(..len).unwrap_or(""));
    }
    Ok(())
}

// Why the text is no grammar.
fn push_cut(out: &mut Printed, alloc: Global, cut: &str) {
    let fault = YaccGrammar::<u8>::new_with_storaget(alloc, cut).err();
    match fault {
        None => out.text("a grammar\n"),
        Some(fault) => push_fault(out, &fault),
    }
}

// The fault, and the end of its span, if it has one.
fn push_fault(out: &mut Printed, fault: &GrammarFault) {
    out.text("fault ");
    out.show(fault);
    match fault {
        GrammarFault::UnknownRule(span)
        | GrammarFault::UnknownToken(span)
        | GrammarFault::TokenIsRule(span)
        | GrammarFault::RepeatedStart(span)
        | GrammarFault::RepeatedEpp(span) => out.line("..", &span.end()),
        GrammarFault::Memory => out.lack_memory(),
        GrammarFault::BadSymbol
        | GrammarFault::BadStart
        | GrammarFault::NoRules
        | GrammarFault::StorageTooSmall
        | GrammarFault::Syntax(_) => out.text("\n"),
    }
}

/// Adds what the case asks of the grammar.
pub fn push_shown(
    out: &mut Printed,
    alloc: Global,
    case: Case<'_, '_>,
    grm: &YaccGrammar<u8>,
) -> Result<(), Fault> {
    for word in case.value_or_nothing("show").split(' ') {
        match word {
            "counts" => push_counts(out, grm),
            "rules" => push_rules(out, grm),
            "productions" => push_prods(out, grm),
            "tokens" => push_tokens(out, grm),
            "map" => push_map(out, alloc, grm),
            "find" => push_found(out, case, grm),
            "fits" => push_fits(out, alloc, case, grm)?,
            "uses" => push_uses(out, alloc, grm)?,
            _ => return Err(Fault::Line(case.number, "what is shown isn't known")),
        }
    }
    Ok(())
}

// How many of each there are, and the start.
fn push_counts(out: &mut Printed, grm: &YaccGrammar<u8>) {
    out.number("counts ", grm.rules_len());
    out.number(" rules, ", grm.prods_len());
    out.number(" productions, ", grm.tokens_len());
    out.number(" tokens, start rule ", usize::from(grm.start_rule_idx()));
    out.number(" by ", usize::from(grm.start_prod()));
    out.line(", end ", &usize::from(grm.eof_token_idx()));
}

// A line for each rule: its number, its name, the span of the name, and its productions.
fn push_rules(out: &mut Printed, grm: &YaccGrammar<u8>) {
    for rule in grm.iter_rules() {
        out.number("rule ", usize::from(rule));
        out.texts(" ", rule_name(grm, rule));
        if usize::from(rule) < grm.rules_len() {
            push_span(out, grm.rule_name_span(rule));
            out.text(":");
            for prod in grm.rule_to_prods(rule) {
                out.number(" ", usize::from(*prod));
            }
        }
        out.text("\n");
    }
}

// A span.
fn push_span(out: &mut Printed, span: Span) {
    out.number(" ", span.start());
    out.number("..", span.end());
}

// A line for each production: its number, its rule, its span, and its symbols.
fn push_prods(out: &mut Printed, grm: &YaccGrammar<u8>) {
    for prod in grm.iter_pidxs() {
        out.number("production ", usize::from(prod));
        if usize::from(prod) < grm.prods_len() {
            out.texts(" of ", rule_name(grm, grm.prod_to_rule(prod)));
            push_span(out, grm.prod_span(prod));
            push_symbols(out, grm, grm.prod(prod), grm.symbol_spans(prod));
        }
        out.text("\n");
    }
}

// Symbols, each with its span; the names of tokens in quotes.
fn push_symbols(out: &mut Printed, grm: &YaccGrammar<u8>, symbols: &[Symbol<u8>], spans: &[Span]) {
    let mut mark = ':';
    for (symbol, span) in symbols.iter().zip(spans) {
        out.show(&mark);
        out.text(" ");
        match symbol {
            Symbol::Rule(rule) => out.text(rule_name(grm, *rule)),
            Symbol::Token(token) => out.push_quoted('\'', token_name(grm, *token)),
        }
        push_span(out, *span);
        mark = ',';
    }
}

// A line for each token: its number, its name, its printed text, and its span; `$` for the end token, which has none of these.
fn push_tokens(out: &mut Printed, grm: &YaccGrammar<u8>) {
    for token in grm.iter_tidxs() {
        out.number("token ", usize::from(token));
        out.texts(" ", token_name(grm, token));
        if usize::from(token) < grm.tokens_len() {
            if let Some(epp) = grm.token_epp(token) {
                out.text(" ");
                out.push_quoted('"', epp);
            }
            if let Some(span) = grm.token_span(token) {
                push_span(out, span);
            }
        }
        out.text("\n");
    }
}

// The tokens with names, each with its number.
fn push_map(out: &mut Printed, alloc: Global, grm: &YaccGrammar<u8>) {
    match grm.tokens_map(alloc) {
        Ok(map) => {
            for (name, token) in &map {
                out.texts("map ", name);
                out.line(" ", &usize::from(*token));
            }
        }
        Err(_) => out.lack_memory(),
    }
}

// The number of each token that is looked for by its name.
fn push_found(out: &mut Printed, case: Case<'_, '_>, grm: &YaccGrammar<u8>) {
    for name in case.value_or_nothing("find").split(' ') {
        out.texts("found ", name);
        match grm.token_idx(name) {
            Some(token) => out.line(" ", &usize::from(token)),
            None => out.text(" none\n"),
        }
    }
}

// Whether the places fit the text, or the other text of the case.
fn push_fits(
    out: &mut Printed,
    alloc: Global,
    case: Case<'_, '_>,
    grm: &YaccGrammar<u8>,
) -> Result<(), Fault> {
    let key = match case.value("over") {
        Some(_) => "over",
        None => "text",
    };
    let text = case.text(alloc, key)?;
    out.text(match grm.spans_fit(text.as_str()) {
        true => "fits yes\n",
        false => "fits no\n",
    });
    Ok(())
}
