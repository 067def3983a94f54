//! Copies of the parts that a grammar lists.
ghost use Rattle.std.specs.Prelude.{◌≡◌, ◌<◌, IfOk, length};
ghost use Rattle.lrpar_grammar_reader.specs.Grammar.{IsWellFormed, end_token, prods_len, rules_len};
ghost use Rattle.lrpar_grammar_unmatched.specs.Copies.{AreDeclaredProds, AreDeclaredRules, AreDeclaredTokens, AreDeclaredParts, ArePartsWithToken, HaveSpans, HaveSymbols, IsProdAt, IsRuleAt, IsTokenAt, IsTokenNamed};

use lrpar_grammar::grammar::{GrammarParts, ProdPart, RulePart, TokenPart, YaccGrammar};
use lrpar_grammar_places::span::{PIdx, RIdx, Span, StorageIndex, Symbol, TIdx};
use std::alloc::{AllocError, Global};

/// The parts that a grammar lists, as copies: each rule but the added one, each token but the end token with its printed text, and each
/// production but the start production. [`YaccGrammar::from_parts`] makes the grammar of them again; with other names or printed texts of
/// tokens, it makes a grammar for messages that call these so. Takes time and memory linear in the grammar. `Err`: out of memory.
pub fn declared_parts<StorageT: StorageIndex>(
    alloc: Global,
    grm: &YaccGrammar<StorageT>,
) -> Result<GrammarParts<StorageT>, AllocError>
    ensures { IfOk result (AreDeclaredParts StorageT.index grm.now) }
{
    // What is known of this number says that the grammar is well-formed.
    let _lemma = grm.start_prod();
    Ok(GrammarParts {
        rules: declared_rules(alloc, grm)?,
        tokens: declared_tokens(alloc, grm)?,
        prods: declared_prods(alloc, grm)?,
        start: grm.start_rule_idx(),
    })
}

// The listed parts of the grammar, with one more token.
pub(crate) fn parts_with_token<StorageT: StorageIndex>(
    alloc: Global,
    grm: &YaccGrammar<StorageT>,
    name: &str,
) -> Result<GrammarParts<StorageT>, AllocError>
    ensures { IfOk result (ArePartsWithToken StorageT.index grm.now name.now) }
{
    let mut parts = declared_parts(alloc, grm)?;
    parts.tokens.push(token_named(alloc, name)?)?;
    Ok(parts)
}

// Each rule but the added one.
fn declared_rules<StorageT: StorageIndex>(
    alloc: Global,
    grm: &YaccGrammar<StorageT>,
) -> Result<Vec<RulePart>, AllocError>
    ensures { IfOk result (AreDeclaredRules grm.now) }
{
    let mut rules = Vec::new(alloc);
    for number in 1..grm.rules_len() {
        let rule = RIdx(StorageT::from_index(number).unwrap());
        rules.push(copied_rule(alloc, grm, rule)?)?;
    }
    Ok(rules)
}

// A rule.
fn copied_rule<StorageT: StorageIndex>(
    alloc: Global,
    grm: &YaccGrammar<StorageT>,
    rule: RIdx<StorageT>,
) -> Result<RulePart, AllocError>
    requires { StorageT.index rule.0 < rules_len grm.now }
    ensures { IfOk result (IsRuleAt StorageT.index grm.now rule) }
{
    Ok(RulePart {
        name: String::from_str(alloc, grm.rule_name_str(rule))?,
        span: grm.rule_name_span(rule),
    })
}

// Each token but the end token.
fn declared_tokens<StorageT: StorageIndex>(
    alloc: Global,
    grm: &YaccGrammar<StorageT>,
) -> Result<Vec<TokenPart>, AllocError>
    ensures { IfOk result (AreDeclaredTokens grm.now) }
{
    let mut tokens = Vec::new(alloc);
    for number in 0..grm.tokens_len() - 1 {
        let token = TIdx(StorageT::from_index(number).unwrap());
        tokens.push(copied_token(alloc, grm, token)?)?;
    }
    Ok(tokens)
}

// A token other than the end token.
fn copied_token<StorageT: StorageIndex>(
    alloc: Global,
    grm: &YaccGrammar<StorageT>,
    token: TIdx<StorageT>,
) -> Result<TokenPart, AllocError>
    requires { StorageT.index token.0 < end_token grm.now }
    ensures { IfOk result (IsTokenAt StorageT.index grm.now token) }
{
    let name = grm.token_name(token).unwrap();
    let epp = grm.token_epp(token).unwrap();
    Ok(TokenPart {
        name: String::from_str(alloc, name)?,
        epp: Some(String::from_str(alloc, epp)?),
        span: grm.token_span(token).unwrap(),
    })
}

// A token of this name.
fn token_named(alloc: Global, name: &str) -> Result<TokenPart, AllocError>
    ensures { IfOk result (IsTokenNamed name.now) }
{
    Ok(TokenPart {
        name: String::from_str(alloc, name)?,
        epp: None,
        span: Span::new(0, 0),
    })
}

// Each production but the start production.
fn declared_prods<StorageT: StorageIndex>(
    alloc: Global,
    grm: &YaccGrammar<StorageT>,
) -> Result<Vec<ProdPart<StorageT>>, AllocError>
    requires { IsWellFormed grm.now }
    ensures { IfOk result (AreDeclaredProds StorageT.index grm.now) }
{
    let mut prods = Vec::new(alloc);
    for number in 0..grm.prods_len().saturating_sub(1) {
        let prod = PIdx(StorageT::from_index(number).unwrap());
        prods.push(copied_prod(alloc, grm, prod)?)?;
    }
    Ok(prods)
}

// A production.
fn copied_prod<StorageT: StorageIndex>(
    alloc: Global,
    grm: &YaccGrammar<StorageT>,
    prod: PIdx<StorageT>,
) -> Result<ProdPart<StorageT>, AllocError>
    requires well_formed { IsWellFormed grm.now }
    requires within { StorageT.index prod.0 < prods_len grm.now }
    ensures { IfOk result (IsProdAt StorageT.index grm.now prod) }
{
    Ok(ProdPart {
        rule: grm.prod_to_rule(prod),
        symbols: symbols_with_spans(alloc, grm.prod(prod), grm.symbol_spans(prod))?,
        span: grm.prod_span(prod),
    })
}

// Each symbol with its span.
fn symbols_with_spans<StorageT: StorageIndex>(
    alloc: Global,
    symbols: &[Symbol<StorageT>],
    spans: &[Span],
) -> Result<Vec<(Symbol<StorageT>, Span)>, AllocError>
    requires { length symbols.now ≡ length spans.now }
    ensures symbols { IfOk result (HaveSymbols symbols.now) }
    ensures spans { IfOk result (HaveSpans spans.now) }
{
    let mut pairs = Vec::with_capacity(alloc, symbols.len())?;
    for number in 0..symbols.len() {
        pairs.push((symbols[number], spans[number]))?;
    }
    Ok(pairs)
}
