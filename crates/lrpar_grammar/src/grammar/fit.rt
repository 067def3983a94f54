//! Whether places lie in a text.
ghost use Rattle.std.specs.Prelude.{◌↔◌, All, IsTrue};
ghost use Rattle.lrpar_grammar_places.specs.Span.{IsPartOf};
ghost use Rattle.lrpar_grammar_reader.specs.SpansFit.{AreSpansInOrder, IsPartOfLine};
ghost use Rattle.lrpar_grammar.specs.Kept.{ProdFits, ProdsFit};

use super::prods::SplitProd;
use lrpar_grammar_places::span::{Span, StorageIndex};
use lrpar_grammar_reader::parts::{RulePart, TokenPart};

// Whether the places of all rules lie in the text.
pub(super) fn rules_fit(rules: &[RulePart], src: &str) -> bool
    ensures { IsTrue result ↔ All (λ rule. IsPartOf src.now rule.span) rules.now }
{
    rules.iter().all(|rule| is_part(rule.span, src))
}

// Whether the places of all tokens lie in the text.
pub(super) fn tokens_fit(tokens: &[TokenPart], src: &str) -> bool
    ensures { IsTrue result ↔ All (λ token. IsPartOf src.now token.span) tokens.now }
{
    tokens.iter().all(|token| is_part(token.span, src))
}

// Whether the places of all productions fit the text.
pub(super) fn prods_fit<StorageT: StorageIndex>(prods: &[SplitProd<StorageT>], src: &str) -> bool
    ensures { IsTrue result ↔ ProdsFit StorageT.index src.now prods.now }
{
    prods.iter().all(|prod| prod_fits(prod, src))
}

// Whether the places of a production fit the text.
fn prod_fits<StorageT: StorageIndex>(prod: &SplitProd<StorageT>, src: &str) -> bool
    ensures { IsTrue result ↔ ProdFits StorageT.index src.now prod.now }
{
    is_part(prod.span, src)
        && (!prod.symbols.is_empty() || is_part_of_line(prod.span, src))
        && are_parts_of_lines(&prod.symbol_spans, src)
        && are_in_order(&prod.symbol_spans)
}

// Whether each part is on one line of the text.
fn are_parts_of_lines(spans: &[Span], src: &str) -> bool
    ensures { IsTrue result ↔ All (IsPartOfLine src.now) spans.now }
{
    spans.iter().all(|span| is_part_of_line(*span, src))
}

// Whether each part ends at or before the start of the next.
fn are_in_order(spans: &[Span]) -> bool
    ensures { IsTrue result ↔ AreSpansInOrder spans.now }
{
    let mut end = 0;
    for span in spans {
        if span.start() < end {
            return false;
        }
        end = span.end();
    }
    true
}

// Whether the part is on one line of the text.
fn is_part_of_line(span: Span, src: &str) -> bool
    ensures { IsTrue result ↔ IsPartOfLine src.now span }
{
    is_part(span, src)
        && src.as_bytes()[span.start()..span.end()]
            .iter()
            .all(|byte| *byte != b'\n')
}

// Whether the part starts and ends in the text, each between two characters.
fn is_part(span: Span, src: &str) -> bool
    ensures { IsTrue result ↔ IsPartOf src.now span }
{
    src.is_char_boundary(span.start()) && src.is_char_boundary(span.end())
}
