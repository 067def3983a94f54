//! Names that are wrong: names of rules that are declared tokens, and names of nothing.
ghost use Rattle.std.specs.Prelude.{◌≡◌, ◌≢◌, [], IfErr, OnOk};
ghost use Rattle.lrpar_grammar_words.specs.Outline.{outline_of};
ghost use Rattle.lrpar_grammar_reader.specs.Spells.{AreDeclaredOnce};
ghost use Rattle.lrpar_grammar_reader.specs.TextNames.{FindsUnknown, FindsUnknownSymbol, HasKnownNames, IsFaultBy, is_known_by};
ghost use Rattle.lrpar_grammar_reader.specs.TextWords.{FindsAmong, FindsMissing};

use crate::names::Names;
use crate::parts::GrammarFault;
use crate::tables::{Tables, is_token};
use lrpar_grammar_places::span::Span;
use lrpar_grammar_words::outline::{Alternative, Outline};
use lrpar_grammar_words::words::Word;

/// Refuses wrong names. In this order, each at the first such word: with `TokenIsRule` a rule that has the name of a declared
/// token, with `UnknownRule` a name after `%start` that is no rule or a symbol that is neither a rule nor a token, and with
/// `UnknownToken` a name after `%epp` that is no token. The caller must have ruled out the faults that come before these.
pub fn check_names(outline: &Outline, tables: &Tables) -> Result<(), GrammarFault>
    requires once { AreDeclaredOnce (outline_of outline.now) }
    requires some_rule { (outline_of outline.now).defined ≢ [] }
    ensures ok { OnOk result (HasKnownNames tables.now outline.now) }
    ensures err { IfErr result (IsFaultBy tables.now outline.now) }
{
    if let Some(span) = find_among(tables.rules.words(), &tables.declared) {
        return Err(GrammarFault::TokenIsRule(span));
    }
    if let Some(span) = find_missing(&outline.starts, &tables.rules) {
        return Err(GrammarFault::UnknownRule(span));
    }
    if let Some(span) = unknown_symbol(&outline.alternatives, tables) {
        return Err(GrammarFault::UnknownRule(span));
    }
    if let Some(span) = find_missing(&outline.epps, &tables.tokens) {
        return Err(GrammarFault::UnknownToken(span));
    }
    Ok(())
}

// The place of the first word whose name is among the names.
fn find_among(words: &[Word], names: &Names) -> Option<Span>
    ensures { FindsAmong names.now words.now result }
{
    let found = words.iter().find(|word| names.contains(word.name))?;
    Some(found.span())
}

// The place of the first word whose name isn't among the names.
fn find_missing(words: &[Word], names: &Names) -> Option<Span>
    ensures { FindsMissing names.now words.now result }
{
    let found = words.iter().find(|word| !names.contains(word.name))?;
    Some(found.span())
}

// The place of the first symbol of the alternatives that is neither a token nor a rule.
fn unknown_symbol(alternatives: &[Alternative], tables: &Tables) -> Option<Span>
    ensures { FindsUnknownSymbol tables.now alternatives.now result }
{
    for alternative in alternatives {
        if let Some(span) = find_unknown(&alternative.symbols, tables) {
            return Some(span);
        }
    }
    None
}

// The place of the first symbol that is neither a token nor a rule.
fn find_unknown(symbols: &[Word], tables: &Tables) -> Option<Span>
    ensures { FindsUnknown tables.now symbols.now result }
{
    let found = symbols.iter().find(|word| !is_known(word, tables))?;
    Some(found.span())
}

// Whether the symbol is a token or a rule.
fn is_known(word: &Word, tables: &Tables) -> bool
    ensures { result ≡ is_known_by tables.now word.now }
{
    is_token(word, &tables.declared) || tables.rules.contains(word.name)
}
