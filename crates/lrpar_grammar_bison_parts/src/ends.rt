//! The token of the end of the text. Each grammar has one already, so it is another one only if rules use it.
ghost use Rattle.std.specs.Prelude.{◌≡◌, IfOk, map, option_map};
ghost use Rattle.lrpar_grammar_bison.specs.Words.{placed};
ghost use Rattle.lrpar_grammar_words.specs.Words.{placed as text_placed};
ghost use Rattle.lrpar_grammar_bison_rules.specs.Rules.{number_of, rules_in};
ghost use Rattle.lrpar_grammar_bison_parts.specs.Symbols.{HasAliases};
ghost use Rattle.lrpar_grammar_bison_parts.specs.Ends.{HasEndAmong, HasEndInAlternatives, end_in_rules, end_name, is_zero, rule_named, without_name};

use crate::midrules::is_symbol;
use crate::symbols::symbol_word;
use lrpar_grammar_bison::numbers::token_number;
use lrpar_grammar_bison::words::Word;
use lrpar_grammar_bison_rules::rules::{Alternative, FileRules, Item, TokenNumber};
use lrpar_grammar_words::words as text;
use std::alloc::{AllocError, Global};
use std::collections::BTreeMap;

/// The name of the token of the end of the text: of the first one that has the number 0, and without such a one `YYEOF`.
pub fn end_name<'a>(numbers: &[TokenNumber<'a>]) -> &'a str
    ensures { result.now ≡ end_name (map number_of numbers.now) }
{
    for entry in numbers {
        if is_zero(entry.number.name) {
            return entry.token.name;
        }
    }
    "YYEOF"
}

// Whether the number of a token is 0.
fn is_zero(number: &str) -> bool
    ensures { result ≡ is_zero number.now }
{
    token_number(number.as_bytes()) == Some(0)
}

/// The first rule that has the name of the token of the end, or else the first symbol of a rule that is this token, by its name or by its
/// text.
pub fn end_in_rules<'a>(
    rules: &FileRules<'a>,
    aliases: &BTreeMap<&'a str, Word<'a>>,
) -> Option<Word<'a>>
    requires { HasAliases rules.now.aliases.items aliases.now }
    ensures { option_map placed result ≡ end_in_rules (rules_in rules.now) }
{
    let end = end_name(&rules.numbers);
    match rule_named(&rules.defined, end) {
        Some(word) => Some(word),
        None => end_in_alternatives(&rules.alternatives, aliases, end),
    }
}

// The first of these rules with that name.
fn rule_named<'a>(words: &[Word<'a>], name: &str) -> Option<Word<'a>>
    ensures { option_map placed result ≡ rule_named name.now (map placed words.now) }
{
    for word in words {
        if word.name == name {
            return Some(*word);
        }
    }
    None
}

// The first symbol of these alternatives that is the token with that name.
fn end_in_alternatives<'a>(
    alternatives: &[Alternative<'a>],
    aliases: &BTreeMap<&'a str, Word<'a>>,
    end: &str,
) -> Option<Word<'a>>
    ensures { HasEndInAlternatives aliases.now end.now alternatives.now result }
{
    for alternative in alternatives {
        if let Some(word) = end_among(&alternative.items, aliases, end) {
            return Some(word);
        }
    }
    None
}

// The first symbol among these parts that is the token with that name.
fn end_among<'a>(
    items: &[Item<'a>],
    aliases: &BTreeMap<&'a str, Word<'a>>,
    end: &str,
) -> Option<Word<'a>>
    ensures { HasEndAmong aliases.now end.now items.now result }
{
    for item in items {
        if is_symbol(item.kind) && symbol_word(item.word, aliases).name == end {
            return Some(item.word);
        }
    }
    None
}

/// The words that haven't this name.
pub fn without_name<'a>(
    alloc: Global,
    words: &[text::Word<'a>],
    name: &str,
) -> Result<Vec<text::Word<'a>>, AllocError>
    ensures { IfOk result (λ others. map text_placed others.items ≡ without_name name.now (map text_placed words.now)) }
{
    let mut others = Vec::new(alloc);
    for word in words {
        if word.name != name {
            others.push(*word)?;
        }
    }
    Ok(others)
}
