//! Actions among the symbols of an alternative: each is a rule without symbols, as in bison.
ghost use Rattle.std.specs.Prelude.{◌≡◌, ◌++◌, ◌≤◌, IfOk, OnOk, length, map, string_bytes};
ghost use Rattle.std.specs.Option.{option_to_list};
ghost use Rattle.lrpar_grammar_bison.specs.Words.{placed};
ghost use Rattle.lrpar_grammar_words.specs.Words.{placed as text_placed};
ghost use Rattle.lrpar_grammar_bison_rules.specs.Rules.{alternative_of, item_of};
ghost use Rattle.lrpar_grammar_bison_parts.specs.Midrules.{HasFilled, action_word, actions_in, actions_of, ends_action, is_action, is_symbol, midrule_name, midrule_names, midrules_from};

use crate::symbols::symbol_word;
use lrpar_grammar_bison::words::Word;
use lrpar_grammar_bison_rules::rules::{Alternative, Item};
use lrpar_grammar_bison_rules::word_order::ItemKind;
use lrpar_grammar_words::words as text;
use std::alloc::{AllocError, Global};
use std::collections::BTreeMap;

/// The actions among symbols of all alternatives, in the order of the text.
pub fn midrule_actions<'a>(
    alloc: Global,
    alternatives: &[Alternative<'a>],
) -> Result<Vec<Word<'a>>, AllocError>
    ensures { IfOk result (λ actions. map placed actions.items ≡ actions_of (map alternative_of alternatives.now)) }
{
    let mut actions = Vec::new(alloc);
    for alternative in alternatives {
        push_actions(&mut actions, &alternative.items)?;
    }
    Ok(actions)
}

// Appends the actions of an alternative that a symbol or another action comes after.
fn push_actions<'a>(actions: &mut Vec<Word<'a>>, items: &[Item<'a>]) -> Result<(), AllocError>
    ensures { OnOk result (map placed actions.new.items ≡ map placed actions.old.items ++ actions_in (map item_of items.now)) }
{
    let mut last = None;
    for item in items {
        if ends_action(item.kind) {
            push_some(actions, last)?;
            last = action_word(item);
        }
    }
    Ok(())
}

// Appends the word, if there is one.
fn push_some<'a>(words: &mut Vec<Word<'a>>, word: Option<Word<'a>>) -> Result<(), AllocError>
    ensures { OnOk result (words.new.items ≡ words.old.items ++ option_to_list word.entry) }
{
    if let Some(word) = word {
        words.push(word)?;
    }
    Ok(())
}

// The word of the part, if it is an action.
fn action_word<'a>(item: &Item<'a>) -> Option<Word<'a>>
    ensures { result ≡ action_word item.now }
{
    if is_action(item.kind) {
        Some(item.word)
    } else {
        None
    }
}

/// The number of actions of an alternative that a symbol or another action comes after.
pub fn action_count(items: &[Item]) -> usize
    ensures { result ≡ length (actions_in (map item_of items.now)) }
{
    let mut count = 0;
    let mut is_open = false;
    for item in items {
        if ends_action(item.kind) {
            if is_open {
                count += 1;
            }
            is_open = is_action(item.kind);
        }
    }
    count
}

/// The symbols of an alternative as words of a grammar text, with these rules in place of its actions.
pub fn filled<'a>(
    alloc: Global,
    items: &[Item<'a>],
    aliases: &BTreeMap<&'a str, Word<'a>>,
    midrules: &[text::Word<'a>],
) -> Result<Vec<text::Word<'a>>, AllocError>
    requires { length (actions_in (map item_of items.now)) ≤ length midrules.now }
    ensures { IfOk result (HasFilled aliases.now items.now midrules.now) }
{
    let mut symbols = Vec::new(alloc);
    let mut used = 0;
    let mut is_open = false;
    for item in items {
        if ends_action(item.kind) {
            if is_open {
                symbols.push(midrules[used])?;
                used += 1;
            }
            is_open = is_action(item.kind);
        }
        if is_symbol(item.kind) {
            symbols.push(symbol_word(item.word, aliases))?;
        }
    }
    Ok(symbols)
}

/// Whether the part is a symbol.
pub fn is_symbol(kind: ItemKind) -> bool
    ensures { result ≡ is_symbol kind }
{
    matches!(kind, ItemKind::Symbol)
}

// Whether the part is an action.
fn is_action(kind: ItemKind) -> bool
    ensures { result ≡ is_action kind }
{
    matches!(kind, ItemKind::Action)
}

// Whether an action before the part isn't the last of its alternative.
fn ends_action(kind: ItemKind) -> bool
    ensures { result ≡ ends_action kind }
{
    matches!(kind, ItemKind::Symbol | ItemKind::Action)
}

/// The names of so many rules for actions.
pub fn midrule_names(alloc: Global, count: usize) -> Result<Vec<String>, AllocError>
    ensures { IfOk result (λ names. map string_bytes names.items ≡ midrule_names 1 count) }
{
    let mut names = Vec::with_capacity(alloc, count)?;
    for number in 0..count {
        names.push(midrule_name(alloc, number + 1)?)?;
    }
    Ok(names)
}

// The name of the rule for the action of that number.
fn midrule_name(alloc: Global, number: usize) -> Result<String, AllocError>
    ensures { IfOk result (λ name. string_bytes name ≡ midrule_name number) }
{
    let mut name = String::new(alloc);
    write!(name, "$@{number}")?;
    Ok(name)
}

/// The rules for these actions.
pub fn midrule_words<'a>(
    alloc: Global,
    actions: &[Word<'a>],
    names: &'a [String],
) -> Result<Vec<text::Word<'a>>, AllocError>
    requires { map string_bytes names.now ≡ midrule_names 1 (length actions.now) }
    ensures { IfOk result (λ words. map text_placed words.items ≡ midrules_from 1 (map placed actions.now)) }
{
    let mut words = Vec::with_capacity(alloc, actions.len())?;
    for (i, action) in actions.iter().enumerate() {
        words.push(text::Word {
            kind: text::WordKind::Name,
            name: names[i].as_str(),
            len: action.len,
            end: action.end,
        })?;
    }
    Ok(words)
}
