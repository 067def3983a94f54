//! The outline of a `.y` file: its declarations and rules as those of a grammar text.
ghost use Rattle.std.specs.Prelude.{◌≡◌, ◌++◌, ◌≤◌, IfOk, OnOk, length, map};
ghost use Rattle.std.specs.List.{flat_map};
ghost use Rattle.lrpar_grammar_bison.specs.Words.{placed as file_placed};
ghost use Rattle.lrpar_grammar_bison_rules.specs.Aliases.{alias_of};
ghost use Rattle.lrpar_grammar_bison_rules.specs.Rules.{alternative_of as file_alternative_of, item_of, rank_of, rules_in};
ghost use Rattle.lrpar_grammar_words.specs.Outline.{alternative_of, outline_of};
ghost use Rattle.lrpar_grammar_words.specs.Words.{placed};
ghost use Rattle.lrpar_grammar_bison_parts.specs.Midrules.{actions_in, actions_of};
ghost use Rattle.lrpar_grammar_bison_parts.specs.Outline.{AppendsMidrules, AppendsSymbols, AreDeclaredWords, AreEpps, AreEppTexts, AreEppTokens, AreTokenWords, AreTextAlternatives, AreTextWords, AreTurned, IsTextAlternative, IsTextOf, declared_among, declared_in, declares, outline_by};
ghost use Rattle.lrpar_grammar_bison_parts.specs.Symbols.{HasAliases, text_word};

use crate::ends::{end_in_rules, end_name, without_name};
use crate::midrules::{action_count, filled};
use crate::symbols::{alias_map, symbol_word, text_word};
use lrpar_grammar_bison::words::Word;
use lrpar_grammar_bison_rules::aliases::{Alias, is_predefined};
use lrpar_grammar_bison_rules::rules::{Alternative, FileRules, Item, RankedWord};
use lrpar_grammar_bison_rules::word_order::ItemKind;
use lrpar_grammar_reader::names::Names;
use lrpar_grammar_words::outline::Outline;
use lrpar_grammar_words::{outline as text_outline, words as text};
use std::alloc::{AllocError, Global};
use std::collections::BTreeMap;

/// The declarations and rules of a file as those of a grammar text, with these rules for the actions among symbols.
pub fn outline_of_file<'a>(
    alloc: Global,
    rules: &FileRules<'a>,
    aliases: &BTreeMap<&'a str, Word<'a>>,
    midrules: &[text::Word<'a>],
) -> Result<Outline<'a>, AllocError>
    requires aliases { HasAliases rules.now.aliases.items aliases.now }
    requires midrules { length (actions_of (rules_in rules.now).alternatives) ≤ length midrules.now }
    ensures { IfOk result (λ o. outline_of o ≡ outline_by (map placed midrules.now) (rules_in rules.now)) }
{
    let end = end_in_rules(rules, aliases);
    let epps = epp_tokens(alloc, rules, end)?;
    let epp_texts = texts_of(alloc, &rules.aliases, &epps)?;
    Ok(Outline {
        starts: text_words(alloc, &rules.starts)?,
        declared: token_words(alloc, rules, aliases, end)?,
        epps,
        epp_texts,
        defined: defined(alloc, &rules.defined, midrules)?,
        alternatives: text_alternatives(alloc, &rules.alternatives, aliases, midrules)?,
        symbols: Vec::new(alloc),
    })
}

// The words in a grammar text.
fn text_words<'a>(alloc: Global, words: &[Word<'a>]) -> Result<Vec<text::Word<'a>>, AllocError>
    ensures { IfOk result (AreTextWords words.now) }
{
    let mut texts = Vec::with_capacity(alloc, words.len())?;
    for word in words {
        texts.push(text_word(*word))?;
    }
    Ok(texts)
}

// The rules that are defined, and those for actions.
fn defined<'a>(
    alloc: Global,
    words: &[Word<'a>],
    midrules: &[text::Word<'a>],
) -> Result<Vec<text::Word<'a>>, AllocError>
    ensures { IfOk result (λ rules. map placed rules.items ≡ map text_word (map file_placed words.now) ++ map placed midrules.now) }
{
    let mut rules = text_words(alloc, words)?;
    for midrule in midrules {
        rules.push(*midrule)?;
    }
    Ok(rules)
}

// The tokens that have a text, each once; that of the end only if it is used.
fn epp_tokens<'a>(
    alloc: Global,
    rules: &FileRules<'a>,
    end: Option<Word<'a>>,
) -> Result<Vec<text::Word<'a>>, AllocError>
    ensures { IfOk result (AreEppTokens rules.now end.entry) }
{
    let names = named_tokens(alloc, &rules.aliases)?;
    match end {
        Some(_) => Vec::from_slice(alloc, names.words()),
        None => without_name(alloc, names.words(), end_name(&rules.numbers)),
    }
}

// The tokens that have a text, each once.
fn named_tokens<'a>(alloc: Global, aliases: &[Alias<'a>]) -> Result<Names<'a>, AllocError>
    ensures { IfOk result (AreEpps aliases.now) }
{
    let mut tokens = Vec::with_capacity(alloc, aliases.len())?;
    for alias in aliases {
        tokens.push(text_word(alias.token))?;
    }
    Names::first_of_each(alloc, &tokens)
}

// The text of each of these tokens: the first of several.
fn texts_of<'a>(
    alloc: Global,
    aliases: &[Alias<'a>],
    tokens: &[text::Word<'a>],
) -> Result<Vec<text::Word<'a>>, AllocError>
    ensures { IfOk result (AreEppTexts aliases.now tokens.now) }
{
    let others = turned(alloc, aliases)?;
    let found = alias_map(alloc, &others)?;
    let mut texts = Vec::with_capacity(alloc, tokens.len())?;
    for token in tokens {
        texts.push(text_of(*token, &found))?;
    }
    Ok(texts)
}

// The text of a token, by a map that gives the texts of tokens; the token itself if it has none.
fn text_of<'a>(token: text::Word<'a>, texts: &BTreeMap<&'a str, Word<'a>>) -> text::Word<'a>
    ensures { IsTextOf texts.now token.entry result }
{
    match texts.get(token.name) {
        Some(text) => text_word(*text),
        None => token,
    }
}

// Texts and tokens, each in the place of the other.
fn turned<'a>(alloc: Global, aliases: &[Alias<'a>]) -> Result<Vec<Alias<'a>>, AllocError>
    ensures { IfOk result (AreTurned aliases.now) }
{
    let mut others = Vec::with_capacity(alloc, aliases.len())?;
    for alias in aliases {
        others.push(Alias {
            token: alias.text,
            text: alias.token,
        })?;
    }
    Ok(others)
}

// The words that declare tokens, and the one that uses the token of the end; without such a one, not those that declare it.
fn token_words<'a>(
    alloc: Global,
    rules: &FileRules<'a>,
    aliases: &BTreeMap<&'a str, Word<'a>>,
    end: Option<Word<'a>>,
) -> Result<Vec<text::Word<'a>>, AllocError>
    requires { HasAliases rules.now.aliases.items aliases.now }
    ensures { IfOk result (AreTokenWords rules.now end.entry) }
{
    let mut words = declared_words(alloc, rules, aliases)?;
    match end {
        Some(word) => {
            words.push(symbol_word(word, aliases))?;
            Ok(words)
        }
        None => without_name(alloc, &words, end_name(&rules.numbers)),
    }
}

// The words that declare tokens: those of `%token`, those with a precedence, those of `%prec`, `error` and `YYUNDEF`.
fn declared_words<'a>(
    alloc: Global,
    rules: &FileRules<'a>,
    aliases: &BTreeMap<&'a str, Word<'a>>,
) -> Result<Vec<text::Word<'a>>, AllocError>
    requires { HasAliases rules.now.aliases.items aliases.now }
    ensures { IfOk result (AreDeclaredWords rules.now) }
{
    let mut words = text_words(alloc, &rules.tokens)?;
    push_ranked(&mut words, &rules.ranked, aliases)?;
    push_all_declared(&mut words, &rules.alternatives, aliases)?;
    Ok(words)
}

// Appends the words with a precedence.
fn push_ranked<'a>(
    words: &mut Vec<text::Word<'a>>,
    ranked: &[RankedWord<'a>],
    aliases: &BTreeMap<&'a str, Word<'a>>,
) -> Result<(), AllocError>
    ensures { OnOk result (AppendsSymbols aliases.now words.old words.new (map (λ x. x.word) (map rank_of ranked.now))) }
{
    for entry in ranked {
        words.push(symbol_word(entry.word, aliases))?;
    }
    Ok(())
}

// Appends the words of all alternatives that declare tokens.
fn push_all_declared<'a>(
    words: &mut Vec<text::Word<'a>>,
    alternatives: &[Alternative<'a>],
    aliases: &BTreeMap<&'a str, Word<'a>>,
) -> Result<(), AllocError>
    ensures { OnOk result (AppendsSymbols aliases.now words.old words.new (flat_map declared_in (map file_alternative_of alternatives.now))) }
{
    for alternative in alternatives {
        push_declared(words, &alternative.items, aliases)?;
    }
    Ok(())
}

// Appends the words of `%prec` and those that are `error` or `YYUNDEF`.
fn push_declared<'a>(
    words: &mut Vec<text::Word<'a>>,
    items: &[Item<'a>],
    aliases: &BTreeMap<&'a str, Word<'a>>,
) -> Result<(), AllocError>
    ensures { OnOk result (AppendsSymbols aliases.now words.old words.new (declared_among (map item_of items.now))) }
{
    for item in items {
        if declares(item.kind, item.word.name) {
            words.push(symbol_word(item.word, aliases))?;
        }
    }
    Ok(())
}

// Whether a part of that kind with that name declares a token.
fn declares(kind: ItemKind, name: &str) -> bool
    ensures { result ≡ declares kind name.now }
{
    match kind {
        ItemKind::Prec => true,
        ItemKind::Symbol => is_predefined(name),
        _ => false,
    }
}

// The alternatives. The rules for the actions of one come before it.
fn text_alternatives<'a>(
    alloc: Global,
    alternatives: &[Alternative<'a>],
    aliases: &BTreeMap<&'a str, Word<'a>>,
    midrules: &[text::Word<'a>],
) -> Result<Vec<text_outline::Alternative<'a>>, AllocError>
    requires { length (actions_of (map file_alternative_of alternatives.now)) ≤ length midrules.now }
    ensures { IfOk result (AreTextAlternatives aliases.now alternatives.now midrules.now) }
{
    let mut texts = Vec::new(alloc);
    let mut done = 0;
    for alternative in alternatives {
        let end = done + action_count(&alternative.items);
        let here = &midrules[done..end];
        push_midrules(alloc, &mut texts, here)?;
        texts.push(text_alternative(alloc, alternative, aliases, here)?)?;
        done = end;
    }
    Ok(texts)
}

// Appends the alternatives of rules for actions, which have no symbols.
fn push_midrules<'a>(
    alloc: Global,
    texts: &mut Vec<text_outline::Alternative<'a>>,
    midrules: &[text::Word<'a>],
) -> Result<(), AllocError>
    ensures { OnOk result (AppendsMidrules texts.old texts.new midrules.now) }
{
    for midrule in midrules {
        texts.push(text_outline::Alternative {
            rule: *midrule,
            symbols: Vec::new(alloc),
            end: *midrule,
        })?;
    }
    Ok(())
}

// An alternative, with these rules for its actions.
fn text_alternative<'a>(
    alloc: Global,
    alternative: &Alternative<'a>,
    aliases: &BTreeMap<&'a str, Word<'a>>,
    midrules: &[text::Word<'a>],
) -> Result<text_outline::Alternative<'a>, AllocError>
    requires { length (actions_in (file_alternative_of alternative.now).items) ≤ length midrules.now }
    ensures { IfOk result (IsTextAlternative aliases.now alternative.now midrules.now) }
{
    Ok(text_outline::Alternative {
        rule: text_word(alternative.rule),
        symbols: filled(alloc, &alternative.items, aliases, midrules)?,
        end: text_word(alternative.end),
    })
}
