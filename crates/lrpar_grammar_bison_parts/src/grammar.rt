//! The grammar of a `.y` file as bison reads it.
ghost use Rattle.std.specs.Prelude.{◌≡◌, IfErr, IfOk, map};
ghost use Rattle.lrpar_grammar_bison_rules.specs.Rules.{AreOfDefinedRules, HaveOrderedItems, alternative_of, item_of, rules_in};
ghost use Rattle.lrpar_grammar_words.specs.Words.{placed as text_placed};
ghost use Rattle.lrpar_grammar_bison_parts.specs.Files.{HasUnquotedTokens, IsAlternativeFault, empty_in, false_empty, has_symbol, is_empty_sign, is_filled, repeated_empty, repeated_prec, second_empty, second_prec};
ghost use Rattle.lrpar_grammar_bison_parts.specs.Outline.{midrules_of};

use crate::faults::BisonFault;
use crate::midrules::{action_count, is_symbol, midrule_actions, midrule_names, midrule_words};
use crate::numbers::check_numbers;
use crate::outline::outline_of_file;
use crate::precedences::{
    TokenRanks, is_prec, prec_words, prod_slots, rank_list, rank_map, token_slots,
};
use crate::symbols::alias_map;
use crate::unquoted::unquoted_tokens;
use lrpar_grammar_bison_rules::rules::{Alternative, FileRules, Item};
use lrpar_grammar_bison_rules::word_order::ItemKind;
use lrpar_grammar_places::span::{Span, StorageIndex};
use lrpar_grammar_reader::parts::GrammarParts;
use lrpar_grammar_reader::reader::checked_parts;
use lrpar_grammar_words::words as text;
use lrpar_table_precedence::precedences::Precedences;
use std::alloc::{AllocError, Global};

/// The parts of the grammar of a `.y` file, and the precedences that the file declares. `YaccGrammar::from_parts` makes a grammar of the
/// parts, and `TableOptions::precedences` takes the precedences.
///
/// An action that isn't the last of its alternative is a rule without symbols, named `$@1` and so on. A token that is used in the place of
/// another one's text is that one. Literals are named without their quotes, so two tokens may have one name. `error` and `YYUNDEF` are
/// tokens if a rule uses them. The token with the number 0, or else `YYEOF`, is the end token, which has no name; but if a rule uses it,
/// it is a token like others, beside the end token.
pub struct BisonGrammar<StorageT: StorageIndex> {
    /// The rules, tokens and productions. Productions are in the order of the file; those of rules for the actions of an alternative
    /// come right before it.
    pub parts: GrammarParts<StorageT>,
    /// The precedences of tokens and productions.
    pub precedences: Precedences,
}

impl<StorageT: StorageIndex> BisonGrammar<StorageT> {
    ghost use Rattle.lrpar_grammar_bison_parts.specs.Files.{IsBisonFault, IsFileFault, IsGrammarOfFile, IsGrammarOfRules, IsGrammarWith, IsPartsFault};

    /// The grammar of a file.
    ///
    /// Fails with `Rules` if its declarations and rules can't be read; else with the first of these that holds: `RepeatedPrec`,
    /// `RepeatedEmpty`, `NotEmpty`, `BadNumber` or `RepeatedNumber`, `RepeatedPrecedence`, each at its first place, and then the faults
    /// of a grammar text, as `Grammar`; or with `Memory`. Takes memory linear in the text, and time linear in it but for names: each is
    /// looked up in logarithmic time.
    pub fn read(alloc: Global, text: &str) -> Result<Self, BisonFault>
        ensures grammar { IfOk result (IsGrammarOfFile StorageT.index StorageT.limit text.now) }
        ensures fault { IfErr result (IsFileFault StorageT.limit text.now) }
    {
        let rules = FileRules::read(alloc, text)?;
        BisonGrammar::of_rules(alloc, &rules)
    }

    /// The grammar that the declarations and rules of a file make. Fails as `read` does, but for `Rules`.
    pub fn of_rules(alloc: Global, rules: &FileRules) -> Result<Self, BisonFault>
        requires defined { AreOfDefinedRules (rules_in rules.now) }
        requires order { HaveOrderedItems (rules_in rules.now) }
        ensures grammar { IfOk result (IsGrammarOfRules StorageT.index StorageT.limit (rules_in rules.now)) }
        ensures fault { IfErr result (IsBisonFault StorageT.limit (rules_in rules.now)) }
    {
        if let Some(fault) = alternative_fault(&rules.alternatives) {
            return Err(fault);
        }
        let actions = midrule_actions(alloc, &rules.alternatives)?;
        let names = midrule_names(alloc, actions.len())?;
        let midrules = midrule_words(alloc, &actions, &names)?;
        BisonGrammar::with_midrules(alloc, rules, &midrules)
    }

    // The grammar of these declarations and rules, with these rules for the actions among symbols.
    fn with_midrules<'a>(
        alloc: Global,
        rules: &FileRules<'a>,
        midrules: &[text::Word<'a>],
    ) -> Result<Self, BisonFault>
        requires defined { AreOfDefinedRules (rules_in rules.now) }
        requires order { HaveOrderedItems (rules_in rules.now) }
        requires midrules { map text_placed midrules.now ≡ midrules_of (rules_in rules.now) }
        ensures grammar { IfOk result (IsGrammarWith StorageT.index StorageT.limit (rules_in rules.now)) }
        ensures fault { IfErr result (IsPartsFault StorageT.limit (rules_in rules.now)) }
    {
        check_numbers(alloc, rules)?;
        let aliases = alias_map(alloc, &rules.aliases)?;
        let ranks = rank_list(alloc, &rules.ranked, &aliases)?;
        let by_name = rank_map(alloc, &ranks)?;
        let outline = outline_of_file(alloc, rules, &aliases, midrules)?;
        let parts = checked_parts(alloc, &outline)?;
        let slots = token_slots(alloc, &parts.tokens, &by_name)?;
        let words = prec_words(alloc, &rules.alternatives, &aliases)?;
        let ranking = TokenRanks {
            by_name: &by_name,
            by_number: &slots,
            is_default: rules.has_default_prec,
        };
        let prods = prod_slots(alloc, &parts.prods, &words, ranking)?;
        Ok(BisonGrammar {
            parts: with_unquoted_tokens(alloc, parts)?,
            precedences: Precedences::from_slots(slots, prods),
        })
    }
}

// The parts, with names of tokens that have no quotes.
fn with_unquoted_tokens<StorageT: StorageIndex>(
    alloc: Global,
    parts: GrammarParts<StorageT>,
) -> Result<GrammarParts<StorageT>, AllocError>
    ensures { IfOk result (HasUnquotedTokens StorageT.index parts) }
{
    let GrammarParts {
        rules,
        tokens,
        prods,
        start,
    } = parts;
    Ok(GrammarParts {
        rules,
        tokens: unquoted_tokens(alloc, &tokens)?,
        prods,
        start,
    })
}

// A second `%prec` of an alternative, else a second `%empty`, else a `%empty` beside symbols.
fn alternative_fault(alternatives: &[Alternative]) -> Option<BisonFault>
    ensures { IsAlternativeFault (map alternative_of alternatives.now) result }
{
    if let Some(span) = repeated_prec(alternatives) {
        return Some(BisonFault::RepeatedPrec(span));
    }
    if let Some(span) = repeated_empty(alternatives) {
        return Some(BisonFault::RepeatedEmpty(span));
    }
    match false_empty(alternatives) {
        Some(span) => Some(BisonFault::NotEmpty(span)),
        None => None,
    }
}

// The first `%prec` in an alternative that has one before.
fn repeated_prec(alternatives: &[Alternative]) -> Option<Span>
    ensures { result ≡ repeated_prec (map alternative_of alternatives.now) }
{
    for alternative in alternatives {
        if let Some(span) = second_prec(&alternative.items) {
            return Some(span);
        }
    }
    None
}

// The second `%prec` among the parts of an alternative.
fn second_prec(items: &[Item]) -> Option<Span>
    ensures { result ≡ second_prec (map item_of items.now) }
{
    let mut has_prec = false;
    for item in items {
        if is_prec(item.kind) {
            if has_prec {
                return Some(item.word.span());
            }
            has_prec = true;
        }
    }
    None
}

// The first `%empty` in an alternative that has one before.
fn repeated_empty(alternatives: &[Alternative]) -> Option<Span>
    ensures { result ≡ repeated_empty (map alternative_of alternatives.now) }
{
    for alternative in alternatives {
        if let Some(span) = second_empty(&alternative.items) {
            return Some(span);
        }
    }
    None
}

// The second `%empty` among the parts of an alternative.
fn second_empty(items: &[Item]) -> Option<Span>
    ensures { result ≡ second_empty (map item_of items.now) }
{
    let mut has_empty = false;
    for item in items {
        if is_empty_sign(item.kind) {
            if has_empty {
                return Some(item.word.span());
            }
            has_empty = true;
        }
    }
    None
}

// The first `%empty` in an alternative that has symbols.
fn false_empty(alternatives: &[Alternative]) -> Option<Span>
    ensures { result ≡ false_empty (map alternative_of alternatives.now) }
{
    for alternative in alternatives {
        if is_filled(&alternative.items)
            && let Some(span) = empty_in(&alternative.items)
        {
            return Some(span);
        }
    }
    None
}

// Whether the alternative has a symbol, or an action in the place of one.
fn is_filled(items: &[Item]) -> bool
    ensures { result ≡ is_filled (map item_of items.now) }
{
    has_symbol(items) || action_count(items) > 0
}

// Whether a part of the alternative is a symbol.
fn has_symbol(items: &[Item]) -> bool
    ensures { result ≡ has_symbol (map item_of items.now) }
{
    for item in items {
        if is_symbol(item.kind) {
            return true;
        }
    }
    false
}

// The first `%empty` among the parts of an alternative.
fn empty_in(items: &[Item]) -> Option<Span>
    ensures { result ≡ empty_in (map item_of items.now) }
{
    for item in items {
        if is_empty_sign(item.kind) {
            return Some(item.word.span());
        }
    }
    None
}

// Whether the part is a `%empty`.
fn is_empty_sign(kind: ItemKind) -> bool
    ensures { result ≡ is_empty_sign kind }
{
    matches!(kind, ItemKind::Empty)
}
