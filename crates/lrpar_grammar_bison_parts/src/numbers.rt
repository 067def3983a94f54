//! Numbers of tokens.
ghost use Rattle.std.specs.Prelude.{◌≡◌, IfErr, OnOk, None, map};
ghost use Rattle.lrpar_grammar_bison.specs.Words.{placed};
ghost use Rattle.lrpar_grammar_bison_rules.specs.Rules.{number_of, rules_in};
ghost use Rattle.lrpar_grammar_bison_parts.specs.Numbers.{HasOther, IsNumberFault, has_own_other, number_fault};

use crate::faults::BisonFault;
use lrpar_grammar_bison::numbers::token_number;
use lrpar_grammar_bison::spellings::character_in;
use lrpar_grammar_bison::words::Word;
use lrpar_grammar_bison_rules::rules::{FileRules, TokenNumber};
use std::alloc::Global;
use std::collections::BTreeMap;

/// Looks at the numbers of tokens. Fails with `BadNumber` at one that no token can have, or with `RepeatedNumber` at one whose token has
/// another one already, whichever is first; or with `Memory`. A literal has the number of its character.
pub fn check_numbers(alloc: Global, rules: &FileRules) -> Result<(), BisonFault>
    ensures sound { OnOk result (number_fault (rules_in rules.now).numbers ≡ None) }
    ensures fault { IfErr result (IsNumberFault (rules_in rules.now).numbers) }
{
    check_each(alloc, &rules.numbers)
}

// Looks at each of the numbers.
fn check_each(alloc: Global, numbers: &[TokenNumber]) -> Result<(), BisonFault>
    ensures sound { OnOk result (number_fault (map number_of numbers.now) ≡ None) }
    ensures fault { IfErr result (IsNumberFault (map number_of numbers.now)) }
{
    let mut found = BTreeMap::new(alloc);
    for entry in numbers {
        let Some(number) = token_number(entry.number.name.as_bytes()) else {
            return Err(BisonFault::BadNumber(entry.number.span()));
        };
        if has_other(entry, number, &found) {
            return Err(BisonFault::RepeatedNumber(entry.number.span()));
        }
        found.insert(entry.token.name, number)?;
    }
    Ok(())
}

// Whether the token of the entry has another number, by those that were found.
fn has_other<'a>(entry: &TokenNumber<'a>, number: u64, found: &BTreeMap<&'a str, u64>) -> bool
    ensures { HasOther found.now entry.now number result }
{
    match found.get(entry.token.name) {
        Some(other) => *other != number || has_own_other(entry.token, number),
        None => has_own_other(entry.token, number),
    }
}

// Whether the token is a literal of a character with another number.
fn has_own_other(token: Word, number: u64) -> bool
    ensures { result ≡ has_own_other (placed token.entry) number }
{
    match character_in(token) {
        Some(character) => u64::from(character) != number,
        None => false,
    }
}
