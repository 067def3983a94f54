//! The rules of a lexer as a text.
ghost use Rattle.std.specs.Prelude.{◌≡◌, IfErr, IfOk};
ghost use Rattle.lrpar_lexer.specs.RuleLines.{FindsEnding, FindsGap, FindsParts, core_of};
ghost use Rattle.lrpar_lexer.specs.RuleTexts.{AreRulesOfText, IsRulesFaultOf, IsFaultOfLine, IsFaultOfName, IsFaultOfPattern, IsFirstNamed, IsRuleOf};

use crate::rule::LexRule;
use lrpar_grammar::grammar::YaccGrammar;
use lrpar_grammar_places::span::{StorageIndex, TIdx};
use std::alloc::{AllocError, AllocFailed, Global};
use thiserror::Error;

/// Why a text gives no rules.
#[derive(Debug, Drop, Error)]
pub enum RulesFault {
    /// The line with this number, counted from 1, gives no rule, for this reason.
    #[error("line {0}: {1}")]
    Line(usize, LineFault),
    /// An allocation failed.
    #[error("out of memory")]
    Memory,
}

/// Why a line gives no rule.
#[derive(Clone, Copy, Debug, PartialEq, Eq, Error)]
pub enum LineFault {
    /// It doesn't have the form of a rule.
    #[error("expected PATTERN 'NAME' or PATTERN ;")]
    Unread,
    /// Its name isn't the name of a token of the grammar.
    #[error("the grammar has no token of this name")]
    Unnamed,
    /// `regex` refuses its pattern, with this error. The places of the error are bytes of the pattern.
    #[error("bad pattern: {0}")]
    Pattern(regex::Error),
}

/// The rules of a text, one a line, with tokens of the grammar. `PATTERN 'NAME'` is a rule with the token NAME, and
/// `PATTERN ;` is a rule whose matches are skipped; one or more spaces or tabs come after the pattern. Spaces, tabs and carriage
/// returns at both ends of a line are ignored, and so is a line with nothing else. NAME is the text between the last two quotes.
///
/// The rules are in the order of their lines. A fault has the first line that gives no rule, and the reason.
pub fn rules_of<StorageT: StorageIndex>(
    alloc: Global,
    grm: &YaccGrammar<StorageT>,
    text: &str,
) -> Result<Vec<LexRule<StorageT>>, RulesFault>
    ensures rules { IfOk result (AreRulesOfText StorageT.index grm.now text.now) }
    ensures fault { IfErr result (IsRulesFaultOf StorageT.index grm.now text.now) }
{
    let mut rules = Vec::new(alloc);
    let mut number = 0;
    'lines: for line in text.split('\n') {
        number += 1;
        let core = core_of(line);
        if !core.is_empty() {
            rules.push(rule_of(alloc, grm, core, number)?)?;
        }
    }
    Ok(rules)
}

// The line without spaces, tabs and carriage returns at its ends.
fn core_of(line: &str) -> &str
    ensures { result.now ≡ core_of line.now }
{
    line.trim_start_matches([' ', '\t', '\r'])
        .trim_end_matches([' ', '\t', '\r'])
}

// The rule of a line with this number.
fn rule_of<StorageT: StorageIndex>(
    alloc: Global,
    grm: &YaccGrammar<StorageT>,
    line: &str,
    number: usize,
) -> Result<LexRule<StorageT>, RulesFault>
    ensures rule { IfOk result (IsRuleOf StorageT.index grm.now line.now) }
    ensures fault { IfErr result (IsFaultOfLine grm.now number line.now) }
{
    let Some((pattern, name)) = rule_parts(line) else {
        return Err(RulesFault::Line(number, LineFault::Unread));
    };
    let token = match name {
        Some(name) => Some(token_named(grm, name, number)?),
        None => None,
    };
    match LexRule::new(alloc, pattern, token) {
        Ok(rule) => Ok(rule),
        Err(error) => Err(refusal(&error, number)),
    }
}

// The fault of a line whose pattern is refused.
fn refusal(error: &regex::Error, number: usize) -> RulesFault
    ensures { IsFaultOfPattern number error.now result }
{
    match error {
        regex::Error::OutOfMemory => RulesFault::Memory,
        refusal => RulesFault::Line(number, LineFault::Pattern(*refusal)),
    }
}

// The first token with that name.
fn token_named<StorageT: StorageIndex>(
    grm: &YaccGrammar<StorageT>,
    name: &str,
    number: usize,
) -> Result<TIdx<StorageT>, RulesFault>
    ensures token { IfOk result (IsFirstNamed StorageT.index grm.now name.now) }
    ensures fault { IfErr result (IsFaultOfName grm.now number name.now) }
{
    match grm.token_idx(name) {
        Some(token) => Ok(token),
        None => Err(RulesFault::Line(number, LineFault::Unnamed)),
    }
}

// The pattern of a line, and the name of its token, if it has one.
fn rule_parts(line: &str) -> Option<(&str, Option<&str>)>
    ensures { FindsParts line.now result }
{
    let (front, name) = line_parts(line)?;
    Some((pattern_before_gap(front)?, name))
}

// The text before the ending of a line, and the name of its token, if the ending has one.
fn line_parts(line: &str) -> Option<(&str, Option<&str>)>
    ensures { FindsEnding line.now result }
{
    match line.strip_suffix('\'') {
        Some(quoted) => {
            let (front, name) = quoted.rsplit_once('\'')?;
            Some((front, Some(name)))
        }
        None => Some((line.strip_suffix(';')?, None)),
    }
}

// The pattern before spaces and tabs, of which there must be at least one.
fn pattern_before_gap(front: &str) -> Option<&str>
    ensures { FindsGap front.now result }
{
    let pattern = front.trim_end_matches([' ', '\t']);
    if pattern.is_empty() || pattern.len() == front.len() {
        None
    } else {
        Some(pattern)
    }
}

impl From<AllocError> for RulesFault {
    ghost use Rattle.std.specs.Prelude.{◌≡◌};
    ghost use Rattle.lrpar_lexer.specs.declared.rules.RulesFault.TheVariants.{Memory};

    ghost from_gives = { λ _ fault. fault ≡ Memory };

    fn from(_: AllocError) -> RulesFault {
        RulesFault::Memory
    }
}

impl<T: Drop> From<AllocFailed<T>> for RulesFault {
    ghost use Rattle.std.specs.Prelude.{◌≡◌};
    ghost use Rattle.lrpar_lexer.specs.declared.rules.RulesFault.TheVariants.{Memory};

    ghost from_gives = { λ _ fault. fault ≡ Memory };

    fn from(_: AllocFailed<T>) -> RulesFault {
        RulesFault::Memory
    }
}
