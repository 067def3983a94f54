//! The lexemes of a text whose unmatched characters are lexemes, too.
ghost use Rattle.std.specs.Prelude.{◌≡◌, ◌+◌, ◌<◌, IfOk, length};
ghost use Rattle.std.specs.Str.{IsCharBoundary};
ghost use Rattle.lrpar_lexer.specs.Matchers.{AreMatchersOf, programs_of};
ghost use Rattle.lrpar_lexer.specs.StoredLexemes.{AreAllLexemesOf, ComesAt};

use crate::lexing::{push_lexeme, token_of};
use crate::matching::Matchers;
use crate::rule::LexRule;
use crate::token::{NoToken, Token};
use lrpar_grammar_places::span::{StorageIndex, TIdx};
use std::alloc::{AllocError, Global};

// The lexemes of a text, by the rules. Each longest run of characters at which no rule matches is a lexeme of the token `unmatched`.
pub(crate) fn all_answers<StorageT: StorageIndex>(
    alloc: Global,
    rules: &[LexRule<StorageT>],
    unmatched: TIdx<StorageT>,
    text: &str,
) -> Result<Vec<Result<Token<StorageT>, NoToken>>, AllocError>
    ensures { IfOk result (AreAllLexemesOf StorageT.index rules.now unmatched text.now) }
{
    let mut matchers = Matchers::new(alloc, rules)?;
    let mut answers = Vec::new(alloc);
    let mut at = 0;
    'places: while at < text.len() {
        let (token, len) = next_lexeme(&mut matchers, rules, unmatched, text, at);
        push_lexeme(&mut answers, token, at, len)?;
        at += len;
    }
    Ok(answers)
}

// What comes at byte `at`, in bytes, and its token: the match of a rule, or the longest run at which no rule matches.
fn next_lexeme<StorageT: StorageIndex>(
    matchers: &mut Matchers<'_>,
    rules: &[LexRule<StorageT>],
    unmatched: TIdx<StorageT>,
    text: &str,
    at: usize,
) -> (Option<TIdx<StorageT>>, usize)
    requires programs { AreMatchersOf rules.now matchers.old }
    requires within { at < length text.now }
    requires boundary { IsCharBoundary text.now at }
    ensures next { ComesAt StorageT.index rules.now unmatched text.now at result }
    ensures some { 0 < result.1 }
    ensures boundary { IsCharBoundary text.now (at + result.1) }
    ensures same { programs_of matchers.new ≡ programs_of matchers.old }
{
    let Some(winner) = matchers.find_winner(&text[at..]) else {
        return (Some(unmatched), matchers.measure_unmatched(text, at, None));
    };
    (token_of(rules, winner.rule), winner.len)
}
