//! The lexemes and errors of a text.
ghost use Rattle.std.specs.Prelude.{◌<◌, ◌≤◌, ◌+◌, IfOk, OnOk, length};
ghost use Rattle.lrpar_lexer.specs.Rules.{HasTokenAt};
ghost use Rattle.lrpar_lexer.specs.StoredLexemes.{AppendsLexeme, AreLexemesOf};

use crate::matching::Matchers;
use crate::rule::LexRule;
use crate::token::{NoToken, Token};
use lrpar_grammar_places::span::{StorageIndex, TIdx};
use std::alloc::{AllocError, Global};

// The lexemes and errors of a text, by the rules.
pub(crate) fn answers<StorageT: StorageIndex>(
    alloc: Global,
    rules: &[LexRule<StorageT>],
    text: &str,
) -> Result<Vec<Result<Token<StorageT>, NoToken>>, AllocError>
    ensures { IfOk result (AreLexemesOf StorageT.index rules.now text.now) }
{
    let mut matchers = Matchers::new(alloc, rules)?;
    let mut answers = Vec::new(alloc);
    let mut at = 0;
    'places: while at < text.len() {
        let Some(winner) = matchers.find_winner(&text[at..]) else {
            answers.push(Err(NoToken::at(at)))?;
            return Ok(answers);
        };
        push_lexeme(&mut answers, token_of(rules, winner.rule), at, winner.len)?;
        at += winner.len;
    }
    Ok(answers)
}

// The token of one of the rules.
pub(crate) fn token_of<StorageT: StorageIndex>(
    rules: &[LexRule<StorageT>],
    rule: usize,
) -> Option<TIdx<StorageT>>
    requires { rule < length rules.now }
    ensures { HasTokenAt StorageT.index rules.now rule result }
{
    rules[rule].token
}

/// Appends the lexeme of the token, with `len` bytes from byte `at` on; nothing if there is no token. `Err`: out of memory.
pub fn push_lexeme<StorageT: StorageIndex>(
    answers: &mut Vec<Result<Token<StorageT>, NoToken>>,
    token: Option<TIdx<StorageT>>,
    at: usize,
    len: usize,
) -> Result<(), AllocError>
    requires fits { at + len ≤ usize.MAX }
    ensures { OnOk result (AppendsLexeme StorageT.index token at len answers.old answers.new) }
{
    let Some(token) = token else {
        return Ok(());
    };
    answers.push(Ok(Token::read(token.0, at, len)))?;
    Ok(())
}
