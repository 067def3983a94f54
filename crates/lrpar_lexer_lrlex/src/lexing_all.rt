//! The lexemes of a text by rules with start states, if unmatched characters are lexemes, too.
ghost use Rattle.std.specs.Prelude.{◌≡◌, ◌+◌, ◌<◌, IfOk, length};
ghost use Rattle.std.specs.Str.{IsCharBoundary};
ghost use Rattle.lrpar_lexer.specs.Matchers.{programs_of};
ghost use Rattle.lrpar_lexer_lrlex.specs.Stacks.{KeepsTopWithout};
ghost use Rattle.lrpar_lexer_lrlex.specs.StoredLexemes.{AreAllLexemesIn, ComesIn};
ghost use Rattle.lrpar_lexer_lrlex.specs.StoredRules.{AreReady};

use crate::lexing::{active_after, active_rules, matchers_of, read_at, target_of, token_of};
use crate::rules::LrlexRules;
use crate::stack::Stack;
use crate::states::Target;
use lrpar_grammar_places::span::{StorageIndex, TIdx};
use lrpar_lexer::{Matchers, NoToken, Token, push_lexeme};
use std::alloc::{AllocError, Global};

// The lexemes of a text, by the rules. Each longest run of characters at which no active rule matches is a lexeme of the token `unmatched`,
// and so is each match that pops the last state.
pub(crate) fn all_answers<StorageT: StorageIndex>(
    alloc: Global,
    rules: &LrlexRules<StorageT>,
    unmatched: TIdx<StorageT>,
    text: &str,
) -> Result<Vec<Result<Token<StorageT>, NoToken>>, AllocError>
    ensures { IfOk result (AreAllLexemesIn StorageT.index rules.now unmatched text.now) }
{
    let mut matchers = matchers_of(alloc, rules)?;
    let mut stack = Stack::new(alloc);
    let mut active = active_rules(alloc, rules, 0)?;
    let mut answers = Vec::new(alloc);
    let mut at = 0;
    'places: while at < text.len() {
        let (token, len, target) = next_lexeme(
            &mut matchers,
            rules,
            unmatched,
            &mut stack,
            &active,
            text,
            at,
        )?;
        let next = active_after(alloc, rules, active, stack.top, target)?;
        active = next;
        push_lexeme(&mut answers, token, at, len)?;
        at += len;
    }
    Ok(answers)
}

// What comes at byte `at`: its token, if it has one, its bytes, and the target by which the stack is moved.
fn next_lexeme<StorageT: StorageIndex>(
    matchers: &mut Matchers<'_>,
    rules: &LrlexRules<StorageT>,
    unmatched: TIdx<StorageT>,
    stack: &mut Stack,
    active: &[usize],
    text: &str,
    at: usize,
) -> Result<(Option<TIdx<StorageT>>, usize, Option<Target>), AllocError>
    requires ready { AreReady StorageT.index rules.now stack.old.top matchers.old active.now }
    requires within { at < length text.now }
    requires boundary { IsCharBoundary text.now at }
    ensures next { IfOk result (ComesIn StorageT.index rules.now unmatched text.now at stack.old stack.new) }
    ensures some { IfOk result (λ next. 0 < next.1) }
    ensures boundary { IfOk result (λ next. IsCharBoundary text.now (at + next.1)) }
    ensures stays { IfOk result (λ next. KeepsTopWithout next.2 stack.old stack.new) }
    ensures same { programs_of matchers.new ≡ programs_of matchers.old }
{
    let Some((rule, len)) = read_at(matchers, rules, stack.top, active, text, at) else {
        let run = matchers.measure_unmatched(text, at, Some(active));
        return Ok((Some(unmatched), run, None));
    };
    let target = target_of(rules, rule);
    let goes = stack.go_on(target)?;
    if !goes {
        return Ok((Some(unmatched), len, None));
    }
    Ok((token_of(rules, rule), len, target))
}
