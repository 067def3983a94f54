//! The lexemes and errors of a text by rules with start states.
ghost use Rattle.std.specs.Prelude.{◌≡◌, ◌<◌, ◌≤◌, ◌+◌, IfOk, IfSome, Some, length, slice_get};
ghost use Rattle.std.specs.Str.{IsCharBoundary};
ghost use Rattle.lrpar_lexer.specs.Matchers.{AreMatchersOf, programs_of};
ghost use Rattle.lrpar_lexer_lrlex.specs.LexingIn.{nothing_below};
ghost use Rattle.lrpar_lexer_lrlex.specs.StoredLexemes.{AreLexemesIn, FindsActive};
ghost use Rattle.lrpar_lexer_lrlex.specs.StoredRules.{AreActive, AreActiveWithout, AreReady, HasTargetAt, HasTokenAt};

use crate::active::active_in;
use crate::rules::LrlexRules;
use crate::stack::Stack;
use crate::states::Target;
use lrpar_grammar_places::span::{Span, StorageIndex, TIdx};
use lrpar_lexer::{Matchers, NoToken, Token, push_lexeme};
use std::alloc::{AllocError, Global};

// The lexemes and errors of a text, by the rules.
pub(crate) fn answers<StorageT: StorageIndex>(
    alloc: Global,
    rules: &LrlexRules<StorageT>,
    text: &str,
) -> Result<Vec<Result<Token<StorageT>, NoToken>>, AllocError>
    ensures { IfOk result (AreLexemesIn StorageT.index rules.now text.now) }
{
    let mut matchers = matchers_of(alloc, rules)?;
    let mut stack = Stack::new(alloc);
    let mut active = active_rules(alloc, rules, 0)?;
    let mut answers = Vec::new(alloc);
    let mut at = 0;
    'places: while at < text.len() {
        let Some((rule, len)) = read_at(&mut matchers, rules, stack.top, &active, text, at) else {
            answers.push(Err(NoToken::at(at)))?;
            return Ok(answers);
        };
        let target = target_of(rules, rule);
        let goes = stack.go_on(target)?;
        if !goes {
            answers.push(Err(nothing_below(at, len)))?;
            return Ok(answers);
        }
        let next = active_after(alloc, rules, active, stack.top, target)?;
        active = next;
        push_lexeme(&mut answers, token_of(rules, rule), at, len)?;
        at += len;
    }
    Ok(answers)
}

// The searches for the patterns of the rules.
pub(crate) fn matchers_of<StorageT: StorageIndex>(
    alloc: Global,
    rules: &LrlexRules<StorageT>,
) -> Result<Matchers<'_>, AllocError>
    ensures { IfOk result (AreMatchersOf rules.now.rules.items) }
{
    Matchers::new(alloc, &rules.rules)
}

// The numbers of the rules that are active in a state.
pub(crate) fn active_rules<StorageT: StorageIndex>(
    alloc: Global,
    rules: &LrlexRules<StorageT>,
    state: usize,
) -> Result<Vec<usize>, AllocError>
    ensures { IfOk result (AreActive StorageT.index rules.now state) }
{
    active_in(alloc, &rules.exclusive, &rules.starts, state)
}

// The error for a match that pops the last state.
fn nothing_below(at: usize, len: usize) -> NoToken
    requires { at + len ≤ usize.MAX }
    ensures { result ≡ nothing_below at len }
{
    NoToken::new(Span::new(at, at + len))
}

// The target of a rule.
pub(crate) fn target_of<StorageT: StorageIndex>(
    rules: &LrlexRules<StorageT>,
    rule: usize,
) -> Option<Target>
    requires { rule < length rules.now.starts.items }
    ensures { HasTargetAt StorageT.index rules.now rule result }
{
    rules.starts[rule].target
}

// The token of a rule.
pub(crate) fn token_of<StorageT: StorageIndex>(
    rules: &LrlexRules<StorageT>,
    rule: usize,
) -> Option<TIdx<StorageT>>
    requires { rule < length rules.now.starts.items }
    ensures { HasTokenAt StorageT.index rules.now rule result }
{
    rules.rules[rule].token()
}

// Of the active rules the one that wins at byte `at`, and the number of bytes of its match.
pub(crate) fn read_at<StorageT: StorageIndex>(
    matchers: &mut Matchers<'_>,
    rules: &LrlexRules<StorageT>,
    state: usize,
    active: &[usize],
    text: &str,
    at: usize,
) -> Option<(usize, usize)>
    requires ready { AreReady StorageT.index rules.now state matchers.old active.now }
    requires within { at < length text.now }
    requires boundary { IsCharBoundary text.now at }
    ensures found { FindsActive StorageT.index rules.now state text.now at result }
    ensures known { IfSome result (λ found. found.0 < length rules.now.starts.items) }
    ensures some { IfSome result (λ found. 0 < found.1) }
    ensures boundary { IfSome result (λ found. IsCharBoundary text.now (at + found.1)) }
    ensures same { programs_of matchers.new ≡ programs_of matchers.old }
{
    let winner = matchers.find_winner_among(&text[at..], active)?;
    Some((rule_at(active, winner.rule), winner.len))
}

// One of the active rules.
fn rule_at(active: &[usize], place: usize) -> usize
    requires { place < length active.now }
    ensures { slice_get active.now place ≡ Some result }
{
    active[place]
}

// The rules that are active in the state on top after a match with this target. Without a target it is the same state as before.
pub(crate) fn active_after<StorageT: StorageIndex>(
    alloc: Global,
    rules: &LrlexRules<StorageT>,
    active: Vec<usize>,
    top: usize,
    target: Option<Target>,
) -> Result<Vec<usize>, AllocError>
    requires same { AreActiveWithout StorageT.index rules.now target top active }
    ensures { IfOk result (AreActive StorageT.index rules.now top) }
{
    if target.is_none() {
        return Ok(active);
    }
    active_rules(alloc, rules, top)
}
