//! Lexers by rules, with a token for unmatched characters and without one, and lexers over lists.
use crate::expectations::{holds, same};
use lrpar_grammar::span::{Span, TIdx};
use lrpar_lexer::{LexRule, ListLexer, NoToken, RuleLexer, Token, TokenTypes};
use lrpar_parse_lexemes::lex_api::{InputLexer, Lexeme, Lexer};
use std::alloc::Global;
use std::process::Abort;
use std::test::Fail;

// What a lexer gives: the texts of lexemes and of errors.
fn written<L: Lexer<TokenTypes>>(rt: &impl Abort, alloc: Global, lexer: &L) -> String {
    let mut all = String::new(alloc);
    for answer in lexer.iter(alloc).expect(rt, "memory") {
        let done = match answer {
            Ok(lexeme) => writeln!(all, "{lexeme}"),
            Err(error) => writeln!(all, "{error}"),
        };
        holds(rt, &"memory", done.is_ok());
    }
    all
}

// The rule of a pattern.
fn rule(rt: &impl Abort, alloc: Global, pattern: &str, token: Option<TIdx<u32>>) -> LexRule {
    match LexRule::new(alloc, pattern, token) {
        Ok(rule) => rule,
        Err(_) => panic!(rt; "no rule"),
    }
}

// The rules of words, which are the token 3, and of blanks.
fn rules(rt: &impl Abort, alloc: Global) -> Vec<LexRule> {
    let mut rules = Vec::new(alloc);
    for (pattern, token) in [("[a-z]+", Some(TIdx(3))), (" +", None)] {
        rules
            .push(rule(rt, alloc, pattern, token))
            .expect(rt, "memory");
    }
    rules
}

// A text, and its lexemes and the error that ends them: words are the token 3, and blanks are skipped.
const MATCHED: [(&str, &str); 5] = [
    ("", ""),
    ("   ", ""),
    ("ab  c", "token 3 at 0..2\ntoken 3 at 4..5\n"),
    ("a ?b", "token 3 at 0..1\nno token fits at byte 2\n"),
    ("?b", "no token fits at byte 0\n"),
];

// A text, and its lexemes, where unmatched characters are the token 7.
const UNMATCHED: [(&str, &str); 8] = [
    ("", ""),
    ("ab c", "token 3 at 0..2\ntoken 3 at 3..4\n"),
    ("?", "token 7 at 0..1\n"),
    ("??ab", "token 7 at 0..2\ntoken 3 at 2..4\n"),
    ("ab??", "token 3 at 0..2\ntoken 7 at 2..4\n"),
    (
        "a??  ?b",
        "token 3 at 0..1\ntoken 7 at 1..3\ntoken 7 at 5..6\ntoken 3 at 6..7\n",
    ),
    ("😀😀a", "token 7 at 0..8\ntoken 3 at 8..9\n"),
    ("a?😀", "token 3 at 0..1\ntoken 7 at 1..6\n"),
];

#[test]
fn lexemes_of_rules(rt: HostRuntime) -> Result<(), Fail> {
    let rules = rules(&rt, rt.alloc());
    are_given(&rt, rt.alloc(), &rules);
    Ok(())
}

// The rules give these lexemes over each text.
fn are_given(rt: &impl Abort, alloc: Global, rules: &[LexRule]) {
    for (input, expected) in MATCHED {
        let lexer = RuleLexer::new(alloc, rules, input).expect(rt, "memory");
        gives(rt, alloc, &lexer, expected);
    }
    for (input, expected) in UNMATCHED {
        let lexer = RuleLexer::new(alloc, rules, input).expect(rt, "memory");
        gives(rt, alloc, &lexer.with_unmatched(TIdx(7)), expected);
    }
}

// The lexer gives these lexemes, and so does the list of them.
fn gives(rt: &impl Abort, alloc: Global, lexer: &RuleLexer<'_, '_>, expected: &str) {
    let found = written(rt, alloc, lexer);
    same(rt, &"lexemes", &found.as_str(), &expected);
    let lexed = lexer.lexed(alloc).expect(rt, "memory");
    let found = written(rt, alloc, &lexed);
    same(rt, &"lexed", &found.as_str(), &expected);
}

const PARTED: &str = "aé\nb";

// A list for that text, whose `é` has two bytes.
fn listed(rt: &impl Abort, alloc: Global) -> ListLexer<'static> {
    let error = NoToken::new(Span::new(3, 4)).clone().expect(rt, "memory");
    let mut answers = Vec::new(alloc);
    for answer in [Ok(Token::new(1, 0, 3)), Err(error), Ok(Token::new(2, 4, 1))] {
        answers.push(answer).expect(rt, "memory");
    }
    ListLexer::new(alloc, PARTED, answers).expect(rt, "a lexer")
}

#[test]
fn lists_are_lexers(rt: HostRuntime) -> Result<(), Fail> {
    let lexer = listed(&rt, rt.alloc());
    is_list(&rt, rt.alloc(), &lexer);
    Ok(())
}

// What the list gives, its input and the text of a lexeme are these.
fn is_list(rt: &impl Abort, alloc: Global, lexer: &ListLexer<'_>) {
    let all = written(rt, alloc, lexer);
    let found = (
        all.as_str(),
        lexer.input(),
        lexer.text(&Token::new(1, 1, 2)),
    );
    let expected = "token 1 at 0..3\nno token fits at byte 3\ntoken 2 at 4..5\n";
    same(rt, &"list", &found, &(expected, PARTED, "é"));
}
