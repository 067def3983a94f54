//! The words of a `.y` file by what they are to its declarations and rules.
ghost use Rattle.std.specs.Prelude.{◌≡◌, map};
ghost use Rattle.lrpar_grammar_bison.specs.Words.{placed};
ghost use Rattle.lrpar_grammar_bison_rules.specs.Signs.{begins_rule, is_colon, is_colon_first, is_label, sign_of};

use crate::directives::{Directive, directive_named};
use lrpar_grammar_bison::words::{Word, WordKind};

/// What a word is to the declarations and rules.
#[derive(Clone, Copy, Debug, PartialEq, Eq)]
pub enum Sign {
    /// A directive that bison knows.
    Directive(Directive),
    /// The name of a rule, before its `:`. A label may be between them.
    RuleName,
    /// Another word, of this kind.
    Other(WordKind),
}

/// What the word is, with these words after it.
pub fn sign_of(word: &Word, after: &[Word]) -> Sign
    ensures { result ≡ sign_of (placed word.now) (map placed after.now) }
{
    match word.kind {
        WordKind::Directive => match directive_named(word.name) {
            Some(directive) => Sign::Directive(directive),
            None => Sign::Other(word.kind),
        },
        WordKind::Name if begins_rule(after) => Sign::RuleName,
        kind => Sign::Other(kind),
    }
}

// Whether the words begin with a `:`, perhaps after a label.
fn begins_rule(words: &[Word]) -> bool
    ensures { result ≡ begins_rule (map placed words.now) }
{
    match words {
        [first, after @ ..] => is_colon(first.kind)
            || (is_label(first.kind) && is_colon_first(after)),
        [] => false,
    }
}

// Whether the words begin with a `:`.
fn is_colon_first(words: &[Word]) -> bool
    ensures { result ≡ is_colon_first (map placed words.now) }
{
    match words {
        [first, ..] => is_colon(first.kind),
        [] => false,
    }
}

// Whether the word is a `:`.
fn is_colon(kind: WordKind) -> bool
    ensures { result ≡ is_colon kind }
{
    matches!(kind, WordKind::Colon)
}

// Whether the word is a label.
fn is_label(kind: WordKind) -> bool
    ensures { result ≡ is_label kind }
{
    matches!(kind, WordKind::Label)
}
