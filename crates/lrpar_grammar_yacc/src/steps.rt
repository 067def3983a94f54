//! The steps by which a `.y` file is read: blanks, words and parts, as far as each is allowed at its place.
ghost use Rattle.std.specs.Prelude.{◌≡◌, IfSome};
ghost use Rattle.std.specs.Option.{option_and_then};
ghost use Rattle.lrpar_grammar_words.specs.Words.{piece_at};
ghost use Rattle.lrpar_grammar_yacc.specs.Parts.{IsPartWithin};
ghost use Rattle.lrpar_grammar_yacc.specs.Steps.{IsStepWithin, part_step, piece_step, step_at, word_kind, word_step};

use crate::parts::{Part, PartKind, YaccKind, part_at};
use lrpar_grammar_words::word_order::{Expected, Role};
use lrpar_grammar_words::words::piece_at;

/// What a step passes over.
#[derive(Clone, Copy)]
pub enum StepKind {
    /// Blanks.
    Blank,
    /// A word that a grammar text may have there.
    Word,
    /// A `|` or `;` that ends an alternative.
    End,
    /// A part that a grammar text doesn't have.
    Part(PartKind),
}

/// A step.
#[derive(Clone, Copy)]
pub struct Step {
    /// What it passes over.
    pub kind: StepKind,
    /// Of a part, the number of bytes before its names, its number or its type.
    pub head: usize,
    /// Its length in bytes.
    pub len: usize,
    /// What is allowed after it.
    pub next: Expected,
}

/// The step at the start of the rest of a text, where words as `expected` are allowed: the blanks or the word there or, if there is
/// none that is allowed, the part. `None` at the end, and where nothing that is allowed begins.
#[tactic(auto, unfolding(crate::specs::Steps::step_at))]
pub fn step_at(kind: YaccKind, expected: Expected, rest: &[u8]) -> Option<Step>
    ensures step { result ≡ step_at kind expected rest.now }
    ensures within { IfSome result (IsStepWithin rest.now) }
{
    match piece_step(expected, rest) {
        Some(step) => Some(step),
        None => Some(part_step(expected, part_at(kind, expected, rest)?)),
    }
}

// The step over blanks, or over a word if it is allowed.
fn piece_step(expected: Expected, rest: &[u8]) -> Option<Step>
    ensures step { result ≡ option_and_then (λ x. piece_step expected x.len x.word) (piece_at rest.now) }
    ensures within { IfSome result (IsStepWithin rest.now) }
{
    let piece = piece_at(rest)?;
    match piece.word {
        None => Some(word_step(StepKind::Blank, piece.len, expected)),
        Some(word) => {
            let (role, next) = expected.after(word)?;
            Some(word_step(word_kind(role), piece.len, next))
        }
    }
}

// A step of that length over a word or blanks.
fn word_step(kind: StepKind, len: usize, next: Expected) -> Step
    ensures { result ≡ word_step kind len next }
{
    Step {
        kind,
        head: 0,
        len,
        next,
    }
}

// What a word of that role is to a step.
fn word_kind(role: Role) -> StepKind
    ensures { result ≡ word_kind role }
{
    match role {
        Role::AlternativeEnd => StepKind::End,
        _ => StepKind::Word,
    }
}

// The step over a part. What is allowed stays the same.
fn part_step(expected: Expected, part: Part) -> Step
    ensures { result ≡ part_step expected part }
{
    Step {
        kind: StepKind::Part(part.kind),
        head: part.head,
        len: part.len,
        next: expected,
    }
}
