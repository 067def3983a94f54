//! What a `.y` file declares beside its grammar.
ghost use Rattle.std.specs.Prelude.{◌≡◌, ◌++◌, All, IfOk, OnOk, map};
ghost use Rattle.lrpar_grammar_words.specs.Words.{placed};
ghost use Rattle.lrpar_grammar_yacc.specs.Declares.{declared_by, names_of, number_as, number_in, number_of};
ghost use Rattle.lrpar_grammar_yacc.specs.Erasure.{IsPartOfText};

use crate::parts::PartKind;
use crate::text::TextPart;
use lrpar_grammar_places::span::Span;
use lrpar_grammar_words::words::{Word, piece_at, word_at};
use lrpar_table_precedence::precedence::AssocKind;
use std::alloc::{AllocError, Global};

/// Names whose precedence is the same.
pub struct Level<'a> {
    /// What they do beside each other.
    pub kind: AssocKind,
    /// The names.
    pub names: Vec<Word<'a>>,
}

// Hand-written, so that code that drops a level needs the proof of one call only.
impl<'a> Drop for Level<'a> {
    fn drop(self) {
        let Level { kind: _, names } = self;
        drop(names);
    }
}

/// A number of conflicts.
#[derive(Clone, Copy)]
pub struct Number {
    /// The number.
    pub number: usize,
    /// Its digits.
    pub span: Span,
}

/// A production with a precedence of its own.
#[derive(Clone, Copy)]
pub struct Prec<'a> {
    /// The number of the production: the productions of the file are numbered in its order.
    pub prod: usize,
    /// The name that it has its precedence from.
    pub name: Word<'a>,
}

/// What a `.y` file declares beside its grammar, each list in the order of the text.
pub struct Declarations<'a> {
    /// `%left`, `%right` and `%nonassoc`: the levels of precedence, the lowest first.
    pub levels: Vec<Level<'a>>,
    /// `%prec`: the productions with a precedence of their own.
    pub precs: Vec<Prec<'a>>,
    /// `%avoid_insert`: the tokens that repairs are to avoid.
    pub avoided: Vec<Word<'a>>,
    /// `%expect-unused`: the names that may be unused.
    pub unused: Vec<Word<'a>>,
    /// `%expect`: the number of shift/reduce conflicts.
    pub expected: Vec<Number>,
    /// `%expect-rr`: the number of reduce/reduce conflicts.
    pub expected_rr: Vec<Number>,
}

// Hand-written, so that code that drops declarations needs the proof of one call only.
impl<'a> Drop for Declarations<'a> {
    fn drop(self) {
        let Declarations {
            levels,
            precs,
            avoided,
            unused,
            expected,
            expected_rr,
        } = self;
        drop(levels);
        drop(precs);
        drop(avoided);
        drop(unused);
        drop(expected);
        drop(expected_rr);
    }
}

impl<'a> Declarations<'a> {
    ghost use Rattle.lrpar_grammar_yacc.specs.Declares.{declarations_of, nothing_declared, with_part};

    // What the parts of a text declare. A number that isn't one, or that is too large, is 0.
    pub(crate) fn of_parts(
        alloc: Global,
        text: &'a str,
        parts: &[TextPart],
    ) -> Result<Self, AllocError>
        requires { All (IsPartOfText text.now) parts.now }
        ensures { IfOk result (λ d. declarations_of d ≡ declared_by text.now parts.now) }
    {
        let mut declarations = Declarations::new(alloc);
        for part in parts {
            declarations.add_part(alloc, text, *part)?;
        }
        Ok(declarations)
    }

    // No declaration.
    fn new(alloc: Global) -> Self
        ensures { declarations_of result ≡ nothing_declared }
    {
        Declarations {
            levels: Vec::new(alloc),
            precs: Vec::new(alloc),
            avoided: Vec::new(alloc),
            unused: Vec::new(alloc),
            expected: Vec::new(alloc),
            expected_rr: Vec::new(alloc),
        }
    }

    // Adds what one more part declares.
    #[tactic(auto, unfolding(crate::specs::Declares::with_part))]
    fn add_part(&mut self, alloc: Global, text: &'a str, part: TextPart) -> Result<(), AllocError>
        requires { IsPartOfText text.now part }
        ensures { OnOk result (declarations_of self.new ≡ with_part text.now (declarations_of self.old) part) }
    {
        match part.kind {
            PartKind::Level(kind) => {
                let mut names = Vec::new(alloc);
                push_words(&mut names, text, part)?;
                self.levels.push(Level { kind, names })?;
            }
            PartKind::AvoidInsert => push_words(&mut self.avoided, text, part)?,
            PartKind::ExpectUnused => push_words(&mut self.unused, text, part)?,
            PartKind::Expect => self.expected.push(number_in(text, part))?,
            PartKind::ExpectRr => self.expected_rr.push(number_in(text, part))?,
            PartKind::Prec => self.add_prec(alloc, text, part)?,
            _ => {}
        }
        Ok(())
    }

    // Adds a `%prec`.
    #[tactic(auto, unfolding(crate::specs::Declares::with_part))]
    fn add_prec(&mut self, alloc: Global, text: &'a str, part: TextPart) -> Result<(), AllocError>
        requires part { IsPartOfText text.now part }
        requires kind { part.kind ≡ PartKind.Prec }
        ensures { OnOk result (declarations_of self.new ≡ with_part text.now (declarations_of self.old) part) }
    {
        let mut names = Vec::new(alloc);
        push_words(&mut names, text, part)?;
        if let Some(name) = names.first() {
            self.precs.push(Prec {
                prod: part.prod,
                name: *name,
            })?;
        }
        Ok(())
    }
}

// Appends the words of a part to a list.
fn push_words<'a>(
    words: &mut Vec<Word<'a>>,
    text: &'a str,
    part: TextPart,
) -> Result<(), AllocError>
    requires { IsPartOfText text.now part }
    ensures { OnOk result (map placed words.new.items ≡ map placed words.old.items ++ names_of text.now part) }
{
    let bytes = text.as_bytes();
    let mut place = part.body;
    while place < part.end {
        let Some(piece) = piece_at(&bytes[place..]) else {
            return Ok(());
        };
        if let Some(kind) = piece.word {
            words.push(word_at(text, place, kind, piece.len))?;
        }
        place += piece.len;
    }
    Ok(())
}

// The number of a part.
fn number_in(text: &str, part: TextPart) -> Number
    requires { IsPartOfText text.now part }
    ensures { number_as result ≡ number_in text.now part }
{
    let digits = &text.as_bytes()[part.body..part.end];
    Number {
        number: number_of(digits).unwrap_or(0),
        span: Span::new(part.body, part.end),
    }
}

// The number with these digits. `None` if there is none, or if the number doesn't fit.
pub(crate) fn number_of(digits: &[u8]) -> Option<usize>
    ensures { result ≡ number_of digits.now }
{
    if digits.is_empty() {
        return None;
    }
    let mut number = 0usize;
    for digit in digits {
        let value = digit.saturating_sub(b'0') as usize;
        number = number.checked_mul(10)?.checked_add(value)?;
    }
    Some(number)
}
