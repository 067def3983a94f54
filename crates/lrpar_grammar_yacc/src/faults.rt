//! The faults that a `.y` file shows before its grammar is read.
ghost use Rattle.std.specs.Prelude.{[], ◌≡◌, ◌++◌, All, IfErr, IfOk, OnOk, None, map, option_map, string_bytes};
ghost use Rattle.std.specs.List.{flat_map};
ghost use Rattle.lrpar_grammar_words.specs.Words.{placed};
ghost use Rattle.lrpar_grammar_yacc.specs.declared.faults.YaccFault.TheVariants.{BadNumber, Memory, MidRuleAction, RepeatedPrec, RepeatedPrecedence};
ghost use Rattle.lrpar_grammar_yacc.specs.Declares.{declarations, declarations_of, declared_by, level_of, prec_of};
ghost use Rattle.lrpar_grammar_yacc.specs.Erasure.{AreBlanked, IsPartOfText, erasure};
ghost use Rattle.lrpar_grammar_yacc.specs.Faults.{IsYaccFaultOf, bad_number, earlier, fault_by, first_fault, has_bad_number, has_number, is_same, place_of, repeated_after, repeated_name, repeated_prec};

use crate::declarations::{Declarations, Level, Prec, number_of};
use crate::parts::{PartKind, YaccKind};
use crate::text::{TextPart, TextParts};
use lrpar_grammar_places::span::Span;
use lrpar_grammar_words::words::Word;
use std::alloc::{AllocError, AllocFailed, Global};
use std::collections::BTreeMap;
use thiserror::Error;

/// Why a `.y` file isn't read.
#[derive(Clone, Debug, Drop, PartialEq, Eq, Error)]
pub enum YaccFault {
    /// A second `%prec` of one production.
    #[error("repeated %prec at byte {at}", at = .0.start())]
    RepeatedPrec(Span),
    /// A name whose precedence is declared a second time.
    #[error("repeated precedence at byte {at}", at = .0.start())]
    RepeatedPrecedence(Span),
    /// An action that isn't the last of its alternative.
    #[error("action in a rule at byte {at}", at = .0.start())]
    MidRuleAction(Span),
    /// No digits after `%expect` or `%expect-rr`, or a number that is too large.
    #[error("bad number at byte {at}", at = .0.start())]
    BadNumber(Span),
    /// An allocation failed.
    #[error("out of memory")]
    Memory,
}

impl From<AllocError> for YaccFault {
    ghost from_gives = { λ _ fault. fault ≡ Memory };

    fn from(_: AllocError) -> YaccFault {
        YaccFault::Memory
    }
}

impl<T: Drop> From<AllocFailed<T>> for YaccFault {
    ghost from_gives = { λ _ fault. fault ≡ Memory };

    fn from(_: AllocFailed<T>) -> YaccFault {
        YaccFault::Memory
    }
}

/// A `.y` file: the grammar text that is left of it, and what it declares beside that.
pub struct YaccText<'a> {
    /// The text with blanks in place of what a grammar text doesn't have. Each place is the same in both.
    pub erased: String,
    /// What else it declares.
    pub declarations: Declarations<'a>,
}

// Hand-written, so that code that drops a text needs the proof of one call only.
impl<'a> Drop for YaccText<'a> {
    fn drop(self) {
        let YaccText {
            erased,
            declarations,
        } = self;
        drop(erased);
        drop(declarations);
    }
}

impl<'a> YaccText<'a> {
    /// Reads a `.y` file. Fails with the first fault by its place, or with `Memory` if an allocation fails. Where the text can't be
    /// read on, the rest of it stays as it is, and the reader of grammar texts finds the same place.
    ///
    /// Takes memory linear in the text, and time linear in it but for names with precedences: each is looked up in logarithmic time.
    pub fn read(alloc: Global, kind: YaccKind, text: &'a str) -> Result<Self, YaccFault>
        ensures erased { IfOk result (λ y. string_bytes y.erased ≡ erasure kind text.now) }
        ensures places { IfOk result (λ y. AreBlanked text.now (string_bytes y.erased)) }
        ensures declared { IfOk result (λ y. declarations_of y.declarations ≡ declarations kind text.now) }
        ensures sound { OnOk result (first_fault kind text.now ≡ None) }
        ensures faulty { IfErr result (IsYaccFaultOf kind text.now) }
    {
        let parts = TextParts::read(alloc, kind, text)?;
        let declarations = Declarations::of_parts(alloc, text, &parts.parts)?;
        if let Some(fault) = first_fault(alloc, text, &parts, &declarations)? {
            return Err(fault);
        }
        Ok(YaccText {
            erased: parts.erase(alloc, text)?,
            declarations,
        })
    }
}

// The first fault by its place.
fn first_fault(
    alloc: Global,
    text: &str,
    parts: &TextParts,
    declarations: &Declarations,
) -> Result<Option<YaccFault>, AllocError>
    requires { All (IsPartOfText text.now) parts.now.parts.items }
    ensures { IfOk result (λ fault. fault ≡ fault_by text.now parts.now.parts.items (declarations_of declarations.now) parts.now.mid_action) }
{
    let number = number_fault(bad_number(text, &parts.parts));
    let name = name_fault(repeated_name(alloc, &declarations.levels)?);
    let prec = prec_fault(repeated_prec(&declarations.precs));
    let action = action_fault(&parts.mid_action);
    Ok(earlier(earlier(number, name), earlier(prec, action)))
}

// The fault of a number.
fn number_fault(found: Option<Span>) -> Option<YaccFault>
    ensures { result ≡ option_map BadNumber found }
{
    match found {
        Some(span) => Some(YaccFault::BadNumber(span)),
        None => None,
    }
}

// The fault of a name with a precedence.
fn name_fault(found: Option<Span>) -> Option<YaccFault>
    ensures { result ≡ option_map RepeatedPrecedence found }
{
    match found {
        Some(span) => Some(YaccFault::RepeatedPrecedence(span)),
        None => None,
    }
}

// The fault of a `%prec`.
fn prec_fault(found: Option<Span>) -> Option<YaccFault>
    ensures { result ≡ option_map RepeatedPrec found }
{
    match found {
        Some(span) => Some(YaccFault::RepeatedPrec(span)),
        None => None,
    }
}

// The fault of an action.
fn action_fault(found: &Option<Span>) -> Option<YaccFault>
    ensures { result ≡ option_map MidRuleAction found.now }
{
    match found {
        Some(span) => Some(YaccFault::MidRuleAction(*span)),
        None => None,
    }
}

// The first number that isn't one.
fn bad_number(text: &str, parts: &[TextPart]) -> Option<Span>
    requires { All (IsPartOfText text.now) parts.now }
    ensures { result ≡ bad_number text.now parts.now }
{
    for part in parts {
        if has_bad_number(text, *part) {
            return Some(Span::new(part.body, part.end));
        }
    }
    None
}

// Whether the part has a number that isn't one.
fn has_bad_number(text: &str, part: TextPart) -> bool
    requires { IsPartOfText text.now part }
    ensures { result ≡ has_bad_number text.now part }
{
    let digits = &text.as_bytes()[part.body..part.end];
    has_number(part.kind) && number_of(digits).is_none()
}

// The parts with a number.
fn has_number(kind: PartKind) -> bool
    ensures { result ≡ has_number kind }
{
    matches!(kind, PartKind::Expect | PartKind::ExpectRr)
}

// The first name that an earlier one equals.
fn repeated_name(alloc: Global, levels: &[Level]) -> Result<Option<Span>, AllocError>
    ensures { IfOk result (λ found. found ≡ repeated_name (map level_of levels.now)) }
{
    let names = level_names(alloc, levels)?;
    repeated(alloc, &names)
}

// The names of all levels.
fn level_names<'a>(alloc: Global, levels: &[Level<'a>]) -> Result<Vec<Word<'a>>, AllocError>
    ensures { IfOk result (λ names. map placed names.items ≡ flat_map (λ x. x.names) (map level_of levels.now)) }
{
    let mut names = Vec::new(alloc);
    for level in levels {
        push_all(&mut names, &level.names)?;
    }
    Ok(names)
}

// Appends words to a list.
fn push_all<'a>(words: &mut Vec<Word<'a>>, others: &[Word<'a>]) -> Result<(), AllocError>
    ensures { OnOk result (map placed words.new.items ≡ map placed words.old.items ++ map placed others.now) }
{
    for word in others {
        words.push(*word)?;
    }
    Ok(())
}

// The first word whose name an earlier one has.
fn repeated(alloc: Global, words: &[Word]) -> Result<Option<Span>, AllocError>
    ensures { IfOk result (λ found. found ≡ repeated_after [] (map placed words.now)) }
{
    let mut seen = BTreeMap::new(alloc);
    for word in words {
        if seen.contains_key(word.name) {
            return Ok(Some(word.span()));
        }
        seen.insert(word.name, ())?;
    }
    Ok(None)
}

// The first `%prec` right after another one of the same production.
fn repeated_prec(precs: &[Prec]) -> Option<Span>
    ensures { result ≡ repeated_prec None (map prec_of precs.now) }
{
    let mut before = None;
    for prec in precs {
        if is_same(before, prec.prod) {
            return Some(prec.name.span());
        }
        before = Some(prec.prod);
    }
    None
}

// Whether the production before is this one.
fn is_same(before: Option<usize>, prod: usize) -> bool
    ensures { result ≡ is_same before prod }
{
    match before {
        Some(before) => before == prod,
        None => false,
    }
}

// The one with the smaller place.
fn earlier(a: Option<YaccFault>, b: Option<YaccFault>) -> Option<YaccFault>
    ensures { result ≡ earlier a b }
{
    match (a, b) {
        (Some(a), Some(b)) => Some(if b.offset() < a.offset() { b } else { a }),
        (Some(a), None) => Some(a),
        (None, b) => b,
    }
}

impl YaccFault {
    // The place of the fault.
    fn offset(&self) -> usize
        ensures { result ≡ place_of self.now }
    {
        match self {
            YaccFault::RepeatedPrec(span)
            | YaccFault::RepeatedPrecedence(span)
            | YaccFault::MidRuleAction(span)
            | YaccFault::BadNumber(span) => span.start(),
            YaccFault::Memory => 0,
        }
    }
}
