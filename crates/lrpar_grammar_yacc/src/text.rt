//! The parts of a `.y` file, and its erasure.
ghost use Rattle.std.specs.Prelude.{[], ◌∷◌, ◌≡◌, ◌<◌, ◌≤◌, ◌+◌, ◌^◌, ◌++◌, IfOk, OnOk, string_bytes};
ghost use Rattle.lrpar_grammar_yacc.specs.Erasure.{AreApart, blank_for, blanks, erased_from};
ghost use Rattle.lrpar_grammar_yacc.specs.Steps.{action_after, ends, mid_action, mid_before, part_of, parts_of};

use crate::parts::{PartKind, YaccKind};
use crate::steps::{Step, StepKind, step_at};
use lrpar_grammar_places::span::Span;
use lrpar_grammar_words::word_order::Expected;
use std::alloc::{AllocError, Global};

/// A part of a `.y` file. Places are bytes, counted from the start of the file.
#[derive(Clone, Copy)]
pub struct TextPart {
    /// What it is.
    pub kind: PartKind,
    /// The place where it begins.
    pub start: usize,
    /// The place where its names, its number or its type begins.
    pub body: usize,
    /// The place after it.
    pub end: usize,
    /// The number of alternatives that end before it.
    pub prod: usize,
}

/// The parts of a `.y` file.
pub struct TextParts {
    /// The parts, in the order of the text.
    pub parts: Vec<TextPart>,
    /// The first action that isn't the last of its alternative.
    pub mid_action: Option<Span>,
}

// Hand-written, so that code that drops parts needs the proof of one call only.
impl Drop for TextParts {
    fn drop(self) {
        let TextParts {
            parts,
            mid_action: _,
        } = self;
        drop(parts);
    }
}

impl TextParts {
    // The parts of the text, as far as it can be read. Takes time linear in the text, and memory linear in the number of parts.
    pub(crate) fn read(alloc: Global, kind: YaccKind, text: &str) -> Result<Self, AllocError>
        ensures parts { IfOk result (λ x. x.parts.items ≡ parts_of kind text.now) }
        ensures mid { IfOk result (λ x. x.mid_action ≡ mid_action kind text.now) }
        ensures apart { IfOk result (λ x. AreApart text.now 0 x.parts.items) }
    {
        let bytes = text.as_bytes();
        let mut parts = Vec::new(alloc);
        let mut last = None;
        let mut mid_action = None;
        let mut expected = Expected::Declaration;
        let mut prod = 0;
        let mut place = 0;
        while let Some(step) = step_at(kind, expected, &bytes[place..]) {
            push_part(&mut parts, place, prod, step)?;
            mid_action = mid_action.or(mid_before(step.kind, &last));
            last = action_after(place, step.len, step.kind, &last);
            prod += ends(step.kind);
            expected = step.next;
            place += step.len;
        }
        Ok(TextParts { parts, mid_action })
    }

    // The text, with blanks in place of its parts: each byte of a part but LF becomes a space, so that places and lines stay.
    pub(crate) fn erase(&self, alloc: Global, text: &str) -> Result<String, AllocError>
        requires { AreApart text.now 0 self.now.parts.items }
        ensures { IfOk result (λ s. string_bytes s ≡ erased_from text.now 0 self.now.parts.items) }
    {
        let mut erased = String::with_capacity(alloc, text.len())?;
        let mut place = 0;
        for part in &self.parts {
            erased.push_str(&text[place..part.start])?;
            push_blanks(&mut erased, &text[part.start..part.end])?;
            place = part.end;
        }
        erased.push_str(&text[place..])?;
        Ok(erased)
    }
}

// Appends the part that a step passes over at that place, if it is one.
fn push_part(
    parts: &mut Vec<TextPart>,
    place: usize,
    prod: usize,
    step: Step,
) -> Result<(), AllocError>
    requires { (place + step.head < 2 ^ 63) × (place + step.len < 2 ^ 63) }
    ensures { OnOk result (parts.new.items ≡ parts.old.items ++ part_of place prod step step.kind) }
{
    if let StepKind::Part(kind) = step.kind {
        parts.push(TextPart {
            kind,
            start: place,
            body: place + step.head,
            end: place + step.len,
            prod,
        })?;
    }
    Ok(())
}

// How many alternatives a step ends.
fn ends(kind: StepKind) -> usize
    ensures ends { result ≡ ends kind }
    ensures few { result ≤ 1 }
{
    match kind {
        StepKind::End => 1,
        _ => 0,
    }
}

// Appends blanks for the text: an LF for each LF, and a space for each other byte.
fn push_blanks(erased: &mut String, text: &str) -> Result<(), AllocError>
    ensures { OnOk result (string_bytes erased.new ≡ string_bytes erased.old ++ blanks text.now) }
{
    for byte in text.as_bytes() {
        erased.push_str(blank_for(*byte))?;
    }
    Ok(())
}

// An LF for an LF, and a space for any other byte.
fn blank_for(byte: u8) -> &'static str
    ensures { result.now ≡ blank_for byte ∷ [] }
{
    match byte {
        b'\n' => "\n",
        _ => " ",
    }
}

// The action right before what comes after a step at that place, with only blanks between. `last`: that before the step.
fn action_after(place: usize, len: usize, kind: StepKind, last: &Option<Span>) -> Option<Span>
    requires { place + len < 2 ^ 63 }
    ensures { result ≡ action_after place len kind last.now }
{
    match kind {
        StepKind::Blank => *last,
        StepKind::Part(PartKind::Action) => Some(Span::new(place, place + len)),
        _ => None,
    }
}

// The action before a step of that kind, if the step shows that it isn't the last of its alternative.
fn mid_before(kind: StepKind, last: &Option<Span>) -> Option<Span>
    ensures { result ≡ mid_before kind last.now }
{
    match kind {
        StepKind::Blank | StepKind::End => None,
        _ => *last,
    }
}
