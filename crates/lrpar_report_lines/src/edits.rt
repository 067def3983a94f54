//! Fixes: edits of a text, and the text after them.
ghost use Rattle.std.specs.Prelude.{◌≡◌, ◌↔◌, ◌≤◌, ◌∷◌, ◌++◌, [], IfOk, IfSome, IsSome, IsTrue, string_bytes};
ghost use Rattle.lrpar_grammar_places.specs.Strings.{HasText};
ghost use Rattle.lrpar_report_columns.specs.Lines.{IsTextBetween};
ghost use Rattle.lrpar_report_lines.specs.Places.{IsPartFrom};

use lrpar_grammar_places::span::Span;
use std::alloc::{AllocError, Global};

/// A part of a text, and the text that it becomes.
#[derive(Debug, Drop)]
pub struct Edit {
    /// The part, in bytes of the text. If it is empty, the edit inserts.
    pub span: Span,
    /// The text that the part becomes, on one line. If it is empty, the edit deletes.
    pub text: String,
}

/// A way to mend a text: what it does, and the edits that do it.
///
/// ```text
/// let fix = Fix::new(alloc, "insert ';'")?.edit(Span::new(12, 12), ";")?;
/// let mended = fix.apply(alloc, text)?;
/// ```
#[derive(Debug, Drop)]
pub struct Fix {
    /// What the fix does, on one line.
    pub message: String,
    /// Its edits, in the order in which their parts are in the text. No two overlap: a part starts no earlier than the one before it ends.
    pub edits: Vec<Edit>,
}

impl Fix {
    ghost use Rattle.lrpar_report_lines.specs.Edits.{CanBeEdited, edited, replacements};

    /// The fix with this message, without edits. `Err`: out of memory.
    pub fn new(alloc: Global, message: &str) -> Result<Self, AllocError>
        ensures message { IfOk result (λ new. string_bytes new.message ≡ message.now) }
        ensures edits { IfOk result (λ new. new.edits.items ≡ []) }
    {
        Ok(Fix {
            message: String::from_str(alloc, message)?,
            edits: Vec::new(alloc),
        })
    }

    /// The fix with one more edit, after those that it has: this part becomes this text. `Err`: out of memory; the fix is dropped.
    pub fn edit(mut self, span: Span, text: &str) -> Result<Self, AllocError>
        ensures message { IfOk result (λ new. new.message ≡ self.message) }
        ensures edits { IfOk result (λ new. replacements new ≡ replacements self ++ (record { part = span; text = text.now }) ∷ []) }
    {
        let text = String::from_str(*self.edits.allocator(), text)?;
        self.edits.push(Edit { span, text })?;
        Ok(self)
    }

    /// The text after the edits. `None` if it can't be edited so: an edit starts before the one before it ends, or one of its ends is
    /// after the text or inside a character. The fix and the text stay as they are. Takes time linear in the text that comes out and in
    /// the number of edits. `Err`: out of memory.
    pub fn apply(&self, alloc: Global, text: &str) -> Result<Option<String>, AllocError>
        ensures fits { IfOk result (λ after. IsSome after ↔ CanBeEdited text.now (replacements self.now)) }
        ensures text { IfOk result (λ after. IfSome after (HasText (edited text.now (replacements self.now)))) }
    {
        if !self.fits(text) {
            return Ok(None);
        }
        Ok(Some(self.edit_text(alloc, text)?))
    }

    /// Whether the text can be edited so. Takes time linear in the number of edits.
    pub(crate) fn fits(&self, text: &str) -> bool
        ensures { IsTrue result ↔ CanBeEdited text.now (replacements self.now) }
    {
        let mut from = 0usize;
        for edit in &self.edits {
            if !is_part_from(text, from, edit.span) {
                return false;
            }
            from = edit.span.end();
        }
        true
    }

    // The text after the edits, if it can be edited so.
    fn edit_text(&self, alloc: Global, text: &str) -> Result<String, AllocError>
        ensures { CanBeEdited text.now (replacements self.now) → IfOk result (HasText (edited text.now (replacements self.now))) }
    {
        let mut out = String::new(alloc);
        let mut from = 0usize;
        for edit in &self.edits {
            out.push_str(between(text, from, edit.span.start()))?;
            out.push_str(edit.text.as_str())?;
            from = edit.span.end();
        }
        out.push_str(between(text, from, text.len()))?;
        Ok(out)
    }
}

// Whether the part starts no earlier than a byte, and is cut out of the text between characters.
fn is_part_from(text: &str, byte: usize, part: Span) -> bool
    ensures { IsTrue result ↔ IsPartFrom text.now byte part }
{
    byte <= part.start() && text.is_char_boundary(part.start()) && text.is_char_boundary(part.end())
}

/// The bytes of a text from one up to another one, or none if one of both isn't a boundary of characters.
pub(crate) fn between(text: &str, start: usize, end: usize) -> &str
    ensures { IsTextBetween text.now start end result.now }
{
    text.get(start..end).unwrap_or("")
}
