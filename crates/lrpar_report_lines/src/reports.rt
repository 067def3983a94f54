//! A report: what is wrong with a text, and at which places.
ghost use Rattle.std.specs.Prelude.{◌≡◌, ◌∷◌, ◌++◌, [], IfOk};

use crate::edits::Fix;
use crate::levels::Level;
use lrpar_grammar_places::span::Span;
use std::alloc::{AllocError, Global};

/// A place of a text, and what is said of it.
#[derive(Debug, Drop)]
pub struct Label {
    /// The place, in bytes of the text. An end that is after the text's end or inside a character is moved when the report is shown
    /// ([`crate::part_of`]).
    pub span: Span,
    /// What is said of the place, on one line. It may be empty: then the place is only underlined.
    pub text: String,
}

/// What is wrong with a text, at which places, and what else is good to know. A linter of queries that knows the places of a column and
/// of its table reports both in one go:
///
/// ```text
/// let report = Report::error(alloc, "table 'users' has no column 'nmae'")?
///     .label(column, "did you mean 'name'?")?
///     .label(table, "its columns are 'id' and 'name'")?
///     .note("names of columns are compared letter by letter")?;
/// reporter.push(&mut out, alloc, &report)?;
/// ```
///
/// ```text
/// query.sql:1:8: error: table 'users' has no column 'nmae'
/// 1| SELECT nmae FROM users
///           ^^^^      ----- its columns are 'id' and 'name'
///           |
///           did you mean 'name'?
/// note: names of columns are compared letter by letter
/// ```
#[derive(Debug, Drop)]
pub struct Report {
    /// What it is.
    pub level: Level,
    /// What is wrong.
    pub message: String,
    /// Where, with the place that the title names first. Without any, the report is about all of the text.
    pub labels: Vec<Label>,
    /// What else is good to know.
    pub notes: Vec<String>,
    /// Ways to mend the text, with the best one first.
    pub fixes: Vec<Fix>,
}

impl Report {
    ghost use Rattle.lrpar_report_lines.specs.Labels.{HasMessage, HasNoFixes, HasNoLabels, HasNoNotes, label_spans, label_texts, note_texts};

    /// The report with this message, without labels, notes and fixes. `Err`: out of memory.
    pub fn new(alloc: Global, level: Level, message: &str) -> Result<Self, AllocError>
        ensures level { IfOk result (λ new. new.level ≡ level) }
        ensures message { IfOk result (HasMessage message.now) }
        ensures labels { IfOk result HasNoLabels }
        ensures notes { IfOk result HasNoNotes }
        ensures fixes { IfOk result HasNoFixes }
    {
        Ok(Report {
            level,
            message: String::from_str(alloc, message)?,
            labels: Vec::new(alloc),
            notes: Vec::new(alloc),
            fixes: Vec::new(alloc),
        })
    }

    /// The report of an error, without labels, notes and fixes. `Err`: out of memory.
    pub fn error(alloc: Global, message: &str) -> Result<Self, AllocError>
        ensures level { IfOk result (λ new. new.level ≡ Level.Error) }
        ensures message { IfOk result (HasMessage message.now) }
        ensures labels { IfOk result HasNoLabels }
        ensures notes { IfOk result HasNoNotes }
        ensures fixes { IfOk result HasNoFixes }
    {
        Report::new(alloc, Level::Error, message)
    }

    /// The report of a warning, without labels, notes and fixes. `Err`: out of memory.
    pub fn warning(alloc: Global, message: &str) -> Result<Self, AllocError>
        ensures level { IfOk result (λ new. new.level ≡ Level.Warning) }
        ensures message { IfOk result (HasMessage message.now) }
        ensures labels { IfOk result HasNoLabels }
        ensures notes { IfOk result HasNoNotes }
        ensures fixes { IfOk result HasNoFixes }
    {
        Report::new(alloc, Level::Warning, message)
    }

    /// The report with one more label, after those that it has. The text may be empty. `Err`: out of memory; the report is dropped.
    pub fn label(mut self, span: Span, text: &str) -> Result<Self, AllocError>
        ensures level { IfOk result (λ new. new.level ≡ self.level) }
        ensures message { IfOk result (λ new. new.message ≡ self.message) }
        ensures spans { IfOk result (λ new. label_spans new ≡ label_spans self ++ span ∷ []) }
        ensures texts { IfOk result (λ new. label_texts new ≡ label_texts self ++ text.now ∷ []) }
        ensures notes { IfOk result (λ new. new.notes ≡ self.notes) }
        ensures fixes { IfOk result (λ new. new.fixes ≡ self.fixes) }
    {
        let text = String::from_str(*self.labels.allocator(), text)?;
        self.labels.push(Label { span, text })?;
        Ok(self)
    }

    /// The report with one more note, after those that it has. `Err`: out of memory; the report is dropped.
    pub fn note(mut self, text: &str) -> Result<Self, AllocError>
        ensures level { IfOk result (λ new. new.level ≡ self.level) }
        ensures message { IfOk result (λ new. new.message ≡ self.message) }
        ensures labels { IfOk result (λ new. new.labels ≡ self.labels) }
        ensures notes { IfOk result (λ new. note_texts new ≡ note_texts self ++ text.now ∷ []) }
        ensures fixes { IfOk result (λ new. new.fixes ≡ self.fixes) }
    {
        let text = String::from_str(*self.notes.allocator(), text)?;
        self.notes.push(text)?;
        Ok(self)
    }

    /// The report with one more fix, after those that it has. `Err`: out of memory; the report is dropped.
    pub fn fix(mut self, fix: Fix) -> Result<Self, AllocError>
        ensures level { IfOk result (λ new. new.level ≡ self.level) }
        ensures message { IfOk result (λ new. new.message ≡ self.message) }
        ensures labels { IfOk result (λ new. new.labels ≡ self.labels) }
        ensures notes { IfOk result (λ new. new.notes ≡ self.notes) }
        ensures fixes { IfOk result (λ new. new.fixes.items ≡ self.fixes.items ++ fix ∷ []) }
    {
        self.fixes.push(fix)?;
        Ok(self)
    }
}
