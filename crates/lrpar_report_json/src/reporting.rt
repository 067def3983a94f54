//! Reports as JSON.
ghost use Rattle.std.specs.Prelude.{◌≡◌, IfOk, OnErr, OnOk, string_bytes};
ghost use Rattle.lrpar_grammar_places.specs.Strings.{Appends};

use crate::writer::ReportWriter;
use json::Writer;
use lrpar_report_columns::Lines;
use lrpar_report_lines::Report;
use std::alloc::{AllocError, Global};
use std::marker::Model;

/// Shows reports about a text as JSON, for programs. It borrows the text, and the path by which reports name it.
#[derive(Drop)]
pub struct JsonReporter<'a> {
    path: &'a str,
    lines: Lines<'a>,
}

impl<'a> Model for JsonReporter<'a> {
    ghost use Rattle.lrpar_report_json.specs.Tokens.{Source};

    ghost Value = { Source };

    ghost view = { λ reporter. record { path = reporter.path.now; text = reporter.lines } };
}

impl<'a> JsonReporter<'a> {
    ghost use Rattle.lrpar_report_json.specs.Tokens.{json_line};

    /// The reporter of a text and its path. Takes time linear in the text, and memory for each of its lines. `Err`: out of memory.
    pub fn new(alloc: Global, text: &'a str, path: &'a str) -> Result<Self, AllocError>
        ensures path { IfOk result (λ new. new.path ≡ path.now) }
        ensures text { IfOk result (λ new. new.text ≡ text.now) }
    {
        let lines = Lines::new(alloc, text)?;
        Ok(JsonReporter { path, lines })
    }

    /// Adds the report: a JSON object (RFC 8259) with a line feed, without blanks and other line feeds.
    ///
    /// ```text
    /// {"path":"a.c","severity":"error","message":"expected ';'","labels":[LABEL, ..],"notes":["NOTE", ..],"fixes":[FIX, ..]}
    /// ```
    ///
    /// The severity is `error`, `warning` or `note`. A label is an object
    /// `{"start":12,"end":14,"line":2,"column":5,"end_line":2,"end_column":7,"text":"TEXT"}`: its ends in bytes of the text, counted from
    /// 0, and their lines and columns, counted from 1, columns in characters. An end that is inside a character is moved to the next
    /// character, and one after the text's end to that end ([`lrpar_report_lines::part_of`]). A fix is an object
    /// `{"message":"MESSAGE","edits":[EDIT, ..]}`, and an edit has the members of a label: `text` is what the part becomes. All labels,
    /// notes, fixes and edits are there, in the order of the report, also those that can't be applied.
    ///
    /// Takes time linear in what it writes, and for each label and edit time logarithmic in the number of lines and linear in its lines'
    /// lengths, and memory for the object. `Err`: out of memory; `out` is as it was.
    pub fn push(&self, out: &mut String, alloc: Global, report: &Report) -> Result<(), AllocError>
        ensures line { OnOk result (Appends out.old out.new (json_line self.now report.now)) }
        ensures unchanged { OnErr result (string_bytes out.new ≡ string_bytes out.old) }
    {
        let mut writer = ReportWriter {
            json: Writer::new(Vec::new(alloc)),
            lines: &self.lines,
        };
        writer.write_report(self.path, report)?;
        let Ok(mut line) = String::from_utf8(writer.json.into_inner()) else {
            unreachable!()
        };
        line.push('\n')?;
        out.push_str(line.as_str())
    }
}

impl ReportWriter<'_> {
    ghost use Rattle.lrpar_report_json.specs.Tokens.{lists_of, report_object, title_of};
    ghost use Rattle.lrpar_report_json.specs.Writers.{Adds, Puts};

    // Writes the report about the text at this path.
    fn write_report(&mut self, path: &str, report: &Report) -> Result<(), AllocError>
        ensures { Puts result self.old self.new (report_object path.now report.now) }
    {
        self.json.begin_object()?;
        self.write_title(path, report)?;
        self.write_lists(report)?;
        self.json.end_object()
    }

    // Writes the path, what the report is, and what is wrong.
    fn write_title(&mut self, path: &str, report: &Report) -> Result<(), AllocError>
        ensures { Adds result self.old self.new (title_of path.now report.now) }
    {
        self.write_text("path", path)?;
        self.write_text("severity", report.level.word())?;
        self.write_text("message", report.message.as_str())
    }

    // Writes the labels, the notes and the fixes.
    fn write_lists(&mut self, report: &Report) -> Result<(), AllocError>
        ensures { Puts result self.old self.new (lists_of report.now) }
    {
        self.write_labels(&report.labels)?;
        self.write_notes(&report.notes)?;
        self.write_fixes(&report.fixes)
    }
}
