//! The labels, notes and fixes of reports as JSON.
use crate::writer::ReportWriter;
use lrpar_report_lines::{Edit, Fix, Label};
use std::alloc::AllocError;

impl ReportWriter<'_> {
    ghost use Rattle.lrpar_report_json.specs.Tokens.{edits_of, fix_object, fixes_of, labels_of, notes_of};
    ghost use Rattle.lrpar_report_json.specs.Writers.{Adds, Puts};

    /// Writes the labels of a report as a member.
    pub(crate) fn write_labels(&mut self, labels: &[Label]) -> Result<(), AllocError>
        ensures { Puts result self.old self.new (labels_of labels.now) }
    {
        self.json.key("labels")?;
        self.json.begin_array()?;
        for label in labels {
            self.write_part(label.span, label.text.as_str())?;
        }
        self.json.end_array()
    }

    /// Writes the notes of a report as a member.
    pub(crate) fn write_notes(&mut self, notes: &[String]) -> Result<(), AllocError>
        ensures { Adds result self.old self.new (notes_of notes.now) }
    {
        self.json.key("notes")?;
        self.json.begin_array()?;
        for note in notes {
            self.json.string(note.as_str())?;
        }
        self.json.end_array()
    }

    /// Writes the fixes of a report as a member.
    pub(crate) fn write_fixes(&mut self, fixes: &[Fix]) -> Result<(), AllocError>
        ensures { Puts result self.old self.new (fixes_of fixes.now) }
    {
        self.json.key("fixes")?;
        self.json.begin_array()?;
        for fix in fixes {
            self.write_fix(fix)?;
        }
        self.json.end_array()
    }

    // Writes a fix.
    fn write_fix(&mut self, fix: &Fix) -> Result<(), AllocError>
        ensures { Puts result self.old self.new (fix_object fix.now) }
    {
        self.json.begin_object()?;
        self.write_text("message", fix.message.as_str())?;
        self.write_edits(&fix.edits)?;
        self.json.end_object()
    }

    // Writes the edits of a fix as a member.
    fn write_edits(&mut self, edits: &[Edit]) -> Result<(), AllocError>
        ensures { Puts result self.old self.new (edits_of edits.now) }
    {
        self.json.key("edits")?;
        self.json.begin_array()?;
        for edit in edits {
            self.write_part(edit.span, edit.text.as_str())?;
        }
        self.json.end_array()
    }
}
