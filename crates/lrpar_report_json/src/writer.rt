//! What writes reports as JSON, token by token.
use json::Writer;
use lrpar_report_columns::Lines;
use std::alloc::AllocError;

/// Writes a report about a text.
#[derive(Drop)]
pub(crate) struct ReportWriter<'r> {
    /// What is written.
    pub(crate) json: Writer,
    /// The text with its lines.
    pub(crate) lines: &'r Lines<'r>,
}

impl ReportWriter<'_> {
    ghost use Rattle.lrpar_report_json.specs.Tokens.{number_member, text_member};
    ghost use Rattle.lrpar_report_json.specs.Writers.{Adds};

    /// Writes a member whose value is a text.
    pub(crate) fn write_text(&mut self, name: &str, text: &str) -> Result<(), AllocError>
        ensures { Adds result self.old self.new (text_member name.now text.now) }
    {
        self.json.key(name)?;
        self.json.string(text)
    }

    /// Writes a member whose value is a number.
    pub(crate) fn write_number(&mut self, name: &str, number: usize) -> Result<(), AllocError>
        ensures { Adds result self.old self.new (number_member name.now number) }
    {
        self.json.key(name)?;
        self.json.u64(number as u64)
    }
}
