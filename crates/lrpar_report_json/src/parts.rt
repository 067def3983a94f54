//! Parts of a text as JSON.
use crate::writer::ReportWriter;
use lrpar_grammar_places::span::Span;
use lrpar_report_lines::part_of;
use std::alloc::AllocError;

impl ReportWriter<'_> {
    ghost use Rattle.std.specs.Str.{IsCharBoundary};
    ghost use Rattle.lrpar_grammar_places.specs.Span.{IsPartOf};
    ghost use Rattle.lrpar_report_json.specs.Tokens.{ends_of, members_of, part_object, place_of};
    ghost use Rattle.lrpar_report_json.specs.Writers.{Adds, Puts};

    /// Writes a part of the text as an object: its ends, in bytes, their lines and columns, and what is said of it. An end that is after
    /// the text's end or inside a character is moved ([`part_of`]).
    pub(crate) fn write_part(&mut self, span: Span, said: &str) -> Result<(), AllocError>
        ensures { Puts result self.old self.new (part_object span said.now) }
    {
        let part = part_of(self.lines.text(), span);
        self.json.begin_object()?;
        self.write_members(part, said)?;
        self.json.end_object()
    }

    // Writes the members of a part.
    fn write_members(&mut self, part: Span, said: &str) -> Result<(), AllocError>
        requires { IsPartOf self.old.lines.now part }
        ensures { Puts result self.old self.new (members_of part said.now) }
    {
        self.write_ends(part)?;
        self.write_place(part.start(), "line", "column")?;
        self.write_place(part.end(), "end_line", "end_column")?;
        self.write_text("text", said)
    }

    // Writes where a part starts and ends, in bytes.
    fn write_ends(&mut self, part: Span) -> Result<(), AllocError>
        ensures { Adds result self.old self.new (ends_of part) }
    {
        self.write_number("start", part.start())?;
        self.write_number("end", part.end())
    }

    // Writes the line and the column of a byte, each counted from 1, under these names.
    fn write_place(
        &mut self,
        byte: usize,
        line_name: &str,
        column_name: &str,
    ) -> Result<(), AllocError>
        requires { IsCharBoundary self.old.lines.now byte }
        ensures { Puts result self.old self.new (place_of byte line_name.now column_name.now) }
    {
        let Some((line, column)) = self.lines.position(byte) else {
            unreachable!()
        };
        self.write_number(line_name, line)?;
        self.write_number(column_name, column)
    }
}
