//! The levels of reports, and how reports look.
ghost use Rattle.std.specs.Prelude.{◌≡◌};

use std::alloc::AllocError;

/// What a report is.
#[derive(Clone, Copy, Debug, PartialEq, Eq)]
pub enum Level {
    /// Something is wrong.
    Error,
    /// Something may be wrong.
    Warning,
    /// Something that is good to know.
    Note,
}

impl Level {
    ghost use Rattle.lrpar_report_lines.specs.Levels.{level_word};

    /// The word before the message: `error`, `warning` or `note`.
    pub fn word(self) -> &'static str
        ensures { result.now ≡ level_word self }
    {
        match self {
            Level::Error => "error",
            Level::Warning => "warning",
            Level::Note => "note",
        }
    }

    // The escape sequence that sets the colour of that word on a terminal.
    fn colour(self) -> &'static str {
        match self {
            Level::Error => "\u{1b}[1;31m",
            Level::Warning => "\u{1b}[1;33m",
            Level::Note => "\u{1b}[1;36m",
        }
    }
}

/// How reports look.
#[derive(Clone, Copy, Debug, PartialEq, Eq)]
pub enum Look {
    /// Without colours.
    Plain,
    /// With colours, for a terminal.
    Coloured,
}

// The escape sequence that sets the colour of the word `help` on a terminal.
const HELP_COLOUR: &str = "\u{1b}[1;32m";

/// Adds the word of a level, in its colour if there are colours.
pub(crate) fn push_word(out: &mut String, look: Look, level: Level) -> Result<(), AllocError> {
    push_coloured(out, look, level.colour(), level.word())
}

/// Adds the word `help`, in its colour if there are colours.
pub(crate) fn push_help(out: &mut String, look: Look) -> Result<(), AllocError> {
    push_coloured(out, look, HELP_COLOUR, "help")
}

// Adds a word, in this colour if there are colours.
fn push_coloured(out: &mut String, look: Look, colour: &str, word: &str) -> Result<(), AllocError> {
    match look {
        Look::Plain => out.push_str(word),
        Look::Coloured => {
            out.push_str(colour)?;
            out.push_str(word)?;
            out.push_str("\u{1b}[0m")
        }
    }
}
