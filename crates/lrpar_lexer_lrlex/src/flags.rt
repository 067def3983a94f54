//! The flags of a `.l` file.
ghost use Rattle.std.specs.Prelude.{◌≡◌};
ghost use Rattle.lrpar_lexer_lrlex.specs.Faults.{GivesExactly};
ghost use Rattle.lrpar_lexer_lrlex.specs.Parts.{placed};
ghost use Rattle.lrpar_lexer_lrlex.specs.Flags as spec;
ghost use Rattle.lrpar_lexer_lrlex.specs.Flags.{plain_header};

use crate::fault::LrlexFault;
use crate::part::Part;
use regex_syntax::{Config, Flags};

// The flags of a text: those of its patterns, and whether a line that begins with `//` is a comment.
#[derive(Clone, Copy)]
pub(crate) struct TextFlags {
    pub(crate) config: Config,
    pub(crate) comments: bool,
}

impl TextFlags {
    // The flags of a text that sets none.
    pub(crate) fn unset() -> TextFlags
        ensures { result ≡ spec.unset }
    {
        TextFlags {
            config: Config {
                flags: Flags {
                    multi_line: true,
                    ..Flags::default()
                },
                octal: true,
                ..Config::default()
            },
            comments: false,
        }
    }

    // The flags after the one with that name is set so; nothing if there is none.
    fn with(self, name: &str, value: bool) -> Option<TextFlags>
        ensures { result ≡ spec.with_flag self name.now value }
    {
        let mut flags = self;
        if name == "case_insensitive" {
            flags.config.flags.case_insensitive = value;
        } else if name == "dot_matches_new_line" {
            flags.config.flags.dot_matches_new_line = value;
        } else if name == "multi_line" {
            flags.config.flags.multi_line = value;
        } else if name == "swap_greed" {
            flags.config.flags.swap_greed = value;
        } else if name == "unicode" {
            flags.config.flags.unicode = value;
        } else if name == "octal" {
            flags.config.octal = value;
        } else if name == "allow_wholeline_comments" {
            flags.comments = value;
        } else {
            return None;
        }
        Some(flags)
    }
}

// The flags of a text, and what comes after them.
pub(crate) fn header(text: Part) -> Result<(TextFlags, Part), LrlexFault>
    ensures { GivesExactly plain_header (spec.header (placed text.entry)) result }
{
    let begin = text.trimmed();
    let Some(after) = begin.after_word("%grmtools") else {
        return Ok((TextFlags::unset(), text));
    };
    let Some(inner) = after.trimmed().after_byte('{') else {
        return Err(LrlexFault::Header(begin.span()));
    };
    match inner.cut('}') {
        (inside, Some(rest)) => Ok((flags_of(inside)?, rest)),
        (_, None) => Err(LrlexFault::Header(begin.span())),
    }
}

// The flags that a text between braces sets.
fn flags_of(inside: Part) -> Result<TextFlags, LrlexFault>
    ensures { GivesExactly (λ flags. flags) (spec.flags_of (placed inside.entry)) result }
{
    let mut flags = TextFlags::unset();
    let mut left = Some(inside);
    'flags: while let Some(part) = left {
        let (piece, rest) = part.cut(',');
        flags = set(flags, piece.trimmed())?;
        left = rest;
    }
    Ok(flags)
}

// The flags after one more is set.
fn set(flags: TextFlags, flag: Part) -> Result<TextFlags, LrlexFault>
    ensures { GivesExactly (λ set. set) (spec.set flags (placed flag.entry)) result }
{
    if flag.text.is_empty() {
        return Ok(flags);
    }
    let set = match flag.after_byte('!') {
        Some(name) => flags.with(name.text, false),
        None => flags.with(flag.text, true),
    };
    set.ok_or(LrlexFault::Flag(flag.span()))
}
