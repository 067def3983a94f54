//! The lines of a messages file: `NAME: WORDS`.
ghost use Rattle.std.specs.Prelude.{◌≡◌, ◌<◌};
ghost use Rattle.lrpar_names.specs.Entries as spec;
ghost use Rattle.lrpar_names.specs.Entries.{plain_entry, plain_halves};
ghost use Rattle.lrpar_names.specs.Faults.{GivesExactly};
ghost use Rattle.lrpar_names.specs.Parts.{plain, plain_if};

use crate::fault::NamesFault;
use crate::part::Part;

// What a line says.
#[derive(Clone, Copy)]
pub(crate) struct Entry<'t> {
    // the name of a rule or a token
    pub(crate) name: Part<'t>,
    // its name for people
    pub(crate) words: Part<'t>,
}

// What a line says, without the blanks around its words.
pub(crate) fn entry_of<'t>(line: Part<'t>) -> Result<Entry<'t>, NamesFault>
    ensures { GivesExactly plain_entry (spec.entry_of (plain line.entry)) result }
{
    match halves(line) {
        (name, Some(rest)) => Ok(Entry {
            name,
            words: rest.trimmed(),
        }),
        (_, None) => Err(NamesFault::Unread(line.span())),
    }
}

// The name of a line, and what comes after its colon, if the line has both. A name in quotes ends at the next such quote.
fn halves<'t>(line: Part<'t>) -> (Part<'t>, Option<Part<'t>>)
    ensures { plain_halves result ≡ spec.halves (plain line.entry) }
{
    if let Some(inner) = line.after_byte('\'') {
        return quoted_halves(inner, '\'');
    }
    if let Some(inner) = line.after_byte('"') {
        return quoted_halves(inner, '"');
    }
    let (name, rest) = line.cut(':');
    (name.trimmed(), rest)
}

// A name in quotes, after the first of these, and what comes after its colon.
fn quoted_halves<'t>(inner: Part<'t>, quote: char) -> (Part<'t>, Option<Part<'t>>)
    requires { quote < 128 }
    ensures { plain_halves result ≡ spec.quoted_halves quote (plain inner.entry) }
{
    let (name, rest) = inner.cut(quote);
    (name, after_colon(rest))
}

// What comes after a colon, which may have blanks before it.
fn after_colon<'t>(rest: Option<Part<'t>>) -> Option<Part<'t>>
    ensures { plain_if result ≡ spec.after_colon (plain_if rest.entry) }
{
    match rest {
        Some(part) => part.trimmed().after_byte(':'),
        None => None,
    }
}
