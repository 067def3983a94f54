//! A line of a rule: its parts.
ghost use Rattle.std.specs.Prelude.{◌<◌};
ghost use Rattle.lrpar_lexer_lrlex.specs.Faults.{GivesExactly};
ghost use Rattle.lrpar_lexer_lrlex.specs.Parts.{placed, placed_if};
ghost use Rattle.lrpar_lexer_lrlex.specs.LineParts as spec;
ghost use Rattle.lrpar_lexer_lrlex.specs.LineParts.{plain_angled, plain_parts};

use crate::fault::LrlexFault;
use crate::part::Part;

// The parts of a line of a rule.
#[derive(Clone, Copy)]
pub(crate) struct LineParts<'t> {
    // the names between `<` and `>` in front of the pattern
    pub(crate) states: Option<Part<'t>>,
    pub(crate) pattern: Part<'t>,
    // what is between `<` and `>` in front of the name
    pub(crate) target: Option<Part<'t>>,
    // the name without quotes, if there is no semicolon in its place
    pub(crate) name: Option<Part<'t>>,
}

// The parts of a line.
pub(crate) fn line_parts(line: Part) -> Result<LineParts, LrlexFault>
    ensures { GivesExactly plain_parts (spec.line_parts (placed line.entry)) result }
{
    let (front, word) = line.last_word();
    let (states, pattern) = match angled(front) {
        Ok(parts) => parts,
        Err(fault) => return Err(fault),
    };
    if pattern.text.is_empty() {
        return Err(LrlexFault::NoPattern(line.span()));
    }
    let (target, ending) = match angled(word) {
        Ok(parts) => parts,
        Err(fault) => return Err(fault),
    };
    match name(ending) {
        Ok(name) => Ok(LineParts {
            states,
            pattern,
            target,
            name,
        }),
        Err(fault) => Err(fault),
    }
}

// What is between `<` and `>` at the start of a part, if it begins with `<`, and what comes after that.
fn angled(part: Part) -> Result<(Option<Part>, Part), LrlexFault>
    ensures { GivesExactly plain_angled (spec.angled (placed part.entry)) result }
{
    let Some(inner) = part.after_byte('<') else {
        return Ok((None, part));
    };
    match inner.cut('>') {
        (inside, Some(rest)) => Ok((Some(inside), rest)),
        (_, None) => Err(LrlexFault::OpenState(part.span())),
    }
}

// The name that an ending has, without quotes; none if it is a semicolon.
fn name(ending: Part) -> Result<Option<Part>, LrlexFault>
    ensures { GivesExactly placed_if (spec.name (placed ending.entry)) result }
{
    if ending.text == ";" {
        return Ok(None);
    }
    if ending.text.is_empty() {
        return Err(LrlexFault::NoName(ending.span()));
    }
    if let Some(inner) = ending.after_byte('"') {
        return closed(ending, inner, '"');
    }
    if let Some(inner) = ending.after_byte('\'') {
        return closed(ending, inner, '\'');
    }
    Ok(Some(ending))
}

// The name before the closing quote of an ending, whose part after the opening quote is `inner`.
fn closed<'t>(
    ending: Part<'t>,
    inner: Part<'t>,
    quote: char,
) -> Result<Option<Part<'t>>, LrlexFault>
    requires { quote < 128 }
    ensures { GivesExactly placed_if (spec.closed quote (placed ending.entry) (placed inner.entry)) result }
{
    match inner.before_last(quote) {
        Some(name) => Ok(Some(name)),
        None => Err(LrlexFault::OpenQuote(ending.span())),
    }
}
