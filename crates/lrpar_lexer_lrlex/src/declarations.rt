//! The part of a `.l` file before its rules.
ghost use Rattle.std.specs.Prelude.{◌≡◌};
ghost use Rattle.lrpar_lexer_lrlex.specs.Parts.{pieces, placed};
ghost use Rattle.lrpar_lexer_lrlex.specs.Faults.{Gives};
ghost use Rattle.lrpar_lexer_lrlex.specs.Declarations as spec;
ghost use Rattle.lrpar_lexer_lrlex.specs.Declarations.{AddsAllStates, AddsState, AddsStates, plain_declared};

use crate::fault::LrlexFault;
use crate::part::Part;
use crate::states::{StateName, is_state_name, state_named};
use std::alloc::Global;

// The start states of a text, in the order of their declarations, and what comes after its line `%%`. `INITIAL` is the first.
pub(crate) fn declarations<'t>(
    alloc: Global,
    text: Part<'t>,
) -> Result<(Vec<StateName<'t>>, Option<Part<'t>>), LrlexFault>
    ensures { Gives plain_declared (spec.declarations (pieces 10 (placed text.entry))) result }
{
    let mut states = Vec::new(alloc);
    states.push(StateName {
        name: "INITIAL",
        exclusive: false,
    })?;
    let mut left = Some(text);
    'lines: while let Some(part) = left {
        let (line, rest) = part.cut('\n');
        let core = line.trimmed();
        if is_rules_sign(core) {
            return Ok((states, rest));
        }
        declare(&mut states, core)?;
        left = rest;
    }
    Err(LrlexFault::NoRules)
}

// Whether the line ends the declarations.
fn is_rules_sign(line: Part) -> bool
    ensures { result ≡ spec.is_rules_sign (placed line.entry) }
{
    line.text == "%%"
}

// Adds the states that a line declares. A line with nothing declares none, nor does a comment.
fn declare<'t>(states: &mut Vec<StateName<'t>>, line: Part<'t>) -> Result<(), LrlexFault>
    ensures { AddsStates states.old line.entry states.new result }
{
    if line.text.is_empty() || line.is_comment() {
        return Ok(());
    }
    if let Some(names) = line.after_word("%x") {
        return declare_all(states, line, names, true);
    }
    if let Some(names) = line.after_word("%s") {
        return declare_all(states, line, names, false);
    }
    Err(LrlexFault::Declaration(line.span()))
}

// Adds the states with these names.
fn declare_all<'t>(
    states: &mut Vec<StateName<'t>>,
    line: Part<'t>,
    names: Part<'t>,
    exclusive: bool,
) -> Result<(), LrlexFault>
    ensures { AddsAllStates states.old line.entry names.entry exclusive states.new result }
{
    let (before, mut left) = names.cut(' ');
    if !before.text.is_empty() || left.is_none() {
        return Err(LrlexFault::Declaration(line.span()));
    }
    'names: while let Some(part) = left {
        let (name, rest) = part.cut(' ');
        declare_one(states, name.trimmed(), exclusive)?;
        left = rest;
    }
    Ok(())
}

// Adds the state with that name, if there is a name.
fn declare_one<'t>(
    states: &mut Vec<StateName<'t>>,
    name: Part<'t>,
    exclusive: bool,
) -> Result<(), LrlexFault>
    ensures { AddsState states.old name.entry exclusive states.new result }
{
    if name.text.is_empty() {
        return Ok(());
    }
    if !is_state_name(name.text.as_bytes()) {
        return Err(LrlexFault::StateName(name.span()));
    }
    if state_named(states, name.text).is_some() {
        return Err(LrlexFault::RepeatedState(name.span()));
    }
    states.push(StateName {
        name: name.text,
        exclusive,
    })?;
    Ok(())
}
