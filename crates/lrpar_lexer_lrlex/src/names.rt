//! The names of a line of a rule, and what they mean.
ghost use Rattle.std.specs.Prelude.{◌≡◌};
ghost use Rattle.lrpar_lexer_lrlex.specs.Parts.{placed};
ghost use Rattle.lrpar_lexer_lrlex.specs.Names as spec;
ghost use Rattle.lrpar_lexer_lrlex.specs.Names.{GivesStates, GivesTarget, GivesToken};
ghost use Rattle.lrpar_lexer_lrlex.specs.States.{plain_names};

use crate::fault::LrlexFault;
use crate::part::Part;
use crate::states::{StateName, Target, state_named};
use lrpar_grammar::grammar::YaccGrammar;
use lrpar_grammar_places::span::{StorageIndex, TIdx};
use std::alloc::Global;

// The numbers of the states with these names, which are between commas.
pub(crate) fn states_of(
    alloc: Global,
    states: &[StateName],
    names: Option<Part>,
) -> Result<Vec<usize>, LrlexFault>
    ensures { GivesStates states.now names.entry result }
{
    let mut numbers = Vec::new(alloc);
    let mut left = names;
    'names: while let Some(part) = left {
        let (name, rest) = part.cut(',');
        numbers.push(state_of(states, name.trimmed())?)?;
        left = rest;
    }
    Ok(numbers)
}

// The number of the state with that name.
fn state_of(states: &[StateName], name: Part) -> Result<usize, LrlexFault>
    ensures { result ≡ spec.state_of (plain_names states.now) (placed name.entry) }
{
    match state_named(states, name.text) {
        Some(number) => Ok(number),
        None => Err(LrlexFault::UnknownState(name.span())),
    }
}

// What a target says, with its sign in front of the name of a state.
pub(crate) fn target_of(
    states: &[StateName],
    target: Option<Part>,
) -> Result<Option<Target>, LrlexFault>
    ensures { GivesTarget states.now target.entry result }
{
    let Some(inside) = target else {
        return Ok(None);
    };
    let found = if let Some(name) = inside.after_byte('+') {
        Target::Push(state_of(states, name)?)
    } else if let Some(name) = inside.after_byte('-') {
        state_of(states, name)?;
        Target::Pop
    } else {
        Target::Set(state_of(states, inside)?)
    };
    Ok(Some(found))
}

// The token with that name.
pub(crate) fn token_of<StorageT: StorageIndex>(
    grm: &YaccGrammar<StorageT>,
    name: Option<Part>,
) -> Result<Option<TIdx<StorageT>>, LrlexFault>
    ensures { GivesToken StorageT.index grm.now name.entry result }
{
    let Some(name) = name else {
        return Ok(None);
    };
    match grm.token_idx(name.text) {
        Some(token) => Ok(Some(token)),
        None => Err(LrlexFault::UnknownToken(name.span())),
    }
}
