//! Ways to mend a text at an error: the likeliest changes of one lexeme, and the repairs of the error.
use crate::changes::{Change, changes_by, changes_of};
use crate::ranking::rank;
use crate::scene::Scene;
use crate::subject::Subject;
use lrpar_grammar::span::StorageIndex;
use lrpar_parse_lexemes::ParseRepair;
use lrpar_parse_lexemes::lex_api::Lexeme;
use lrpar_parse_suggestions::{Suggestion, suggestions};
use std::alloc::{AllocError, Global};

/// How many changes of one lexeme, and how many repairs, are ways at most.
const MOST_OF_EACH: usize = 3;

/// How far a parse has to come past the error after a change that comes before the repairs.
const LEAST_REACH: usize = 3;

/// How far it has to come, if the first repair changes the text in several places.
const LEAST_REACH_BEFORE_SCATTERED: usize = 2;

/// Ways to mend the text, with the likeliest one first. If there are no repairs, there are none.
pub(crate) fn ways_of<LexemeT: Lexeme<StorageT>, StorageT: StorageIndex>(
    alloc: Global,
    scene: &Scene<'_, StorageT>,
    repairs: &Vec<Vec<ParseRepair<LexemeT, StorageT>>>,
) -> Result<Vec<Vec<Change<StorageT>>>, AllocError> {
    let repairing = repairing_ways(alloc, scene.subject, scene.error, repairs)?;
    if repairing.is_empty() {
        return Ok(repairing);
    }
    let found = suggestions(
        alloc,
        scene.subject.data,
        scene.subject.lexemes.tokens(),
        scene.error,
    )?;
    let ranked = rank(alloc, scene, &found)?;
    let likely = likely_ways(alloc, scene, &ranked)?;
    if is_better(ranked.first(), repairing.first()) {
        join(likely, repairing)
    } else {
        join(repairing, likely)
    }
}

// Whether the likeliest change of one lexeme comes before the first repair.
fn is_better<StorageT: StorageIndex>(
    likeliest: Option<&Suggestion<StorageT>>,
    repairing: Option<&Vec<Change<StorageT>>>,
) -> bool {
    let least = match repairing {
        Some(changes) if changes.len() > 1 => LEAST_REACH_BEFORE_SCATTERED,
        Some(_) | None => LEAST_REACH,
    };
    match likeliest {
        Some(suggestion) => suggestion.accepts || suggestion.reach >= least,
        None => false,
    }
}

// What the first suggestions change.
fn likely_ways<StorageT: StorageIndex>(
    alloc: Global,
    scene: &Scene<'_, StorageT>,
    ranked: &[Suggestion<StorageT>],
) -> Result<Vec<Vec<Change<StorageT>>>, AllocError> {
    let mut ways = Vec::new(alloc);
    for suggestion in ranked.iter().take(MOST_OF_EACH) {
        ways.push(changes_by(alloc, scene.subject, suggestion)?)?;
    }
    Ok(ways)
}

/// What the first repairs of an error at a place change.
pub(crate) fn repairing_ways<LexemeT: Lexeme<StorageT>, StorageT: StorageIndex>(
    alloc: Global,
    subject: Subject<'_, StorageT>,
    place: usize,
    repairs: &Vec<Vec<ParseRepair<LexemeT, StorageT>>>,
) -> Result<Vec<Vec<Change<StorageT>>>, AllocError> {
    let before = subject.byte_before(place);
    let mut ways = Vec::new(alloc);
    for sequence in repairs.iter().take(MOST_OF_EACH) {
        ways.push(changes_of(alloc, before, sequence)?)?;
    }
    Ok(ways)
}

// Both lists in one.
fn join<StorageT: StorageIndex>(
    first: Vec<Vec<Change<StorageT>>>,
    second: Vec<Vec<Change<StorageT>>>,
) -> Result<Vec<Vec<Change<StorageT>>>, AllocError> {
    let mut ways = first;
    for changes in second {
        ways.push(changes)?;
    }
    Ok(ways)
}
