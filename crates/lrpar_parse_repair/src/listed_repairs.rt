//! The sequences of an error as repairs, each with its lexemes.
ghost use Rattle.std.specs.Prelude.{IfOk};
ghost use Rattle.lrpar_parse_repair.specs.ListedRepairs.{AreRepairsOf, AreRepairsOfOne, IsRepairOver};

use crate::repair_step::RepairStep;
use lrpar_grammar::span::StorageIndex;
use lrpar_parse_lexemes::ParseRepair;
use lrpar_parse_lexemes::lex_api::Lexeme;
use std::alloc::{AllocError, Global};

/// The repairs that an error lists for these sequences: each Delete and Shift gets its own lexeme of those that are `left` at the error
/// point. Takes time and memory linear in the steps. `Err`: out of memory.
pub fn listed_repairs<StorageT: StorageIndex, LexemeT: Lexeme<StorageT>>(
    alloc: Global,
    left: &[LexemeT],
    listed: &[Vec<RepairStep<StorageT>>],
) -> Result<Vec<Vec<ParseRepair<LexemeT, StorageT>>>, AllocError>
    ensures repairs { IfOk result (AreRepairsOf StorageT.index left.now listed.now) }
{
    let mut repairs = Vec::with_capacity(alloc, listed.len())?;
    for steps in listed {
        repairs.push(repairs_over(alloc, left, steps)?)?;
    }
    Ok(repairs)
}

// The repairs of the steps over the lexemes that are left. They end at a step that has no lexeme left.
fn repairs_over<StorageT: StorageIndex, LexemeT: Lexeme<StorageT>>(
    alloc: Global,
    left: &[LexemeT],
    steps: &[RepairStep<StorageT>],
) -> Result<Vec<ParseRepair<LexemeT, StorageT>>, AllocError>
    ensures repairs { IfOk result (AreRepairsOfOne StorageT.index left.now steps.now) }
{
    let mut repairs = Vec::with_capacity(alloc, steps.len())?;
    let mut rest = left;
    for step in steps {
        match repair_over(*step, rest) {
            None => return Ok(repairs),
            Some((repair, after)) => {
                repairs.push(repair)?;
                rest = after;
            }
        }
    }
    Ok(repairs)
}

// The repair of the step over the lexemes that are left, and those that are left after it; `None`, if it has no lexeme.
fn repair_over<'a, StorageT: StorageIndex, LexemeT: Lexeme<StorageT>>(
    step: RepairStep<StorageT>,
    left: &'a [LexemeT],
) -> Option<(ParseRepair<LexemeT, StorageT>, &'a [LexemeT])>
    ensures { IsRepairOver StorageT.index left.now step result }
{
    match step {
        RepairStep::Insert(token) => Some((ParseRepair::Insert(token), left)),
        RepairStep::Delete => {
            let (lexeme, rest) = left.split_first()?;
            Some((ParseRepair::Delete(*lexeme), rest))
        }
        RepairStep::Shift => {
            let (lexeme, rest) = left.split_first()?;
            Some((ParseRepair::Shift(*lexeme), rest))
        }
    }
}
