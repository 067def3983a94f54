//! Sequences of repairs of cases.
use crate::lexemes::token_number;
use lrpar_grammar::grammar::YaccGrammar;
use lrpar_grammar::span::TIdx;
use lrpar_parse_repair::repair::RepairStep;
use std::alloc::Global;
use test_case_lines::cases::Case;
use test_case_lines::fault::Fault;

/// The sequences of the line `repairs` of a case, parted by `|`; none if there is no such line.
pub(crate) fn sequences_of(
    alloc: Global,
    grm: &YaccGrammar<u32>,
    case: Case<'_, '_>,
) -> Result<Vec<Vec<RepairStep<u32>>>, Fault> {
    let mut sequences = Vec::new(alloc);
    if let Some((text, number)) = case.value("repairs") {
        for part in text.split('|') {
            sequences.push(sequence_of(alloc, grm, part, number)?)?;
        }
    }
    Ok(sequences)
}

// The steps of a sequence.
fn sequence_of(
    alloc: Global,
    grm: &YaccGrammar<u32>,
    text: &str,
    number: usize,
) -> Result<Vec<RepairStep<u32>>, Fault> {
    let mut steps = Vec::new(alloc);
    for word in text.split(' ') {
        steps.push(match word {
            "" | "insert" => continue,
            "delete" => RepairStep::Delete,
            "shift" => RepairStep::Shift,
            name => match token_number(grm, name.trim_matches('\'')) {
                Some(token) => RepairStep::Insert(TIdx(token)),
                None => return Err(Fault::Line(number, "a step is wanted")),
            },
        })?;
    }
    Ok(steps)
}
