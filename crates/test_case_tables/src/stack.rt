//! Stacks in the values of lines.
use lrpar_grammar::span::StIdx;
use std::alloc::Global;
use test_case_lines::cases::Case;
use test_case_lines::fault::Fault;
use test_case_lines::values::index_of;

/// The states of the line `states`, bottom first; none if there is no such line.
pub fn states_of(alloc: Global, case: Case<'_, '_>) -> Result<Vec<StIdx<u32>>, Fault> {
    let mut states = Vec::new(alloc);
    for word in case.value_or_nothing("states").split(' ') {
        if !word.is_empty() {
            states.push(StIdx(index_of(word, case.number)?))?;
        }
    }
    Ok(states)
}
