//! Actions in the values of lines.
use lrpar_grammar::span::{PIdx, StIdx, StorageIndex};
use lrpar_table::table::Action;
use test_case_lines::fault::Fault;
use test_case_lines::line::in_two;
use test_case_lines::values::index_of;

/// The action `shift STATE`, `reduce PRODUCTION`, `accept` or `error`.
pub fn action_of<S: StorageIndex>(text: &str, line: usize) -> Result<Action<S>, Fault> {
    let (word, number) = in_two(text);
    match word {
        "shift" => Ok(Action::Shift(StIdx(index_of(number, line)?))),
        "reduce" => Ok(Action::Reduce(PIdx(index_of(number, line)?))),
        "accept" => Ok(Action::Accept),
        "error" => Ok(Action::Error),
        _ => Err(Fault::Line(line, "an action is wanted")),
    }
}
