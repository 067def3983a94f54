//! Tables of grammars.
use crate::fault::Fault;
use lrpar_grammar::grammar::YaccGrammar;
use lrpar_table::build::{Unbuilt, parser_data};
use lrpar_table::check::{ParserData, Refused};
use std::alloc::Global;

/// The cap with which the program checks its tables.
const CAP: u16 = 1_000;

/// How many states a table may have.
pub const MAX_STATES: usize = 10_000;

/// The checked table of a grammar's text, or what is refused for its chains of reductions.
pub type Checked = Result<ParserData<u32>, Refused<u32>>;

/// The checked table of a grammar's text.
pub fn data_of(alloc: Global, text: &str) -> Result<ParserData<u32>, Fault> {
    match check_table(alloc, text, CAP)? {
        Ok(data) => Ok(data),
        Err(refused) => Err(refused.fault().into()),
    }
}

/// Builds the table of a grammar's text, and checks it with this cap.
pub fn check_table(alloc: Global, text: &str, cap: u16) -> Result<Checked, Fault> {
    let grm = YaccGrammar::new_with_storaget(alloc, text)?;
    match parser_data(alloc, grm, MAX_STATES, cap) {
        Ok(data) => Ok(Ok(data)),
        Err(Unbuilt::Chains(refused)) => Ok(Err(refused)),
        Err(Unbuilt::Table(fault, _)) => Err(fault.into()),
    }
}
