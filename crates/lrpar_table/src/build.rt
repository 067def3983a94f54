//! The table builder, and the checked table of a grammar alone.
ghost use Rattle.std.specs.Prelude.{IfErr, IfOk};
ghost use Rattle.lrpar_table.specs.ParserData.{IsParserDataOf, IsUnbuilt};

use lrpar_grammar::grammar::YaccGrammar;
use lrpar_grammar::span::StorageIndex;
pub use lrpar_table_build::build::{BuildFault, from_yacc};
use lrpar_table_check::check::{ParserData, Refused};
use std::alloc::Global;
use std::error::Error;
use std::fmt;

/// Why there is no checked table of a grammar, with what there is. Its text is that of the fault.
#[derive(Debug, Drop)]
pub enum Unbuilt<StorageT: StorageIndex> {
    /// No table was built of the grammar, for this reason.
    Table(BuildFault, YaccGrammar<StorageT>),
    /// The table that was built has a chain of reductions that is too long; or an allocation failed in the check of chains.
    Chains(Refused<StorageT>),
}

impl<StorageT: StorageIndex> fmt::Display for Unbuilt<StorageT> {
    fn fmt<W: fmt::Write>(&self, f: &mut fmt::Formatter<W>) -> fmt::Result {
        match self {
            Unbuilt::Table(fault, _) => write!(f, "{fault}"),
            Unbuilt::Chains(refused) => {
                let fault = refused.fault();
                write!(f, "{fault}")
            }
        }
    }
}

impl<StorageT: StorageIndex> Error for Unbuilt<StorageT> {}

/// The checked table of the grammar: its canonical item sets, at most `max_states` of them, their table, and the cap. A table
/// that is built is safe, so only the chains of reductions are checked.
///
/// The faults are those of `from_yacc`; then `ChainTooLong`, with states and then tokens ascending, or `Memory`. An `Err` gives
/// back the grammar, and the item sets and the table if they were built. It takes the time of `from_yacc` and of
/// `ParserData::of_safe`.
pub fn parser_data<StorageT: StorageIndex>(
    alloc: Global,
    grm: YaccGrammar<StorageT>,
    max_states: usize,
    cap: u16,
) -> Result<ParserData<StorageT>, Unbuilt<StorageT>>
    ensures built { IfOk result (IsParserDataOf grm max_states cap) }
    ensures refused { IfErr result (IsUnbuilt StorageT.limit grm max_states cap) }
{
    match from_yacc(alloc, &grm, max_states) {
        Err(fault) => Err(Unbuilt::Table(fault, grm)),
        Ok((sgraph, stable)) => match ParserData::of_safe(alloc, grm, sgraph, stable, cap) {
            Ok(data) => Ok(data),
            Err(refused) => Err(Unbuilt::Chains(refused)),
        },
    }
}
