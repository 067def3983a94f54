//! How large a grammar and its table are.
use crate::grammar::GrammarTable;
use lrpar_table::check::ParserData;
use lrpar_table_options::Minimiser;
use std::alloc::AllocError;

/// Adds how large the grammar and its table are, the least cap, and how many conflicts precedences resolved, if the file declares any.
pub(crate) fn push_sizes(out: &mut String, table: &GrammarTable) -> Result<(), AllocError> {
    let data = &table.data;
    let states = data.stable().states_len();
    let rules = data.grm().rules_len();
    let prods = data.grm().prods_len();
    let tokens = table.file_grm().tokens_len();
    let cap = data.least_cap();
    write!(
        out,
        "rules {rules}, productions {prods}, tokens {tokens}, states {states}, least cap {cap}"
    )?;
    if table.has_precedences {
        let resolved = data.stable().resolved().len();
        write!(out, ", conflicts resolved by precedences {resolved}")?;
    }
    Ok(())
}

/// Adds how many states the table has, whether they are merged, and how many actions and gotos they have.
pub(crate) fn push_table(
    out: &mut String,
    data: &ParserData<u32>,
    minimiser: Minimiser,
) -> Result<(), AllocError> {
    let states = data.stable().states_len();
    let entries = data.stable().entries();
    let how = match minimiser {
        Minimiser::Canonical => "canonical",
        Minimiser::Pager => "merged where lookaheads allow it",
    };
    write!(
        out,
        "states {states}, {how}, with {entries} actions and gotos"
    )
}
