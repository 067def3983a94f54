//! The productions as a grammar keeps them.
ghost use Rattle.std.specs.Prelude.{◌<◌, ◌≤◌, IfOk, length};
ghost use Rattle.lrpar_grammar.specs.Kept.{AreSplit, HasEmptyRows, HasRowsOf, HaveRulesBelow, IsAddedProd, IsSplit};

use lrpar_grammar_places::span::{PIdx, RIdx, Span, StorageIndex, Symbol};
use lrpar_grammar_reader::parts::ProdPart;
use std::alloc::{AllocError, Global};

// A production with its symbols and their places in two lists.
#[derive(Debug, Drop)]
pub(super) struct SplitProd<StorageT> {
    pub(super) rule: RIdx<StorageT>,
    pub(super) symbols: Vec<Symbol<StorageT>>,
    pub(super) symbol_spans: Vec<Span>,
    pub(super) span: Span,
}

// The productions with their symbols and places in two lists each, and the start production after them.
pub(super) fn split_prods<StorageT: StorageIndex>(
    alloc: Global,
    parts: &[ProdPart<StorageT>],
    start: RIdx<StorageT>,
) -> Result<Vec<SplitProd<StorageT>>, AllocError>
    requires { 0 < StorageT.limit }
    ensures { IfOk result (AreSplit StorageT.index parts.now start) }
{
    let mut prods = Vec::new(alloc);
    for part in parts {
        prods.push(split_prod(alloc, part)?)?;
    }
    prods.push(added(alloc, start)?)?;
    Ok(prods)
}

// A production with its symbols and places in two lists.
fn split_prod<StorageT: StorageIndex>(
    alloc: Global,
    part: &ProdPart<StorageT>,
) -> Result<SplitProd<StorageT>, AllocError>
    ensures { IfOk result (IsSplit StorageT.index part.now) }
{
    let mut symbols = Vec::with_capacity(alloc, part.symbols.len())?;
    let mut symbol_spans = Vec::with_capacity(alloc, part.symbols.len())?;
    for (symbol, span) in &part.symbols {
        symbols.push(*symbol)?;
        symbol_spans.push(*span)?;
    }
    Ok(SplitProd {
        rule: part.rule,
        symbols,
        symbol_spans,
        span: part.span,
    })
}

// The start production.
fn added<StorageT: StorageIndex>(
    alloc: Global,
    start: RIdx<StorageT>,
) -> Result<SplitProd<StorageT>, AllocError>
    requires { 0 < StorageT.limit }
    ensures { IfOk result (IsAddedProd StorageT.index start) }
{
    let nowhere = Span::new(0, 0);
    let mut symbols = Vec::with_capacity(alloc, 1)?;
    symbols.push(Symbol::Rule(start))?;
    let mut symbol_spans = Vec::with_capacity(alloc, 1)?;
    symbol_spans.push(nowhere)?;
    Ok(SplitProd {
        rule: RIdx(StorageT::from_index(0).unwrap()),
        symbols,
        symbol_spans,
        span: nowhere,
    })
}

// The productions of each rule below `rules`, ascending.
pub(super) fn prods_by_rule<StorageT: StorageIndex>(
    alloc: Global,
    rules: usize,
    prods: &[SplitProd<StorageT>],
) -> Result<Vec<Vec<PIdx<StorageT>>>, AllocError>
    requires numbered { length prods.now ≤ StorageT.limit }
    requires within { HaveRulesBelow StorageT.index rules prods.now }
    ensures { IfOk result (HasRowsOf StorageT.index rules prods.now) }
{
    let mut rows = empty_rows(alloc, rules)?;
    for (number, prod) in prods.iter().enumerate() {
        let row = &mut rows[usize::from(prod.rule)];
        row.push(PIdx(StorageT::from_index(number).unwrap()))?;
    }
    Ok(rows)
}

// One empty row for each rule below `rules`.
fn empty_rows<StorageT: StorageIndex>(
    alloc: Global,
    rules: usize,
) -> Result<Vec<Vec<PIdx<StorageT>>>, AllocError>
    ensures { IfOk result (HasEmptyRows StorageT.index rules) }
{
    let mut rows = Vec::with_capacity(alloc, rules)?;
    for _ in 0..rules {
        rows.push(Vec::new(alloc))?;
    }
    Ok(rows)
}
