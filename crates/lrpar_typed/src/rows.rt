//! Productions as rows of numbers, which generated code has as a constant.
ghost use Rattle.std.specs.Prelude.{◌≡◌, ◌↔◌, ◌<◌, ◌^◌, [], IsTrue};
ghost use Rattle.lrpar_parse.specs.Arguments.{TakesAll};
ghost use Rattle.lrpar_typed.specs.Rows.{AreKindsOf, AreRowsOf, IsRow, IsRowOf, TakesRow, kind_of, until_zero};
ghost use Rattle.lrpar_grammar.specs.Symbols.{symbol_of};

use lrpar_grammar::grammar::YaccGrammar;
use lrpar_grammar::span::{PIdx, RIdx, StorageIndex, Symbol, TIdx};

/// Whether the rows have the production of this number, this rule and these symbols: in the row of that number, the kind of the rule, then
/// those of the symbols, and then zeros or nothing. The kind of rule r is 2r + 1, that of token t is 2t + 2.
pub fn has_row<const W: usize, StorageT: StorageIndex>(
    rows: &[[u32; W]],
    pidx: PIdx<StorageT>,
    ridx: RIdx<StorageT>,
    symbols: &[Symbol<StorageT>],
) -> bool
    ensures { IsTrue result ↔ TakesRow StorageT.index rows.now pidx ridx symbols.now }
{
    let number = usize::from(pidx);
    if number >= rows.len() {
        return false;
    }
    is_row(&rows[number], ridx.as_storaget().to_index(), symbols)
}

// Whether the row is of this rule and these symbols.
fn is_row<StorageT: StorageIndex>(row: &[u32], ridx: usize, symbols: &[Symbol<StorageT>]) -> bool
    requires { ridx < 2 ^ 32 }
    ensures { IsTrue result ↔ IsRowOf StorageT.index row.now ridx symbols.now }
{
    match row.split_first() {
        Some((first, row)) => *first as usize == 2 * ridx + 1 && are_kinds(row, symbols),
        None => false,
    }
}

// Whether the kinds up to the first 0 are those of the symbols.
fn are_kinds<StorageT: StorageIndex>(row: &[u32], symbols: &[Symbol<StorageT>]) -> bool
    ensures { IsTrue result ↔ AreKindsOf StorageT.index row.now symbols.now }
{
    let Some((symbol, symbols)) = symbols.split_first() else {
        return is_ended(row);
    };
    match row.split_first() {
        Some((kind, row)) => *kind as usize == kind_of(*symbol) && are_kinds(row, symbols),
        None => false,
    }
}

// Whether the row is empty or begins with 0.
fn is_ended(row: &[u32]) -> bool
    ensures { IsTrue result ↔ (until_zero row.now ≡ []) }
{
    match row.first() {
        Some(kind) => *kind == 0,
        None => true,
    }
}

// The kind of a symbol.
fn kind_of<StorageT: StorageIndex>(symbol: Symbol<StorageT>) -> usize
    ensures { result ≡ kind_of (symbol_of StorageT.index symbol) }
{
    match symbol {
        Symbol::Rule(RIdx(rule)) => 2 * rule.to_index() + 1,
        Symbol::Token(TIdx(token)) => 2 * token.to_index() + 2,
    }
}

// Whether the rows have each production of the grammar but the start production.
fn have_all<const W: usize, StorageT: StorageIndex>(
    rows: &[[u32; W]],
    grm: &YaccGrammar<StorageT>,
) -> bool
    ensures { IsTrue result ↔ TakesAll (IsRow rows.now) grm.now }
{
    for number in 0..grm.start_prod().as_storaget().to_index() {
        let pidx = PIdx(StorageT::from_index(number).unwrap());
        if !has_row(rows, pidx, grm.prod_to_rule(pidx), grm.prod(pidx)) {
            return false;
        }
    }
    true
}

/// Whether the rows have each production of the grammar but the start production, and the grammar has this start rule. Takes time linear in
/// the productions.
pub fn are_rows_of<const W: usize, StorageT: StorageIndex>(
    rows: &[[u32; W]],
    start: u32,
    grm: &YaccGrammar<StorageT>,
) -> bool
    ensures { IsTrue result ↔ AreRowsOf rows.now start grm.now }
{
    have_all(rows, grm) && grm.start_rule_idx().as_storaget().to_index() == start as usize
}
