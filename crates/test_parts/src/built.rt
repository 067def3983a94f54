//! Grammars, the tables that are built of them, and lists of lists.
use crate::lexer::Given;
use lrpar_grammar::grammar::YaccGrammar;
use lrpar_table::build::parser_data;
use lrpar_table::check::ParserData;
use std::alloc::Global;
use std::test::Fail;

/// The grammar *sum*: tokens `+` 0, `ID` 1; rules `E` 1, `T` 2.
pub const SUM: &str = "%% E: T '+' E | T; T: 'ID';";

/// The grammar *brackets*: tokens `N` 0, `+` 1, `(` 2, `)` 3; rule `E` 1.
pub const BRACKETS: &str = "%% E : 'N' | E '+' 'N' | '(' E ')';";

/// The lexemes of `n)+n+n+n)` of that grammar. Its two errors are brackets that are too many.
pub const TWICE: [Given; 9] = [
    (0, 1),
    (3, 1),
    (1, 1),
    (0, 1),
    (1, 1),
    (0, 1),
    (1, 1),
    (0, 1),
    (3, 1),
];

/// The grammar *arithmetic*: tokens `+` 0, `*` 1, `INT` 2; rules `Expr` 1, `Term` 2, `Factor` 3.
pub const ARITHMETIC: &str =
    "%% Expr: Expr '+' Term | Term; Term: Term '*' Factor | Factor; Factor: 'INT';";

/// The grammar *calc*: tokens `+` 0, `*` 1, `(` 2, `)` 3, `INT` 4.
pub const CALC: &str =
    "%start Expr %% Expr: Expr '+' Term | Term; Term: Term '*' Factor | Factor; Factor: '(' Expr ')' | 'INT';";

/// The checked table of a grammar text.
pub fn built(alloc: Global, text: &str) -> Result<ParserData<u32>, Fail> {
    let grm = YaccGrammar::new_with_storaget(alloc, text)?;
    match parser_data(alloc, grm, 100, 10) {
        Ok(data) => Ok(data),
        Err(_) => Err(Fail::new("no checked table")),
    }
}

/// A list for each row.
pub fn lists<T: Copy>(alloc: Global, rows: &[&[T]]) -> Result<Vec<Vec<T>>, Fail> {
    let mut made = Vec::new(alloc);
    for row in rows {
        made.push(Vec::from_slice(alloc, *row)?)?;
    }
    Ok(made)
}
