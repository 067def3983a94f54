//! The productions as rows of numbers, and the grammar as a text.
use crate::plan::{push_quoted, push_symbol};
use crate::template::push_filled;
use lrpar_grammar::span::{RIdx, Symbol, TIdx};
use lrpar_grammar_typed::push_word;
use lrpar_grammar_typed::typed::TypedGrammar;
use std::alloc::{AllocError, Global};
use std::collections::BTreeMap;

// How long the line of a constant may be.
const MAX_LINE: usize = 100;

/// Writes the constant of the productions: on a line, if it is short enough.
pub(crate) fn write_rows(
    out: &mut String,
    alloc: Global,
    grammar: &TypedGrammar,
) -> Result<(), AllocError> {
    let rows = rows_of(alloc, grammar)?;
    let width = row_width(grammar);
    let count = rows.len();
    out.push_str(
        "// The productions: the rule and the symbols of each, rule r as 2r + 1, and token t as 2t + 2.\n",
    )?;
    let mut line = format!(in alloc; "const ROWS: [[u32; {width}]; {count}] = [")?;
    let front = line.len();
    let mut start = "";
    for row in &rows {
        push_filled(
            &mut line,
            "@start@@row@",
            &[("start", start), ("row", row.as_str())],
        )?;
        start = ", ";
    }
    line.push_str("];")?;
    if line.len() <= MAX_LINE {
        out.push_str(line.as_str())?;
        return out.push_str("\n\n");
    }
    out.push_str(line.get(..front).unwrap_or(""))?;
    out.push('\n')?;
    for row in &rows {
        push_filled(out, "    @row@,\n", &[("row", row.as_str())])?;
    }
    out.push_str("];\n\n")
}

// How many numbers a row has.
fn row_width(grammar: &TypedGrammar) -> usize {
    let prods = grammar.rules.iter().flat_map(|rule| &rule.prods);
    let longest = prods.map(|prod| prod.symbols.len()).max().unwrap_or(0);
    longest.saturating_add(1)
}

// The rows.
fn rows_of(alloc: Global, grammar: &TypedGrammar) -> Result<Vec<String>, AllocError> {
    let width = row_width(grammar);
    let mut rows = Vec::new(alloc);
    for (place, rule) in grammar.rules.iter().enumerate() {
        let kind = 2 * (place as u64 + 1) + 1;
        for prod in &rule.prods {
            let mut row = format!(in alloc; "[{kind}")?;
            for symbol in &prod.symbols {
                let kind = kind_of(symbol.symbol);
                write!(row, ", {kind}")?;
            }
            for _ in prod.symbols.len() + 1..width {
                row.push_str(", 0")?;
            }
            row.push(']')?;
            rows.push(row)?;
        }
    }
    Ok(rows)
}

// The number of a symbol in a row.
fn kind_of(symbol: Symbol<u32>) -> u64 {
    match symbol {
        Symbol::Rule(RIdx(rule)) => 2 * u64::from(rule) + 1,
        Symbol::Token(TIdx(token)) => 2 * u64::from(token) + 2,
    }
}

/// Writes the constant of the grammar's text.
pub(crate) fn write_grammar(out: &mut String, grammar: &TypedGrammar) -> Result<(), AllocError> {
    let start = grammar.name(Symbol::Rule(grammar.start));
    push_filled(
        out,
        "\
/// The grammar, as a grammar text.
pub(crate) const GRAMMAR: &str = r##\"
%start @start@
",
        &[("start", start)],
    )?;
    for token in &grammar.tokens {
        out.push_str("%token ")?;
        push_quoted(out, token.name.as_str())?;
        out.push('\n')?;
    }
    out.push_str("%%\n")?;
    for rule in &grammar.rules {
        out.push_str(rule.name.as_str())?;
        let mut start = ":";
        for prod in &rule.prods {
            out.push_str(start)?;
            for symbol in &prod.symbols {
                out.push(' ')?;
                push_symbol(out, grammar, symbol.symbol)?;
            }
            start = "\n  |";
        }
        out.push_str(";\n")?;
    }
    out.push_str("\"##;\n\n")
}

/// Writes the constants of the tokens' numbers.
pub(crate) fn write_tokens(
    out: &mut String,
    alloc: Global,
    grammar: &TypedGrammar,
) -> Result<(), AllocError> {
    out.push_str("/// The numbers of tokens.\npub(crate) mod tokens {\n")?;
    let mut counts: BTreeMap<String, usize> = BTreeMap::new(alloc);
    for (number, token) in grammar.tokens.iter().enumerate() {
        let name = constant_of(alloc, token.name.as_str())?;
        let count = counts
            .get(name.as_str())
            .map_or(1, |count| count.saturating_add(1));
        let mut constant = String::from_str(alloc, name.as_str())?;
        if count > 1 {
            write!(constant, "_{count}")?;
        }
        let _ = counts.insert(name, count)?;
        let constant = constant.as_str();
        let template = "    /// The token `@name@`.\n    pub(crate) const ";
        push_filled(out, template, &[("name", token.name.as_str())])?;
        write!(out, "{constant}: u32 = {number};\n\n")?;
    }
    if !grammar.tokens.is_empty() {
        let _ = out.pop();
    }
    out.push_str("}\n\n")
}

// The name of a token's constant.
fn constant_of(alloc: Global, token: &str) -> Result<String, AllocError> {
    let mut word = String::new(alloc);
    push_word(&mut word, token)?;
    let mut constant = String::new(alloc);
    for letter in word.chars() {
        constant.push(letter.to_ascii_uppercase())?;
    }
    Ok(constant)
}
