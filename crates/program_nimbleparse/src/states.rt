//! The states of a table: the kernel items of each, and where it goes.
ghost use Rattle.std.specs.Prelude.{◌<◌};
ghost use Rattle.lrpar_table_rows.specs.Graph.{graph_len};
ghost use Rattle.lrpar_table_rows.specs.Table.{states_len};

use lrpar_grammar::grammar::YaccGrammar;
use lrpar_grammar::span::{PIdx, RIdx, StIdx, Symbol, TIdx};
use lrpar_report::push_quoted;
use lrpar_table::table::{Action, StateGraph, StateTable};
use std::alloc::AllocError;

/// Adds the states of the table. A state is its number, its kernel items, each with its lookaheads, and the states to which its gotos and
/// its shifts lead:
///
/// ```text
/// 4: [Expr -> Expr '+' . Term, {'+', '$'}]
///     Term -> 7
///     'INT' -> 2
/// ```
pub(crate) fn push_states(
    out: &mut String,
    grm: &YaccGrammar<u32>,
    sgraph: &StateGraph<u32>,
    stable: &StateTable<u32>,
) -> Result<(), AllocError> {
    out.push_str("states:\n")?;
    for number in 0..sgraph.states_len().min(stable.states_len()) {
        if let Ok(storaget) = u32::try_from(number) {
            write!(out, "{number}:")?;
            push_kernel(out, grm, sgraph, StIdx(storaget))?;
            push_targets(out, grm, stable, StIdx(storaget))?;
        }
    }
    Ok(())
}

// Adds the kernel items of a state. Those that differ in their lookaheads alone are one.
fn push_kernel(
    out: &mut String,
    grm: &YaccGrammar<u32>,
    sgraph: &StateGraph<u32>,
    state: StIdx<u32>,
) -> Result<(), AllocError>
    requires { state.0 < graph_len sgraph.now }
{
    let mut last = None;
    for (prod, dot, token) in sgraph.items(state) {
        if dot == 0 && prod != grm.start_prod() {
            continue;
        }
        if last == Some((prod, dot)) {
            out.push_str(", ")?;
        } else {
            out.push_str(before_item(last.is_some()))?;
            push_core(out, grm, prod, dot)?;
            last = Some((prod, dot));
        }
        push_token(out, grm, token)?;
    }
    out.push_str("}]\n")
}

// What comes before an item, after another one or as the first.
fn before_item(is_later: bool) -> &'static str {
    if is_later { "}]\n    [" } else { " [" }
}

// Adds a production with a dot, up to the lookaheads.
fn push_core(
    out: &mut String,
    grm: &YaccGrammar<u32>,
    prod: PIdx<u32>,
    dot: usize,
) -> Result<(), AllocError> {
    if usize::from(prod) >= grm.prods_len() {
        return Ok(());
    }
    out.push_str(grm.rule_name_str(grm.prod_to_rule(prod)))?;
    out.push_str(" ->")?;
    let symbols = grm.prod(prod);
    for (place, symbol) in symbols.iter().enumerate() {
        if place == dot {
            out.push_str(" .")?;
        }
        out.push(' ')?;
        push_symbol(out, grm, *symbol)?;
    }
    if dot >= symbols.len() {
        out.push_str(" .")?;
    }
    out.push_str(", {")
}

/// Adds a symbol: a rule by its name, and a token by its name in quotes, the end token as `'$'`.
pub(crate) fn push_symbol(
    out: &mut String,
    grm: &YaccGrammar<u32>,
    symbol: Symbol<u32>,
) -> Result<(), AllocError> {
    match symbol {
        Symbol::Rule(rule) => push_rule(out, grm, rule),
        Symbol::Token(token) => push_token(out, grm, token),
    }
}

// Adds a rule by its name.
fn push_rule(out: &mut String, grm: &YaccGrammar<u32>, rule: RIdx<u32>) -> Result<(), AllocError> {
    if usize::from(rule) < grm.rules_len() {
        out.push_str(grm.rule_name_str(rule))
    } else {
        Ok(())
    }
}

// Adds a token by its name in quotes, and the end token as `'$'`.
fn push_token(
    out: &mut String,
    grm: &YaccGrammar<u32>,
    token: TIdx<u32>,
) -> Result<(), AllocError> {
    if usize::from(token) >= grm.tokens_len() {
        return Ok(());
    }
    push_quoted(out, grm.token_name(token).unwrap_or("$"))
}

// Adds the states to which the gotos of a state lead, and then those to which its shifts do.
fn push_targets(
    out: &mut String,
    grm: &YaccGrammar<u32>,
    stable: &StateTable<u32>,
    state: StIdx<u32>,
) -> Result<(), AllocError>
    requires { state.0 < states_len stable.now }
{
    let (rules, states) = stable.gotos_of(state);
    for (rule, next) in rules.iter().zip(states) {
        push_target(out, grm, Symbol::Rule(*rule), *next)?;
    }
    let (tokens, actions) = stable.actions_of(state);
    for (token, action) in tokens.iter().zip(actions) {
        if let Action::Shift(next) = action {
            push_target(out, grm, Symbol::Token(*token), *next)?;
        }
    }
    Ok(())
}

// Adds the line of a goto or a shift: its symbol, and the state to which it leads.
fn push_target(
    out: &mut String,
    grm: &YaccGrammar<u32>,
    symbol: Symbol<u32>,
    next: StIdx<u32>,
) -> Result<(), AllocError> {
    out.push_str("    ")?;
    push_symbol(out, grm, symbol)?;
    let number = usize::from(next);
    writeln!(out, " -> {number}")
}
