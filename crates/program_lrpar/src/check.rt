//! The command `check`: how large the table of a grammar is, whether its chains of reductions are short, and whether it is complete.
//! It is safe, since it is built.
use lrpar_grammar::grammar::YaccGrammar;
use lrpar_grammar::span::TIdx;
use lrpar_table::check::{CheckFault, CompleteFault, ParserData, Refused};
use lrpar_table::table::StateTable;
use program_files::fault::Fault;
use program_files::parsing::print_line;
use program_files::tables::check_table;
use std::alloc::Global;
use std::io::Write;

/// Prints how large the grammar of the text and its table are, what the check of chains says, and whether a table that passes is
/// complete. Returns whether it passes.
pub(crate) fn run_check<O: Write>(
    alloc: Global,
    grammar: &str,
    cap: u16,
    out: &mut O,
) -> Result<bool, Fault> {
    match check_table(alloc, grammar, cap)? {
        Ok(data) => {
            print_checked(alloc, &data, out)?;
            Ok(true)
        }
        Err(refused) => {
            print_refused(refused, out)?;
            Ok(false)
        }
    }
}

// Prints how large the grammar and its table are, that the check passes, and whether the table is complete.
fn print_checked<O: Write>(
    alloc: Global,
    data: &ParserData<u32>,
    out: &mut O,
) -> Result<(), Fault> {
    print_sizes(data.grm(), data.stable(), out)?;
    print_line(out, "checked")?;
    match data.check_complete(alloc) {
        Ok(()) => print_line(out, "complete"),
        Err(fault) => print_incomplete(fault, out),
    }
}

// Prints why the table isn't complete. A failed allocation is a fault.
fn print_incomplete<O: Write>(fault: CompleteFault, out: &mut O) -> Result<(), Fault> {
    let CompleteFault::Condition(condition, state) = fault else {
        return Err(Fault::Memory);
    };
    writeln!(out, "not complete: condition {condition} at state {state}")?;
    Ok(())
}

// Prints how large the grammar and its table are, and what is refused.
fn print_refused<O: Write>(refused: Refused<u32>, out: &mut O) -> Result<(), Fault> {
    let fault = refused.fault();
    let (grm, _, stable) = refused.into_parts();
    print_sizes(&grm, &stable, out)?;
    print_refusal(&grm, fault, out)
}

// Prints how large the grammar and its table are.
fn print_sizes<O: Write>(
    grm: &YaccGrammar<u32>,
    stable: &StateTable<u32>,
    out: &mut O,
) -> Result<(), Fault> {
    let states = stable.states_len();
    let rules = grm.rules_len();
    let prods = grm.prods_len();
    let tokens = grm.tokens_len();
    writeln!(
        out,
        "rules {rules}, productions {prods}, tokens {tokens}, states {states}"
    )?;
    Ok(())
}

// Prints the chain that is too long. A built table has no other fault but a failed allocation.
fn print_refusal<O: Write>(
    grm: &YaccGrammar<u32>,
    fault: CheckFault,
    out: &mut O,
) -> Result<(), Fault> {
    let CheckFault::ChainTooLong(state, token) = fault else {
        return Err(fault.into());
    };
    let name = token_name(grm, token);
    writeln!(
        out,
        "refused: chain too long at state {state}, token {name}"
    )?;
    Ok(())
}

// The token's name; `$` for the end token.
fn token_name(grm: &YaccGrammar<u32>, token: usize) -> &str {
    match u32::try_from(token) {
        Ok(number) if token < grm.tokens_len() => grm.token_name(TIdx(number)).unwrap_or("$"),
        _ => "$",
    }
}
