//! The arguments of productions in code.
use crate::names::{free_name, snake};
use lrpar_grammar::span::Symbol;
use lrpar_grammar_typed::push_named;
use lrpar_grammar_typed::typed::{Making, TypedGrammar, TypedProd, TypedSymbol, word_at};
use std::alloc::{AllocError, Global};

/// An argument of a production.
#[derive(Drop)]
pub(crate) struct Arg {
    /// Its name.
    pub(crate) name: String,
    /// Its symbol.
    pub(crate) symbol: Symbol<u32>,
    /// Whether its value is passed on.
    pub(crate) is_passed: bool,
}

/// The arguments of a production.
pub(crate) fn args_of(
    alloc: Global,
    text: &str,
    grammar: &TypedGrammar,
    prod: &TypedProd,
) -> Result<Vec<Arg>, AllocError> {
    let mut args: Vec<Arg> = Vec::with_capacity(alloc, prod.symbols.len())?;
    let last = prod.symbols.len().saturating_sub(1);
    for (place, symbol) in prod.symbols.iter().enumerate() {
        let (name, is_passed) = match prod.making {
            Making::Push | Making::Same if place == 0 => (String::from_str(alloc, "list")?, true),
            Making::Push | Making::First | Making::Just if place == last => {
                (String::from_str(alloc, "item")?, true)
            }
            Making::Action(_) if grammar.is_passed(text, symbol) => {
                let name = arg_name(alloc, text, grammar, symbol)?;
                (free_name(numbered(alloc, name, &args)?)?, true)
            }
            _ => (unused_name(alloc, grammar, symbol.symbol)?, false),
        };
        args.push(Arg {
            name,
            symbol: symbol.symbol,
            is_passed,
        })?;
    }
    Ok(args)
}

// The name of an argument: the one that is written, or that of its symbol.
fn arg_name(
    alloc: Global,
    text: &str,
    grammar: &TypedGrammar,
    symbol: &TypedSymbol,
) -> Result<String, AllocError> {
    match symbol.name {
        Some(name) => String::from_str(alloc, word_at(text, name)),
        None => symbol_name(alloc, grammar, symbol.symbol),
    }
}

// The name of an argument that isn't used.
fn unused_name(
    alloc: Global,
    grammar: &TypedGrammar,
    symbol: Symbol<u32>,
) -> Result<String, AllocError> {
    let name = symbol_name(alloc, grammar, symbol)?;
    let mut unused = String::from_str(alloc, "_")?;
    unused.push_str(name.as_str())?;
    Ok(unused)
}

/// The name of a symbol, as that of a variable.
pub(crate) fn symbol_name(
    alloc: Global,
    grammar: &TypedGrammar,
    symbol: Symbol<u32>,
) -> Result<String, AllocError> {
    let mut word = String::new(alloc);
    push_named(&mut word, grammar, symbol, "")?;
    snake(alloc, word.as_str())
}

// The name, with a number if earlier arguments have it.
fn numbered(alloc: Global, name: String, args: &[Arg]) -> Result<String, AllocError> {
    let mut number: usize = 1;
    for arg in args {
        if is_numbered(arg.name.as_str(), name.as_str()) {
            number = number.saturating_add(1);
        }
    }
    if number == 1 {
        return Ok(name);
    }
    let mut numbered = name;
    write!(numbered, "_{number}")?;
    Ok(numbered)
}

// Whether a name is this one, perhaps with a number or an underscore after it.
fn is_numbered(name: &str, stem: &str) -> bool {
    match name.strip_prefix(stem) {
        Some(rest) => rest
            .trim_start_matches('_')
            .chars()
            .all(|digit| digit.is_ascii_digit()),
        None => false,
    }
}
