//! Names of what is generated from a grammar: of rules for lists, and of tokens whose texts are no words.
use crate::typed::{Form, TypedGrammar};
use lrpar_grammar::span::Symbol;
use std::alloc::{AllocError, Global};

// The names of characters.
const CHAR_NAMES: [(char, &str); 32] = [
    ('!', "bang"),
    ('"', "double_quote"),
    ('#', "hash"),
    ('$', "dollar"),
    ('%', "percent"),
    ('&', "and"),
    ('\'', "quote"),
    ('(', "left_paren"),
    (')', "right_paren"),
    ('*', "star"),
    ('+', "plus"),
    (',', "comma"),
    ('-', "minus"),
    ('.', "dot"),
    ('/', "slash"),
    (':', "colon"),
    (';', "semicolon"),
    ('<', "less"),
    ('=', "equals"),
    ('>', "greater"),
    ('?', "question"),
    ('@', "at"),
    ('[', "left_bracket"),
    ('\\', "backslash"),
    (']', "right_bracket"),
    ('^', "caret"),
    ('_', "_"),
    ('`', "backtick"),
    ('{', "left_brace"),
    ('|', "or"),
    ('}', "right_brace"),
    ('~', "tilde"),
];

/// The name of a group, the one of this number in a rule: `Rule_group`, `Rule_group_2`.
pub fn group_name(alloc: Global, rule: &str, number: usize) -> Result<String, AllocError> {
    let mut name = String::from_str(alloc, rule)?;
    name.push_str("_group")?;
    if number > 1 {
        write!(name, "_{number}")?;
    }
    Ok(name)
}

/// The name of the rule of a form, as `Expr_list` for `Expr*`.
pub fn form_name(alloc: Global, grammar: &TypedGrammar, form: Form) -> Result<String, AllocError> {
    let mut name = String::new(alloc);
    match form {
        Form::Written | Form::Group => {}
        Form::ZeroOrMore(item) => push_named(&mut name, grammar, item, "_list")?,
        Form::OneOrMore(item) => push_named(&mut name, grammar, item, "_some")?,
        Form::Optional(item) => push_named(&mut name, grammar, item, "_option")?,
        Form::Separated(item, separator) => {
            push_named(&mut name, grammar, item, "_by_")?;
            push_named(&mut name, grammar, separator, "")?;
        }
        Form::Terminated(list, _) => push_named(&mut name, grammar, list, "_list")?,
    }
    Ok(name)
}

/// Appends the word of a symbol, and what comes after it. `Err`: an allocation failed.
pub fn push_named(
    name: &mut String,
    grammar: &TypedGrammar,
    symbol: Symbol<u32>,
    end: &str,
) -> Result<(), AllocError> {
    match symbol {
        Symbol::Rule(_) => name.push_str(grammar.name(symbol))?,
        Symbol::Token(_) => push_word(name, grammar.name(symbol))?,
    }
    name.push_str(end)
}

/// Appends the word that a token is called by in code: its text, in which each other character than a letter or a digit has a name, as
/// `left_paren`. A name doesn't begin with a digit, so that of `0` is `n0`. `Err`: an allocation failed.
pub fn push_word(name: &mut String, text: &str) -> Result<(), AllocError> {
    let mut is_open = false;
    for letter in text.chars() {
        if letter.is_ascii_alphanumeric() || letter == '_' {
            if name.is_empty() && letter.is_ascii_digit() {
                name.push('n')?;
            }
            if is_open {
                name.push('_')?;
            }
            is_open = false;
            name.push(letter)?;
        } else {
            if !name.is_empty() && !name.ends_with('_') {
                name.push('_')?;
            }
            push_char_name(name, letter)?;
            is_open = true;
        }
    }
    Ok(())
}

// Appends the name of a character.
fn push_char_name(name: &mut String, letter: char) -> Result<(), AllocError> {
    match CHAR_NAMES.iter().find(|named| named.0 == letter) {
        Some(named) => name.push_str(named.1),
        None => write!(name, "u{number:x}", number = u32::from(letter)),
    }
}
