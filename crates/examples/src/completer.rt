//! A completer for sums: for each beginning of a line that ends with a lexeme, the tokens that may come next.
use crate::language::{Failed, language_of};
use lrpar::span::TIdx;
use lrpar::{Lexeme, Lexer, RTParserBuilder};
use lrpar_language::Language;
use std::alloc::{AllocError, Global};

const GRAMMAR: &str = "%% Sum: Sum '+' Term | Term; Term: '(' Sum ')' | 'INT';";

const LEXER: &str = r"
    [0-9]+ 'INT'
    \+ '+'
    \( '('
    \) ')'
    [ \t\r]+ ;";

/// What may come next after each beginning of each line of the text.
pub(crate) fn run(alloc: Global, text: &str) -> Result<String, Failed> {
    let sums = language_of(alloc, GRAMMAR, LEXER)?;
    let mut out = String::new(alloc);
    for line in text.split_terminator('\n') {
        push_line(&mut out, alloc, &sums, line)?;
    }
    Ok(out)
}

// Adds what may come next after each beginning of a line, the empty one first, a line each. If a beginning has an error, it is what may
// come in place of the lexeme at the error.
fn push_line(out: &mut String, alloc: Global, sums: &Language, line: &str) -> Result<(), Failed> {
    push_next(out, alloc, sums, "")?;
    let lexer = sums.lexer(alloc, line)?;
    for lexeme in lexer.iter(alloc)? {
        if let Ok(lexeme) = lexeme {
            let front = line.get(..lexeme.span().end()).unwrap_or("");
            push_next(out, alloc, sums, front)?;
        }
    }
    Ok(())
}

// Adds a text, and the tokens that may come after it.
fn push_next(out: &mut String, alloc: Global, sums: &Language, text: &str) -> Result<(), Failed> {
    let lexer = sums.lexer(alloc, text)?;
    let expected = RTParserBuilder::new(sums.data()).expected(alloc, &lexer)?;
    Ok(push_tokens(out, sums, text, &expected.tokens)?)
}

// Adds a text, and these tokens.
fn push_tokens(
    out: &mut String,
    sums: &Language,
    text: &str,
    tokens: &[TIdx<u32>],
) -> Result<(), AllocError> {
    out.push_str(text)?;
    out.push_str(" ->")?;
    for token in tokens {
        out.push(' ')?;
        out.push_str(sums.data().grm().epp_of(*token))?;
    }
    out.push('\n')
}
