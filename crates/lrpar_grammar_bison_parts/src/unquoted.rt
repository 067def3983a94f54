//! Names of tokens without the quotes of literals.
ghost use Rattle.std.specs.Prelude.{◌≡◌, IfOk};
ghost use Rattle.lrpar_grammar_bison_parts.specs.Unquoted.{HasUnquotedName, HaveUnquotedNames, is_in_quotes, is_quote, unquoted};

use lrpar_grammar_reader::parts::TokenPart;
use std::alloc::{AllocError, Global};

/// The tokens, with names and printed texts that have no quotes.
pub fn unquoted_tokens(alloc: Global, tokens: &[TokenPart]) -> Result<Vec<TokenPart>, AllocError>
    ensures { IfOk result (HaveUnquotedNames tokens.now) }
{
    let mut parts = Vec::with_capacity(alloc, tokens.len())?;
    for token in tokens {
        parts.push(unquoted_token(alloc, token)?)?;
    }
    Ok(parts)
}

// The token, with a name and a printed text that have no quotes.
fn unquoted_token(alloc: Global, token: &TokenPart) -> Result<TokenPart, AllocError>
    ensures { IfOk result (HasUnquotedName token.now) }
{
    Ok(TokenPart {
        name: String::from_str(alloc, unquoted(token.name.as_str()))?,
        epp: Some(String::from_str(alloc, unquoted(token.printed()))?),
        span: token.span,
    })
}

/// The text without its quotes, if it has them.
pub fn unquoted(text: &str) -> &str
    ensures { result.now ≡ unquoted text.now }
{
    if is_in_quotes(text.as_bytes()) {
        &text[1..text.len() - 1]
    } else {
        text
    }
}

// Whether the text is a literal in quotes.
fn is_in_quotes(text: &[u8]) -> bool
    ensures { result ≡ is_in_quotes text.now }
{
    match text {
        [first, .., last] => is_quote(*first) && *last == *first,
        _ => false,
    }
}

// Whether the byte is a quote.
fn is_quote(byte: u8) -> bool
    ensures { result ≡ is_quote byte }
{
    byte == b'\'' || byte == b'"'
}
