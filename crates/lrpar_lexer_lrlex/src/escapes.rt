//! The escapes of a pattern of lrlex.
ghost use Rattle.std.specs.Prelude.{◌≡◌, ◌==◌, ◌&&◌, [], not, true, IfOk, OnOk, string_bytes};
ghost use Rattle.lrpar_lexer_lrlex.specs.Escapes as spec;
ghost use Rattle.lrpar_lexer_lrlex.specs.Escapes.{AppendsChars};

use std::alloc::{AllocError, Global};

// The pattern for `regex`: without a backslash before a character that has no meaning after one.
pub(crate) fn unescaped(alloc: Global, pattern: &str) -> Result<String, AllocError>
    ensures { IfOk result (λ text. string_bytes text ≡ spec.unescaped pattern.now) }
{
    let mut text = String::with_capacity(alloc, pattern.len())?;
    let mut is_escaped = false;
    'chars: for c in pattern.chars() {
        push_char(&mut text, is_escaped, c)?;
        is_escaped = escapes_next(is_escaped, c);
    }
    push_end(&mut text, is_escaped)?;
    Ok(text)
}

// Whether the character is a backslash that isn't escaped itself.
fn escapes_next(is_escaped: bool, c: char) -> bool
    ensures { result ≡ (not is_escaped && c == 92) }
{
    !is_escaped && c == '\\'
}

// Adds what is written for a character. If a backslash is before it, that isn't written yet.
#[tactic(auto, using(crate::proofs::EscapeLemmas::written_char, crate::proofs::EscapeLemmas::written_escaped, crate::proofs::EscapeLemmas::written_nothing))]
fn push_char(text: &mut String, is_escaped: bool, c: char) -> Result<(), AllocError>
    ensures { OnOk result (AppendsChars (spec.written is_escaped c) text.old text.new) }
{
    if escapes_next(is_escaped, c) {
        return Ok(());
    }
    if is_escaped {
        return push_escaped(text, c);
    }
    text.push(c)?;
    Ok(())
}

// Adds a character after a backslash.
#[tactic(auto, using(crate::proofs::EscapeLemmas::written_both, crate::proofs::EscapeLemmas::written_itself))]
fn push_escaped(text: &mut String, c: char) -> Result<(), AllocError>
    ensures { OnOk result (AppendsChars (spec.written true c) text.old text.new) }
{
    if !has_meaning(c) {
        text.push(c)?;
        return Ok(());
    }
    text.push('\\')?;
    text.push(c)?;
    Ok(())
}

// Adds a backslash at the end, if there is one.
#[tactic(auto, using(crate::proofs::EscapeLemmas::written_end, crate::proofs::EscapeLemmas::written_no_end))]
fn push_end(text: &mut String, is_escaped: bool) -> Result<(), AllocError>
    ensures { OnOk result (AppendsChars (spec.without_needless is_escaped []) text.old text.new) }
{
    if !is_escaped {
        return Ok(());
    }
    text.push('\\')?;
    Ok(())
}

// Whether the character after a backslash has a meaning in `regex`, as lrlex has it, or is itself.
fn has_meaning(c: char) -> bool
    ensures { result ≡ spec.has_meaning c }
{
    match c {
        '<' | '>' => false,
        'A' | 'B' | 'D' | 'P' | 'S' | 'U' | 'W' => true,
        'a' | 'b' | 'd' | 'f' | 'n' | 'p' | 'r' | 's' | 't' | 'u' | 'v' | 'w' | 'x' | 'z' => true,
        _ => c.is_ascii() && !c.is_ascii_alphabetic(),
    }
}
