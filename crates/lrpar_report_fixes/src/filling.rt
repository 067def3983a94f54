//! Messages that name the lexeme of an error, what is expected, and the lexeme before.
use std::alloc::AllocError;

/// Adds a text with these in place of `{found}`, `{expected}` and `{before}`.
pub(crate) fn push_filled(
    out: &mut String,
    text: &str,
    found: &str,
    expected: &str,
    before: &str,
) -> Result<(), AllocError> {
    let mut is_first = true;
    for piece in text.split('{') {
        if is_first {
            out.push_str(piece)?;
            is_first = false;
        } else {
            push_piece(out, piece, found, expected, before)?;
        }
    }
    Ok(())
}

// Adds a piece of a text that comes after an opening brace.
fn push_piece(
    out: &mut String,
    piece: &str,
    found: &str,
    expected: &str,
    before: &str,
) -> Result<(), AllocError> {
    if let Some(rest) = piece.strip_prefix("found}") {
        out.push_str(found)?;
        return out.push_str(rest);
    }
    if let Some(rest) = piece.strip_prefix("expected}") {
        out.push_str(expected)?;
        return out.push_str(rest);
    }
    if let Some(rest) = piece.strip_prefix("before}") {
        out.push_str(before)?;
        return out.push_str(rest);
    }
    out.push('{')?;
    out.push_str(piece)
}
