//! Templates of code.
use std::alloc::AllocError;

/// Appends a template, with the word of each name in place of that name between two `@`.
pub(crate) fn push_filled(
    out: &mut String,
    template: &str,
    words: &[(&str, &str)],
) -> Result<(), AllocError> {
    let mut is_name = false;
    for piece in template.split('@') {
        if !is_name {
            out.push_str(piece)?;
        } else if let Some(word) = words.iter().find(|word| word.0 == piece) {
            out.push_str(word.1)?;
        }
        is_name = !is_name;
    }
    Ok(())
}
