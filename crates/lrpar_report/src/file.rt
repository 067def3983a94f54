//! Texts of files, or why there is none.
use std::alloc::{AllocError, Global};
use std::io;

/// The text of these bytes, or the message that they aren't UTF-8: `PATH:LINE:COLUMN: error: not UTF-8 at byte N`, N counted from 0.
/// The inner `Err` is the message, the outer one a failed allocation.
pub fn text_of(
    alloc: Global,
    path: &str,
    bytes: Vec<u8>,
) -> Result<Result<String, String>, AllocError> {
    match String::from_utf8(bytes) {
        Ok(text) => Ok(Ok(text)),
        Err(error) => {
            let at = error.utf8_error().valid_up_to();
            let bytes = error.into_bytes();
            Ok(Err(not_text(alloc, path, &bytes, at)?))
        }
    }
}

// The message of bytes that aren't UTF-8 from byte `at` on.
fn not_text(alloc: Global, path: &str, bytes: &[u8], at: usize) -> Result<String, AllocError> {
    let front = str::from_utf8(bytes.get(..at).unwrap_or(&[])).unwrap_or("");
    let line = front.matches('\n').count().saturating_add(1);
    let start = match front.rsplit_once('\n') {
        Some((_, start)) => start,
        None => front,
    };
    let column = start.chars().count().saturating_add(1);
    format!(in alloc; "{path}:{line}:{column}: error: not UTF-8 at byte {at}\n")
}

/// The message of a file that can't be read, with the runtime's reason.
pub fn file_message(alloc: Global, path: &str, error: &io::Error) -> Result<String, AllocError> {
    format!(in alloc; "{path}: error: cannot read this file: {error}\n")
}
