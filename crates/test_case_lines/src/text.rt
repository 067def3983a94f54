//! Escapes in the values of lines.
use crate::fault::Fault;
use std::alloc::Global;

/// The bytes of a value: `\n`, `\r`, `\t`, `\\`, `\s` for a space, and `\xHH` for any byte are read as the bytes that they represent.
pub fn unescaped(alloc: Global, value: &str, number: usize) -> Result<Vec<u8>, Fault> {
    let mut bytes = Vec::new(alloc);
    let mut rest = value.as_bytes();
    for _ in 0..value.len() {
        let Some((byte, others)) = first_byte(rest) else {
            break;
        };
        bytes.push(byte.ok_or(Fault::Line(number, "an escape that isn't known"))?)?;
        rest = others;
    }
    Ok(bytes)
}

// The byte with which a text begins, or `None` for an escape that isn't known, and the text after it; `None` for the empty text.
fn first_byte(text: &[u8]) -> Option<(Option<u8>, &[u8])> {
    match text {
        [] => None,
        [b'\\', b'x', high, low, rest @ ..] => Some((byte_of(*high, *low), rest)),
        [b'\\', letter, rest @ ..] => Some((escaped(*letter), rest)),
        [byte, rest @ ..] => Some((Some(*byte), rest)),
    }
}

// The byte that a letter after a backslash represents.
fn escaped(letter: u8) -> Option<u8> {
    match letter {
        b'n' => Some(b'\n'),
        b'r' => Some(b'\r'),
        b't' => Some(b'\t'),
        b's' => Some(b' '),
        b'\\' => Some(b'\\'),
        _ => None,
    }
}

// The byte of two hexadecimal digits.
fn byte_of(high: u8, low: u8) -> Option<u8> {
    digit_of(high)?.checked_mul(16)?.checked_add(digit_of(low)?)
}

// The number of a hexadecimal digit.
fn digit_of(digit: u8) -> Option<u8> {
    match digit {
        b'0'..=b'9' => Some(digit - b'0'),
        b'a'..=b'f' => Some(digit - b'a' + 10),
        _ => None,
    }
}
