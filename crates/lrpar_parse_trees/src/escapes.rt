//! Texts between double quotes.
ghost use Rattle.std.specs.Prelude.{◌≡◌, ◌<◌};
ghost use Rattle.lrpar_parse_lexemes.specs.Strings.{Pushes};
ghost use Rattle.lrpar_parse_trees.specs.Escapes.{escaped, escaped_char, hex_digit, hex_escape};

use std::alloc::AllocError;

/// Adds the text, escaped as between double quotes in JSON (RFC 8259): `"` and `\` after a `\`, line feed, carriage return and tab as
/// `\n`, `\r` and `\t`, any other control character as `\u00` and two hexadecimal digits, and all else unchanged. Takes time linear in
/// the text. After an `Err`, which means out of memory, `out` has its old text and some of the new one.
pub fn push_escaped(out: &mut String, text: &str) -> Result<(), AllocError>
    ensures { Pushes (escaped text.now) out.old out.new result }
{
    for c in text.chars() {
        push_char(out, c)?;
    }
    Ok(())
}

// Adds a character, escaped.
fn push_char(out: &mut String, c: char) -> Result<(), AllocError>
    ensures { Pushes (escaped_char c) out.old out.new result }
{
    match c {
        '"' => out.push_str("\\\""),
        '\\' => out.push_str("\\\\"),
        '\n' => out.push_str("\\n"),
        '\r' => out.push_str("\\r"),
        '\t' => out.push_str("\\t"),
        _ if u32::from(c) < 32 => push_hex(out, u32::from(c)),
        _ => out.push(c),
    }
}

/// Adds a character below U+0100 as `\u00` and two hexadecimal digits.
pub(crate) fn push_hex(out: &mut String, number: u32) -> Result<(), AllocError>
    requires { number < 256 }
    ensures { Pushes (hex_escape number) out.old out.new result }
{
    out.push_str("\\u00")?;
    out.push(hex_digit(number / 16))?;
    out.push(hex_digit(number % 16))
}

// A hexadecimal digit.
fn hex_digit(number: u32) -> char
    requires { number < 16 }
    ensures { result ≡ hex_digit number }
{
    match u8::try_from(number) {
        Ok(number) if number < 10 => char::from(b'0' + number),
        Ok(number) if number < 16 => char::from(b'a' - 10 + number),
        _ => '?',
    }
}
