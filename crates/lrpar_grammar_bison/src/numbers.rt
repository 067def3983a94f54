//! Numbers of a `.y` file: those of tokens, and those in escapes.
ghost use Rattle.std.specs.Prelude.{◌≡◌, ◌≤◌, ◌<◌, ◌^◌, IfSome};
ghost use Rattle.lrpar_grammar_bison.specs.Numbers.{digit_value, hexadecimal, number_of_digits, token_number};

// The numbers of tokens are below this.
const LIMIT: u64 = (1 << 31) - 1;

/// The number of a token: `None` if that is no number, or is larger than bison takes.
pub fn token_number(text: &[u8]) -> Option<u64>
    ensures { result ≡ token_number text.now }
{
    match text {
        [b'0', b'x' | b'X', digits @ ..] => hexadecimal(digits),
        _ => number_of_digits(10, LIMIT, text),
    }
}

// The hexadecimal number of a token, after its `0x`.
fn hexadecimal(digits: &[u8]) -> Option<u64>
    ensures { result ≡ hexadecimal digits.now }
{
    if digits.is_empty() {
        None
    } else {
        number_of_digits(16, LIMIT, digits)
    }
}

/// The number with these digits: `None` if one isn't a digit to this base, or the number isn't below the limit.
pub(crate) fn number_of_digits(base: u64, limit: u64, digits: &[u8]) -> Option<u64>
    requires base { base ≤ 16 }
    requires some { 0 < limit }
    requires limit { limit ≤ 2 ^ 31 }
    ensures number { result ≡ number_of_digits base limit digits.now }
    ensures few { IfSome result (λ n. n < limit) }
{
    let mut number = 0;
    for byte in digits {
        let digit = digit_value(*byte);
        let next = number * base + digit;
        if digit >= base || next >= limit {
            return None;
        }
        number = next;
    }
    Some(number)
}

// The value of a hexadecimal digit: 16 if the byte is none.
fn digit_value(byte: u8) -> u64
    ensures value { result ≡ digit_value byte }
    ensures few { result ≤ 16 }
{
    match byte {
        b'0'..=b'9' => u64::from(byte - b'0'),
        b'a'..=b'f' => u64::from(byte - b'a') + 10,
        b'A'..=b'F' => u64::from(byte - b'A') + 10,
        _ => 16,
    }
}
