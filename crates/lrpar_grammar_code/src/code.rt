//! Code in a grammar file, of Rust or of C: its pieces, and where braces, types and prologues end.
ghost use Rattle.std.specs.Prelude.{false, ◌≡◌, ◌<◌, ◌≤◌, ◌+◌, ◌-◌, ◌==◌, ◌^◌, ℕ, ◌∷◌, length, slice_index, IfSome, IsTrue};
ghost use Rattle.std.specs.List.{prefix_len, position_or_len};
ghost use Rattle.lrpar_grammar_code.specs.Code.{begins_raw, c_comment_len, c_len, char_len, char_width, closes, comment_len, depth_after, end_len, end_of, ends_raw, escaped_len, hashes_len, is_end, is_in_word, is_unescaped, literal_len, nested_len, opens, piece_len, raw_len, run_len, rust_len, word_len};

use lrpar_grammar_words::words::closed_len;

/// A run of code: its language, and what it ends at.
#[derive(Clone, Copy)]
pub enum Run {
    /// Rust code, to the `}` of the `{` before it.
    Braced,
    /// A type of Rust, to the `:` after it.
    Typed,
    /// C code, to the `}` of the `{` before it.
    BracedC,
    /// C code, to the `%}` of the `%{` before it.
    PrologueC,
}

impl Run {
    // Whether the byte opens a bracket that has to be closed in the run.
    fn opens(self, byte: u8) -> bool
        ensures { result ≡ opens self byte }
    {
        match self {
            Run::Braced | Run::BracedC => byte == b'{',
            Run::PrologueC => false,
            Run::Typed => matches!(byte, b'(' | b'[' | b'{' | b'<'),
        }
    }

    // Whether the byte closes a bracket.
    fn closes(self, byte: u8) -> bool
        ensures { result ≡ closes self byte }
    {
        match self {
            Run::Braced | Run::BracedC => byte == b'}',
            Run::PrologueC => false,
            Run::Typed => matches!(byte, b')' | b']' | b'}' | b'>'),
        }
    }

    // The first byte of the piece that ends the run, outside all brackets.
    fn end(self) -> u8
        ensures { result ≡ end_of self }
    {
        match self {
            Run::Braced | Run::BracedC => b'}',
            Run::Typed => b':',
            Run::PrologueC => b'%',
        }
    }

    // The length of the piece that ends the run.
    fn end_len(self) -> usize
        ensures { result ≡ end_len self }
    {
        match self {
            Run::PrologueC => 2,
            Run::Braced | Run::Typed | Run::BracedC => 1,
        }
    }

    // The length of the piece of the run that begins with the byte `first` and goes on in `after`. `None` if it isn't closed.
    fn piece_len(self, first: u8, after: &[u8]) -> Option<usize>
        ensures len { result ≡ piece_len self first after.now }
        ensures within { IfSome result (λ len. (0 < len) × (len ≤ length after.now + 1)) }
    {
        match self {
            Run::Braced | Run::Typed => rust_len(first, after),
            Run::BracedC => c_len(false, first, after),
            Run::PrologueC => c_len(true, first, after),
        }
    }

    // Whether the piece of that length with that first byte ends the run, if so many brackets are open.
    fn is_end(self, depth: usize, byte: u8, len: usize) -> bool
        ensures { result ≡ is_end self depth byte len }
    {
        depth == 0 && byte == self.end() && len == self.end_len()
    }

    // The number of open brackets after a piece that begins with that byte.
    fn depth_after(self, depth: usize, byte: u8) -> usize
        requires { depth < 2 ^ 63 }
        ensures depth { result ≡ depth_after self depth byte }
        ensures few { result ≤ depth + 1 }
    {
        if self.opens(byte) {
            depth + 1
        } else if self.closes(byte) {
            depth.saturating_sub(1)
        } else {
            depth
        }
    }
}

/// The number of bytes of the run at the start of the code, without the piece that ends it: `None` if none does, or if a literal or a
/// comment in it isn't closed. Takes time linear in the run.
pub fn run_len(run: Run, code: &[u8]) -> Option<usize>
    ensures len { result ≡ run_len run 0 0 code.now }
    ensures within { IfSome result (λ len. len + end_len run ≤ length code.now) }
    ensures end { IfSome result (λ len. slice_index code.now len ≡ end_of run) }
{
    let mut depth = 0;
    let mut place = 0;
    while place < code.len() {
        let first = code[place];
        let len = run.piece_len(first, &code[place + 1..])?;
        if run.is_end(depth, first, len) {
            return Some(place);
        }
        depth = run.depth_after(depth, first);
        place += len;
    }
    None
}

// The length of the piece of Rust code that begins with the byte `first` and goes on in `after`: a literal, a comment, a name,
// `::`, `->` or one byte. `None` if it isn't closed.
#[tactic(auto, unfolding(crate::specs::Code::rust_len))]
fn rust_len(first: u8, after: &[u8]) -> Option<usize>
    ensures len { result ≡ rust_len first after.now }
    ensures within { IfSome result (λ len. (0 < len) × (len ≤ length after.now + 1)) }
{
    match first {
        b'"' => Some(1 + escaped_len(b'"', after)?),
        b'\'' => Some(1 + char_len(after)?),
        b'/' => Some(1 + comment_len(after)?),
        b':' if after.starts_with(b":") => Some(2),
        b'-' if after.starts_with(b">") => Some(2),
        _ if is_in_word(first) => word_len(first, after),
        _ => Some(1),
    }
}

// The number of bytes up to the end of the first quote that no backslash escapes.
fn escaped_len(quote: u8, text: &[u8]) -> Option<usize>
    ensures len { result ≡ escaped_len quote false text.now }
    ensures within { IfSome result (λ len. len ≤ length text.now) }
{
    let mut escaped = false;
    for (i, byte) in text.iter().enumerate() {
        if is_unescaped(escaped, *byte, quote) {
            return Some(i + 1);
        }
        escaped = is_unescaped(escaped, *byte, b'\\');
    }
    None
}

// Whether the byte is that one, and not escaped.
fn is_unescaped(escaped: bool, byte: u8, one: u8) -> bool
    ensures unescaped { result ≡ is_unescaped escaped byte one }
    ensures byte { IsTrue result → byte ≡ one }
{
    !escaped && byte == one
}

// After a `'`: the rest of a character, or nothing if the quote begins a lifetime.
#[tactic(auto, unfolding(crate::specs::Code::char_len))]
fn char_len(after: &[u8]) -> Option<usize>
    ensures len { result ≡ char_len after.now }
    ensures within { IfSome result (λ len. len ≤ length after.now) }
{
    let Some(first) = after.first() else {
        return Some(0);
    };
    let width = char_width(*first);
    if *first == b'\\' {
        escaped_len(b'\'', after)
    } else if *first != b'\'' && width < after.len() && after[width] == b'\'' {
        Some(width + 1)
    } else {
        Some(0)
    }
}

// The number of bytes of the character that begins with that byte.
fn char_width(first: u8) -> usize
    ensures width { result ≡ char_width first }
    ensures few { result ≤ 4 }
{
    match first {
        0..128 => 1,
        128..224 => 2,
        224..240 => 3,
        240.. => 4,
    }
}

// After a `/`: the rest of a comment, or nothing if there is none.
#[tactic(auto, unfolding(crate::specs::Code::comment_len))]
fn comment_len(after: &[u8]) -> Option<usize>
    ensures len { result ≡ comment_len after.now }
    ensures within { IfSome result (λ len. len ≤ length after.now) }
{
    match after {
        [b'/', line @ ..] => Some(1 + line_len(line)),
        [b'*', text @ ..] => Some(1 + nested_len(text)?),
        _ => Some(0),
    }
}

// The length of the piece of C code that begins with the byte `first` and goes on in `after`: a literal, a comment or one byte; and `%}`
// in a prologue. `None` if it isn't closed.
#[tactic(auto, unfolding(crate::specs::Code::c_len))]
fn c_len(prologue: bool, first: u8, after: &[u8]) -> Option<usize>
    ensures len { result ≡ c_len prologue first after.now }
    ensures within { IfSome result (λ len. (0 < len) × (len ≤ length after.now + 1)) }
{
    match first {
        b'"' | b'\'' => Some(1 + literal_len(first, after)?),
        b'/' => Some(1 + c_comment_len(after)?),
        b'%' if prologue && after.starts_with(b"}") => Some(2),
        _ => Some(1),
    }
}

/// In C, the number of bytes up to the end of the first quote that no backslash escapes: `None` if there is none on the line. A
/// backslash before an LF joins two lines.
pub fn literal_len(quote: u8, text: &[u8]) -> Option<usize>
    ensures len { result ≡ literal_len quote false text.now }
    ensures within { IfSome result (λ len. (0 < len) × (len ≤ length text.now)) }
    ensures end { IfSome result (λ len. slice_index text.now (len - 1) ≡ quote) }
{
    let mut escaped = false;
    for (i, byte) in text.iter().enumerate() {
        if is_unescaped(escaped, *byte, quote) {
            return Some(i + 1);
        }
        if is_unescaped(escaped, *byte, b'\n') {
            return None;
        }
        escaped = is_unescaped(escaped, *byte, b'\\');
    }
    None
}

/// In C, after a `/`: the number of bytes of the rest of a comment, 0 if there is none. `None` if the comment isn't closed.
#[tactic(auto, unfolding(crate::specs::Code::c_comment_len))]
pub fn c_comment_len(after: &[u8]) -> Option<usize>
    ensures len { result ≡ c_comment_len after.now }
    ensures within { IfSome result (λ len. len ≤ length after.now) }
{
    match after {
        [b'/', line @ ..] => Some(1 + line_len(line)),
        [b'*', text @ ..] => Some(1 + closed_len(text)?),
        _ => Some(0),
    }
}

/// The number of bytes before the first LF.
pub fn line_len(text: &[u8]) -> usize
    ensures len { result ≡ position_or_len (λ c. c == 10) text.now }
    ensures within { result ≤ length text.now }
    ensures ascii { slice_index text.now result < 128 }
{
    for (i, byte) in text.iter().enumerate() {
        if *byte == b'\n' {
            return i;
        }
    }
    text.len()
}

// The number of bytes up to the end of the `*/` that closes a comment in which comments may be nested.
fn nested_len(text: &[u8]) -> Option<usize>
    ensures len { result ≡ nested_len 0 false text.now }
    ensures within { IfSome result (λ len. len ≤ length text.now) }
{
    let mut depth = 0usize;
    let mut paired = false;
    for i in 0..text.len() {
        if paired {
            paired = false;
        } else if text[i..].starts_with(b"*/") {
            if depth == 0 {
                return Some(i + 2);
            }
            depth -= 1;
            paired = true;
        } else if text[i..].starts_with(b"/*") {
            depth += 1;
            paired = true;
        }
    }
    None
}

// The length of the name or number that begins with the byte `first`. If it is `r`, `br` or `cr` before a raw string, the
// string is a part of it.
#[tactic(auto, unfolding(crate::specs::Code::word_len))]
fn word_len(first: u8, after: &[u8]) -> Option<usize>
    ensures len { result ≡ word_len first after.now }
    ensures within { IfSome result (λ len. (0 < len) × (len ≤ length after.now + 1)) }
{
    let len = name_len(after);
    let rest = &after[len..];
    let hashes = hashes_len(rest);
    if begins_raw(first, &after[..len]) && hashes < rest.len() && rest[hashes] == b'"' {
        Some(1 + len + hashes + 1 + raw_len(hashes, &rest[hashes + 1..])?)
    } else {
        Some(1 + len)
    }
}

// Whether a name is `r`, `br` or `cr`.
fn begins_raw(first: u8, others: &[u8]) -> bool
    ensures { result ≡ begins_raw (first ∷ others.now) }
{
    match others {
        [] => first == b'r',
        [b'r'] => first == b'b' || first == b'c',
        _ => false,
    }
}

// The number of bytes up to the end of the first `"` with that many `#` after it.
fn raw_len(hashes: usize, text: &[u8]) -> Option<usize>
    ensures len { result ≡ raw_len hashes text.now }
    ensures within { IfSome result (λ len. len ≤ length text.now) }
{
    for i in 0..text.len() {
        if ends_raw(hashes, text[i], &text[i + 1..]) {
            return Some(i + 1 + hashes);
        }
    }
    None
}

// Whether the byte is a `"` with that many `#` after it.
fn ends_raw(hashes: usize, byte: u8, after: &[u8]) -> bool
    ensures ends { result ≡ ends_raw hashes byte after.now }
    ensures room { IsTrue result → hashes ≤ length after.now }
{
    byte == b'"' && hashes <= hashes_len(after)
}

// The number of `#` at the start of the text.
fn hashes_len(text: &[u8]) -> usize
    ensures len { result ≡ hashes_len text.now }
    ensures within { result ≤ length text.now }
{
    for (i, byte) in text.iter().enumerate() {
        if *byte != b'#' {
            return i;
        }
    }
    text.len()
}

// The number of bytes at the start of the text that may be in a name or a number.
fn name_len(text: &[u8]) -> usize
    ensures len { result ≡ prefix_len is_in_word text.now }
    ensures within { result ≤ length text.now }
{
    for (i, byte) in text.iter().enumerate() {
        if !is_in_word(*byte) {
            return i;
        }
    }
    text.len()
}

// A letter, a digit, `_`, or a byte of a character that isn't ASCII.
fn is_in_word(byte: u8) -> bool
    ensures { result ≡ is_in_word byte }
{
    matches!(byte, b'a'..=b'z' | b'A'..=b'Z' | b'0'..=b'9' | b'_' | 128..)
}
