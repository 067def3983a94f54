//! The words of a grammar text, with their places.
ghost use Rattle.std.specs.Prelude.{◌≡◌, ◌+◌, ◌-◌, ◌<◌, ◌≤◌, ◌==◌, ◌||◌, ℕ, ◌∷◌, drop, length, IfSome, IsNone, IsTrue, slice_index};
ghost use Rattle.std.specs.List.{prefix_len, position_or_len};
ghost use Rattle.lrpar_grammar_words.specs.Words.{IsWordPiece, IsWithin, begins_name, blank_piece, closed_len, comment_after, is_in_name, name_after, piece_at, piece_from, placed, quote_len, quoted_after, sign_after, word_at, word_piece};

use lrpar_grammar_places::span::Span;

/// The kind of a word of a grammar text.
#[derive(Clone, Copy)]
pub enum WordKind {
    /// ASCII letters, digits, `_` and `.`, of which the first isn't a digit.
    Name,
    /// A name between quotes. It may have any characters except that quote and LF.
    Quoted,
    /// `%start`
    StartSign,
    /// `%token`
    TokenSign,
    /// `%epp`
    EppSign,
    /// `%%`
    RulesSign,
    /// `:`
    Colon,
    /// `|`
    Bar,
    /// `;`
    Semicolon,
}

/// A word of a grammar text.
#[derive(Clone, Copy)]
pub struct Word<'a> {
    /// Its kind.
    pub kind: WordKind,
    /// Its text, without quotes.
    pub name: &'a str,
    /// The length in bytes of what is there in the text: `name`, or another text that means it.
    pub len: usize,
    /// The byte after that, counted from the start of the grammar text.
    pub end: usize,
}

impl Word<'_> {
    /// The span of the word, without quotes.
    pub fn span(&self) -> Span
        ensures { result ≡ (placed self.now).span }
    {
        Span::new(self.end.saturating_sub(self.len), self.end)
    }
}

/// The longest piece of a text at some place: a word, or blanks.
#[derive(Clone, Copy)]
pub struct Piece {
    /// The kind of the word; `None` for blanks.
    pub word: Option<WordKind>,
    /// Its length in bytes.
    pub len: usize,
}

impl Piece {
    // Blanks of that length in bytes.
    fn blank(len: usize) -> Piece
        ensures { result ≡ blank_piece len }
    {
        Piece { word: None, len }
    }

    // A word of that kind.
    fn word(kind: WordKind, len: usize) -> Piece
        ensures { result ≡ word_piece kind len }
    {
        Piece {
            word: Some(kind),
            len,
        }
    }
}

impl WordKind {
    /// All kinds: first the signs, then names, then what separates these.
    pub const ALL: [WordKind; 9] = [
        WordKind::StartSign,
        WordKind::TokenSign,
        WordKind::EppSign,
        WordKind::RulesSign,
        WordKind::Name,
        WordKind::Quoted,
        WordKind::Colon,
        WordKind::Bar,
        WordKind::Semicolon,
    ];

    // The length in bytes of the quote at each end.
    fn quote_len(self) -> usize
        ensures len { result ≡ quote_len self }
        ensures few { result ≤ 1 }
    {
        match self {
            WordKind::Quoted => 1,
            _ => 0,
        }
    }
}

/// The word of that kind and length that begins at `place` of the text, as `piece_at` found it there.
pub fn word_at(text: &str, place: usize, kind: WordKind, len: usize) -> Word
    requires within { place + len ≤ length text.now }
    requires some { 0 < len }
    requires word { IsWordPiece (drop place text.now) len kind }
    ensures { placed result ≡ word_at place (drop place text.now) kind len }
{
    let quote = kind.quote_len();
    let start = place + quote;
    let end = place + (len - quote);
    Word {
        kind,
        name: &text[start..end],
        len: end - start,
        end,
    }
}

/// The piece that the rest of a text begins with: `None` if the rest is empty, or if no word and no blanks begin there. Takes
/// time linear in the piece, if there is one.
pub fn piece_at(rest: &[u8]) -> Option<Piece>
    ensures piece { result ≡ piece_at rest.now }
    ensures within { IfSome result (λ piece. IsWithin piece (length rest.now)) }
    ensures ascii { IfSome result (λ piece. IfSome piece.word (IsWordPiece rest.now piece.len)) }
{
    let [first, after @ ..] = rest else {
        return None;
    };
    piece_from(*first, after)
}

// The piece that begins with the byte `first` and goes on in `after`.
#[tactic(auto, unfolding(crate::specs::Words::piece_from))]
fn piece_from(first: u8, after: &[u8]) -> Option<Piece>
    ensures piece { result ≡ piece_from first after.now }
    ensures within { IfSome result (λ piece. IsWithin piece (length after.now + 1)) }
    ensures ascii { IfSome result (λ piece. IfSome piece.word (IsWordPiece (first ∷ after.now) piece.len)) }
{
    match first {
        b' ' | b'\t' | b'\r' | b'\n' => Some(Piece::blank(1)),
        b'/' => comment_after(after),
        b'\'' | b'"' => quoted_after(first, after),
        b'%' => sign_after(after),
        b':' => Some(Piece::word(WordKind::Colon, 1)),
        b'|' => Some(Piece::word(WordKind::Bar, 1)),
        b';' => Some(Piece::word(WordKind::Semicolon, 1)),
        _ => name_after(first, after),
    }
}

// The comment with its first `/` before `after`.
#[tactic(auto, unfolding(crate::specs::Words::comment_after))]
fn comment_after(after: &[u8]) -> Option<Piece>
    ensures piece { result ≡ comment_after after.now }
    ensures within { IfSome result (λ piece. IsWithin piece (length after.now + 1)) }
    ensures blank { IfSome result (λ piece. IsNone piece.word) }
{
    match after {
        [b'/', line @ ..] => Some(Piece::blank(2 + line_len(line))),
        [b'*', text @ ..] => Some(Piece::blank(2 + closed_len(text)?)),
        _ => None,
    }
}

// The number of bytes before the first LF.
fn line_len(text: &[u8]) -> usize
    ensures len { result ≡ position_or_len (λ c. c == 10) text.now }
    ensures within { result ≤ length text.now }
{
    for (i, byte) in text.iter().enumerate() {
        if *byte == b'\n' {
            return i;
        }
    }
    text.len()
}

/// The number of bytes up to the end of the first `*/`, if there is one. Takes time linear in that number.
pub fn closed_len(text: &[u8]) -> Option<usize>
    ensures len { result ≡ closed_len text.now }
    ensures within { IfSome result (λ len. len ≤ length text.now) }
{
    for i in 0..text.len() {
        if text[i..].starts_with(b"*/") {
            return Some(i + 2);
        }
    }
    None
}

// The quoted word with its first quote before `after`.
#[tactic(auto, unfolding(crate::specs::Words::quoted_after))]
fn quoted_after(quote: u8, after: &[u8]) -> Option<Piece>
    ensures piece { result ≡ quoted_after quote after.now }
    ensures within { IfSome result (λ piece. IsWithin piece (length after.now + 1)) }
    ensures ascii { quote < 128 → IfSome result (λ piece. IfSome piece.word (IsWordPiece (quote ∷ after.now) piece.len)) }
{
    let len = unquoted_len(quote, after);
    if len > 0 && len < after.len() && after[len] == quote {
        Some(Piece::word(WordKind::Quoted, len + 2))
    } else {
        None
    }
}

// The number of bytes before the first quote or LF.
fn unquoted_len(quote: u8, text: &[u8]) -> usize
    ensures len { result ≡ position_or_len (λ c. (c == quote) || (c == 10)) text.now }
    ensures within { result ≤ length text.now }
{
    for (i, byte) in text.iter().enumerate() {
        if *byte == quote || *byte == b'\n' {
            return i;
        }
    }
    text.len()
}

// The sign with its `%` before `after`.
#[tactic(auto, unfolding(crate::specs::Words::sign_after))]
fn sign_after(after: &[u8]) -> Option<Piece>
    ensures piece { result ≡ sign_after after.now }
    ensures within { IfSome result (λ piece. IsWithin piece (length after.now + 1)) }
    ensures ascii { (first : ℕ) → first < 128 → IfSome result (λ piece. IfSome piece.word (IsWordPiece (first ∷ after.now) piece.len)) }
{
    if after.starts_with(b"start") {
        Some(Piece::word(WordKind::StartSign, 6))
    } else if after.starts_with(b"token") {
        Some(Piece::word(WordKind::TokenSign, 6))
    } else if after.starts_with(b"epp") {
        Some(Piece::word(WordKind::EppSign, 4))
    } else if after.starts_with(b"%") {
        Some(Piece::word(WordKind::RulesSign, 2))
    } else {
        None
    }
}

// The name that begins with the byte `first` and goes on in `after`.
#[tactic(auto, unfolding(crate::specs::Words::name_after))]
fn name_after(first: u8, after: &[u8]) -> Option<Piece>
    ensures piece { result ≡ name_after first after.now }
    ensures within { IfSome result (λ piece. IsWithin piece (length after.now + 1)) }
    ensures ascii { IfSome result (λ piece. IfSome piece.word (IsWordPiece (first ∷ after.now) piece.len)) }
{
    if begins_name(first) {
        Some(Piece::word(WordKind::Name, 1 + name_len(after)))
    } else {
        None
    }
}

/// The number of bytes at the start of the text that may be in a name.
pub fn name_len(text: &[u8]) -> usize
    ensures len { result ≡ prefix_len is_in_name text.now }
    ensures within { result ≤ length text.now }
    ensures ascii { (k : ℕ) → k < result → slice_index text.now k < 128 }
{
    for (i, byte) in text.iter().enumerate() {
        if !is_in_name(*byte) {
            return i;
        }
    }
    text.len()
}

/// Whether a name may begin with the byte.
pub fn begins_name(byte: u8) -> bool
    ensures begins { result ≡ begins_name byte }
    ensures ascii { IsTrue result → byte < 128 }
{
    matches!(byte, b'a'..=b'z' | b'A'..=b'Z' | b'_' | b'.')
}

/// Whether a name may contain the byte.
pub fn is_in_name(byte: u8) -> bool
    ensures within { result ≡ is_in_name byte }
    ensures ascii { IsTrue result → byte < 128 }
{
    begins_name(byte) || matches!(byte, b'0'..=b'9')
}
