//! The words of a `.y` file as bison reads it, with their places.
ghost use Rattle.std.specs.Prelude.{false, ◌≡◌, ◌+◌, ◌-◌, ◌<◌, ◌≤◌, ◌==◌, ◌||◌, ◌^◌, ℕ, ◌∷◌, drop, length, IfSome, IsNone, IsTrue, slice_index};
ghost use Rattle.std.specs.List.{position_or_len, prefix_len};
ghost use Rattle.lrpar_grammar_bison.specs.Words.{IsWithin, IsWordPiece, back_len, blank_piece, closes_tag, comment_after, ends_tag, front_len, is_in_name, is_space, label_after, letters_after, marks_of, name_after, name_piece, percent_after, piece_at, piece_from, placed, predicate_after, sign_after, tag_depth, tag_len, translated_len, unread_at, unread_from, word_at, word_piece};

use lrpar_grammar_code::code::{Run, c_comment_len, literal_len, run_len};
use lrpar_grammar_places::span::Span;
use lrpar_grammar_words::words;

/// The kind of a word of a `.y` file.
#[derive(Clone, Copy, Debug, PartialEq, Eq)]
pub enum WordKind {
    /// Letters, digits, `_`, `.` and `-`, of which the first is no digit and no `-`.
    Name,
    /// `%` and a name.
    Directive,
    /// A literal between single quotes, on one line.
    Character,
    /// A literal between double quotes, on one line.
    Text,
    /// `_("text")`: a text that is to be translated.
    Translated,
    /// A digit, and digits and letters after it.
    Number,
    /// A name of a type between `<` and `>`.
    Tag,
    /// C code in braces.
    Code,
    /// C code between `%{` and `%}`.
    Prologue,
    /// `%?` and C code in braces.
    Predicate,
    /// A name between `[` and `]`.
    Label,
    /// `:`
    Colon,
    /// `|`
    Bar,
    /// `;`
    Semicolon,
    /// `=`
    Equals,
    /// `%%`
    Sections,
}

/// A word of a `.y` file.
#[derive(Clone, Copy, Debug)]
pub struct Word<'a> {
    /// Its kind.
    pub kind: WordKind,
    /// Its text, without the signs around it: brackets, or the `%` of a directive. A literal keeps its quotes: `'a'` isn't `a`. A predicate
    /// keeps its braces.
    pub name: &'a str,
    /// Its length in bytes, with these signs.
    pub len: usize,
    /// The byte after it.
    pub end: usize,
}

impl Word<'_> {
    /// The span of the word, with the signs around it.
    pub fn span(&self) -> Span
        ensures { result ≡ (placed self.now).span }
    {
        Span::new(self.end.saturating_sub(self.len), self.end)
    }
}

/// The longest piece of a file at some place: a word, or blanks.
#[derive(Clone, Copy)]
pub struct Piece {
    /// The kind of the word; `None` for blanks and comments.
    pub word: Option<WordKind>,
    /// Its length in bytes.
    pub len: usize,
}

/// What begins at a place where no piece does.
#[derive(Clone, Copy, Debug, PartialEq, Eq)]
pub enum Unread {
    /// A comment without its `*/`.
    Comment,
    /// A literal between single quotes without its second one on the same line.
    Character,
    /// A literal between double quotes without its second one on the same line.
    Text,
    /// Code without its `}`, or with a literal or a comment that isn't closed.
    Code,
    /// A prologue without its `%}`, or with a literal or a comment that isn't closed.
    Prologue,
    /// A `%?` without code in braces after it, or with a literal or a comment in it that isn't closed.
    Predicate,
    /// A tag without its `>`.
    Tag,
    /// A `[` without a `]` on the same line.
    Label,
    /// A byte with which nothing begins.
    Byte,
}

impl Piece {
    // Blanks of that length in bytes.
    fn blank(len: usize) -> Piece
        ensures { result ≡ blank_piece len }
    {
        Piece { word: None, len }
    }

    // A word of that kind.
    fn word(kind: WordKind, len: usize) -> Piece
        ensures { result ≡ word_piece kind len }
    {
        Piece {
            word: Some(kind),
            len,
        }
    }
}

impl WordKind {
    // The number of `%%` that the word is.
    pub(crate) fn marks(self) -> usize
        ensures marks { result ≡ marks_of self }
        ensures few { result ≤ 1 }
    {
        match self {
            WordKind::Sections => 1,
            _ => 0,
        }
    }

    // The number of bytes of a word before its name.
    fn front_len(self) -> usize
        ensures len { result ≡ front_len self }
        ensures few { result ≤ 2 }
    {
        match self {
            WordKind::Directive | WordKind::Tag | WordKind::Code | WordKind::Label => 1,
            WordKind::Prologue | WordKind::Predicate | WordKind::Translated => 2,
            _ => 0,
        }
    }

    // The number of bytes of a word after its name.
    fn back_len(self) -> usize
        ensures len { result ≡ back_len self }
        ensures few { result ≤ 2 }
    {
        match self {
            WordKind::Translated | WordKind::Tag | WordKind::Code | WordKind::Label => 1,
            WordKind::Prologue => 2,
            _ => 0,
        }
    }
}

/// The word of that kind and length that begins at `place` of the text, as `piece_at` found it there.
pub fn word_at(text: &str, place: usize, kind: WordKind, len: usize) -> Word
    requires within { place + len ≤ length text.now }
    requires some { 0 < len }
    requires word { IsWordPiece (drop place text.now) len kind }
    ensures { placed result ≡ word_at place (drop place text.now) kind len }
{
    let start = place + kind.front_len();
    let end = place + (len - kind.back_len());
    Word {
        kind,
        name: &text[start..end],
        len,
        end: place + len,
    }
}

/// The piece that the rest of a file begins with: `None` if the rest is empty, or if no word and no blanks begin there. Takes time
/// linear in the piece, if there is one.
pub fn piece_at(rest: &[u8]) -> Option<Piece>
    ensures piece { result ≡ piece_at rest.now }
    ensures within { IfSome result (λ piece. IsWithin piece (length rest.now)) }
    ensures ascii { IfSome result (λ piece. IfSome piece.word (IsWordPiece rest.now piece.len)) }
{
    let [first, after @ ..] = rest else {
        return None;
    };
    piece_from(*first, after)
}

/// What begins at the start of the rest of a file, if `piece_at` finds no piece there.
pub fn unread_at(rest: &[u8]) -> Unread
    ensures { result ≡ unread_at rest.now }
{
    let [first, after @ ..] = rest else {
        return Unread::Byte;
    };
    unread_from(*first, after)
}

// What begins with the byte `first` and goes on in `after`, if that is no piece.
#[tactic(auto, unfolding(crate::specs::Words::unread_from))]
fn unread_from(first: u8, after: &[u8]) -> Unread
    ensures { result ≡ unread_from first after.now }
{
    match first {
        b'/' if after.starts_with(b"*") => Unread::Comment,
        b'\'' => Unread::Character,
        b'"' => Unread::Text,
        b'{' => Unread::Code,
        b'%' if after.starts_with(b"{") => Unread::Prologue,
        b'%' if after.starts_with(b"?") => Unread::Predicate,
        b'<' => Unread::Tag,
        b'[' => Unread::Label,
        _ => Unread::Byte,
    }
}

// The piece that begins with the byte `first` and goes on in `after`.
#[tactic(auto, unfolding(crate::specs::Words::piece_from))]
fn piece_from(first: u8, after: &[u8]) -> Option<Piece>
    ensures piece { result ≡ piece_from first after.now }
    ensures within { IfSome result (λ piece. IsWithin piece (length after.now + 1)) }
    ensures ascii { IfSome result (λ piece. IfSome piece.word (IsWordPiece (first ∷ after.now) piece.len)) }
{
    match first {
        b'\t'..=b'\r' | b' ' | b',' => Some(Piece::blank(1)),
        b'/' => comment_after(after),
        b'\'' => Some(Piece::word(WordKind::Character, 1 + literal_len(first, after)?)),
        b'"' => Some(Piece::word(WordKind::Text, 1 + literal_len(first, after)?)),
        b'{' => Some(Piece::word(WordKind::Code, run_len(Run::BracedC, after)? + 2)),
        b'%' => percent_after(after),
        b'<' => Some(Piece::word(WordKind::Tag, 1 + tag_len(after)?)),
        b'[' => label_after(after),
        _ => sign_after(first, after),
    }
}

// The comment with its first `/` before `after`.
#[tactic(auto, unfolding(crate::specs::Words::comment_after))]
fn comment_after(after: &[u8]) -> Option<Piece>
    ensures piece { result ≡ comment_after after.now }
    ensures within { IfSome result (λ piece. IsWithin piece (length after.now + 1)) }
    ensures blank { IfSome result (λ piece. IsNone piece.word) }
{
    match c_comment_len(after)? {
        0 => None,
        len => Some(Piece::blank(1 + len)),
    }
}

// The number of bytes up to the end of the `>` that closes the tag, which has its `<` before the text.
fn tag_len(text: &[u8]) -> Option<usize>
    ensures len { result ≡ tag_len 0 false text.now }
    ensures within { IfSome result (λ len. (0 < len) × (len ≤ length text.now)) }
    ensures end { IfSome result (λ len. slice_index text.now (len - 1) ≡ 62) }
{
    let mut depth = 0;
    let mut dashed = false;
    for (i, byte) in text.iter().enumerate() {
        if ends_tag(depth, dashed, *byte) {
            return Some(i + 1);
        }
        depth = tag_depth(depth, dashed, *byte);
        dashed = *byte == b'-';
    }
    None
}

// Whether the byte ends a tag, with that many more open inside it.
fn ends_tag(depth: usize, dashed: bool, byte: u8) -> bool
    ensures ends { result ≡ ends_tag depth dashed byte }
    ensures byte { IsTrue result → byte ≡ 62 }
{
    depth == 0 && closes_tag(dashed, byte)
}

// The number of tags that are open after the byte.
fn tag_depth(depth: usize, dashed: bool, byte: u8) -> usize
    requires { depth < 2 ^ 63 }
    ensures depth { result ≡ tag_depth depth dashed byte }
    ensures few { result ≤ depth + 1 }
{
    if closes_tag(dashed, byte) {
        depth.saturating_sub(1)
    } else if byte == b'<' {
        depth + 1
    } else {
        depth
    }
}

// Whether the byte closes a tag or one inside it: it is a `>`, and no `-` is before it.
fn closes_tag(dashed: bool, byte: u8) -> bool
    ensures closes { result ≡ closes_tag dashed byte }
    ensures byte { IsTrue result → byte ≡ 62 }
{
    !dashed && byte == b'>'
}

// What begins with a `%` before `after`.
#[tactic(auto, unfolding(crate::specs::Words::percent_after))]
fn percent_after(after: &[u8]) -> Option<Piece>
    ensures piece { result ≡ percent_after after.now }
    ensures within { IfSome result (λ piece. IsWithin piece (length after.now + 1)) }
    ensures ascii { IfSome result (λ piece. IfSome piece.word (IsWordPiece (37 ∷ after.now) piece.len)) }
{
    match after {
        [b'%', ..] => Some(Piece::word(WordKind::Sections, 2)),
        [b'{', code @ ..] => Some(Piece::word(
            WordKind::Prologue,
            run_len(Run::PrologueC, code)? + 4,
        )),
        [b'?', code @ ..] => predicate_after(code),
        [first, name @ ..] if words::begins_name(*first) => Some(Piece::word(
            WordKind::Directive,
            2 + name_len(name),
        )),
        _ => None,
    }
}

// The predicate with its `%?` before `after`.
#[tactic(auto, unfolding(crate::specs::Words::predicate_after))]
fn predicate_after(after: &[u8]) -> Option<Piece>
    ensures piece { result ≡ predicate_after after.now }
    ensures within { IfSome result (λ piece. IsWithin piece (length after.now + 2)) }
    ensures ascii { IfSome result (λ piece. IfSome piece.word (IsWordPiece (37 ∷ 63 ∷ after.now) piece.len)) }
{
    let blanks = space_len(after);
    if blanks < after.len() && after[blanks] == b'{' {
        let code = run_len(Run::BracedC, &after[blanks + 1..])?;
        Some(Piece::word(WordKind::Predicate, blanks + code + 4))
    } else {
        None
    }
}

// The number of bytes of blanks at the start of the text.
fn space_len(text: &[u8]) -> usize
    ensures len { result ≡ prefix_len is_space text.now }
    ensures within { result ≤ length text.now }
{
    for (i, byte) in text.iter().enumerate() {
        if !is_space(*byte) {
            return i;
        }
    }
    text.len()
}

// Whether the byte is a space, a tab, or an end of a line or of a page.
fn is_space(byte: u8) -> bool
    ensures { result ≡ is_space byte }
{
    matches!(byte, b'\t'..=b'\r' | b' ')
}

// The label with its `[` before `after`.
#[tactic(auto, unfolding(crate::specs::Words::label_after))]
fn label_after(after: &[u8]) -> Option<Piece>
    ensures piece { result ≡ label_after after.now }
    ensures within { IfSome result (λ piece. IsWithin piece (length after.now + 1)) }
    ensures ascii { IfSome result (λ piece. IfSome piece.word (IsWordPiece (91 ∷ after.now) piece.len)) }
{
    let len = label_len(after);
    if len < after.len() && after[len] == b']' {
        Some(Piece::word(WordKind::Label, len + 2))
    } else {
        None
    }
}

// The number of bytes before the first `]` or LF.
fn label_len(text: &[u8]) -> usize
    ensures len { result ≡ position_or_len (λ c. (c == 93) || (c == 10)) text.now }
    ensures within { result ≤ length text.now }
{
    for (i, byte) in text.iter().enumerate() {
        if *byte == b']' || *byte == b'\n' {
            return i;
        }
    }
    text.len()
}

// The sign, number or name that begins with the byte `first` and goes on in `after`.
#[tactic(auto, unfolding(crate::specs::Words::sign_after))]
fn sign_after(first: u8, after: &[u8]) -> Option<Piece>
    ensures piece { result ≡ sign_after first after.now }
    ensures within { IfSome result (λ piece. IsWithin piece (length after.now + 1)) }
    ensures ascii { IfSome result (λ piece. IfSome piece.word (IsWordPiece (first ∷ after.now) piece.len)) }
{
    match first {
        b':' => Some(Piece::word(WordKind::Colon, 1)),
        b'|' => Some(Piece::word(WordKind::Bar, 1)),
        b';' => Some(Piece::word(WordKind::Semicolon, 1)),
        b'=' => Some(Piece::word(WordKind::Equals, 1)),
        _ => letters_after(first, after),
    }
}

// The number or name that begins with the byte `first` and goes on in `after`.
#[tactic(auto, unfolding(crate::specs::Words::letters_after))]
fn letters_after(first: u8, after: &[u8]) -> Option<Piece>
    ensures piece { result ≡ letters_after first after.now }
    ensures within { IfSome result (λ piece. IsWithin piece (length after.now + 1)) }
    ensures ascii { IfSome result (λ piece. IfSome piece.word (IsWordPiece (first ∷ after.now) piece.len)) }
{
    if first.is_ascii_digit() {
        Some(Piece::word(WordKind::Number, 1 + words::name_len(after)))
    } else {
        name_after(first, after)
    }
}

// The name, or text that is to be translated, that begins with the byte `first` and goes on in `after`.
#[tactic(auto, unfolding(crate::specs::Words::name_after))]
fn name_after(first: u8, after: &[u8]) -> Option<Piece>
    ensures piece { result ≡ name_after first after.now }
    ensures within { IfSome result (λ piece. IsWithin piece (length after.now + 1)) }
    ensures ascii { IfSome result (λ piece. IfSome piece.word (IsWordPiece (first ∷ after.now) piece.len)) }
{
    if !words::begins_name(first) {
        return None;
    }
    if first == b'_'
        && let Some(len) = translated_len(after)
    {
        return Some(Piece::word(WordKind::Translated, 1 + len));
    }
    Some(Piece::word(WordKind::Name, 1 + name_len(after)))
}

// After a `_`: the number of bytes of the rest of a text that is to be translated.
#[tactic(auto, unfolding(crate::specs::Words::translated_len))]
fn translated_len(after: &[u8]) -> Option<usize>
    ensures len { result ≡ translated_len after.now }
    ensures within { IfSome result (λ len. (4 ≤ len) × (len ≤ length after.now)) }
    ensures front { IfSome result (λ len. slice_index after.now 0 ≡ 40) }
    ensures back { IfSome result (λ len. slice_index after.now (len - 1) ≡ 41) }
{
    let [b'(', b'"', text @ ..] = after else {
        return None;
    };
    let len = literal_len(b'"', text)?;
    if len < text.len() && text[len] == b')' {
        Some(len + 3)
    } else {
        None
    }
}

// The number of bytes at the start of the text that may be in a name.
fn name_len(text: &[u8]) -> usize
    ensures len { result ≡ prefix_len is_in_name text.now }
    ensures within { result ≤ length text.now }
    ensures ascii { (k : ℕ) → k < result → slice_index text.now k < 128 }
{
    for (i, byte) in text.iter().enumerate() {
        if !is_in_name(*byte) {
            return i;
        }
    }
    text.len()
}

// Whether a name may contain the byte.
fn is_in_name(byte: u8) -> bool
    ensures within { result ≡ is_in_name byte }
    ensures ascii { IsTrue result → byte < 128 }
{
    words::is_in_name(byte) || byte == b'-'
}
