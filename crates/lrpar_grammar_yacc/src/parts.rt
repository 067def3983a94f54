//! The parts of a `.y` file that a grammar text doesn't have.
ghost use Rattle.std.specs.Prelude.{◌≡◌, ◌<◌, ◌≤◌, ◌+◌, ◌-◌, IfSome, length, slice_index};
ghost use Rattle.std.specs.List.{prefix_len};
ghost use Rattle.lrpar_grammar_words.specs.Words.{is_digit};
ghost use Rattle.lrpar_grammar_yacc.specs.Parts.{EndsAtAscii, IsPartWithin, blanks_len, braces_len, declaration_at, header_part, is_name, is_original, line_part, names_len, names_part, number_part, other_declaration_at, part_at, prec_part, programs_at, symbol_at, type_at};

use lrpar_grammar_code::code::{Run, line_len, run_len};
use lrpar_grammar_words::word_order::Expected;
use lrpar_grammar_words::words::{WordKind, piece_at};
use lrpar_table_precedence::precedence::AssocKind;

/// The kinds of `.y` files, as cfgrammar names them. All parts are read in both but these: `-> Type` of a rule is one of
/// `Grmtools` alone, and `%actiontype` one of `Original` alone.
#[derive(Clone, Copy, Debug, PartialEq, Eq)]
pub enum YaccKind {
    /// The files of grmtools: a rule names the type of its actions.
    Grmtools,
    /// The files of yacc: `%actiontype` names one type for all rules.
    Original,
}

/// What a part of a `.y` file is.
#[derive(Clone, Copy)]
pub enum PartKind {
    /// `%left`, `%right` or `%nonassoc`, and the names that it declares.
    Level(AssocKind),
    /// `%avoid_insert` and names.
    AvoidInsert,
    /// `%expect-unused` and names.
    ExpectUnused,
    /// `%expect` and a number.
    Expect,
    /// `%expect-rr` and a number.
    ExpectRr,
    /// `%actiontype` and a type, to the end of the line.
    ActionType,
    /// `%parse-param`, a name and a type, to the end of the line.
    ParseParam,
    /// `%grmtools{..}`
    Header,
    /// `->` and the type of a rule, up to the `:`.
    RuleType,
    /// The code of an action, with its braces.
    Action,
    /// `%prec` and a name.
    Prec,
    /// `%empty`
    Empty,
    /// All after the second `%%`.
    Programs,
}

/// A part at some place.
#[derive(Clone, Copy)]
pub struct Part {
    /// What it is.
    pub kind: PartKind,
    /// The number of bytes before its names, its number or its type.
    pub head: usize,
    /// Its length in bytes.
    pub len: usize,
}

/// The part that the rest of a text begins with, where words as `expected` are allowed: `None` if there is none. A part whose
/// code isn't closed is none, and neither is a `%prec` without a name.
#[tactic(auto, unfolding(crate::specs::Parts::part_at))]
pub fn part_at(kind: YaccKind, expected: Expected, rest: &[u8]) -> Option<Part>
    ensures part { result ≡ part_at kind expected rest.now }
    ensures within { IfSome result (IsPartWithin rest.now) }
{
    match expected {
        Expected::Declaration | Expected::MoreTokens => declaration_at(kind, rest),
        Expected::RuleColon => type_at(kind, rest),
        Expected::NextSymbol => symbol_at(rest),
        Expected::TextEnd => programs_at(rest),
        Expected::StartName
        | Expected::FirstToken
        | Expected::EppName
        | Expected::EppText
        | Expected::NextRule => None,
    }
}

// A declaration.
#[tactic(auto, unfolding(crate::specs::Parts::declaration_at))]
fn declaration_at(kind: YaccKind, rest: &[u8]) -> Option<Part>
    ensures part { result ≡ declaration_at kind rest.now }
    ensures within { IfSome result (IsPartWithin rest.now) }
{
    if rest.starts_with(b"%left") {
        Some(names_part(PartKind::Level(AssocKind::Left), 5, rest))
    } else if rest.starts_with(b"%right") {
        Some(names_part(PartKind::Level(AssocKind::Right), 6, rest))
    } else if rest.starts_with(b"%nonassoc") {
        Some(names_part(PartKind::Level(AssocKind::Nonassoc), 9, rest))
    } else if rest.starts_with(b"%avoid_insert") {
        Some(names_part(PartKind::AvoidInsert, 13, rest))
    } else if rest.starts_with(b"%expect-unused") {
        Some(names_part(PartKind::ExpectUnused, 14, rest))
    } else {
        other_declaration_at(kind, rest)
    }
}

// A declaration without a list of names.
#[tactic(auto, unfolding(crate::specs::Parts::other_declaration_at))]
fn other_declaration_at(kind: YaccKind, rest: &[u8]) -> Option<Part>
    ensures part { result ≡ other_declaration_at kind rest.now }
    ensures within { IfSome result (IsPartWithin rest.now) }
{
    if rest.starts_with(b"%expect-rr") {
        Some(number_part(PartKind::ExpectRr, 10, rest))
    } else if rest.starts_with(b"%expect") {
        Some(number_part(PartKind::Expect, 7, rest))
    } else if rest.starts_with(b"%parse-param") {
        Some(line_part(PartKind::ParseParam, 12, rest))
    } else if rest.starts_with(b"%actiontype") && is_original(kind) {
        Some(line_part(PartKind::ActionType, 11, rest))
    } else if rest.starts_with(b"%grmtools") {
        header_part(rest)
    } else {
        None
    }
}

// The type of a rule.
#[tactic(auto, unfolding(crate::specs::Parts::type_at))]
fn type_at(kind: YaccKind, rest: &[u8]) -> Option<Part>
    ensures part { result ≡ type_at kind rest.now }
    ensures within { IfSome result (IsPartWithin rest.now) }
{
    if rest.starts_with(b"->") && !is_original(kind) {
        let len = 2 + run_len(Run::Typed, &rest[2..])?;
        Some(Part {
            kind: PartKind::RuleType,
            head: 2,
            len,
        })
    } else {
        None
    }
}

// What an alternative may have beside its symbols.
#[tactic(auto, unfolding(crate::specs::Parts::symbol_at))]
fn symbol_at(rest: &[u8]) -> Option<Part>
    ensures part { result ≡ symbol_at rest.now }
    ensures within { IfSome result (IsPartWithin rest.now) }
{
    if rest.starts_with(b"{") {
        let len = braces_len(rest)?;
        Some(Part {
            kind: PartKind::Action,
            head: 1,
            len,
        })
    } else if rest.starts_with(b"%prec") {
        prec_part(rest)
    } else if rest.starts_with(b"%empty") {
        Some(Part {
            kind: PartKind::Empty,
            head: 6,
            len: 6,
        })
    } else {
        None
    }
}

// All that is left.
fn programs_at(rest: &[u8]) -> Option<Part>
    ensures part { result ≡ programs_at rest.now }
    ensures within { IfSome result (IsPartWithin rest.now) }
{
    if rest.is_empty() {
        None
    } else {
        Some(Part {
            kind: PartKind::Programs,
            head: 0,
            len: rest.len(),
        })
    }
}

// A sign of that length, and names.
fn names_part(kind: PartKind, sign: usize, rest: &[u8]) -> Part
    requires within { sign ≤ length rest.now }
    requires some { 0 < sign }
    requires ascii { slice_index rest.now (sign - 1) < 128 }
    ensures part { result ≡ names_part kind sign rest.now }
    ensures within { IsPartWithin rest.now result }
{
    Part {
        kind,
        head: sign,
        len: sign + names_len(&rest[sign..]),
    }
}

// A sign of that length, blanks, and digits.
fn number_part(kind: PartKind, sign: usize, rest: &[u8]) -> Part
    requires within { sign ≤ length rest.now }
    requires some { 0 < sign }
    requires ascii { slice_index rest.now (sign - 1) < 128 }
    ensures part { result ≡ number_part kind sign rest.now }
    ensures within { IsPartWithin rest.now result }
{
    let head = sign + blanks_len(&rest[sign..]);
    Part {
        kind,
        head,
        len: head + digits_len(&rest[head..]),
    }
}

// A sign of that length, and the rest of the line.
fn line_part(kind: PartKind, sign: usize, rest: &[u8]) -> Part
    requires within { sign ≤ length rest.now }
    requires some { 0 < sign }
    ensures part { result ≡ line_part kind sign rest.now }
    ensures within { IsPartWithin rest.now result }
{
    Part {
        kind,
        head: sign,
        len: sign + line_len(&rest[sign..]),
    }
}

// `%grmtools`, blanks, and braces.
fn header_part(rest: &[u8]) -> Option<Part>
    requires { 9 ≤ length rest.now }
    ensures part { result ≡ header_part rest.now }
    ensures within { IfSome result (IsPartWithin rest.now) }
{
    let head = 9 + blanks_len(&rest[9..]);
    let len = head + braces_len(&rest[head..])?;
    Some(Part {
        kind: PartKind::Header,
        head,
        len,
    })
}

// `%prec`, blanks, and a name.
fn prec_part(rest: &[u8]) -> Option<Part>
    requires { 5 ≤ length rest.now }
    ensures part { result ≡ prec_part rest.now }
    ensures within { IfSome result (IsPartWithin rest.now) }
{
    let head = 5 + blanks_len(&rest[5..]);
    let name = piece_at(&rest[head..])?;
    if is_name(name.word) {
        Some(Part {
            kind: PartKind::Prec,
            head,
            len: head + name.len,
        })
    } else {
        None
    }
}

// The length of a `{` and what follows it up to its `}`.
fn braces_len(rest: &[u8]) -> Option<usize>
    ensures len { result ≡ braces_len rest.now }
    ensures within { IfSome result (λ len. (2 ≤ len) × (len ≤ length rest.now)) }
    ensures ascii { IfSome result (λ len. slice_index rest.now (len - 1) < 128) }
{
    match rest {
        [b'{', code @ ..] => Some(2 + run_len(Run::Braced, code)?),
        _ => None,
    }
}

// The files that name one type for all rules.
fn is_original(kind: YaccKind) -> bool
    ensures { result ≡ is_original kind }
{
    matches!(kind, YaccKind::Original)
}

// A name or a quoted word.
fn is_name(word: Option<WordKind>) -> bool
    ensures { result ≡ is_name word }
{
    matches!(word, Some(WordKind::Name | WordKind::Quoted))
}

// The number of bytes of blanks at the start of the text.
fn blanks_len(text: &[u8]) -> usize
    ensures len { result ≡ blanks_len text.now }
    ensures within { result ≤ length text.now }
    ensures end { 0 < result → EndsAtAscii text.now result }
{
    let mut place = 0;
    while let Some(piece) = piece_at(&text[place..]) {
        if piece.word.is_some() {
            return place;
        }
        place += piece.len;
    }
    place
}

// The number of bytes up to the end of the last of the names that the text begins with, with blanks before each.
fn names_len(text: &[u8]) -> usize
    ensures len { result ≡ names_len text.now }
    ensures within { result ≤ length text.now }
    ensures ascii { 0 < result → slice_index text.now (result - 1) < 128 }
{
    let mut end = 0;
    let mut place = 0;
    while let Some(piece) = piece_at(&text[place..]) {
        if is_name(piece.word) {
            end = place + piece.len;
        } else if piece.word.is_some() {
            return end;
        }
        place += piece.len;
    }
    end
}

// The number of digits at the start of the text.
fn digits_len(text: &[u8]) -> usize
    ensures len { result ≡ prefix_len is_digit text.now }
    ensures within { result ≤ length text.now }
    ensures ascii { 0 < result → slice_index text.now (result - 1) < 128 }
{
    for (i, byte) in text.iter().enumerate() {
        if !is_digit(*byte) {
            return i;
        }
    }
    text.len()
}

// A digit.
fn is_digit(byte: u8) -> bool
    ensures { result ≡ is_digit byte }
{
    matches!(byte, b'0'..=b'9')
}
