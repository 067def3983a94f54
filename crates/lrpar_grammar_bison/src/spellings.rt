//! Symbols of a `.y` file that may be spelled in several ways: literals of one character, and the token `error`.
ghost use Rattle.std.specs.Prelude.{◌≡◌, ◌≤◌, IfOk, OnOk, map};
ghost use Rattle.lrpar_grammar_bison.specs.Words.{placed};
ghost use Rattle.lrpar_grammar_bison.specs.Spellings.{AreRespelled, HasSpelling, IsNameOf, byte_of, character_in, character_of, escaped, letter_escape, one_character, plain_name, respelled, spelling_of, spellings_of, with_word};

use crate::numbers::number_of_digits;
use crate::words::{Word, WordKind};
use std::alloc::{AllocError, Global};

// A character, and how it is spelled first.
#[derive(Clone, Copy)]
pub(crate) struct Spelling<'a> {
    pub(crate) character: u8,
    pub(crate) name: &'a str,
}

/// The words, with one name for each symbol: a literal of a character is spelled as the first one of this character is, and `YYerror` is
/// `error`. Takes time and memory linear in the words.
pub fn with_one_spelling<'a>(alloc: Global, words: &[Word<'a>]) -> Result<Vec<Word<'a>>, AllocError>
    ensures { IfOk result (AreRespelled words.now) }
{
    let spellings = spellings_of(alloc, words)?;
    let mut others = Vec::with_capacity(alloc, words.len())?;
    for word in words {
        others.push(respelled(*word, &spellings))?;
    }
    Ok(others)
}

// How each character is spelled that is among the words: as first.
fn spellings_of<'a>(alloc: Global, words: &[Word<'a>]) -> Result<Vec<Spelling<'a>>, AllocError>
    ensures { IfOk result (λ spellings. map spelling_of spellings.items ≡ spellings_of (map placed words.now)) }
{
    let mut spellings = Vec::new(alloc);
    for word in words {
        push_new(&mut spellings, *word)?;
    }
    Ok(spellings)
}

// Appends the spelling of a character that has none yet, if the word is one.
fn push_new<'a>(spellings: &mut Vec<Spelling<'a>>, word: Word<'a>) -> Result<(), AllocError>
    ensures { OnOk result (map spelling_of spellings.new.items ≡ with_word (map spelling_of spellings.old.items) (placed word.entry)) }
{
    let Some(character) = character_in(word) else {
        return Ok(());
    };
    if spelling_in(spellings, character).is_none() {
        let name = word.name;
        spellings.push(Spelling { character, name })?;
    }
    Ok(())
}

// How the character is spelled, if it is among these.
fn spelling_in<'a>(spellings: &[Spelling<'a>], character: u8) -> Option<&'a str>
    ensures { HasSpelling spellings.now character result }
{
    for spelling in spellings {
        if spelling.character == character {
            return Some(spelling.name);
        }
    }
    None
}

// The word with the one name of its symbol.
fn respelled<'a>(word: Word<'a>, spellings: &[Spelling<'a>]) -> Word<'a>
    ensures { placed result ≡ respelled (map spelling_of spellings.now) (placed word.entry) }
{
    Word {
        kind: word.kind,
        name: symbol_name(word, spellings),
        len: word.len,
        end: word.end,
    }
}

// The one name of a symbol.
fn symbol_name<'a>(word: Word<'a>, spellings: &[Spelling<'a>]) -> &'a str
    ensures { IsNameOf spellings.now word.entry result }
{
    let Some(character) = character_in(word) else {
        return plain_name(word);
    };
    match spelling_in(spellings, character) {
        Some(name) => name,
        None => word.name,
    }
}

// The name of a word that is no literal of a character.
fn plain_name<'a>(word: Word<'a>) -> &'a str
    ensures { result.now ≡ plain_name (placed word.entry) }
{
    match word.kind {
        WordKind::Name if word.name == "YYerror" => "error",
        _ => word.name,
    }
}

/// The character that the word is, if it is a literal of one.
pub fn character_in(word: Word) -> Option<u8>
    ensures { result ≡ character_in (placed word.entry) }
{
    match word.kind {
        WordKind::Character => character_of(word.name.as_bytes()),
        _ => None,
    }
}

/// The character of a literal, which has its quotes: `None` if that isn't one character that is one byte, and not the byte 0.
pub fn character_of(literal: &[u8]) -> Option<u8>
    ensures { result ≡ character_of literal.now }
{
    if literal.len() > 1 {
        one_character(&literal[1..literal.len() - 1])
    } else {
        None
    }
}

// The one character of a literal, which is without its quotes.
fn one_character(text: &[u8]) -> Option<u8>
    ensures { result ≡ one_character text.now }
{
    match text {
        [b'\\', escape @ ..] => escaped(escape),
        [byte] => Some(*byte),
        _ => None,
    }
}

// The character of an escape, after its backslash.
fn escaped(escape: &[u8]) -> Option<u8>
    ensures { result ≡ escaped escape.now }
{
    let [first, after @ ..] = escape else {
        return None;
    };
    match (*first, after.len()) {
        (b'0'..=b'7', len) if len < 3 => byte_of(8, escape),
        (b'x', _) | (b'u', 4) | (b'U', 8) => byte_of(16, after),
        (letter, 0) => letter_escape(letter),
        _ => None,
    }
}

// The byte with these digits, which isn't 0.
fn byte_of(base: u64, digits: &[u8]) -> Option<u8>
    requires { base ≤ 16 }
    ensures { result ≡ byte_of base digits.now }
{
    match number_of_digits(base, 256, digits)? {
        0 => None,
        number => Some(number as u8),
    }
}

// The character that a backslash and one byte are.
fn letter_escape(letter: u8) -> Option<u8>
    ensures { result ≡ letter_escape letter }
{
    match letter {
        b'a' => Some(7),
        b'b' => Some(8),
        b't' => Some(9),
        b'n' => Some(10),
        b'v' => Some(11),
        b'f' => Some(12),
        b'r' => Some(13),
        b'"' | b'\'' | b'?' | b'\\' => Some(letter),
        _ => None,
    }
}
