//! The words of a text that may be any part of a grammar text.
ghost use Rattle.std.specs.Prelude.{IfOk, map, option_map};
ghost use Rattle.lrpar_grammar_words.specs.Words.{placed};
ghost use Rattle.lrpar_grammar_words.specs.WordList.{AreWordsOf};

use crate::words::{Word, piece_at, word_at};
use std::alloc::{AllocError, Global};

/// The words of the text, in its order, whatever they make together. `None` if a part of the text is no word and no blanks: a
/// quote or comment that isn't closed, or a character that begins no word. Takes time and memory linear in the text.
pub fn read_words<'a>(alloc: Global, text: &'a str) -> Result<Option<Vec<Word<'a>>>, AllocError>
    ensures { IfOk result (λ found. AreWordsOf text.now (option_map (λ words. map placed words.items) found)) }
{
    let bytes = text.as_bytes();
    let mut words = Vec::new(alloc);
    let mut place = 0;
    while place < bytes.len() {
        let Some(piece) = piece_at(&bytes[place..]) else {
            return Ok(None);
        };
        if let Some(kind) = piece.word {
            words.push(word_at(text, place, kind, piece.len))?;
        }
        place += piece.len;
    }
    Ok(Some(words))
}
