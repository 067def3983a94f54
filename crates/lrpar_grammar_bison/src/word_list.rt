//! The words of a `.y` file, up to its second `%%`.
ghost use Rattle.std.specs.Prelude.{◌≡◌, IfErr, IfOk};
ghost use Rattle.lrpar_grammar_bison.specs.declared.word_list.WordsFault.TheVariants.{Memory};
ghost use Rattle.lrpar_grammar_bison.specs.WordList.{AreWordsOf, IsWordsFault};

use crate::words::{Unread, Word, piece_at, unread_at, word_at};
use std::alloc::{AllocFailed, Global};

/// Why a file has no list of words.
#[derive(Clone, Copy, Debug, PartialEq, Eq)]
pub enum WordsFault {
    /// No word and no blanks begin at this byte, but what the second part says.
    Unread(usize, Unread),
    /// An allocation failed.
    Memory,
}

impl<T: Drop> From<AllocFailed<T>> for WordsFault {
    ghost from_gives = { λ _ fault. fault ≡ Memory };

    fn from(_: AllocFailed<T>) -> WordsFault {
        WordsFault::Memory
    }
}

/// The words of a file, in its order, whatever they make together. What comes after the second `%%` is no part of the grammar, and
/// isn't read.
///
/// Fails with `Unread` at the first place where no word and no blanks begin, or with `Memory`. Takes time and memory linear in the text.
pub fn read_words(alloc: Global, text: &str) -> Result<Vec<Word>, WordsFault>
    ensures words { IfOk result (AreWordsOf text.now) }
    ensures fault { IfErr result (IsWordsFault text.now) }
{
    let bytes = text.as_bytes();
    let mut words = Vec::new(alloc);
    let mut place = 0;
    let mut sections = 0usize;
    while place < bytes.len() && sections < 2 {
        let rest = &bytes[place..];
        let Some(piece) = piece_at(rest) else {
            return Err(WordsFault::Unread(place, unread_at(rest)));
        };
        if let Some(kind) = piece.word {
            words.push(word_at(text, place, kind, piece.len))?;
            sections += kind.marks();
        }
        place += piece.len;
    }
    Ok(words)
}
