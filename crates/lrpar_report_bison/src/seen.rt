//! The words of a `.y` file with their roles.
use lrpar_grammar_bison::spellings::with_one_spelling;
use lrpar_grammar_bison::word_list::{WordsFault, read_words};
use lrpar_grammar_bison::words::Word;
use lrpar_grammar_bison_rules::signs::{Sign, sign_of};
use lrpar_grammar_bison_rules::word_order::{Expected, Role};
use std::alloc::{AllocError, Global};

/// A word, what it is, what is expected where it is, and its role there.
#[derive(Clone, Copy)]
pub(crate) struct Seen<'a> {
    pub(crate) word: Word<'a>,
    pub(crate) sign: Sign,
    pub(crate) expected: Expected,
    pub(crate) role: Role,
}

/// The words of the file, as far as they are in order.
pub(crate) fn words_seen(alloc: Global, text: &str) -> Result<Vec<Seen<'_>>, AllocError> {
    match read_words(alloc, text) {
        Ok(words) => {
            let words = with_one_spelling(alloc, &words)?;
            roles_of(alloc, &words)
        }
        Err(WordsFault::Memory) => Err(AllocError),
        Err(WordsFault::Unread(_, _)) => Ok(Vec::new(alloc)),
    }
}

// The words with their roles, as far as they are in order.
fn roles_of<'a>(alloc: Global, words: &[Word<'a>]) -> Result<Vec<Seen<'a>>, AllocError> {
    let mut seen = Vec::with_capacity(alloc, words.len())?;
    let mut expected = Expected::Declaration;
    for (i, word) in words.iter().enumerate() {
        let sign = sign_of(word, &words[i + 1..]);
        let Some(step) = expected.after(sign) else {
            return Ok(seen);
        };
        seen.push(Seen {
            word: *word,
            sign,
            expected,
            role: step.role,
        })?;
        expected = step.next;
    }
    Ok(seen)
}
