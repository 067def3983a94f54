//! Whether the lexemes and errors of a list fit a text.
ghost use Rattle.std.specs.Prelude.{All, ◌↔◌, IsTrue, MatchOption};
ghost use Rattle.lrpar_lexer.specs.ListPlaces.{FitsText, IsFirstMisplaced};

use crate::parts::is_part;
use crate::token::{NoToken, Token};
use lrpar_grammar_places::span::StorageIndex;
use lrpar_parse_lexemes::{LexError, Lexeme};

// The place in the list of the first lexeme or error that doesn't fit the text, if there is one.
pub(crate) fn first_misplaced<StorageT: StorageIndex>(
    text: &str,
    answers: &[Result<Token<StorageT>, NoToken>],
) -> Option<usize>
    ensures { MatchOption result (All (FitsText text.now) answers.now) (IsFirstMisplaced text.now answers.now) }
{
    for (place, answer) in answers.iter().enumerate() {
        if !fits(text, answer) {
            return Some(place);
        }
    }
    None
}

// Whether the lexeme or error starts and ends in the text, each between two characters.
fn fits<StorageT: StorageIndex>(text: &str, answer: &Result<Token<StorageT>, NoToken>) -> bool
    ensures { IsTrue result ↔ FitsText text.now answer.now }
{
    match answer {
        Ok(lexeme) => is_part(text, lexeme.span()),
        Err(error) => is_part(text, error.span()),
    }
}
