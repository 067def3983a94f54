//! Where lexemes start and end, and the lexeme past the last one.
ghost use Rattle.std.specs.Prelude.{◌≡◌};
ghost use Rattle.lrpar_parse_lexemes.specs.Lexemes.{last_end, start_at};
ghost use Rattle.lrpar_parse_lexemes.specs.Views.{IsEndLexeme, known};

use crate::lex_api::Lexeme;
use lrpar_grammar_places::span::{StorageIndex, TIdx};

/// The byte where the lexeme at this place starts; past the last lexeme, the byte where that one ends.
pub fn start_of<StorageT: StorageIndex, LexemeT: Lexeme<StorageT>>(
    lexemes: &[LexemeT],
    place: usize,
) -> usize
    ensures { result ≡ start_at (known StorageT.index LexemeT.parts lexemes.now) place }
{
    match lexemes.get(place) {
        Some(lexeme) => lexeme.span().start(),
        None => end_of::<StorageT, LexemeT>(lexemes),
    }
}

/// The byte where the last lexeme ends; 0 if there is none.
pub fn end_of<StorageT: StorageIndex, LexemeT: Lexeme<StorageT>>(lexemes: &[LexemeT]) -> usize
    ensures { result ≡ last_end (known StorageT.index LexemeT.parts lexemes.now) }
{
    match lexemes.last() {
        Some(lexeme) => lexeme.span().end(),
        None => 0,
    }
}

/// The end lexeme: it has the end token, is empty after the last lexeme, and is faulty.
pub fn end_lexeme<StorageT: StorageIndex, LexemeT: Lexeme<StorageT>>(
    end: TIdx<StorageT>,
    lexemes: &[LexemeT],
) -> LexemeT
    ensures { IsEndLexeme StorageT.index LexemeT.parts end lexemes.now result }
{
    let place = end_of::<StorageT, LexemeT>(lexemes);
    LexemeT::new_faulty(end.0, place, 0)
}
