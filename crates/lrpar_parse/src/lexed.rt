//! The lexemes and the first error of a lexer's answer.
ghost use Rattle.std.specs.Prelude.{◌≡◌, IfOk};
ghost use Rattle.lrpar_parse.specs.Lexed.{LexemesOrError, first_error, lexemes_of};

use std::alloc::{AllocError, Global};

/// The lexemes, or the first lexing error, if there is one anywhere. `Err`: out of memory.
pub(crate) fn lexemes_or_error<LexemeT: Drop, LexErrorT: Drop>(
    alloc: Global,
    answers: Vec<Result<LexemeT, LexErrorT>>,
) -> Result<Result<Vec<LexemeT>, LexErrorT>, AllocError>
    ensures { IfOk result (LexemesOrError answers.items) }
{
    let (lexemes, error) = lexemes_before_error(alloc, answers)?;
    match error {
        None => Ok(Ok(lexemes)),
        Some(error) => Ok(Err(error)),
    }
}

/// The lexemes before the first lexing error, and that error; all lexemes, if there is no error. `Err`: out of memory.
pub(crate) fn lexemes_before_error<LexemeT: Drop, LexErrorT: Drop>(
    alloc: Global,
    answers: Vec<Result<LexemeT, LexErrorT>>,
) -> Result<(Vec<LexemeT>, Option<LexErrorT>), AllocError>
    ensures lexemes { IfOk result (λ lexed. lexed.0.items ≡ lexemes_of answers.items) }
    ensures error { IfOk result (λ lexed. lexed.1 ≡ first_error answers.items) }
{
    let mut lexemes = Vec::with_capacity(alloc, answers.len())?;
    for answer in answers {
        match answer {
            Ok(lexeme) => lexemes.push(lexeme)?,
            Err(error) => return Ok((lexemes, Some(error))),
        }
    }
    Ok((lexemes, None))
}
