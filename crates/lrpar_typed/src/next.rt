//! Arguments of a known kind, and lists with one more item.
ghost use Rattle.std.specs.Prelude.{◌≡◌, ◌++◌, ◌∷◌, [], IfOk};
ghost use Rattle.lrpar_parse.specs.ValueArguments.{IsLexemeNext, IsValueNext};
ghost use Rattle.lrpar_typed.specs.Rows.{IsLexemeTaken, IsTaken};

use lrpar_parse::parser::Args;
use std::alloc::{AllocError, Global};

/// Takes the next argument, which has to be a value.
pub fn next_value<LexerT, LexemeT: Drop, V: Drop, E: Drop>(
    args: &mut Args<'_, LexerT, LexemeT, V, E>,
) -> V
    requires { IsValueNext args.old.left }
    ensures { IsTaken args.old result args.new }
{
    match args.value() {
        Some(value) => value,
        None => unreachable!(),
    }
}

/// Takes the next argument, which has to be a lexeme.
pub fn next_lexeme<LexerT, LexemeT: Drop, V: Drop, E: Drop>(
    args: &mut Args<'_, LexerT, LexemeT, V, E>,
) -> LexemeT
    requires { IsLexemeNext args.old.left }
    ensures { IsLexemeTaken args.old result args.new }
{
    match args.lexeme() {
        Some(lexeme) => lexeme,
        None => unreachable!(),
    }
}

/// The list with one more item at its end. `Err`: an allocation failed.
pub fn with_item<T: Drop>(mut list: Vec<T>, item: T) -> Result<Vec<T>, AllocError>
    ensures { IfOk result (λ longer. longer.items ≡ list.items ++ item ∷ []) }
{
    list.push(item)?;
    Ok(list)
}

/// The list of an item. `Err`: an allocation failed.
pub fn one_item<T: Drop>(alloc: Global, item: T) -> Result<Vec<T>, AllocError>
    ensures { IfOk result (λ list. list.items ≡ item ∷ []) }
{
    let mut list = Vec::new(alloc);
    list.push(item)?;
    Ok(list)
}
