//! The values of the language.
use crate::language::Failed;
use crate::syntax::{Actions, At};
use lrpar::Lexeme;
use lrpar_lexer::Token;

/// A name, and its number.
#[derive(Clone, Copy)]
pub(crate) struct Setting<'text> {
    pub(crate) name: &'text str,
    pub(crate) value: u64,
}

/// Makes the values of a text.
#[derive(Drop)]
pub(crate) struct Settings;

impl<'text> Actions<'text> for Settings {
    type Error = Failed;

    fn setting(
        &self,
        at: At<'_, 'text>,
        name: Token<u32>,
        value: u64,
    ) -> Result<Setting<'text>, Failed> {
        let name = at.lexer.text(&name);
        Ok(Setting { name, value })
    }

    fn number(&self, at: At<'_, 'text>, digits: Token<u32>) -> Result<u64, Failed> {
        number_of(at, digits)
    }

    fn sum(&self, at: At<'_, 'text>, left: u64, digits: Token<u32>) -> Result<u64, Failed> {
        match left.checked_add(number_of(at, digits)?) {
            Some(sum) => Ok(sum),
            None => Err(Failed::TooBig(at.range.start())),
        }
    }
}

// The number that the digits are; 0 if a repair inserted them.
fn number_of(at: At<'_, '_>, digits: Token<u32>) -> Result<u64, Failed> {
    if digits.faulty() {
        return Ok(0);
    }
    match at.lexer.text(&digits).parse::<u64>() {
        Ok(number) => Ok(number),
        Err(_) => Err(Failed::TooBig(digits.span().start())),
    }
}
