//! The language: its lexer, and what reports call its tokens. Its grammar is in `settings.y`, of which `nimbleparse --rust` makes
//! `syntax.rt`.
use crate::syntax::GRAMMAR;
use lrpar::parser::ParseFault;
use lrpar_language::{Language, LanguageFault, LanguageTexts};
use std::alloc::{AllocError, Global};
use std::io;
use thiserror::Error;

const LEXER: &str = r"
    [a-z_]+ 'NAME'
    [0-9]+ 'DIGITS'
    = '='
    \+ '+'
    ; ';'
    [ \t\r\n]+ ;";

// What reports call tokens, and rules if you name some; a token without a name here is called by its text, such as `;`. After the line `%%`,
// a message for each error that a text can have. `nimbleparse --list-errors` prints these errors.
pub(crate) const MESSAGES: &str = "
NAME: a name
DIGITS: a number

%%

// A text can't begin with this.
'+'
    expected a setting, such as 'size = 3;', not {found}

'NAME' $
    expected '=' and a number after the name {before}, not {found}

'NAME' '=' $
    expected a number after '=', not {found}

'NAME' '=' 'DIGITS' $
    expected ';' after the number {before}, not {found}

// A setting is done, and this can't begin another one.
'NAME' '=' 'DIGITS' ';' '+'
    expected another setting, or the end of the text, not {found}

'NAME' '=' 'DIGITS' '+' $
    expected a number after '+', not {found}

'NAME' '=' 'DIGITS' '+' 'DIGITS' $
    expected ';' after the sum that ends with {before}, not {found}
";

/// Why a text has no settings.
#[derive(Debug, Drop, Error)]
pub(crate) enum Failed {
    #[error("streams: {0}")]
    Streams(#[from] io::Error),
    #[error("language: {0}")]
    Language(#[from] LanguageFault),
    #[error("parse: {0}")]
    Parse(#[from] ParseFault),
    #[error("the number at byte {0} is too big")]
    TooBig(usize),
    #[error("the grammar isn't the one that syntax.rt was generated from")]
    OtherGrammar,
    #[error("out of memory")]
    Memory(#[from(alloc)] AllocError),
}

/// Makes the language.
pub(crate) fn new_language(alloc: Global) -> Result<Language, LanguageFault> {
    let texts = LanguageTexts {
        grammar: GRAMMAR,
        lexer: LEXER,
        messages: MESSAGES,
    };
    Language::new(alloc, texts)
}
