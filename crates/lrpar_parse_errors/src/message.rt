//! The text of an error of any input, with the names that a grammar prints.
ghost use Rattle.std.specs.Prelude.{IfOk};
ghost use Rattle.lrpar_grammar_places.specs.Strings.{HasText};
ghost use Rattle.lrpar_parse_errors.specs.ErrorText.{byte_text};

use crate::errors::{LexParseError, PpFault};
use lrpar_grammar::grammar::YaccGrammar;
use lrpar_grammar::span::StorageIndex;
use lrpar_parse_lexemes::lex_api::{InputLexer, LexError, Lexeme, LexerTypes};
use std::alloc::{AllocError, Global};

impl<
    StorageT: StorageIndex,
    LexemeT: Lexeme<StorageT>,
    ErrorT: LexError,
    LexerTypesT: LexerTypes<StorageT = StorageT, LexemeT = LexemeT, LexErrorT = ErrorT>,
> LexParseError<StorageT, LexerTypesT> {
    ghost use Rattle.lrpar_parse_errors.specs.StoredErrors.{GivesByte, GivesText, TellsByte};

    /// The text of the error, whatever error and input these are: that of [`LexParseError::pp`], with what the grammar prints
    /// for each token to insert ([`YaccGrammar::epp_of`]).
    ///
    /// If the error names a part that doesn't start and end between two characters of the lexer's input, as an error of a parse
    /// of another text can, the text has no line, no column and no repairs. It is `Lexing error at byte B.` or
    /// `Parsing error at byte B.`, where B is the byte at which the part that no token fits, or the lexeme that has no action,
    /// starts. Bytes count from 0.
    ///
    /// `Err`: out of memory. Takes time linear in the text and in the repairs, and the lexer's time for the line and the column.
    pub fn message<'input, L: InputLexer<'input, LexerTypesT>>(
        &self,
        alloc: Global,
        grm: &YaccGrammar<StorageT>,
        lexer: &L,
    ) -> Result<String, AllocError>
        // The error fits the input.
        ensures text { GivesText ErrorT.place LexemeT.parts grm.now (L.text lexer.now) self.now result }

        // It doesn't.
        ensures unfit { GivesByte ErrorT.place LexemeT.parts (L.text lexer.now) self.now result }
    {
        if self.fits(lexer.input()) {
            match self.text_by(alloc, lexer, grm) {
                Ok(text) => Ok(text),
                Err(PpFault::Memory) => Err(AllocError),
                // The grammar prints something for each token.
                Err(PpFault::NoPrintedName(_)) => unreachable!(),
            }
        } else {
            self.text_at_byte(alloc)
        }
    }

    // The text of an error that doesn't fit the input.
    fn text_at_byte(&self, alloc: Global) -> Result<String, AllocError>
        ensures { TellsByte ErrorT.place LexemeT.parts self.now result }
    {
        match self {
            LexParseError::LexError(error) => at_byte(alloc, "Lexing error", error.span().start()),
            LexParseError::ParseError(error) => {
                at_byte(alloc, "Parsing error", error.lexeme().span().start())
            }
        }
    }
}

// What is wrong, and the byte.
fn at_byte(alloc: Global, what: &str, byte: usize) -> Result<String, AllocError>
    ensures { IfOk result (HasText (byte_text what.now byte)) }
{
    let mut out = String::new(alloc);
    write!(out, "{what} at byte {byte}.")?;
    Ok(out)
}
