//! Lexing errors and parse errors, and the repairs that parse errors list.
ghost use Rattle.std.specs.Prelude.{◌≡◌};
ghost use Rattle.lrpar_parse_errors.specs.Failure.{failure_text};
ghost use Rattle.lrpar_parse_errors.specs.StoredRepairs.{AreRepairsOf, HasRepairs};

use lrpar_grammar::span::{StIdx, StorageIndex};
use lrpar_parse_lexemes::lex_api::{LexError, Lexeme, LexerTypes};
pub use lrpar_parse_lexemes::{ParseRepair, PpFault};
use std::alloc::AllocError;
use std::error::Error;
use std::fmt;
use std::marker::Model;

/// A parse error: the state and the lexeme for which the table has no action, and repair sequences that work there.
#[derive(Debug)]
pub struct ParseError<LexemeT: Lexeme<StorageT>, StorageT: StorageIndex> {
    stidx: StIdx<StorageT>,
    lexeme: LexemeT,
    repairs: Vec<Vec<ParseRepair<LexemeT, StorageT>>>,
}

// An `impl Drop` of its own, so that a function that drops a value proves one call only.
impl<LexemeT: Lexeme<StorageT>, StorageT: StorageIndex> Drop for ParseError<LexemeT, StorageT> {
    fn drop(self) {
        let ParseError {
            stidx: _,
            lexeme: _,
            repairs,
        } = self;
        drop(repairs);
    }
}

impl<LexemeT: Lexeme<StorageT>, StorageT: StorageIndex> Model for ParseError<LexemeT, StorageT> {
    ghost use Rattle.lrpar_parse_errors.specs.Failure.{Failure};
    ghost use Rattle.lrpar_parse_lexemes.specs.Repairs.{repairs_of};

    ghost Value = { Failure LexemeT };

    ghost view = { λ e. record { state = StorageT.index e.stidx.0; lexeme = e.lexeme; repairs = repairs_of StorageT.index e.repairs.items } };
}

impl<LexemeT: Lexeme<StorageT>, StorageT: StorageIndex> ParseError<LexemeT, StorageT> {
    /// Makes the error in state `stidx` at `lexeme`, with these repair sequences.
    pub fn new(
        stidx: StIdx<StorageT>,
        lexeme: LexemeT,
        repairs: Vec<Vec<ParseRepair<LexemeT, StorageT>>>,
    ) -> Self
        ensures state { result.state ≡ StorageT.index stidx.0 }
        ensures lexeme { result.lexeme ≡ lexeme }
        ensures repairs { HasRepairs StorageT.index repairs result }
    {
        ParseError {
            stidx,
            lexeme,
            repairs,
        }
    }

    /// The state that the parse was in: the top of its stack, after all reductions at the lexeme's token.
    pub fn stidx(&self) -> StIdx<StorageT>
        ensures state { StorageT.index result.0 ≡ self.now.state }
    {
        self.stidx
    }

    /// The lexeme for which that state has no action. At the end of the input it is the end lexeme: empty and faulty.
    pub fn lexeme(&self) -> &LexemeT
        ensures lexeme { result.now ≡ self.now.lexeme }
    {
        &self.lexeme
    }

    /// The repair sequences that were found. There may be none, and others may work, too.
    pub fn repairs(&self) -> &Vec<Vec<ParseRepair<LexemeT, StorageT>>>
        ensures repairs { AreRepairsOf StorageT.index self.now result }
    {
        &self.repairs
    }
}

impl<LexemeT: Lexeme<StorageT>, StorageT: StorageIndex> Clone for ParseError<LexemeT, StorageT> {
    ghost is_clone = { λ x y. y ≡ x };

    fn clone(&self) -> Result<Self, AllocError> {
        Ok(ParseError {
            stidx: self.stidx,
            lexeme: self.lexeme,
            repairs: self.repairs.clone()?,
        })
    }
}

impl<LexemeT: Lexeme<StorageT>, StorageT: StorageIndex> PartialEq
    for ParseError<LexemeT, StorageT> {
    ghost use Rattle.lrpar_parse_errors.specs.Failure.{failure_eq};
    ghost use Rattle.lrpar_parse_errors.specs.FailureLaws.{failure_per};

    ghost eq = { failure_eq LexemeT.PartialEq.eq };

    ghost laws = { failure_per LexemeT.PartialEq.laws };

    fn eq(&self, other: &Self) -> bool {
        self.stidx == other.stidx && self.lexeme == other.lexeme && self.repairs == other.repairs
    }
}

impl<LexemeT: Lexeme<StorageT>, StorageT: StorageIndex> fmt::Display
    for ParseError<LexemeT, StorageT> {
    ghost output = { failure_text LexemeT.debug_output };

    fn fmt<W: fmt::Write>(&self, f: &mut fmt::Formatter<W>) -> fmt::Result {
        let lexeme = &self.lexeme;
        write!(f, "Parse error at lexeme {lexeme:?}")
    }
}

impl<LexemeT: Lexeme<StorageT>, StorageT: StorageIndex> Error for ParseError<LexemeT, StorageT> {}

/// A lexing error or a parse error.
#[derive(Debug, Drop)]
pub enum LexParseError<StorageT: StorageIndex, LexerTypesT: LexerTypes<StorageT = StorageT>> {
    /// A lexing error: no token fits a part of the input.
    LexError(LexerTypesT::LexErrorT),
    /// A parse error: the table has no action for a lexeme.
    ParseError(ParseError<LexerTypesT::LexemeT, StorageT>),
}

impl<StorageT: StorageIndex, LexerTypesT: LexerTypes<StorageT = StorageT>> fmt::Display
    for LexParseError<StorageT, LexerTypesT> {
    ghost use Rattle.lrpar_parse_errors.specs.LexParse.{lex_parse_of};

    ghost output = { lex_parse_of LexerTypesT.LexErrorT.output (failure_text LexerTypesT.LexemeT.debug_output) };

    fn fmt<W: fmt::Write>(&self, f: &mut fmt::Formatter<W>) -> fmt::Result {
        match self {
            LexParseError::LexError(error) => write!(f, "{error}"),
            LexParseError::ParseError(error) => write!(f, "{error}"),
        }
    }
}

impl<StorageT: StorageIndex, LexerTypesT: LexerTypes<StorageT = StorageT>> Error
    for LexParseError<StorageT, LexerTypesT> {}

impl<StorageT: StorageIndex, LexerTypesT: LexerTypes<StorageT = StorageT>> From<
    ParseError<LexerTypesT::LexemeT, StorageT>,
> for LexParseError<StorageT, LexerTypesT> {
    ghost use Rattle.lrpar_parse_errors.specs.declared.errors.LexParseError.TheVariants.{ParseError};

    ghost from_gives = { λ e f. f ≡ ParseError e };

    fn from(error: ParseError<LexerTypesT::LexemeT, StorageT>) -> Self {
        LexParseError::ParseError(error)
    }
}

impl<
    StorageT: StorageIndex,
    ErrorT: LexError,
    LexerTypesT: LexerTypes<StorageT = StorageT, LexErrorT = ErrorT>,
> From<ErrorT> for LexParseError<StorageT, LexerTypesT> {
    ghost use Rattle.lrpar_parse_errors.specs.declared.errors.LexParseError.TheVariants.{LexError};

    ghost from_gives = { λ e f. f ≡ LexError e };

    fn from(error: ErrorT) -> Self {
        LexParseError::LexError(error)
    }
}
