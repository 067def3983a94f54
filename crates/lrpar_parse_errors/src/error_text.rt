//! The texts of errors.
ghost use Rattle.std.specs.Prelude.{◌↔◌, IfOk, IfErr, IsTrue};
ghost use Rattle.std.specs.Str.{IsCharBoundary};
ghost use Rattle.lrpar_grammar.specs.SpansFit.{IsPartOf};
ghost use Rattle.lrpar_parse_errors.specs.ErrorText.{numbering, place_text};
ghost use Rattle.lrpar_parse_errors.specs.StoredSequences.{FitSequences, IsPpFaultOf, PushesRepairs, TellsIfFit, TellsIfFits};
ghost use Rattle.lrpar_parse_lexemes.specs.Strings.{Pushes};

use crate::errors::LexParseError;
use crate::names::{ByFunction, TokenNames};
use crate::sequence_text::push_sequence;
use lrpar_grammar::span::{Span, StorageIndex, TIdx};
use lrpar_parse_lexemes::lex_api::{LexError, Lexeme, LexerTypes, NonStreamingLexer};
use lrpar_parse_lexemes::spaces::push_spaces;
use lrpar_parse_lexemes::{ParseRepair, PpFault};
use std::alloc::{AllocError, Global};

impl<
    StorageT: StorageIndex,
    LexemeT: Lexeme<StorageT>,
    ErrorT: LexError,
    LexerTypesT: LexerTypes<StorageT = StorageT, LexemeT = LexemeT, LexErrorT = ErrorT>,
> LexParseError<StorageT, LexerTypesT> {
    ghost use Rattle.lrpar_parse_errors.specs.StoredErrors.{FitsInput, IsFaultBy, IsFaultWith, IsTextBy, IsTextWith};

    /// Whether each part of the input that the error names starts and ends between two characters of the input. `pp` requires
    /// it. Takes time linear in the repairs, and no memory.
    pub fn fits(&self, input: &str) -> bool
        ensures { IsTrue result ↔ FitsInput ErrorT.place LexemeT.parts input.now self.now }
    {
        match self {
            LexParseError::LexError(error) => is_part(error.span(), input),
            LexParseError::ParseError(error) => {
                is_part(error.lexeme().span(), input) && sequences_fit(error.repairs(), input)
            }
        }
    }

    /// The text of the error. It begins with `Lexing error at line L column C.` or `Parsing error at line L column C.`. There
    /// starts the part that no token fits, or the lexeme that has no action. Lines and columns count from 1, and columns count
    /// characters.
    ///
    /// For a parse error the text goes on with ` No repair sequences found.`, or with ` Repair sequences found:` and a line for
    /// each sequence: its number, right-aligned, and its steps, separated by `, `. A step is `Insert` and what `epp` prints for
    /// the token, or `Delete` or `Shift` and a part of the input. Deletions that touch are one step. A line feed in a part of
    /// the input prints as the two characters `\n`.
    ///
    /// Each part of the input that the error names must start and end between two characters of the lexer's input, as `fits`
    /// says. `Err(NoPrintedName)` if `epp` has no text for a token to insert: it names the first such token.
    /// `Err(Memory)`: out of memory. Takes time linear in the text, and the lexer's time for the line and the column.
    pub fn pp<
        'input,
        L: NonStreamingLexer<'input, LexerTypesT>,
        F: Fn(TIdx<StorageT>) -> Option<&'input str> + Drop,
    >(&self, alloc: Global, lexer: &L, epp: F) -> Result<String, PpFault<StorageT>>
        requires epp { F.IsAlwaysCallable epp }
        requires fits { FitsInput ErrorT.place LexemeT.parts (L.text lexer.now) self.now }
        ensures text { IfOk result (IsTextWith ErrorT.place LexemeT.parts
            StorageT.index (F.post epp) (L.text lexer.now) self.now) }
        ensures fault { IfErr result (IsFaultWith StorageT.index LexemeT.parts (F.post epp) self.now) }
    {
        self.text_by(alloc, lexer, &ByFunction(epp))
    }

    // The text of the error, with these names.
    pub(crate) fn text_by<
        'input,
        L: NonStreamingLexer<'input, LexerTypesT>,
        N: TokenNames<'input, StorageT>,
    >(&self, alloc: Global, lexer: &L, names: &N) -> Result<String, PpFault<StorageT>>
        requires names { N.can_name names.now }
        requires fits { FitsInput ErrorT.place LexemeT.parts (L.text lexer.now) self.now }
        ensures text { IfOk result (IsTextBy ErrorT.place LexemeT.parts
            (N.prints names.now) (L.text lexer.now) self.now) }
        ensures fault { IfErr result (IsFaultBy StorageT.index LexemeT.parts (N.prints names.now) self.now) }
    {
        let mut out = String::new(alloc);
        match self {
            LexParseError::LexError(error) => {
                push_position(&mut out, lexer, "Lexing error", error.span())?;
                Ok(out)
            }
            LexParseError::ParseError(error) => {
                push_position(&mut out, lexer, "Parsing error", error.lexeme().span())?;
                push_repairs(&mut out, alloc, lexer, names, error.repairs())?;
                Ok(out)
            }
        }
    }
}

// Whether the part of the input starts and ends between two characters.
fn is_part(span: Span, input: &str) -> bool
    ensures { IsTrue result ↔ IsPartOf input.now span }
{
    input.is_char_boundary(span.start()) && input.is_char_boundary(span.end())
}

// Whether the lexemes of all sequences lie in the input.
fn sequences_fit<LexemeT: Lexeme<StorageT>, StorageT: StorageIndex>(
    sequences: &[Vec<ParseRepair<LexemeT, StorageT>>],
    input: &str,
) -> bool
    ensures { IsTrue result ↔ FitSequences StorageT.index LexemeT.parts input.now sequences.now }
{
    sequences
        .iter()
        .all(|sequence| repairs_fit(sequence, input))
}

// Whether the lexemes of a sequence lie in the input.
fn repairs_fit<LexemeT: Lexeme<StorageT>, StorageT: StorageIndex>(
    repairs: &[ParseRepair<LexemeT, StorageT>],
    input: &str,
) -> bool
    ensures { TellsIfFit LexemeT.parts input.now repairs.now result }
{
    repairs.iter().all(|repair| repair_fits(repair, input))
}

// Whether the lexeme of a repair lies in the input, if it has one.
fn repair_fits<LexemeT: Lexeme<StorageT>, StorageT: StorageIndex>(
    repair: &ParseRepair<LexemeT, StorageT>,
    input: &str,
) -> bool
    ensures { TellsIfFits LexemeT.parts input.now repair.now result }
{
    match repair {
        ParseRepair::Insert(_) => true,
        ParseRepair::Delete(lexeme) | ParseRepair::Shift(lexeme) => is_part(lexeme.span(), input),
    }
}

// Adds what is wrong, and the line and the column of the start of the span.
fn push_position<'input, LexerTypesT: LexerTypes, L: NonStreamingLexer<'input, LexerTypesT>>(
    out: &mut String,
    lexer: &L,
    what: &str,
    span: Span,
) -> Result<(), AllocError>
    requires start { IsCharBoundary (L.text lexer.now) span.start }
    requires end { IsCharBoundary (L.text lexer.now) span.end }
    ensures { Pushes (place_text what.now (L.text lexer.now) span.start) out.old out.new result }
{
    let ((line, column), _) = lexer.line_col(span);
    write!(out, "{what} at line {line} column {column}.")
}

// Adds what comes before a sequence: its number, right-aligned in a column for numbers of at most `most` digits.
fn push_numbering(
    out: &mut String,
    alloc: Global,
    most: usize,
    number: usize,
) -> Result<(), AllocError>
    ensures { Pushes (numbering most number) out.old out.new result }
{
    let number = number.to_string(alloc)?;
    out.push_str("\n  ")?;
    push_spaces(out, most.saturating_sub(number.len()))?;
    out.push(' ')?;
    out.push_str(number.as_str())?;
    out.push_str(": ")
}

// Adds the text of the sequences of an error, each after its number.
fn push_repairs<
    'input,
    StorageT: StorageIndex,
    LexemeT: Lexeme<StorageT>,
    LexerTypesT: LexerTypes<StorageT = StorageT, LexemeT = LexemeT>,
    L: NonStreamingLexer<'input, LexerTypesT>,
    N: TokenNames<'input, StorageT>,
>(
    out: &mut String,
    alloc: Global,
    lexer: &L,
    names: &N,
    sequences: &[Vec<ParseRepair<LexemeT, StorageT>>],
) -> Result<(), PpFault<StorageT>>
    requires names { N.can_name names.now }
    requires fits { FitSequences StorageT.index LexemeT.parts (L.text lexer.now) sequences.now }
    ensures text { PushesRepairs StorageT.index LexemeT.parts
        (N.prints names.now) (L.text lexer.now) sequences.now out.old out.new result }
    ensures fault { IfErr result (IsPpFaultOf StorageT.index LexemeT.parts (N.prints names.now) sequences.now) }
{
    if sequences.is_empty() {
        out.push_str(" No repair sequences found.")?;
        return Ok(());
    }
    out.push_str(" Repair sequences found:")?;
    let most = sequences.len().to_string(alloc)?.len();
    for (i, sequence) in sequences.iter().enumerate() {
        push_numbering(out, alloc, most, i + 1)?;
        push_sequence(out, lexer, names, sequence)?;
    }
    Ok(())
}
