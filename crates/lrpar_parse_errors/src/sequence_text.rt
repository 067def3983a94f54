//! The text of one repair sequence.
ghost use Rattle.std.specs.Prelude.{IfErr};
ghost use Rattle.lrpar_parse_errors.specs.SequenceText.{on_one_line};
ghost use Rattle.lrpar_parse_errors.specs.StoredSequences.{FitRepairs, FitsPart, IsFaultIn, IsPartFault, PushesPart, PushesSequence};
ghost use Rattle.lrpar_parse_lexemes.specs.Strings.{Pushes};

use crate::names::TokenNames;
use lrpar_grammar::span::StorageIndex;
use lrpar_parse_lexemes::lex_api::{Lexeme, LexerTypes, NonStreamingLexer};
use lrpar_parse_lexemes::printed_parts::{Part, next_part};
use lrpar_parse_lexemes::{ParseRepair, PpFault};
use std::alloc::AllocError;

// Adds the text on one line: each line feed as the two characters `\n`.
fn push_on_one_line(out: &mut String, text: &str) -> Result<(), AllocError>
    ensures { Pushes (on_one_line text.now) out.old out.new result }
{
    let mut rest = text;
    while let Some((line, others)) = rest.split_once('\n') {
        out.push_str(line)?;
        out.push_str("\\n")?;
        rest = others;
    }
    out.push_str(rest)
}

// Adds the text of a part.
fn push_part<
    'input,
    StorageT: StorageIndex,
    LexerTypesT: LexerTypes<StorageT = StorageT>,
    L: NonStreamingLexer<'input, LexerTypesT>,
    N: TokenNames<'input, StorageT>,
>(out: &mut String, lexer: &L, names: &N, part: Part<StorageT>) -> Result<(), PpFault<StorageT>>
    requires names { N.can_name names.now }
    requires fits { FitsPart StorageT.index (L.text lexer.now) part }
    ensures text { PushesPart StorageT.index (N.prints names.now) (L.text lexer.now) part out.old out.new result }
    ensures fault { IfErr result (IsPartFault StorageT.index (N.prints names.now) part) }
{
    match part {
        Part::Insert(tidx) => {
            out.push_str("Insert ")?;
            if names.push_name(out, tidx)? {
                Ok(())
            } else {
                Err(PpFault::NoPrintedName(tidx))
            }
        }
        Part::Delete(span) => {
            out.push_str("Delete ")?;
            push_on_one_line(out, lexer.span_str(span))?;
            Ok(())
        }
        Part::Shift(span) => {
            out.push_str("Shift ")?;
            push_on_one_line(out, lexer.span_str(span))?;
            Ok(())
        }
    }
}

// Adds the text of a sequence: its parts' texts, joined by `, `. It borrows the list instead of a slice: so the proof of its
// caller, which has a loop over sequences, takes a third less time.
pub(crate) fn push_sequence<
    'input,
    StorageT: StorageIndex,
    LexemeT: Lexeme<StorageT>,
    LexerTypesT: LexerTypes<StorageT = StorageT, LexemeT = LexemeT>,
    L: NonStreamingLexer<'input, LexerTypesT>,
    N: TokenNames<'input, StorageT>,
>(
    out: &mut String,
    lexer: &L,
    names: &N,
    sequence: &Vec<ParseRepair<LexemeT, StorageT>>,
) -> Result<(), PpFault<StorageT>>
    requires names { N.can_name names.now }
    requires fits { FitRepairs LexemeT.parts (L.text lexer.now) sequence.now.items }
    ensures text { PushesSequence StorageT.index LexemeT.parts
        (N.prints names.now) (L.text lexer.now) sequence.now out.old out.new result }
    ensures fault { IfErr result (IsFaultIn StorageT.index LexemeT.parts (N.prints names.now) sequence.now) }
{
    let mut separator = "";
    let mut rest = sequence.as_slice();
    while let Some((part, others)) = next_part(rest) {
        out.push_str(separator)?;
        push_part(out, lexer, names, part)?;
        separator = ", ";
        rest = others;
    }
    Ok(())
}
