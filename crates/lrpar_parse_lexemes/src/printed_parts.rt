//! The parts of a printed repair sequence.
ghost use Rattle.std.specs.Prelude.{◌≤◌, IfSome, length};
ghost use Rattle.lrpar_parse_lexemes.specs.NextPart.{FindsPart, JoinsDeletions, LeavesFewer};

use crate::lex_api::Lexeme;
use crate::repairs::ParseRepair;
use lrpar_grammar_places::span::{Span, StorageIndex, TIdx};

/// A part of a printed sequence.
#[derive(Clone, Copy, Drop)]
pub enum Part<StorageT> {
    /// A token to insert.
    Insert(TIdx<StorageT>),
    /// A part of the input to delete: one lexeme, or lexemes that touch.
    Delete(Span),
    /// A lexeme to shift.
    Shift(Span),
}

/// The first part of a sequence, and the repairs after it; `None` at the end of the sequence.
pub fn next_part<LexemeT: Lexeme<StorageT>, StorageT: StorageIndex>(
    repairs: &[ParseRepair<LexemeT, StorageT>],
) -> Option<(Part<StorageT>, &[ParseRepair<LexemeT, StorageT>])>
    ensures shorter { IfSome result (LeavesFewer repairs.now) }
    ensures next { FindsPart StorageT.index LexemeT.parts repairs.now result }
{
    let (first, others) = repairs.split_first()?;
    Some(match first {
        ParseRepair::Insert(tidx) => (Part::Insert(*tidx), others),
        ParseRepair::Shift(lexeme) => (Part::Shift(lexeme.span()), others),
        ParseRepair::Delete(lexeme) => {
            let (span, after) = deletion(lexeme.span(), others);
            (Part::Delete(span), after)
        }
    })
}

// The deletion that begins with `first`, and the repairs after it. It includes each following deletion that starts at the byte
// where the one before it ends.
fn deletion<LexemeT: Lexeme<StorageT>, StorageT: StorageIndex>(
    first: Span,
    repairs: &[ParseRepair<LexemeT, StorageT>],
) -> (Span, &[ParseRepair<LexemeT, StorageT>])
    ensures shorter { length result.1.now ≤ length repairs.now }
    ensures whole { JoinsDeletions StorageT.index LexemeT.parts first repairs.now result }
{
    let mut end = first.end();
    let mut rest = repairs;
    while let Some((ParseRepair::Delete(lexeme), others)) = rest.split_first() {
        let next = lexeme.span();
        if next.start() != end {
            break;
        }
        end = next.end();
        rest = others;
    }
    (Span::new(first.start(), end), rest)
}
