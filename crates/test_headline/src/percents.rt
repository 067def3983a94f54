//! What holds of each value by the actions of a typed grammar holds of the value of a parse: here, that a percentage is at most 100.
ghost use Rattle.std.specs.Prelude.{IfOk};
ghost use Rattle.lrpar_typed.specs.TypedParse.{ValueHolds};
ghost use Rattle.test_headline.specs.Percents.{ArePercentages};

use crate::syntax::{Actions, At, Parsed, has_syntax, parse_percents};
use lrpar_lexer::{RuleLexer, Token};
use lrpar_typed::{ParseFault, ParserData, RTParserBuilder};
use std::alloc::{AllocError, Global};
use thiserror::Error;

/// Why a text has no percentages.
#[derive(Debug, Drop, Error)]
pub enum PercentFault {
    /// A number is above 100.
    #[error("more than 100 percent")]
    TooMuch,
    /// The table is that of another grammar.
    #[error("another grammar")]
    OtherGrammar,
    /// The parse has no result.
    #[error("parse: {0}")]
    Parse(#[from] ParseFault),
    /// An allocation failed.
    #[error("out of memory")]
    Memory(#[from(alloc)] AllocError),
}

// Reads percentages.
#[derive(Drop)]
struct Reader;

impl Actions for Reader {
    ghost use Rattle.test_headline.specs.Percents.{IsPercentage};

    type Error = PercentFault;

    ghost holds = { λ _ v. IsPercentage v };

    fn percent(&self, at: At<'_, '_>, digits: Token<u32>) -> Result<u8, PercentFault> {
        match at.lexer.text(&digits).parse::<u8>() {
            Ok(number) if number <= 100 => Ok(number),
            _ => Err(PercentFault::TooMuch),
        }
    }
}

/// The percentages in a text, between commas.
pub fn percentages(
    alloc: Global,
    checked: &ParserData<u32>,
    lexer: &RuleLexer<'_, '_>,
) -> Parsed<Vec<u8>, PercentFault>
    ensures { IfOk result (ValueHolds ArePercentages) }
{
    if !has_syntax(checked) {
        return Err(PercentFault::OtherGrammar);
    }
    let parser = RTParserBuilder::new(checked);
    parse_percents(alloc, &parser, lexer, &Reader)
}
