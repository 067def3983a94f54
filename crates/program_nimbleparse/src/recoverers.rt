//! What repairs the errors of inputs: searches for the cheapest repairs, and a completion where they find none.
use crate::grammar::GrammarTable;
use lrpar_grammar::span::TIdx;
use lrpar_lexer::Token;
use lrpar_parse_completion::TableCompletion;
use lrpar_parse_cpctplus::CpctPlus;
use lrpar_parse_errors::errors::{LexParseError, ParseError};
use lrpar_parse_lexemes::ParseRepair;
use lrpar_parse_lexemes::lex_api::{LexError, Lexeme};
use lrpar_parse_repair::repair::{Recoverer, RecoveryPoint, RepairStep};
use program_files::parsing::TextError;
use std::alloc::{AllocError, Global};

/// A later error of an input has one part in so many of the limit of the first one. Nearly all errors need no more, and a text that is wrong
/// everywhere takes little longer than one with a few errors.
const PARTS: usize = 64;

/// The searches for the cheapest repairs of an input: at its first error, and at each later one.
#[derive(Drop)]
pub(crate) struct Searches {
    first: CpctPlus,
    later: CpctPlus,
}

impl Searches {
    /// The searches with this limit at the first error.
    pub(crate) fn new(
        alloc: Global,
        limit: usize,
        table: &GrammarTable,
    ) -> Result<Self, AllocError> {
        let first = search_of(alloc, limit, table)?;
        let later = search_of(alloc, limit / PARTS, table)?;
        Ok(Searches { first, later })
    }
}

// A search with this limit. It lists those repairs last that insert one of the tokens to be avoided.
fn search_of(alloc: Global, limit: usize, table: &GrammarTable) -> Result<CpctPlus, AllocError> {
    let recoverer = match table.hidden {
        Some(token) => with_dear_token(alloc, limit, token)?,
        None => CpctPlus::new(limit),
    };
    if table.avoided.is_empty() {
        Ok(recoverer)
    } else {
        recoverer.avoid_insert(alloc, &table.avoided)
    }
}

// A search with this limit, in which it costs as much as can be to insert this token.
fn with_dear_token(alloc: Global, limit: usize, token: TIdx<u32>) -> Result<CpctPlus, AllocError> {
    let mut costs = vec![in alloc; 1u8; usize::from(token).saturating_add(1)]?;
    if let Some(cost) = costs.get_mut(usize::from(token)) {
        *cost = u8::MAX;
    }
    match CpctPlus::with_costs(limit, costs) {
        Ok(recoverer) => Ok(recoverer),
        Err(_) => Ok(CpctPlus::new(limit)),
    }
}

/// What repairs the errors of an input by the searches. The input was parsed before without repairs.
#[derive(Drop)]
pub(crate) struct Searching<'b> {
    /// The error of that parse.
    pub(crate) errors: &'b [TextError],
    pub(crate) searches: &'b Searches,
}

impl Recoverer<u32, Token<u32>> for Searching<'_> {
    ghost allows = { λ _ _ _. Unit {0} };

    fn recover(
        &self,
        alloc: Global,
        point: &RecoveryPoint<'_, u32, Token<u32>>,
    ) -> Result<Vec<Vec<RepairStep<u32>>>, AllocError> {
        match error_at(self.errors, point) {
            Some(_) => self.searches.first.recover(alloc, point),
            None => self.searches.later.recover(alloc, point),
        }
    }
}

/// What repairs the errors of an input by the searches and by a completion, for an error at which they find nothing. The input was parsed
/// before with the searches alone. None of those is made again: the repairs of these errors are those that they have.
#[derive(Drop)]
pub(crate) struct Completing<'a, 'b> {
    /// The errors of that parse.
    pub(crate) errors: &'b [TextError],
    pub(crate) searches: &'b Searches,
    pub(crate) completion: &'b TableCompletion<'a, u32>,
}

impl Recoverer<u32, Token<u32>> for Completing<'_, '_> {
    ghost allows = { λ _ _ _. Unit {0} };

    fn recover(
        &self,
        alloc: Global,
        point: &RecoveryPoint<'_, u32, Token<u32>>,
    ) -> Result<Vec<Vec<RepairStep<u32>>>, AllocError> {
        let found = match error_at(self.errors, point) {
            Some(error) => steps_of_repairs(alloc, error.repairs())?,
            None => self.searches.later.recover(alloc, point)?,
        };
        if found.is_empty() {
            self.completion.recover(alloc, point)
        } else {
            Ok(found)
        }
    }
}

// The one of the errors that is at the error point.
fn error_at<'e>(
    errors: &'e [TextError],
    point: &RecoveryPoint<'_, u32, Token<u32>>,
) -> Option<&'e ParseError<Token<u32>, u32>> {
    let place = match point.lexemes().get(point.place()) {
        Some(lexeme) => {
            let start = lexeme.span().start();
            errors.partition_point(|error| start_of(error) < start)
        }
        None => errors.len().saturating_sub(1),
    };
    match errors.get(place) {
        Some(LexParseError::ParseError(error)) if is_at(error, point) => Some(error),
        Some(LexParseError::ParseError(_) | LexParseError::LexError(_)) | None => None,
    }
}

// Whether the error is one of the lexeme at the error point, or of the end of the input there.
fn is_at(error: &ParseError<Token<u32>, u32>, point: &RecoveryPoint<'_, u32, Token<u32>>) -> bool {
    match point.lexemes().get(point.place()) {
        Some(lexeme) => error.lexeme() == lexeme,
        None => TIdx(error.lexeme().tok_id()) == point.data().grm().eof_token_idx(),
    }
}

// The byte at which an error is.
fn start_of(error: &TextError) -> usize {
    match error {
        LexParseError::LexError(error) => error.span().start(),
        LexParseError::ParseError(error) => error.lexeme().span().start(),
    }
}

// The steps of these repairs.
fn steps_of_repairs(
    alloc: Global,
    repairs: &[Vec<ParseRepair<Token<u32>, u32>>],
) -> Result<Vec<Vec<RepairStep<u32>>>, AllocError> {
    let mut sequences = Vec::new(alloc);
    for repair in repairs {
        let steps = steps_of(alloc, repair)?;
        sequences.push(steps)?;
    }
    Ok(sequences)
}

// The steps of this repair.
fn steps_of(
    alloc: Global,
    repair: &[ParseRepair<Token<u32>, u32>],
) -> Result<Vec<RepairStep<u32>>, AllocError> {
    let mut steps = Vec::new(alloc);
    for step in repair {
        steps.push(step_of(step))?;
    }
    Ok(steps)
}

// The step of a repair.
fn step_of(step: &ParseRepair<Token<u32>, u32>) -> RepairStep<u32> {
    match step {
        ParseRepair::Insert(token) => RepairStep::Insert(*token),
        ParseRepair::Delete(_) => RepairStep::Delete,
        ParseRepair::Shift(_) => RepairStep::Shift,
    }
}
