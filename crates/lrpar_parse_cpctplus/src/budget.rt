//! The budget of a parse: how many configurations a search may keep, of those that all searches of a parse may.
ghost use Rattle.std.specs.Prelude.{◌≡◌, ◌≤◌, IfOk};
ghost use Rattle.lrpar_parse_lexemes.specs.Views.{token_by};
ghost use Rattle.lrpar_parse_cpctplus.specs.Budget.{IsFirstError, IsKnownFirst, IsShare, near, share_at};

use lrpar_grammar::span::StorageIndex;
use lrpar_parse_lexemes::lex_api::Lexeme;
use lrpar_parse_repair::engine::Engine;
use lrpar_parse_repair::repair::RecoveryPoint;
use std::alloc::{AllocError, Global};

/// How many lexemes a parse feeds in the time of a configuration, at least.
const LEXEMES: usize = 8;

/// What the error point may use of the total, with this limit at each error.
pub(crate) fn share_of<StorageT: StorageIndex, LexemeT: Lexeme<StorageT>>(
    alloc: Global,
    limit: usize,
    total: usize,
    point: &RecoveryPoint<'_, StorageT, LexemeT>,
) -> Result<usize, AllocError>
    ensures { IfOk result (IsShare (token_by StorageT.index LexemeT.parts) limit total point.now) }
{
    let first = known_first(alloc, total, point)?;
    Ok(share(limit, total, point.lexemes().len(), first, point.place()))
}

// The place of the first error, if it is looked for at the error point; else 0.
fn known_first<StorageT: StorageIndex, LexemeT: Lexeme<StorageT>>(
    alloc: Global,
    total: usize,
    point: &RecoveryPoint<'_, StorageT, LexemeT>,
) -> Result<usize, AllocError>
    ensures { IfOk result (IsKnownFirst (token_by StorageT.index LexemeT.parts) total point.now) }
{
    if is_near(total, point.lexemes().len(), point.place()) {
        first_error(alloc, point)
    } else {
        Ok(0)
    }
}

// The place of the first error of the parse: that of the first lexeme that can't be fed from the start on, or that of the error point.
fn first_error<StorageT: StorageIndex, LexemeT: Lexeme<StorageT>>(
    alloc: Global,
    point: &RecoveryPoint<'_, StorageT, LexemeT>,
) -> Result<usize, AllocError>
    ensures { IfOk result (IsFirstError (token_by StorageT.index LexemeT.parts) point.now) }
{
    let engine = Engine::new(point.data(), point.lexemes(), point.shifts());
    let mut states = Vec::new(alloc);
    states.push(point.stack()[0])?;
    'feeding: for place in 0..point.place() {
        let Some(_next) = engine.shift(&mut states, place)? else {
            return Ok(place);
        };
    }
    Ok(point.place())
}

// The share of the place, of so many lexemes, if the first error is there.
fn share(limit: usize, total: usize, lexemes: usize, first: usize, place: usize) -> usize
    requires { place ≤ lexemes }
    ensures { result ≡ share_at limit total lexemes first place }
{
    let most = limit.min(total);
    if !is_near(total, lexemes, place) {
        return limit.min((total - most) / lexemes);
    }
    if place <= first {
        return most;
    }
    limit.min((total - most) / (lexemes - first))
}

// Whether the first error is looked for at the place, of so many lexemes.
fn is_near(total: usize, lexemes: usize, place: usize) -> bool
    requires { place ≤ lexemes }
    ensures { result ≡ near total lexemes place }
{
    place == 0 || place / LEXEMES <= total / lexemes
}
