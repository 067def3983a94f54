//! A precedence, and what two of them decide between a shift and a reduction.
ghost use Rattle.std.specs.Prelude.{◌≡◌};
ghost use Rattle.lrpar_table_precedence.specs.Precedence.{against, by_kind, decided, slot_at};

use std::cmp::Ordering;

/// How the tokens of a level of precedence associate.
#[derive(Clone, Copy, Debug, PartialEq, Eq)]
pub enum AssocKind {
    /// To the left, as `%left` declares: `1-2-3` is `(1-2)-3`.
    Left,
    /// To the right, as `%right` declares: `1=2=3` is `1=(2=3)`.
    Right,
    /// Not at all, as `%nonassoc` declares: `1<2<3` is an error.
    Nonassoc,
    /// It isn't said, as bison's `%precedence` declares: a conflict at this level stays one.
    Undeclared,
}

/// A precedence: the number of a level, the weakest first, counted from 0, and how the tokens of that level associate.
#[derive(Clone, Copy, Debug, PartialEq, Eq)]
pub struct Precedence {
    pub level: usize,
    pub kind: AssocKind,
}

/// How a conflict of a shift and a reduction is resolved.
#[derive(Clone, Copy, Debug, PartialEq, Eq)]
pub enum Resolution {
    /// The state shifts the token.
    Shift,
    /// The state reduces by the production.
    Reduce,
    /// The token is an error in this state.
    Error,
}

/// What a production's precedence decides against a token's, by yacc's rule: the higher level wins; at one level, the state
/// reduces if the level associates to the left, shifts if it associates to the right, and reports an error if it doesn't associate.
/// `None` if the level doesn't say how it associates.
pub fn resolved_by(prod: Precedence, token: Precedence) -> Option<Resolution>
    ensures { result ≡ against prod token }
{
    match prod.level.cmp(&token.level) {
        Ordering::Less => Some(Resolution::Shift),
        Ordering::Equal => by_association(token.kind),
        Ordering::Greater => Some(Resolution::Reduce),
    }
}

// What is decided at one level.
fn by_association(kind: AssocKind) -> Option<Resolution>
    ensures { result ≡ by_kind kind }
{
    match kind {
        AssocKind::Left => Some(Resolution::Reduce),
        AssocKind::Right => Some(Resolution::Shift),
        AssocKind::Nonassoc => Some(Resolution::Error),
        AssocKind::Undeclared => None,
    }
}

/// The precedence in the slot with this number; `None` if it is empty or past the end.
pub fn slot_at(slots: &[Option<Precedence>], number: usize) -> Option<Precedence>
    ensures { result ≡ slot_at slots.now number }
{
    match slots.get(number) {
        Some(precedence) => *precedence,
        None => None,
    }
}

/// What a production's precedence decides against a token's: nothing, unless both have one.
pub fn decision(prod: Option<Precedence>, token: Option<Precedence>) -> Option<Resolution>
    ensures { result ≡ decided prod token }
{
    match (prod, token) {
        (Some(prod), Some(token)) => resolved_by(prod, token),
        _ => None,
    }
}
