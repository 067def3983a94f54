//! A recoverer of two: the second one is asked where no sequence of the first one works.
ghost use Rattle.std.specs.Prelude.{◌≡◌, IfOk};
ghost use Rattle.lrpar_parse_lexemes.specs.Views.{token_by};
ghost use Rattle.lrpar_parse_repair.specs.AlwaysRepairs.{FirstOrSecond, in_turn};
ghost use Rattle.lrpar_parse_repair.specs.Supplied.{IsOfEither, TellsIfSome};

use crate::engine::Engine;
use crate::repair::{Recoverer, RecoveryPoint};
use crate::repair_step::RepairStep;
use lrpar_grammar::span::StorageIndex;
use lrpar_parse_lexemes::lex_api::Lexeme;
use std::alloc::{AllocError, Global};
use std::marker::{Model, PhantomData};

/// Two recoverers, as `first.or(second)` makes them. At an error point it asks the first one. If none of its sequences works, it asks
/// the second one.
///
/// The answer is the whole answer of the one or of the other. The first one's sequences are tested in order, up to one that works. So the
/// parse, which tests each sequence of an answer, tests these again.
#[derive(Debug, Drop)]
pub struct Or<A, B, StorageT, LexemeT> {
    first: A,
    second: B,
    // `first.or(second)` is about these types, which the two recoverers alone may leave open.
    types: PhantomData<(StorageT, LexemeT)>,
}

impl<A, B, StorageT, LexemeT> Model for Or<A, B, StorageT, LexemeT> {
    ghost use Rattle.lrpar_parse_repair.specs.AlwaysRepairs.{TwoRecoverers};

    ghost Value = { TwoRecoverers A B };

    ghost view = { λ both. record { first = both.first; second = both.second } };
}

impl<A, B, StorageT, LexemeT> Or<A, B, StorageT, LexemeT> {
    /// The recoverer of these two.
    pub(crate) fn new(first: A, second: B) -> Self
        ensures { result ≡ in_turn first second }
    {
        Or {
            first,
            second,
            types: PhantomData,
        }
    }
}

impl<
    StorageT: StorageIndex,
    LexemeT: Lexeme<StorageT>,
    A: Recoverer<StorageT, LexemeT>,
    B: Recoverer<StorageT, LexemeT>,
> Recoverer<StorageT, LexemeT> for Or<A, B, StorageT, LexemeT> {
    ghost allows = { λ both at answer. FirstOrSecond (token_by StorageT.index LexemeT.parts) (A.allows both.first) (B.allows both.second) at answer };

    fn recover(
        &self,
        alloc: Global,
        point: &RecoveryPoint<'_, StorageT, LexemeT>,
    ) -> Result<Vec<Vec<RepairStep<StorageT>>>, AllocError>
        ensures allowed { IfOk result (IsOfEither StorageT.index LexemeT.parts A.allows B.allows self.now point.now) }
    {
        let answer = self.first.recover(alloc, point)?;
        if some_works(alloc, point, &answer)? {
            return Ok(answer);
        }
        self.second.recover(alloc, point)
    }
}

// Whether some sequence of the answer works at the error point. `Err`: out of memory.
fn some_works<StorageT: StorageIndex, LexemeT: Lexeme<StorageT>>(
    alloc: Global,
    point: &RecoveryPoint<'_, StorageT, LexemeT>,
    answer: &[Vec<RepairStep<StorageT>>],
) -> Result<bool, AllocError>
    ensures works { IfOk result (TellsIfSome StorageT.index LexemeT.parts point.now answer.now) }
{
    let engine = Engine::new(point.data(), point.lexemes(), point.shifts());
    engine.some_works(alloc, point.stack(), point.place(), answer)
}
