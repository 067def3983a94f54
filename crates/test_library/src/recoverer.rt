//! A recoverer that counts its calls.
ghost use Rattle.std.specs.Prelude.{IfOk};

use lrpar_lexer::Token;
use lrpar_parse_repair::repair::{Recoverer, RecoveryPoint, RepairStep};
use std::alloc::{AllocError, Global};
use std::cell::Cell;

/// Supplies a deletion. At one of its calls it finds no memory.
#[derive(Drop)]
pub(crate) struct Deleting<'a> {
    pub(crate) calls: &'a Cell<usize>,
    pub(crate) fails_at: usize,
}

impl<'a> Recoverer<u32, Token<u32>> for Deleting<'a> {
    ghost allows = { λ _ _ _. Unit {0} };

    fn recover(
        &self,
        alloc: Global,
        _: &RecoveryPoint<'_, u32, Token<u32>>,
    ) -> Result<Vec<Vec<RepairStep<u32>>>, AllocError>
        ensures allowed { IfOk result (λ _. Unit {0}) }
    {
        self.calls.set(self.calls.get().saturating_add(1));
        if self.calls.get() == self.fails_at {
            return Err(AllocError);
        }
        Ok(vec![in alloc; vec![in alloc; RepairStep::Delete]?]?)
    }
}
