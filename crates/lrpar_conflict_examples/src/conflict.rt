//! A conflict with its counterexample.
ghost use Rattle.std.specs.Prelude.{◌≡◌};
ghost use Rattle.lrpar_table_sentences.specs.Moves.{move_of};
ghost use Rattle.lrpar_conflict_examples.specs.Conflicts.{with_example};

use crate::unresolved::UnmetConflict;
use lrpar_conflict_derivations::examples::Example;
use lrpar_grammar::span::{StIdx, StorageIndex, TIdx};
use lrpar_table_sentences::moves::Move;
use std::marker::Model;

/// A conflict of a table, with its counterexample.
#[derive(Debug)]
pub struct ConflictExample<StorageT: StorageIndex> {
    token: TIdx<StorageT>,
    state: StIdx<StorageT>,
    first: Move<StorageT>,
    second: Move<StorageT>,
    example: Example<StorageT>,
}

// A drop of its own: code that drops one then has one call to prove.
impl<StorageT: StorageIndex> Drop for ConflictExample<StorageT> {
    fn drop(self) {
        let ConflictExample {
            token: _,
            state: _,
            first: _,
            second: _,
            example,
        } = self;
        drop(example);
    }
}

impl<StorageT: StorageIndex> Model for ConflictExample<StorageT> {
    ghost use Rattle.lrpar_table_sentences.specs.Moves.{move_of};
    ghost use Rattle.lrpar_conflict_examples.specs.Conflicts.{ConflictExampleOf};

    ghost Value = { ConflictExampleOf };

    ghost view = { λ x. record { conflict = record { token = StorageT.index x.token.0; state = StorageT.index x.state.0; first = move_of StorageT.index x.first; second = move_of StorageT.index x.second }; example = x.example } };
}

impl<StorageT: StorageIndex> ConflictExample<StorageT> {
    // The conflict with this counterexample.
    pub(crate) fn new(conflict: UnmetConflict<StorageT>, example: Example<StorageT>) -> Self
        ensures { result ≡ with_example StorageT.index conflict example }
    {
        let UnmetConflict {
            token,
            state,
            first,
            second,
        } = conflict;
        ConflictExample {
            token,
            state,
            first,
            second,
            example,
        }
    }

    /// The token at which the state has the conflict.
    pub fn token(&self) -> TIdx<StorageT>
        ensures { StorageT.index result.0 ≡ self.now.conflict.token }
    {
        self.token
    }

    /// The state that has the conflict.
    pub fn state(&self) -> StIdx<StorageT>
        ensures { StorageT.index result.0 ≡ self.now.conflict.state }
    {
        self.state
    }

    /// The move by which the first derivation goes on: it reduces the conflict's production, or the first of two.
    pub fn first(&self) -> Move<StorageT>
        ensures { move_of StorageT.index result ≡ self.now.conflict.first }
    {
        self.first
    }

    /// The move by which the second derivation goes on: it shifts the token, or reduces the second production.
    pub fn second(&self) -> Move<StorageT>
        ensures { move_of StorageT.index result ≡ self.now.conflict.second }
    {
        self.second
    }

    /// The counterexample.
    pub fn example(&self) -> &Example<StorageT>
        ensures { result.now ≡ self.now.example }
    {
        &self.example
    }
}
