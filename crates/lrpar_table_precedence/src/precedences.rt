//! The precedences of a grammar's tokens and productions.
ghost use Rattle.std.specs.Prelude.{◌≡◌};
ghost use Rattle.lrpar_table_precedence.specs.Precedence.{no_precedences, prod_precedence, resolution_of, token_precedence};

use crate::precedence::{decision, slot_at};
pub use crate::precedence::{AssocKind, Precedence, Resolution};
use lrpar_grammar_places::span::{PIdx, StorageIndex, TIdx};
use std::alloc::Global;
use std::marker::Model;

/// The precedences of the tokens and of the productions of a grammar.
#[derive(Debug)]
pub struct Precedences {
    tokens: Vec<Option<Precedence>>,
    prods: Vec<Option<Precedence>>,
}

// With its own `Drop`, a function that drops one proves one call.
impl Drop for Precedences {
    fn drop(self) {
        let Precedences { tokens, prods } = self;
        drop(tokens);
        drop(prods);
    }
}

impl Model for Precedences {
    ghost use Rattle.lrpar_table_precedence.specs.Precedence.{PrecedenceLists};

    ghost Value = { PrecedenceLists };

    ghost view = { λ p. record { tokens = p.tokens.items; prods = p.prods.items } };
}

impl Precedences {
    /// Precedences by the numbers of tokens and of productions: one that is past the end of its list has none.
    pub fn from_slots(
        tokens: Vec<Option<Precedence>>,
        prods: Vec<Option<Precedence>>,
    ) -> Precedences
        ensures tokens { result.tokens ≡ tokens.items }
        ensures prods { result.prods ≡ prods.items }
    {
        Precedences { tokens, prods }
    }

    /// No precedences. It takes no memory.
    pub fn none(alloc: Global) -> Precedences
        ensures { result ≡ no_precedences }
    {
        Precedences {
            tokens: Vec::new(alloc),
            prods: Vec::new(alloc),
        }
    }

    /// The precedence of the token, if it has one.
    pub fn token_precedence<StorageT: StorageIndex>(
        &self,
        tidx: TIdx<StorageT>,
    ) -> Option<Precedence>
        ensures { result ≡ token_precedence self.now (StorageT.index tidx.0) }
    {
        slot_at(&self.tokens, usize::from(tidx))
    }

    /// The precedence of the production, if it has one.
    pub fn prod_precedence<StorageT: StorageIndex>(
        &self,
        pidx: PIdx<StorageT>,
    ) -> Option<Precedence>
        ensures { result ≡ prod_precedence self.now (StorageT.index pidx.0) }
    {
        slot_at(&self.prods, usize::from(pidx))
    }

    /// How a conflict between the reduction by the production and the shift of the token is resolved: by yacc's rule, if both have a
    /// precedence; otherwise, or if both are of one level that doesn't say how it associates, not at all.
    pub fn resolution<StorageT: StorageIndex>(
        &self,
        pidx: PIdx<StorageT>,
        tidx: TIdx<StorageT>,
    ) -> Option<Resolution>
        ensures { result ≡ resolution_of self.now (StorageT.index pidx.0) (StorageT.index tidx.0) }
    {
        decision(self.prod_precedence(pidx), self.token_precedence(tidx))
    }
}
