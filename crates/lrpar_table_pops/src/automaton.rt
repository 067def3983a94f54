//! The automaton whose runs are looked at.
ghost use Rattle.std.specs.Prelude.{◌≡◌};
ghost use Rattle.lrpar_table_pops.specs.StoredAll.{IsSoundTable};
ghost use Rattle.lrpar_table_pops.specs.Automaton.{IsSound};

use lrpar_grammar::grammar::YaccGrammar;
use lrpar_grammar::span::StorageIndex;
use lrpar_table_rows::table::{StateGraph, StateTable};
use std::marker::Model;

/// A grammar, its item sets, and a table that is safe by them. It may have fewer actions than the item sets call for.
#[derive(Drop)]
pub(crate) struct Automaton<'a, StorageT: StorageIndex> {
    grm: &'a YaccGrammar<StorageT>,
    sgraph: &'a StateGraph<StorageT>,
    stable: &'a StateTable<StorageT>,
}

impl<'a, StorageT: StorageIndex> Model for Automaton<'a, StorageT> {
    ghost use Rattle.lrpar_table_pops.specs.Parts.{Parts};
    ghost use Rattle.lrpar_table_pops.specs.StoredAll.{IsSoundTable};

    ghost Value = { Parts };

    ghost view = { λ a. record { grammar = a.grm.now; graph = a.sgraph.now; table = a.stable.now } };

    ghost invariant = { λ a. IsSoundTable a.grm.now a.sgraph.now a.stable.now };
}

impl<'a, StorageT: StorageIndex> Automaton<'a, StorageT> {
    /// The automaton of these parts.
    pub(crate) fn new(
        grm: &'a YaccGrammar<StorageT>,
        sgraph: &'a StateGraph<StorageT>,
        stable: &'a StateTable<StorageT>,
    ) -> Self
        requires { IsSoundTable grm.now sgraph.now stable.now }
        ensures { result ≡ record { grammar = grm.now; graph = sgraph.now; table = stable.now } }
    {
        Automaton {
            grm,
            sgraph,
            stable,
        }
    }

    /// The grammar.
    pub(crate) fn grm(&self) -> &YaccGrammar<StorageT>
        ensures { result.now ≡ self.now.grammar }
    {
        self.grm
    }

    /// The item sets.
    pub(crate) fn sgraph(&self) -> &StateGraph<StorageT>
        ensures { result.now ≡ self.now.graph }
    {
        self.sgraph
    }

    /// The table.
    pub(crate) fn stable(&self) -> &StateTable<StorageT>
        ensures table { result.now ≡ self.now.table }
        ensures sound { IsSound self.now }
    {
        self.stable
    }
}
