//! Minimal access strings of the states of a built table.
ghost use Rattle.std.specs.Prelude.{◌≡◌, IfOk, OnOk};
ghost use Rattle.lrpar_table_build.specs.Built.{IsBuilt};
ghost use Rattle.lrpar_table_sentences.specs.Choices.{AreShortest};
ghost use Rattle.lrpar_table_sentences.specs.AccessStrings.{AppendsPath, AreAccessStrings, IsLenTo, len_kept};

use crate::back::{access_to, push_back, reverse_from};
use crate::minimal_accesses::find_access_strings;
use crate::shortest::Shortest;
use crate::transitions::Access;
pub use crate::transitions::Step;
use lrpar_grammar::grammar::YaccGrammar;
use lrpar_grammar::span::{StIdx, StorageIndex};
use lrpar_table_rows::table::{StateGraph, StateTable};
use std::alloc::{AllocError, Global};
use std::marker::Model;

/// For each state of a built table the length of its minimal access strings, in tokens, and the path of one.
#[derive(Debug)]
pub struct AccessStrings<StorageT: StorageIndex> {
    accesses: Vec<Option<Access<StorageT>>>,
}

// A drop of its own: code that drops one then has one call to prove.
impl<StorageT: StorageIndex> Drop for AccessStrings<StorageT> {
    fn drop(self) {
        let AccessStrings { accesses } = self;
        drop(accesses);
    }
}

impl<StorageT: StorageIndex> Model for AccessStrings<StorageT> {
    ghost use Rattle.std.specs.Prelude.{List, Option};
    ghost use Rattle.lrpar_table_sentences.specs.AccessStrings.{AccessOf, accesses_of};

    ghost Value = { List (Option AccessOf) };

    ghost view = { λ accesses. accesses_of StorageT.index accesses.accesses.items };
}

impl<StorageT: StorageIndex> AccessStrings<StorageT> {
    /// The minimal access strings of the states of a table that was built of the grammar.
    ///
    /// They are fixed in the order of their lengths, by sweeps over the shifts and gotos of the table: few in practice. Memory
    /// grows with the shifts and gotos. An `Err` comes if an allocation fails.
    pub fn new(
        alloc: Global,
        grm: &YaccGrammar<StorageT>,
        sgraph: &StateGraph<StorageT>,
        stable: &StateTable<StorageT>,
        shortest: &Shortest<StorageT>,
    ) -> Result<Self, AllocError>
        requires built { IsBuilt grm.now sgraph.now stable.now }
        requires shortest { AreShortest grm.now usize.MAX shortest.now }
        ensures { IfOk result (λ accesses. AreAccessStrings grm.now sgraph.now stable.now usize.MAX accesses) }
    {
        let accesses = find_access_strings(alloc, grm, sgraph, stable, shortest)?;
        Ok(AccessStrings { accesses })
    }

    /// The least number of tokens that lead to the state, capped at `usize::MAX`; `None` if none lead there, as each path to it
    /// has an unproductive symbol.
    pub fn len_to(&self, s: StIdx<StorageT>) -> Option<usize>
        ensures len { result ≡ len_kept StorageT.index self.now s }
        ensures shortest { IsLenTo StorageT.index self.now s result }
    {
        match access_to(&self.accesses, s) {
            Some(access) => Some(access.len),
            None => None,
        }
    }

    /// Appends the steps of a path to the state, in order, if there is one: each with the state that it goes from, and the symbol
    /// that it goes by. Minimal sentences of these symbols have together as few tokens as any that lead there.
    ///
    /// Time and memory grow with the steps. An `Err` comes if an allocation fails; `out` may then have some of the steps after
    /// what it had.
    pub fn push_path(
        &self,
        out: &mut Vec<Step<StorageT>>,
        s: StIdx<StorageT>,
    ) -> Result<(), AllocError>
        ensures { OnOk result (AppendsPath StorageT.index self.now s out.old out.new) }
    {
        let from = out.len();
        push_back(&self.accesses, out, s)?;
        reverse_from(out, from);
        Ok(())
    }
}
