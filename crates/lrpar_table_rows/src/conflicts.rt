//! Shift/reduce and reduce/reduce conflicts that were met, and resolved, when a table was built.
ghost use Rattle.std.specs.Prelude.{◌≡◌, ◌↔◌, IsTrue, length};
ghost use Rattle.lrpar_table_rows.specs.ConflictsFit.{AllReductionsFit, AllShiftsFit, ConflictsFit, ReductionsFit, ShiftFits};
ghost use Rattle.lrpar_table_rows.specs.PlainConflicts.{AreReductions, AreShifts, reduce_reduce_of, reductions_of, shift_reduce_of, shifts_of};

use lrpar_grammar::grammar::YaccGrammar;
use lrpar_grammar::span::{PIdx, StIdx, StorageIndex, TIdx};
use std::marker::Model;

/// The shift/reduce and reduce/reduce conflicts that were met when a table was built.
#[derive(Debug)]
pub struct Conflicts<StorageT: StorageIndex> {
    rr: Vec<
        (
            TIdx<StorageT>,
            PIdx<StorageT>,
            PIdx<StorageT>,
            StIdx<StorageT>,
        ),
    >,
    sr: Vec<(TIdx<StorageT>, PIdx<StorageT>, StIdx<StorageT>)>,
}

// With its own `Drop`, a function that drops one proves one call.
impl<StorageT: StorageIndex> Drop for Conflicts<StorageT> {
    fn drop(self) {
        let Conflicts { rr, sr } = self;
        drop(rr);
        drop(sr);
    }
}

impl<StorageT: StorageIndex> Model for Conflicts<StorageT> {
    ghost use Rattle.std.specs.Prelude.{map};
    ghost use Rattle.lrpar_table_rows.specs.Table.{ConflictLists};
    ghost use Rattle.lrpar_table_rows.specs.PlainConflicts.{reduce_reduce_of, shift_reduce_of};

    ghost Value = { ConflictLists };

    ghost view = { λ c. record { reduce_reduce = map (reduce_reduce_of StorageT.index) c.rr.items; shift_reduce = map (shift_reduce_of StorageT.index) c.sr.items } };
}

impl<StorageT: StorageIndex> Conflicts<StorageT> {
    /// The conflicts of these two lists: `rr` has the reduce/reduce conflicts, as token, productions and state, and `sr` the
    /// shift/reduce conflicts, as token, production and state. The numbers aren't checked.
    pub fn new(
        rr: Vec<
            (
                TIdx<StorageT>,
                PIdx<StorageT>,
                PIdx<StorageT>,
                StIdx<StorageT>,
            ),
        >,
        sr: Vec<(TIdx<StorageT>, PIdx<StorageT>, StIdx<StorageT>)>,
    ) -> Self
        ensures rr { result.reduce_reduce ≡ reductions_of StorageT.index rr.items }
        ensures sr { result.shift_reduce ≡ shifts_of StorageT.index sr.items }
    {
        Conflicts { rr, sr }
    }

    /// The reduce/reduce conflicts, as token, productions and state, in the order in which they were given.
    pub fn rr_conflicts(
        &self,
    ) -> &[(
        TIdx<StorageT>,
        PIdx<StorageT>,
        PIdx<StorageT>,
        StIdx<StorageT>,
    )]
        ensures { AreReductions StorageT.index self.now result.now }
    {
        &self.rr
    }

    /// The shift/reduce conflicts, as token, production and state, in the order in which they were given.
    pub fn sr_conflicts(&self) -> &[(TIdx<StorageT>, PIdx<StorageT>, StIdx<StorageT>)]
        ensures { AreShifts StorageT.index self.now result.now }
    {
        &self.sr
    }

    /// The number of reduce/reduce conflicts.
    pub fn rr_len(&self) -> usize
        ensures { result ≡ length self.now.reduce_reduce }
    {
        self.rr.len()
    }

    /// The number of shift/reduce conflicts.
    pub fn sr_len(&self) -> usize
        ensures { result ≡ length self.now.shift_reduce }
    {
        self.sr.len()
    }

    /// Whether the conflicts fit the grammar: each token and each production that they name is one of the grammar, and no
    /// shift/reduce conflict is at the end token. The states aren't checked. It takes time linear in the number of
    /// conflicts, and no memory.
    pub fn fit(&self, grm: &YaccGrammar<StorageT>) -> bool
        ensures { IsTrue result ↔ ConflictsFit grm.now self.now }
    {
        self.all_reductions_fit(grm) && self.all_shifts_fit(grm)
    }

    // Whether the reduce/reduce conflicts fit the grammar.
    fn all_reductions_fit(&self, grm: &YaccGrammar<StorageT>) -> bool
        ensures { IsTrue result ↔ AllReductionsFit grm.now self.now }
    {
        self.rr
            .iter()
            .all(|conflict| reductions_fit(*conflict, grm))
    }

    // Whether the shift/reduce conflicts fit the grammar.
    fn all_shifts_fit(&self, grm: &YaccGrammar<StorageT>) -> bool
        ensures { IsTrue result ↔ AllShiftsFit grm.now self.now }
    {
        self.sr.iter().all(|conflict| shift_fits(*conflict, grm))
    }
}

// Whether the reduce/reduce conflict fits the grammar.
fn reductions_fit<StorageT: StorageIndex>(
    conflict: (
        TIdx<StorageT>,
        PIdx<StorageT>,
        PIdx<StorageT>,
        StIdx<StorageT>,
    ),
    grm: &YaccGrammar<StorageT>,
) -> bool
    ensures { IsTrue result ↔ ReductionsFit grm.now (reduce_reduce_of StorageT.index conflict) }
{
    let (token, first, second, _) = conflict;
    usize::from(token) < grm.tokens_len()
        && usize::from(first) < grm.prods_len()
        && usize::from(second) < grm.prods_len()
}

// Whether the shift/reduce conflict fits the grammar.
fn shift_fits<StorageT: StorageIndex>(
    conflict: (TIdx<StorageT>, PIdx<StorageT>, StIdx<StorageT>),
    grm: &YaccGrammar<StorageT>,
) -> bool
    ensures { IsTrue result ↔ ShiftFits grm.now (shift_reduce_of StorageT.index conflict) }
{
    let (token, prod, _) = conflict;
    usize::from(token) < usize::from(grm.eof_token_idx()) && usize::from(prod) < grm.prods_len()
}
