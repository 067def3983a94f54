//! Options of the table builder, and the tables that it builds by them.
ghost use Rattle.std.specs.Prelude.{◌≡◌, IfErr, IfOk};
ghost use Rattle.lrpar_table_build.specs.Built.{HaveAtMost};
ghost use Rattle.lrpar_table_merge.specs.Distinct.{HaveDistinctStates};
ghost use Rattle.lrpar_table_merge.specs.Minimised.{AreMinimisedBy, AreSafe, IsRefusalBy};
ghost use Rattle.lrpar_table_options.specs.Options.{default_options};
ghost use Rattle.lrpar_table_options.specs.ParserDataBy.{IsParserDataBy, IsUnbuiltBy};

use lrpar_grammar::grammar::YaccGrammar;
use lrpar_grammar::span::StorageIndex;
use lrpar_table::build::{BuildFault, Unbuilt};
use lrpar_table_check::check::ParserData;
use lrpar_table_merge::build::{Minimiser, from_yacc_by};
use lrpar_table_precedence::precedences::Precedences;
use lrpar_table_rows::table::{StateGraph, StateTable};
use std::alloc::Global;
use std::marker::Model;

/// How the table of a grammar is built. `new` gives the defaults, and each setter changes one of them:
///
/// - `precedences` resolve conflicts; without them, a shift is taken first, and then the first production,
/// - `minimiser` says whether item sets are merged; by default they aren't,
/// - `max_states` is the most states that the table may have, 10,000 by default,
/// - `cap` is the most reductions that a chain of the table may make, 1,000 by default.
///
/// Then `build` makes the checked table that a parse needs, and `state_table` the item sets and the table alone. Both can be called
/// again, for other grammars. The options allocate nothing.
#[derive(Clone, Debug, Drop)]
pub struct TableOptions<'a> {
    precedences: Option<&'a Precedences>,
    minimiser: Minimiser,
    max_states: usize,
    cap: u16,
}

impl<'a> Model for TableOptions<'a> {
    ghost use Rattle.lrpar_table_options.specs.Options.{Options, given_precedences};

    ghost Value = { Options };

    ghost view = { λ o. record { precedences = given_precedences o.precedences; minimiser = o.minimiser; max_states = o.max_states; cap = o.cap } };
}

impl<'a> Default for TableOptions<'a> {
    ghost is_default = { λ o. o ≡ default_options };

    fn default() -> TableOptions<'a> {
        TableOptions::new()
    }
}

impl<'a> TableOptions<'a> {
    /// The most states by default, 10,000. A canonical table of JSON has 57, of C 1,588, and of C99 3,011. One of PHP has 18,119, but
    /// with merged item sets it has 1,115.
    pub const DEFAULT_MAX_STATES: usize = 10_000;

    /// The cap by default, 1,000. The least caps of JSON, Lua and C are 2, 12 and 18. A grammar whose chains have no end, as one with
    /// `A: A`, passes with no cap.
    pub const DEFAULT_CAP: u16 = 1_000;

    /// The defaults: no precedences, canonical item sets, at most `DEFAULT_MAX_STATES` states, and the cap `DEFAULT_CAP`.
    pub fn new() -> TableOptions<'a>
        ensures { result ≡ default_options }
    {
        TableOptions {
            precedences: None,
            minimiser: Minimiser::Canonical,
            max_states: Self::DEFAULT_MAX_STATES,
            cap: Self::DEFAULT_CAP,
        }
    }

    /// Resolves conflicts of a shift and a reduction by these precedences, if the token and the production have one. By yacc's rule the
    /// higher level wins; at one level the table reduces if it associates to the left, shifts if it associates to the right, and has an
    /// error if it doesn't associate. `resolved()` of the table lists these conflicts, each with how it was resolved, and `conflicts()`
    /// the others.
    pub fn precedences(mut self, precedences: &'a Precedences) -> TableOptions<'a>
        ensures { result ≡ record self.entry { precedences = precedences.now } }
    {
        self.precedences = Some(precedences);
        self
    }

    /// Says whether item sets are merged.
    pub fn minimiser(mut self, minimiser: Minimiser) -> TableOptions<'a>
        ensures { result ≡ record self.entry { minimiser = minimiser } }
    {
        self.minimiser = minimiser;
        self
    }

    /// Refuses a table with more states, as `TooManyStates`.
    pub fn max_states(mut self, max_states: usize) -> TableOptions<'a>
        ensures { result ≡ record self.entry { max_states = max_states } }
    {
        self.max_states = max_states;
        self
    }

    /// Refuses a table with a chain of more reductions, as `ChainTooLong`. Only `build` checks the chains.
    pub fn cap(mut self, cap: u16) -> TableOptions<'a>
        ensures { result ≡ record self.entry { cap = cap } }
    {
        self.cap = cap;
        self
    }

    /// The checked table of the grammar. It is safe and viable, whatever the grammar. Without precedences it is complete if and only if it
    /// has no conflicts. A canonical table in which precedences resolved a conflict isn't complete.
    ///
    /// The faults are those of `state_table`; then `ChainTooLong`, with states and then tokens ascending, or `Memory`. An `Err` gives
    /// back the grammar, and the item sets and the table if they were built. It takes the time of `state_table` and of
    /// `ParserData::of_safe`.
    pub fn build<StorageT: StorageIndex>(
        &self,
        alloc: Global,
        grm: YaccGrammar<StorageT>,
    ) -> Result<ParserData<StorageT>, Unbuilt<StorageT>>
        ensures built { IfOk result (IsParserDataBy self.now grm) }
        ensures refused { IfErr result (IsUnbuiltBy self.now grm StorageT.limit) }
    {
        // The proof needs that the grammar is well-formed.
        let _lemma = grm.start_prod();
        match self.state_table(alloc, &grm) {
            Err(fault) => Err(Unbuilt::Table(fault, grm)),
            Ok((sgraph, stable)) => {
                match ParserData::of_safe(alloc, grm, sgraph, stable, self.cap) {
                    Ok(data) => Ok(data),
                    Err(refused) => Err(Unbuilt::Chains(refused)),
                }
            }
        }
    }

    /// The item sets of the grammar, and the LR(1) table that resolves their conflicts. State 0 is the start state.
    ///
    /// With `Minimiser::Pager`, item sets are merged from the start, before any conflict is resolved. They have exactly the items that
    /// are propagated from the start item along the transitions of the table, and the conflicts are theirs. If there are none, the
    /// canonical table has none. A reduce/reduce conflict may come from the merging alone, if the grammar isn't LR(1).
    ///
    /// The faults are those of `from_yacc`. With `Minimiser::Pager`, `TooManyStates` means that merging can make more than `max_states`
    /// different kernels, or that there are more canonical item sets. Whether it makes them depends on the order in which sets are
    /// merged. After an `Err` nothing is left.
    pub fn state_table<StorageT: StorageIndex>(
        &self,
        alloc: Global,
        grm: &YaccGrammar<StorageT>,
    ) -> Result<(StateGraph<StorageT>, StateTable<StorageT>), BuildFault>
        // Canonical item sets or merged ones, and a table with their actions after conflict resolution.
        ensures built { IfOk result (AreMinimisedBy self.now.minimiser grm.now self.now.precedences) }
        ensures distinct { IfOk result HaveDistinctStates }
        ensures safe { IfOk result (AreSafe grm.now) }
        ensures room { IfOk result (HaveAtMost self.now.max_states) }
        // As for `from_yacc`; with `Minimiser::Pager`, `AcceptReduceConflict`: a merged set calls for accept and a reduction, and
        // too many states may be kernels that merging can make.
        ensures refused { IfErr result (IsRefusalBy self.now.minimiser grm.now self.now.max_states StorageT.limit) }
    {
        let none = Precedences::none(alloc);
        let precedences = match self.precedences {
            Some(precedences) => precedences,
            None => &none,
        };
        from_yacc_by(alloc, grm, precedences, self.minimiser, self.max_states)
    }
}
