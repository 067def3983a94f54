//! The check of a table against its grammar and its item sets, which a parse then trusts.
ghost use Rattle.std.specs.Prelude.{◌≡◌, IfOk, IfErr};
ghost use Rattle.lrpar_grammar.specs.Grammar.{IsWellFormed};
ghost use Rattle.lrpar_table_rows.specs.Table.{IsClosed};
ghost use Rattle.lrpar_table_rows.specs.Safe.{IsSafe};
ghost use Rattle.lrpar_table_stacks.specs.Path.{NeverSticks};
ghost use Rattle.lrpar_table_stacks.specs.Chain.{AreChainsShort};
ghost use Rattle.lrpar_table_check.specs.Checked.{GivesBack, HasBounds, HoldsParts, IsChecked, IsRefusedForMemory, NamesChain, NamesCheckFault};
ghost use Rattle.lrpar_table_check.specs.LeastCap.{IsLeastCapOf};

use crate::chains::least_cap;
pub use crate::fault::CheckFault;
use crate::safety::find_first_fault;
use lrpar_grammar::grammar::YaccGrammar;
use lrpar_grammar::span::StorageIndex;
use lrpar_table_conditions::checkable::Checkable;
pub use lrpar_table_conditions::completeness::CompletenessCondition;
pub use lrpar_table_conditions::completeness_fault::CompleteFault;
pub use lrpar_table_rows::condition::SafetyCondition;
use lrpar_table_rows::table::{StateGraph, StateTable};
pub use lrpar_table_stacks::overlay::Overlay;
pub use lrpar_table_viable::viable_fault::ViableFault;
use std::alloc::Global;
use std::marker::Model;

/// A grammar, its item sets and its table, which are safe to parse by, and whose chains of reductions are short.
#[derive(Debug)]
pub struct ParserData<StorageT: StorageIndex> {
    grm: YaccGrammar<StorageT>,
    sgraph: StateGraph<StorageT>,
    stable: StateTable<StorageT>,
    cap: u16,
    least_cap: u16,
}

// A drop of its own: code that drops one then has one call to prove.
impl<StorageT: StorageIndex> Drop for ParserData<StorageT> {
    fn drop(self) {
        let ParserData {
            grm,
            sgraph,
            stable,
            cap: _,
            least_cap: _,
        } = self;
        drop(grm);
        drop(sgraph);
        drop(stable);
    }
}

impl<StorageT: StorageIndex> Model for ParserData<StorageT> {
    ghost use Rattle.lrpar_table_check.specs.Checked.{Checked};
    ghost use Rattle.lrpar_table_check.specs.LeastCap.{IsMeasured};

    ghost Value = { Checked };

    ghost view = { λ d. record { grammar = d.grm; graph = d.sgraph; table = d.stable; cap = d.cap } };

    ghost invariant = { λ d. IsMeasured (record { grammar = d.grm; graph = d.sgraph; table = d.stable; cap = d.cap }) d.least_cap };
}

impl<StorageT: StorageIndex> ParserData<StorageT> {
    /// Checks that the table is safe (it has its shape, and each condition holds in each state), and that no chain of reductions
    /// under one token is longer than the cap.
    ///
    /// The fault of an `Err` is the first that fails of these: the shape, then the conditions S2 to S8 in turn, each with states
    /// ascending, then the chains, with states and then tokens ascending. `Memory` comes if the table is safe and an allocation
    /// failed, for the lists on which the chains are counted: a number of two bytes for each pair of a rule and a token, and some
    /// states, at most `cap + 3` or as many as the rules. An `Err` gives back the three parts as they were.
    ///
    /// The conditions take time near the size of the input: with I items and A entries of the table, about (I + A) times the
    /// logarithm of I, where each entry that leads to a state counts the state's cores with a dot past 0. The chains take longer:
    /// a state has one for each reduction that it stores, and one for each reduction that the state of one of its gotos stores.
    /// Mostly one look suffices for each: its first reduction ends it, or leads to another goto of the state, from which the
    /// reductions are counted already. The others, as those that begin with a production of no symbol, are made step by step, with
    /// at most `cap + 1` reductions. If one is too long, the chains of its state are made again, to find the first token.
    pub fn new(
        alloc: Global,
        grm: YaccGrammar<StorageT>,
        sgraph: StateGraph<StorageT>,
        stable: StateTable<StorageT>,
        cap: u16,
    ) -> Result<Self, Refused<StorageT>>
        ensures made { IfOk result (HoldsParts grm sgraph stable cap) }
        ensures checked { IfOk result IsChecked }
        ensures fault { IfErr result (NamesCheckFault grm sgraph stable cap) }
        ensures exact { IsSafe grm sgraph stable → AreChainsShort grm stable cap → IfErr result IsRefusedForMemory }
        ensures back { IfErr result (GivesBack grm sgraph stable) }
    {
        match find_first_fault(&Checkable {
            grm: &grm,
            sgraph: &sgraph,
            stable: &stable,
        }) {
            None => ParserData::of_safe(alloc, grm, sgraph, stable, cap),
            Some(fault) => Err(Refused {
                fault,
                grm,
                sgraph,
                stable,
            }),
        }
    }

    /// The checked table of a table that is safe, as its caller knows: this checks only that no chain of reductions under one
    /// token is longer than the cap.
    ///
    /// The fault is the first chain that is too long, with states and then tokens ascending; or `Memory`, for the lists on which
    /// the chains are counted. An `Err` gives back the three parts as they were. The chains take the time that they take in `new`.
    pub fn of_safe(
        alloc: Global,
        grm: YaccGrammar<StorageT>,
        sgraph: StateGraph<StorageT>,
        stable: StateTable<StorageT>,
        cap: u16,
    ) -> Result<Self, Refused<StorageT>>
        requires { IsSafe grm sgraph stable }
        ensures made { IfOk result (HoldsParts grm sgraph stable cap) }
        ensures checked { IfOk result IsChecked }
        ensures fault { IfErr result (NamesChain grm stable cap) }
        ensures exact { AreChainsShort grm stable cap → IfErr result IsRefusedForMemory }
        ensures back { IfErr result (GivesBack grm sgraph stable) }
    {
        are_sound(&grm, &stable);
        match least_cap(alloc, &grm, &stable, cap) {
            Ok(least_cap) => Ok(ParserData {
                grm,
                sgraph,
                stable,
                cap,
                least_cap,
            }),
            Err(fault) => Err(Refused {
                fault,
                grm,
                sgraph,
                stable,
            }),
        }
    }

    /// The grammar.
    pub fn grm(&self) -> &YaccGrammar<StorageT>
        ensures { result.now ≡ self.now.grammar }
    {
        &self.grm
    }

    /// The item sets.
    pub fn sgraph(&self) -> &StateGraph<StorageT>
        ensures { result.now ≡ self.now.graph }
    {
        &self.sgraph
    }

    /// The table.
    pub fn stable(&self) -> &StateTable<StorageT>
        ensures table { result.now ≡ self.now.table }
        ensures checked { IsChecked self.now }
        ensures runs { NeverSticks self.now.grammar self.now.table }
        ensures bounds { HasBounds self.now }
    {
        &self.stable
    }

    /// The cap.
    pub fn cap(&self) -> u16
        ensures { result ≡ self.now.cap }
    {
        self.cap
    }

    /// The least cap with which the table passes: no chain makes more reductions, and for each smaller cap some chain does. It was found
    /// by the check, and takes no time here. A table that is refused with the cap 65,535 passes with no cap; so to choose one, take the
    /// table with that cap and ask for the least.
    pub fn least_cap(&self) -> u16
        ensures { IsLeastCapOf self.now result }
    {
        self.least_cap
    }
}

// A grammar is well formed, and the actions and gotos of a table lead to its own states, whatever they were made of.
fn are_sound<StorageT: StorageIndex>(grm: &YaccGrammar<StorageT>, stable: &StateTable<StorageT>)
    ensures well_formed { IsWellFormed grm.now }
    ensures closed { IsClosed stable.now }
{
    let _lemma = grm.start_prod();
    let _lemma = stable.states_len();
}

/// A refused table, with its grammar and its item sets as they were.
#[derive(Debug)]
pub struct Refused<StorageT: StorageIndex> {
    fault: CheckFault,
    grm: YaccGrammar<StorageT>,
    sgraph: StateGraph<StorageT>,
    stable: StateTable<StorageT>,
}

// A drop of its own: code that drops one then has one call to prove.
impl<StorageT: StorageIndex> Drop for Refused<StorageT> {
    fn drop(self) {
        let Refused {
            fault: _,
            grm,
            sgraph,
            stable,
        } = self;
        drop(grm);
        drop(sgraph);
        drop(stable);
    }
}

impl<StorageT: StorageIndex> Model for Refused<StorageT> {
    ghost use Rattle.lrpar_table_check.specs.Checked.{Unchecked};

    ghost Value = { Unchecked };

    ghost view = { λ r. record { fault = r.fault; grammar = r.grm; graph = r.sgraph; table = r.stable } };
}

impl<StorageT: StorageIndex> Refused<StorageT> {
    /// Why the table is refused.
    pub fn fault(&self) -> CheckFault
        ensures { result ≡ self.now.fault }
    {
        self.fault
    }

    /// The grammar, the item sets and the table, as the caller passed them.
    pub fn into_parts(
        self,
    ) -> (
        YaccGrammar<StorageT>,
        StateGraph<StorageT>,
        StateTable<StorageT>,
    )
        ensures grammar { result.0 ≡ self.grammar }
        ensures graph { result.1 ≡ self.graph }
        ensures table { result.2 ≡ self.table }
    {
        let Refused {
            fault: _,
            grm,
            sgraph,
            stable,
        } = self;
        (grm, sgraph, stable)
    }
}
