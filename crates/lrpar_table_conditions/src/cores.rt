//! The conditions that are tested core by core.
ghost use Rattle.std.specs.Prelude.{◌≡◌, ◌≤◌, ◌↔◌, IsTrue};
ghost use Rattle.lrpar_grammar.specs.Grammar.{prod_len};
ghost use Rattle.lrpar_grammar.specs.Symbols.{symbol_of};
ghost use Rattle.lrpar_table_rows.specs.Safe.{GoesByRules, NeverEntersStart, StartsFresh};
ghost use Rattle.lrpar_table_conditions.specs.Checked.{AllCoresFollow, BeginsAsStart, CoreFollows, GoesByRuleOf, HasCompleteCore, HoldsAt, IsProdOf, IsShaped, IsStartState, IsStateOf};

use crate::checkable::Checkable;
use lrpar_grammar::span::{PIdx, StIdx, StorageIndex, Symbol};

impl<'a, StorageT: StorageIndex> Checkable<'a, StorageT> {
    /// S2: the items of the start state have dot 0.
    pub fn starts_fresh(&self, s: StIdx<StorageT>) -> bool
        requires shape { IsShaped self.now }
        requires state { IsStateOf StorageT.index self.now s }
        ensures { IsTrue result ↔ StartsFresh self.now.sgraph.now self.now.stable.now (StorageT.index s.0) }
    {
        !self.is_start(s) || self.sgraph.cores(s).iter().all(|(_, dot)| *dot == 0)
    }

    /// S8: the state has no transition to the start state, and has the core `^: . S` only if it is the start state.
    pub fn never_enters_start(&self, s: StIdx<StorageT>) -> bool
        requires shape { IsShaped self.now }
        requires state { IsStateOf StorageT.index self.now s }
        ensures { IsTrue result ↔ HoldsAt StorageT.index NeverEntersStart self.now s }
    {
        self.begins_as_start(s) && self.goes_never_back(s)
    }

    // Whether the state is the start state.
    pub(crate) fn is_start(&self, s: StIdx<StorageT>) -> bool
        ensures { IsTrue result ↔ IsStartState StorageT.index self.now s }
    {
        usize::from(s) == usize::from(self.stable.start_state())
    }

    // Whether the cores of state `next` with a dot past 0, those of kernel items, come from cores of the state by the symbol.
    pub(crate) fn cores_follow(
        &self,
        s: StIdx<StorageT>,
        symbol: Symbol<StorageT>,
        next: StIdx<StorageT>,
    ) -> bool
        requires shape { IsShaped self.now }
        requires state { IsStateOf StorageT.index self.now s }
        requires next { IsStateOf StorageT.index self.now next }
        ensures { IsTrue result ↔ AllCoresFollow StorageT.index self.now s symbol next }
    {
        for (pidx, dot) in self.sgraph.begun_cores(next) {
            if !self.core_follows(s, symbol, *pidx, *dot) {
                return false;
            }
        }
        true
    }

    // Whether the core comes from a core of the state by the symbol, or has dot 0.
    fn core_follows(
        &self,
        s: StIdx<StorageT>,
        symbol: Symbol<StorageT>,
        pidx: PIdx<StorageT>,
        dot: usize,
    ) -> bool
        requires shape { IsShaped self.now }
        requires state { IsStateOf StorageT.index self.now s }
        requires prod { IsProdOf StorageT.index self.now pidx }
        requires dot { dot ≤ prod_len self.now.grm.now (StorageT.index pidx.0) }
        ensures { IsTrue result ↔ CoreFollows StorageT.index self.now s symbol pidx dot }
    {
        match dot.checked_sub(1) {
            None => true,
            Some(before) => {
                is_symbol(self.grm.prod(pidx)[before], symbol)
                    && self.sgraph.has_core(s, pidx, before)
            }
        }
    }

    // Whether the state has the complete core of the production, and that isn't the start production.
    pub(crate) fn is_complete(&self, s: StIdx<StorageT>, pidx: PIdx<StorageT>) -> bool
        requires shape { IsShaped self.now }
        requires state { IsStateOf StorageT.index self.now s }
        requires prod { IsProdOf StorageT.index self.now pidx }
        ensures { IsTrue result ↔ HasCompleteCore StorageT.index self.now s pidx }
    {
        usize::from(pidx) != usize::from(self.grm.start_prod())
            && self.sgraph.has_core(s, pidx, self.grm.prod(pidx).len())
    }

    /// S6: for each core with dot 0, other than that of the start production, the state has a goto by its rule.
    pub fn goes_by_rules(&self, s: StIdx<StorageT>) -> bool
        requires shape { IsShaped self.now }
        requires state { IsStateOf StorageT.index self.now s }
        ensures { IsTrue result ↔ HoldsAt StorageT.index GoesByRules self.now s }
    {
        for (pidx, dot) in self.sgraph.cores(s) {
            if *dot == 0 && !self.goes_by_rule_of(s, *pidx) {
                return false;
            }
        }
        true
    }

    // Whether the state has a goto by the production's rule, or the production is the start production.
    fn goes_by_rule_of(&self, s: StIdx<StorageT>, pidx: PIdx<StorageT>) -> bool
        requires shape { IsShaped self.now }
        requires state { IsStateOf StorageT.index self.now s }
        requires prod { IsProdOf StorageT.index self.now pidx }
        ensures { IsTrue result ↔ GoesByRuleOf StorageT.index self.now s pidx }
    {
        usize::from(pidx) == usize::from(self.grm.start_prod())
            || self.stable.goto(s, self.grm.prod_to_rule(pidx)).is_some()
    }

    // S8 of the state's cores: it has the core `^: . S` only if it is the start state.
    fn begins_as_start(&self, s: StIdx<StorageT>) -> bool
        requires shape { IsShaped self.now }
        requires state { IsStateOf StorageT.index self.now s }
        ensures { IsTrue result ↔ BeginsAsStart StorageT.index self.now s }
    {
        self.is_start(s) || !self.sgraph.has_core(s, self.grm.start_prod(), 0)
    }
}

// Whether two symbols are the same.
fn is_symbol<StorageT: StorageIndex>(a: Symbol<StorageT>, b: Symbol<StorageT>) -> bool
    ensures { IsTrue result ↔ (symbol_of StorageT.index a ≡ symbol_of StorageT.index b) }
{
    match (a, b) {
        (Symbol::Rule(a), Symbol::Rule(b)) => usize::from(a) == usize::from(b),
        (Symbol::Token(a), Symbol::Token(b)) => usize::from(a) == usize::from(b),
        (Symbol::Rule(_), Symbol::Token(_)) | (Symbol::Token(_), Symbol::Rule(_)) => false,
    }
}
