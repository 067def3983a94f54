//! What is found of a state: its exits, and the reductions that can be made on top of it.
ghost use Rattle.std.specs.Prelude.{◌≡◌, ◌<◌, ◌≤◌, ℕ, IfOk, IfSome, IsTrue, OnOk};
ghost use Rattle.std.specs.Bool.{OnFalse, OnTrue};
ghost use Rattle.lrpar_grammar.specs.Grammar.{Grammar, rule_of};
ghost use Rattle.lrpar_grammar.specs.Tokens.{has};
ghost use Rattle.lrpar_table_pops.specs.Exits.{HasExit, HasNoExit, LeavesIn};
ghost use Rattle.lrpar_table_pops.specs.Pops.{Done, Dropping};
ghost use Rattle.lrpar_table_pops.specs.Sets.{HaveNoTokens, tokens_by};
ghost use Rattle.lrpar_grammar.specs.Grammar.{end_token, prods_len, rules_len};
ghost use Rattle.lrpar_table_pops.specs.FoundAll.{SetsGrowBy};
ghost use Rattle.lrpar_table_pops.specs.Growth.{KeepsWays, SomeHasLookahead};
ghost use Rattle.std.specs.Prelude.{None};
ghost use Rattle.lrpar_table_pops.specs.Automaton.{AreExitsIn, HasItemsOf, ReducesBy};
ghost use Rattle.lrpar_table_pops.specs.Room.{FollowsMore, FollowsNoLess, KeepsFound, KeepsSetRoom, KeepsSets};
ghost use Rattle.lrpar_table_pops.specs.StoredAll.{HaveSets};

use crate::automaton::Automaton;
use crate::exits::{Exit, Exits, Way};
use crate::rule_sets::RuleSets;
use lrpar_grammar::grammar::YaccGrammar;
use lrpar_grammar::span::{PIdx, StIdx, StorageIndex};
use lrpar_grammar::token_set::TokenSet;
use std::alloc::{AllocError, Global};

/// What is found of a state: its exits; for each rule the tokens at which all symbols of one of its productions are dropped above the state;
/// and those of these tokens at which the rule's goto was followed.
#[derive(Drop)]
pub(crate) struct Found {
    exits: Exits,
    reduced: RuleSets,
    followed: RuleSets,
}

impl Found {
    ghost use Rattle.lrpar_table_pops.specs.Found.{StaysFound};
    ghost use Rattle.lrpar_table_pops.specs.FoundAll.{FindsAll, FollowsOnly, IsAmong, IsDone, IsUnchanged};

    /// Nothing.
    pub(crate) fn new<StorageT: StorageIndex>(
        alloc: Global,
        grm: &YaccGrammar<StorageT>,
    ) -> Result<Self, AllocError>
        ensures { IfOk result (HaveSets grm.now) }
    {
        let exits = Exits::none(alloc);
        let reduced = RuleSets::new(alloc, grm)?;
        let followed = RuleSets::new(alloc, grm)?;
        Ok(Found {
            exits,
            reduced,
            followed,
        })
    }

    /// The exits that are found.
    pub(crate) fn exits(&self) -> &Exits
        ensures { result.now ≡ self.now.exits }
    {
        &self.exits
    }

    /// Takes a state, for whose exits there is room from now on.
    pub(crate) fn enter<StorageT: StorageIndex>(
        &mut self,
        alloc: Global,
        checked: &Automaton<'_, StorageT>,
        state: StIdx<StorageT>,
    ) -> Result<(), AllocError>
        requires { HasItemsOf StorageT.index checked.now state }
        ensures places { OnOk result (AreExitsIn StorageT.index checked.now state self.new.exits) }
        ensures sets { OnOk result (KeepsSets self.old self.new) }
    {
        self.exits = Exits::new(alloc, checked, state)?;
        Ok(())
    }

    /// Begins anew with the state that was entered last: nothing of it is found yet.
    pub(crate) fn clear(&mut self)
        ensures exits { HasNoExit self.new.exits }
        ensures reduced { HaveNoTokens self.new.reduced.items }
        ensures followed { HaveNoTokens self.new.followed.items }
        ensures places { KeepsWays self.old.exits self.new.exits }
        ensures room { KeepsSetRoom self.old self.new }
    {
        self.exits.clear();
        self.reduced.clear();
        self.followed.clear();
    }

    /// At the token a run reduces by the production, and drops this number of states first, beginning with this one.
    pub(crate) fn reduce<StorageT: StorageIndex>(
        &mut self,
        grm: &YaccGrammar<StorageT>,
        prod: usize,
        symbols: usize,
        token: usize,
    )
        ensures stays { StaysFound grm.now (λ q. q ≡ Dropping prod symbols token) self.old self.new }
        ensures all { FindsAll grm.now (λ q. q ≡ Dropping prod symbols token) self.old self.new }
        ensures followed { self.new.followed ≡ self.old.followed }
    {
        if symbols == 0 {
            self.reduce_here(grm, prod, token);
        } else {
            let left = symbols - 1;
            self.exits.insert(Way::Reduction { prod, left }, token);
        }
    }

    // At the token a run reduces by the production, and drops no more states.
    fn reduce_here<StorageT: StorageIndex>(
        &mut self,
        grm: &YaccGrammar<StorageT>,
        prod: usize,
        token: usize,
    )
        ensures stays { StaysFound grm.now (λ q. q ≡ Dropping prod 0 token) self.old self.new }
        ensures all { FindsAll grm.now (λ q. q ≡ Dropping prod 0 token) self.old self.new }
        ensures followed { self.new.followed ≡ self.old.followed }
    {
        if let Some(rule) = rule_number(grm, prod)
            && rule < self.reduced.len()
        {
            self.reduced.insert(rule, token);
        }
    }

    /// A run has accepted, with this token as lookahead.
    pub(crate) fn add_acceptance(&mut self, token: usize)
        ensures stays { (g : Grammar) → StaysFound g (λ q. q ≡ Done) self.old self.new }
        ensures all { (g : Grammar) → FindsAll g (λ q. (q ≡ Done) × (token ≡ end_token g)) self.old self.new }
        ensures followed { self.new.followed ≡ self.old.followed }
    {
        self.exits.insert(Way::Acceptance, token);
    }

    /// A run left the state above by these exits.
    pub(crate) fn add_all<StorageT: StorageIndex>(
        &mut self,
        grm: &YaccGrammar<StorageT>,
        above: &Exits,
    )
        ensures stays { StaysFound grm.now (HasExit above.now) self.old self.new }
        ensures all { FindsAll grm.now (IsAmong grm.now (SomeHasLookahead above.now)) self.old self.new }
        ensures followed { self.new.followed ≡ self.old.followed }
    {
        for place in 0..above.len() {
            self.add_exit(grm, above.get(place));
        }
    }

    // A run left the state above by this exit.
    fn add_exit<StorageT: StorageIndex>(&mut self, grm: &YaccGrammar<StorageT>, above: &Exit)
        ensures stays { StaysFound grm.now (LeavesIn above.now.way above.now.tokens) self.old self.new }
        ensures all { FindsAll grm.now (IsAmong grm.now (λ w t. (w ≡ above.now.way) × IsTrue (has above.now.tokens t))) self.old self.new }
        ensures followed { self.new.followed ≡ self.old.followed }
    {
        match above.way {
            Way::Acceptance => {
                self.exits.unite(Way::Acceptance, &above.tokens);
            }
            Way::Reduction { prod, left } => self.add_reduction(grm, prod, left, &above.tokens),
        }
    }

    // A run left the state above to reduce by the production, and still drops this number of states, beginning with this one.
    fn add_reduction<StorageT: StorageIndex>(
        &mut self,
        grm: &YaccGrammar<StorageT>,
        prod: usize,
        symbols: usize,
        tokens: &TokenSet,
    )
        ensures stays { StaysFound grm.now (ReducesBy prod symbols tokens.now) self.old self.new }
        ensures all { FindsAll grm.now (ReducesBy prod symbols tokens.now) self.old self.new }
        ensures followed { self.new.followed ≡ self.old.followed }
    {
        if symbols == 0 {
            self.add_here(grm, prod, tokens);
        } else {
            let left = symbols - 1;
            self.exits.unite(Way::Reduction { prod, left }, tokens);
        }
    }

    // A run left the state above to reduce by the production, and drops no more states.
    fn add_here<StorageT: StorageIndex>(
        &mut self,
        grm: &YaccGrammar<StorageT>,
        prod: usize,
        tokens: &TokenSet,
    )
        ensures stays { StaysFound grm.now (ReducesBy prod 0 tokens.now) self.old self.new }
        ensures all { FindsAll grm.now (ReducesBy prod 0 tokens.now) self.old self.new }
        ensures followed { self.new.followed ≡ self.old.followed }
    {
        if let Some(rule) = rule_number(grm, prod)
            && rule < self.reduced.len()
        {
            self.reduced.unite(rule, tokens);
        }
    }

    /// Whether the rule's goto is to be followed at some token.
    pub(crate) fn is_rule_due(&self, rule: usize) -> bool
        ensures { OnFalse result ((t : ℕ) → IsDone self.now rule t) }
    {
        if rule < self.reduced.len() && rule < self.followed.len() {
            !self.followed.get(rule).covers(self.reduced.get(rule))
        } else {
            false
        }
    }

    /// Whether the rule's goto is to be followed at the token. It counts as followed then.
    pub(crate) fn is_due(&mut self, rule: usize, token: usize) -> bool
        ensures due { OnTrue result (IsTrue (has (tokens_by self.old.reduced.items rule) token)) }
        ensures kept { KeepsFound self.old self.new }
        ensures less { FollowsMore self.old self.new result }
        ensures grows { SetsGrowBy (λ r t. IsTrue result × (r ≡ rule) × (t ≡ token)) self.old.followed.items self.new.followed.items }
        ensures only { FollowsOnly rule token self.old self.new }
        ensures not_due { OnFalse result (IsDone self.old rule token) }
        ensures same { OnFalse result (IsUnchanged self.old self.new) }
        ensures no_more { FollowsNoLess self.old self.new }
    {
        if !self.has_reduced(rule, token) || rule >= self.followed.len() {
            return false;
        }
        self.followed.insert_new(rule, token)
    }

    // Whether a reduction to the rule at the token is found.
    fn has_reduced(&self, rule: usize, token: usize) -> bool
        ensures { result ≡ has (tokens_by self.now.reduced.items rule) token }
    {
        rule < self.reduced.len() && self.reduced.get(rule).contains(token)
    }
}

/// The rule of the production, if the grammar has it.
pub(crate) fn rule_number<StorageT: StorageIndex>(
    grm: &YaccGrammar<StorageT>,
    prod: usize,
) -> Option<usize>
    ensures rule { IfSome result (λ rule. rule ≡ rule_of grm.now prod) }
    ensures within { IfSome result (λ rule. rule < rules_len grm.now) }
    ensures none { result ≡ None → prods_len grm.now ≤ prod }
{
    if prod >= grm.prods_len() {
        return None;
    }
    let rule = grm.prod_to_rule(PIdx(StorageT::from_index(prod).unwrap()));
    Some(usize::from(rule))
}
