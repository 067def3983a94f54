//! The recoverer CPCT+, which returns the repairs of least cost.
ghost use Rattle.std.specs.Prelude.{◌≡◌, ◌↔◌, [], true, IfErr, IfOk, IfSome, IsNone, IsTrue, OnOk, Some};
ghost use Rattle.std.specs.List.{Contains};
ghost use Rattle.lrpar_grammar.specs.Grammar.{tokens_len};
ghost use Rattle.lrpar_table_stacks.specs.Expected.{tokens_of};
ghost use Rattle.lrpar_parse_lexemes.specs.Views.{token_by};
ghost use Rattle.lrpar_parse_repair.specs.PlainSteps.{plain_sequences};
ghost use Rattle.lrpar_parse_cpctplus.specs.Budget.{AreListedWithin, IsLimitAt};
ghost use Rattle.lrpar_parse_cpctplus.specs.Costs.{AreCosts, items_of, token_cost};
ghost use Rattle.lrpar_parse_cpctplus.specs.Listing.{AreAvoided, Avoids, AvoidsAlso, HasCosts, HasOnlyCosts, HasSaidCosts, KeepsOthers, settings_with};
ghost use Rattle.lrpar_parse_cpctplus.specs.Refused.{IsFirstFree, IsFreeToken, IsFreeTokenBy};
ghost use Rattle.lrpar_parse_cpctplus.specs.Said.{AreSaid, said_by};
ghost use Rattle.lrpar_parse_cpctplus.specs.SearchRound.{AreAllIn, AreOnce, AreWeights};

use crate::budget::share_of;
use crate::fault::CostFault;
use crate::listing::{Wanted, first_repairs};
use crate::search::Search;
use lrpar_grammar::grammar::YaccGrammar;
use lrpar_grammar::span::{StorageIndex, TIdx};
use lrpar_parse_lexemes::lex_api::Lexeme;
use lrpar_parse_repair::repair::{Recoverer, RecoveryPoint, RepairStep};
use std::alloc::{AllocError, Global};
use std::marker::Model;

/// How many repairs are listed at most, if nothing else is said.
const MOST_REPAIRS_LISTED: usize = 100;

/// Returns the repair sequences of least cost, after Diekmann and Tratt, *Don't Panic! Better, Fewer, Syntax Errors for LR
/// Parsers*.
///
/// The search adds what can be reached from the error point, one cost after the other: configurations, each a stack of states and a
/// place among the lexemes. Each is kept once, however many sequences lead to it. The search ends at the least cost of a repair. The
/// limit bounds the configurations that are nearer than that, over the whole search at one error point. If there are more of them,
/// nothing is found. `within` bounds them over all error points of a parse, too.
///
/// Of the cheapest repairs those are listed after which a parse goes on furthest, up to 250 places past the error point. First come
/// those that insert no token to be avoided, then those of fewer steps. Of as many steps, the first step that differs decides: an Insert
/// comes before a Delete, that before a Shift, and Inserts by their tokens, ascending. After these `all` lists the others, in the
/// same order. `at_most` bounds how many are listed; without it 100 are.
#[derive(Debug)]
pub struct CpctPlus {
    limit: usize,
    /// How many configurations all searches of a parse may keep.
    total: Option<usize>,
    costs: Option<Vec<u8>>,
    /// Whether a token is to be avoided, by its number.
    avoided: Option<Vec<bool>>,
    most: usize,
    lists_all: bool,
}

impl Drop for CpctPlus {
    fn drop(self) {
        let CpctPlus {
            limit: _,
            total: _,
            costs,
            avoided,
            most: _,
            lists_all: _,
        } = self;
        drop(costs);
        drop(avoided);
    }
}

impl Model for CpctPlus {
    ghost use Rattle.lrpar_parse_cpctplus.specs.Costs.{AreCosts, items_of};
    ghost use Rattle.lrpar_parse_cpctplus.specs.Listing.{Settings};

    ghost Value = { Settings };

    ghost view = { λ c. record {
      limit = c.limit;
      total = c.total;
      costs = items_of c.costs;
      avoided = items_of c.avoided;
      most = c.most;
      lists_all = c.lists_all;
    } };

    ghost invariant = { λ c. AreCosts (items_of c.costs) };
}

impl CpctPlus {
    /// Each token costs 1. No token is to be avoided, and at most 100 repairs are listed, of those after which a parse goes on furthest.
    /// Allocates nothing.
    pub fn new(limit: usize) -> Self
        ensures { result ≡ settings_with limit [] }
    {
        CpctPlus::with(limit, None)
    }

    // With these costs, and nothing else set.
    fn with(limit: usize, costs: Option<Vec<u8>>) -> Self
        requires { AreCosts (items_of costs) }
        ensures { result ≡ settings_with limit (items_of costs) }
    {
        CpctPlus {
            limit,
            total: None,
            costs,
            avoided: None,
            most: MOST_REPAIRS_LISTED,
            lists_all: false,
        }
    }

    /// Each token costs what the list says at its number; one past the list costs 1. The rest is as `new` sets it. Refused by the
    /// first token that would cost nothing. Allocates nothing.
    pub fn with_costs(limit: usize, costs: Vec<u8>) -> Result<Self, CostFault>
        ensures made { IfOk result (HasCosts limit costs) }
        ensures priced { IfOk result (λ c. AreCosts c.costs) }
        ensures refused { IfErr result (IsFreeToken costs.items) }
    {
        match first_free(&costs) {
            Some(token) => Err(CostFault::CostsNothing(token)),
            None => Ok(CpctPlus::with(limit, Some(costs))),
        }
    }

    /// Each token costs what the function returns for it; it is called for each token of the grammar, the end token among them. The
    /// rest is as `new` sets it. Refused by the first token that would cost nothing.
    pub fn from_costs<StorageT: StorageIndex, F: Fn(TIdx<StorageT>) -> u8 + Drop>(
        alloc: Global,
        limit: usize,
        grm: &YaccGrammar<StorageT>,
        cost: F,
    ) -> Result<Self, CostFault>
        requires callable { F.IsAlwaysCallable cost }
        ensures others { IfOk result (HasOnlyCosts limit) }
        ensures made { IfOk result (HasSaidCosts StorageT.index (F.post cost) grm.now) }
        ensures priced { IfOk result (λ c. AreCosts c.costs) }
        ensures refused { IfErr result (IsFreeTokenBy StorageT.index (F.post cost) grm.now) }
    {
        let costs = costs_by(alloc, grm, &cost)?;
        CpctPlus::with_costs(limit, costs)
    }

    /// These tokens are to be avoided, in place of those that were before: repairs that insert one come after all others after which a
    /// parse goes on as far. A token may have any number of the storage type; memory grows with the greatest one. `Err`: out of memory;
    /// the recoverer is gone then.
    pub fn avoid_insert<StorageT: StorageIndex>(
        mut self,
        alloc: Global,
        tokens: &[TIdx<StorageT>],
    ) -> Result<Self, AllocError>
        ensures avoided { IfOk result (Avoids StorageT.index tokens.now) }
        ensures others { IfOk result (KeepsOthers self) }
    {
        self.avoided = Some(avoided_by(alloc, tokens)?);
        Ok(self)
    }

    /// All searches of a parse together may keep `total` configurations. Its first error may use as many as the limit, and the places
    /// after it share the rest evenly, up to the limit each.
    ///
    /// Most texts have one error or few, and the first is read first: so it is repaired as without a total, if that is no less than the
    /// limit. Each place after it may be an error's, and nothing that a search knows tells which ones are, so they are equal. The
    /// cheapest repair of cost 1 takes one configuration, and each step more about ten times as many, so a small share finds most.
    ///
    /// To know the first error, a search feeds the lexemes up to it once more. It does so up to place 8 · (`total` / lexemes), and takes
    /// each error past that for a later one: so no more than some eight lexemes are fed for each configuration of the total. Allocates
    /// nothing itself.
    pub fn within(mut self, total: usize) -> Self
        ensures { result ≡ record self { total = Some total } }
    {
        self.total = Some(total);
        self
    }

    /// At most so many repairs are listed: the first ones. Allocates nothing.
    pub fn at_most(mut self, most: usize) -> Self
        ensures { result ≡ record self { most = most } }
    {
        self.most = most;
        self
    }

    /// All repairs of least cost may be listed: those after which a parse goes on furthest come first, then the others. Allocates nothing.
    pub fn all(mut self) -> Self
        ensures { result ≡ record self { lists_all = true } }
    {
        self.lists_all = true;
        self
    }

    // Which repairs are listed.
    fn wanted(&self) -> Wanted<'_>
        ensures avoided { result.avoided.now ≡ self.now.avoided }
        ensures most { result.most ≡ self.now.most }
        ensures lists_all { result.lists_all ≡ self.now.lists_all }
    {
        Wanted {
            avoided: listed(&self.avoided),
            most: self.most,
            lists_all: self.lists_all,
        }
    }

    /// What a token costs, by its number.
    pub(crate) fn cost_of(&self, token: usize) -> u8
        ensures { result ≡ token_cost self.now.costs token }
    {
        match &self.costs {
            None => 1,
            Some(costs) => match costs.get(token) {
                None => 1,
                Some(cost) => *cost,
            },
        }
    }

    /// What tokens cost, each once.
    pub(crate) fn weights(&self, alloc: Global) -> Result<Vec<u8>, AllocError>
        ensures { IfOk result (λ weights. AreWeights self.now.costs weights.items) }
    {
        let mut weights = Vec::new(alloc);
        weights.push(1)?;
        match &self.costs {
            None => Ok(weights),
            Some(costs) => {
                add_weights(costs, &mut weights)?;
                Ok(weights)
            }
        }
    }

    /// How many configurations may be nearer than the cheapest repairs, if nothing bounds the searches of a parse together.
    pub(crate) fn limit(&self) -> usize
        ensures limit { result ≡ self.now.limit }
        ensures costs { AreCosts self.now.costs }
    {
        self.limit
    }

    // How many configurations may be nearer than the cheapest repairs at the error point.
    fn limit_at<StorageT: StorageIndex, LexemeT: Lexeme<StorageT>>(
        &self,
        alloc: Global,
        point: &RecoveryPoint<'_, StorageT, LexemeT>,
    ) -> Result<usize, AllocError>
        ensures { IfOk result (IsLimitAt (token_by StorageT.index LexemeT.parts) self.now point.now) }
    {
        match self.total {
            None => Ok(self.limit),
            Some(total) => share_of(alloc, self.limit, total, point),
        }
    }
}

// Adds those of the costs that aren't among the weights.
fn add_weights(costs: &[u8], weights: &mut Vec<u8>) -> Result<(), AllocError>
    requires { AreOnce weights.old.items }
    ensures once { OnOk result (AreOnce weights.new.items) }
    ensures stay { OnOk result (AreAllIn weights.old.items weights.new.items) }
    ensures added { OnOk result (AreAllIn costs.now weights.new.items) }
{
    for cost in costs {
        add_weight(*cost, weights)?;
    }
    Ok(())
}

// Adds the weight, if it isn't among these.
fn add_weight(weight: u8, weights: &mut Vec<u8>) -> Result<(), AllocError>
    requires { AreOnce weights.old.items }
    ensures once { OnOk result (AreOnce weights.new.items) }
    ensures stay { OnOk result (AreAllIn weights.old.items weights.new.items) }
    ensures added { OnOk result (Contains weights.new.items weight) }
{
    if has(weights, weight) {
        return Ok(());
    }
    weights.push(weight)?;
    Ok(())
}

// Whether the weight is among these.
fn has(weights: &[u8], weight: u8) -> bool
    ensures { IsTrue result ↔ Contains weights.now weight }
{
    for one in weights {
        if *one == weight {
            return true;
        }
    }
    false
}

// What is listed; nothing if there is no list.
fn listed(list: &Option<Vec<bool>>) -> &[bool]
    ensures { result.now ≡ items_of list.now }
{
    match list {
        None => &[],
        Some(list) => list,
    }
}

// A list that says of numbers whether they are those of these tokens.
fn avoided_by<StorageT: StorageIndex>(
    alloc: Global,
    tokens: &[TIdx<StorageT>],
) -> Result<Vec<bool>, AllocError>
    ensures { IfOk result (λ avoided. AreAvoided avoided.items (tokens_of StorageT.index tokens.now)) }
{
    let mut avoided = Vec::new(alloc);
    for token in tokens {
        set(&mut avoided, usize::from(*token))?;
    }
    Ok(avoided)
}

// From now on the list says so of the number also.
fn set(list: &mut Vec<bool>, number: usize) -> Result<(), AllocError>
    ensures { OnOk result (AvoidsAlso number list.old.items list.new.items) }
{
    'longer: while list.len() <= number {
        list.push(false)?;
    }
    list[number] = true;
    Ok(())
}

// What the function says of each token of the grammar.
fn costs_by<StorageT: StorageIndex, F: Fn(TIdx<StorageT>) -> u8>(
    alloc: Global,
    grm: &YaccGrammar<StorageT>,
    cost: &F,
) -> Result<Vec<u8>, AllocError>
    requires callable { F.IsAlwaysCallable cost.now }
    ensures said { IfOk result (λ costs. AreSaid (said_by StorageT.index (F.post cost.now)) (tokens_len grm.now) costs.items) }
{
    let mut costs = Vec::with_capacity(alloc, grm.tokens_len())?;
    for number in 0..grm.tokens_len() {
        let token = TIdx(StorageT::from_index(number).unwrap());
        costs.push(cost(token))?;
    }
    Ok(costs)
}

// The first token that costs nothing.
fn first_free(costs: &[u8]) -> Option<usize>
    ensures none { IsNone result → AreCosts costs.now }
    ensures some { IfSome result (IsFirstFree costs.now) }
{
    for (token, cost) in costs.iter().enumerate() {
        if *cost == 0 {
            return Some(token);
        }
    }
    None
}

impl<StorageT: StorageIndex, LexemeT: Lexeme<StorageT>> Recoverer<StorageT, LexemeT> for CpctPlus {
    ghost allows = { λ settings at answer. AreListedWithin (token_by StorageT.index LexemeT.parts) settings at answer };

    fn recover(
        &self,
        alloc: Global,
        point: &RecoveryPoint<'_, StorageT, LexemeT>,
    ) -> Result<Vec<Vec<RepairStep<StorageT>>>, AllocError>
        ensures allowed { IfOk result (λ answer. AreListedWithin (token_by StorageT.index LexemeT.parts) self.now point.now
            (plain_sequences StorageT.index answer.items)) }
    {
        // Each token costs something, and some lexeme has to follow a repair.
        let (_lemma, _second_lemma) = (self.limit(), point.shifts());
        let limit = self.limit_at(alloc, point)?;
        let search = Search::new(point, self, limit);
        let Some(linked) = search.run(alloc)? else {
            return Ok(Vec::new(alloc));
        };
        first_repairs(alloc, &self.wanted(), &linked)
    }
}
