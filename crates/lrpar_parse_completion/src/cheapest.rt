//! The cheapest completion of a stack, by the items that its states have.
ghost use Rattle.std.specs.Prelude.{◌≡◌, IfOk};
ghost use Rattle.lrpar_parse_completion.specs.FinderView.{HasShortest};

use crate::completer::push_rest;
use crate::finder::Finder;
use lrpar_grammar::grammar::YaccGrammar;
use lrpar_grammar::span::{PIdx, RIdx, StIdx, StorageIndex, Symbol, TIdx};
use lrpar_table_check::check::ParserData;
use lrpar_table_sentences::shortest::Shortest;
use std::alloc::{AllocError, Global};

/// A stack with more states has no cheapest completion here, since all its items would be kept.
const MOST_STATES: usize = 10_000;

/// The item that waits for a rule at a height of a stack: it has the rule after its dot. Of several it is one after which the fewest tokens
/// come.
#[derive(Clone, Copy)]
struct Waiting<StorageT: StorageIndex> {
    prod: PIdx<StorageT>,
    dot: usize,
    /// How many tokens come after the rule, up to the end.
    cost: usize,
    /// Whether no cheaper item can be found any more.
    is_settled: bool,
}

/// For each height of a stack, and for each rule, the item that waits for it.
#[derive(Drop)]
struct Heights<'a, 'f, StorageT: StorageIndex> {
    finder: &'f Finder<'a, StorageT>,
    heights: Vec<Vec<Option<Waiting<StorageT>>>>,
}

/// The completion of the stack, bottom first, that has the fewest tokens by the items of its states, whatever their lookaheads: a minimal
/// sentence of the symbols after the dot of a kernel item of the top state, then of those after its rule in an item that waits for that, and
/// so on, down to the start item. `None` if there is none, or if the stack has more than 10,000 states.
///
/// A resolved conflict may have cut off the way that it takes, so what it gives has to be tried. Takes time and memory linear in the states,
/// and for each state with gotos quadratic in the rules that these are for.
pub(crate) fn cheapest_completion<StorageT: StorageIndex>(
    alloc: Global,
    finder: &Finder<'_, StorageT>,
    stack: &[StIdx<StorageT>],
) -> Result<Option<Vec<TIdx<StorageT>>>, AllocError>
    requires shortest { HasShortest finder.now }
{
    if stack.len() > MOST_STATES {
        return Ok(None);
    }
    let heights = Heights::new(alloc, finder, stack)?;
    heights.completion(alloc, stack)
}

impl<'a, 'f, StorageT: StorageIndex> Heights<'a, 'f, StorageT> {
    // What waits for each rule at each height of the stack.
    fn new(
        alloc: Global,
        finder: &'f Finder<'a, StorageT>,
        stack: &[StIdx<StorageT>],
    ) -> Result<Self, AllocError>
        ensures { IfOk result (λ heights. heights.finder.now ≡ finder.now) }
    {
        let heights = Vec::new(alloc);
        let mut made = Heights { finder, heights };
        for state in stack {
            made.add(alloc, *state)?;
        }
        Ok(made)
    }

    // Adds what waits for each rule at the next height, where the stack has this state.
    fn add(&mut self, alloc: Global, state: StIdx<StorageT>) -> Result<(), AllocError>
        ensures { self.new.finder ≡ self.old.finder }
    {
        let grm = self.finder.checked.grm();
        let mut waiting = vec![in alloc; None; grm.rules_len()]?;
        self.add_own(state, &mut waiting);
        add_closure(grm, self.finder.shortest, &mut waiting);
        self.heights.push(waiting)?;
        Ok(())
    }

    // Adds the state's own items, those of its kernel and the start item, for the rules after their dots.
    fn add_own(&self, state: StIdx<StorageT>, waiting: &mut Vec<Option<Waiting<StorageT>>>) {
        let Finder { checked, shortest } = *self.finder;
        let grm = checked.grm();
        for (prod, dot) in own_cores(checked, state) {
            if let Some(after) = self.cost_after(self.heights.len(), *prod, *dot) {
                add_item(grm, shortest, waiting, *prod, *dot, after);
            }
        }
        if is_start(checked, state) {
            add_item(grm, shortest, waiting, grm.start_prod(), 0, 0);
        }
    }

    // How many tokens come after the production, `dot` symbols of which end at this height: none after the start production.
    fn cost_after(&self, height: usize, prod: PIdx<StorageT>, dot: usize) -> Option<usize> {
        if prod == self.finder.checked.grm().start_prod() {
            return Some(0);
        }
        let waiting = self.waiting_for(height.checked_sub(dot)?, prod)?;
        Some(waiting.cost)
    }

    // What waits at the height for the rule of the production.
    fn waiting_for(&self, height: usize, prod: PIdx<StorageT>) -> Option<Waiting<StorageT>> {
        let grm = self.finder.checked.grm();
        if usize::from(prod) >= grm.prods_len() {
            return None;
        }
        let rule = usize::from(grm.prod_to_rule(prod));
        *self.heights.get(height)?.get(rule)?
    }

    // The core of the top state's item with the fewest tokens to come.
    fn cheapest_core(&self, top: StIdx<StorageT>) -> Option<(PIdx<StorageT>, usize)> {
        let Finder { checked, shortest } = *self.finder;
        let grm = checked.grm();
        let height = self.heights.len().checked_sub(1)?;
        let mut cheapest = None;
        let mut least = usize::MAX;
        for (prod, dot) in own_cores(checked, top) {
            if let Some(after) = self.cost_after(height, *prod, *dot)
                && let Some(len) = shortest.len_of_all(symbols_from(grm, *prod, *dot))
                && after.saturating_add(len) < least
            {
                least = after.saturating_add(len);
                cheapest = Some((*prod, *dot));
            }
        }
        if cheapest.is_none() && is_start(checked, top) {
            return Some((grm.start_prod(), 0));
        }
        cheapest
    }

    // The completion of the stack by the cheapest items.
    fn completion(
        &self,
        alloc: Global,
        stack: &[StIdx<StorageT>],
    ) -> Result<Option<Vec<TIdx<StorageT>>>, AllocError>
        requires shortest { HasShortest self.now.finder.now }
    {
        let mut tokens = Vec::new(alloc);
        if self.push_completion(alloc, stack, &mut tokens)? {
            Ok(Some(tokens))
        } else {
            Ok(None)
        }
    }

    // Appends the tokens of the completion; returns whether there is one. Each item is further down than the last one, or waits for a rule of
    // its state that was settled earlier: so there are fewer items than states and rules for each.
    fn push_completion(
        &self,
        alloc: Global,
        stack: &[StIdx<StorageT>],
        tokens: &mut Vec<TIdx<StorageT>>,
    ) -> Result<bool, AllocError>
        requires shortest { HasShortest self.now.finder.now }
    {
        let Finder { checked, shortest } = *self.finder;
        let grm = checked.grm();
        let Some(top) = stack.last() else {
            return Ok(false);
        };
        let Some((mut prod, mut dot)) = self.cheapest_core(*top) else {
            return Ok(false);
        };
        let mut height = stack.len() - 1;
        if !push_rest(alloc, grm, shortest, tokens, symbols_from(grm, prod, dot))? {
            return Ok(false);
        }
        'items: for _ in 0..stack
            .len()
            .saturating_mul(grm.rules_len().saturating_add(1))
        {
            if prod == grm.start_prod() {
                return Ok(true);
            }
            if height < dot {
                return Ok(false);
            }
            height -= dot;
            let Some(waiting) = self.waiting_for(height, prod) else {
                return Ok(false);
            };
            prod = waiting.prod;
            dot = waiting.dot;
            if !push_rest(
                alloc,
                grm,
                shortest,
                tokens,
                symbols_from(grm, prod, dot.saturating_add(1)),
            )? {
                return Ok(false);
            }
        }
        Ok(false)
    }
}

// The cores of the state's kernel items, if it is a state of the table.
fn own_cores<StorageT: StorageIndex>(
    checked: &ParserData<StorageT>,
    state: StIdx<StorageT>,
) -> &[(PIdx<StorageT>, usize)] {
    if usize::from(state) < checked.sgraph().states_len() {
        checked.sgraph().begun_cores(state)
    } else {
        &[]
    }
}

// Whether the state is the start state.
fn is_start<StorageT: StorageIndex>(
    checked: &ParserData<StorageT>,
    state: StIdx<StorageT>,
) -> bool {
    state == checked.stable().start_state()
}

// The symbols of the production after its first `dot` ones.
fn symbols_from<StorageT: StorageIndex>(
    grm: &YaccGrammar<StorageT>,
    prod: PIdx<StorageT>,
    dot: usize,
) -> &[Symbol<StorageT>] {
    if usize::from(prod) < grm.prods_len() {
        grm.prod(prod).get(dot..).unwrap_or(&[])
    } else {
        &[]
    }
}

// Adds the item for the rule after its dot, if there is one and no cheaper item waits for it: `after` tokens come after the item's production.
fn add_item<StorageT: StorageIndex>(
    grm: &YaccGrammar<StorageT>,
    shortest: &Shortest<StorageT>,
    waiting: &mut Vec<Option<Waiting<StorageT>>>,
    prod: PIdx<StorageT>,
    dot: usize,
    after: usize,
) {
    let Some((Symbol::Rule(rule), rest)) = symbols_from(grm, prod, dot).split_first() else {
        return;
    };
    let Some(len) = shortest.len_of_all(rest) else {
        return;
    };
    let cost = after.saturating_add(len);
    let Some(place) = waiting.get_mut(usize::from(*rule)) else {
        return;
    };
    match place {
        Some(known) if known.cost <= cost => {}
        Some(_) | None => {
            *place = Some(Waiting {
                prod,
                dot,
                cost,
                is_settled: false,
            });
        }
    }
}

// Adds the items of the closure: those that begin a production of a rule for which an item waits. The cheapest rule is settled first.
fn add_closure<StorageT: StorageIndex>(
    grm: &YaccGrammar<StorageT>,
    shortest: &Shortest<StorageT>,
    waiting: &mut Vec<Option<Waiting<StorageT>>>,
) {
    'rules: for _ in 0..grm.rules_len() {
        let Some(rule) = settle_cheapest(waiting) else {
            return;
        };
        add_prods(grm, shortest, waiting, rule);
    }
}

// Adds the items that begin the productions of the rule.
fn add_prods<StorageT: StorageIndex>(
    grm: &YaccGrammar<StorageT>,
    shortest: &Shortest<StorageT>,
    waiting: &mut Vec<Option<Waiting<StorageT>>>,
    rule: usize,
) {
    if rule >= grm.rules_len() {
        return;
    }
    let Some(Some(own)) = waiting.get(rule) else {
        return;
    };
    let after = own.cost;
    for prod in grm.rule_to_prods(RIdx(StorageT::from_index(rule).unwrap())) {
        add_item(grm, shortest, waiting, *prod, 0, after);
    }
}

// The cheapest rule that isn't settled, if there is one. It is settled then.
fn settle_cheapest<StorageT: StorageIndex>(
    waiting: &mut Vec<Option<Waiting<StorageT>>>,
) -> Option<usize> {
    let mut cheapest = None;
    let mut least = usize::MAX;
    for (rule, own) in waiting.iter().enumerate() {
        if let Some(own) = own
            && !own.is_settled
            && (own.cost < least || cheapest.is_none())
        {
            least = own.cost;
            cheapest = Some(rule);
        }
    }
    let rule = cheapest?;
    if let Some(Some(own)) = waiting.get_mut(rule) {
        own.is_settled = true;
    }
    Some(rule)
}
