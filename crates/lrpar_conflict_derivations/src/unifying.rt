//! The search for a unifying counterexample, shortest texts first. Its result is validated by a replay.
ghost use Rattle.std.specs.Prelude.{IfOk};
ghost use Rattle.lrpar_conflict_derivations.specs.Search.{FindsFor, IfUnifying, IsNewSearch};
ghost use Rattle.lrpar_conflict_derivations.specs.Stored.{FindsExample, HasSentences, IsBuiltIn, IsConflictIn, IsFrontIn};

use crate::configurations::{Configurations, Conflict, Origin, Side};
use crate::context::Context;
use crate::example::Example;
use crate::examples::Front;
use crate::minimal_sentences::{push_sentence, push_sentences};
use crate::search::{Search, Turn};
use crate::stacks::Stacks;
use crate::validation::validated;
use lrpar_grammar::span::{PIdx, StorageIndex, Symbol};
use lrpar_table_rows::table::Core;
use lrpar_table_sentences::access_strings::Step;
use lrpar_table_sentences::moves::Move;
use std::alloc::{AllocError, Global};

/// The steps of an access path of the conflict's state, and the moves of two derivations after it.
pub(crate) struct Unifying<StorageT: StorageIndex> {
    pub(crate) steps: Vec<Step<StorageT>>,
    pub(crate) first: Vec<Move<StorageT>>,
    pub(crate) second: Vec<Move<StorageT>>,
}

// A drop of its own, so that code that drops one elsewhere proves one call.
impl<StorageT: StorageIndex> Drop for Unifying<StorageT> {
    fn drop(self) {
        let Unifying {
            steps,
            first,
            second,
        } = self;
        drop(steps);
        drop(first);
        drop(second);
    }
}

/// The first unifying counterexample of the conflict that is found within this number of turns, and the search as it ended. `front` is that
/// of a shortest access path.
pub(crate) fn find_unifying<StorageT: StorageIndex>(
    alloc: Global,
    context: &Context<'_, StorageT>,
    front: &Front<StorageT>,
    conflict: &Conflict<StorageT>,
    bound: usize,
) -> Result<(Option<Example<StorageT>>, Search<StorageT>), AllocError>
    requires built { IsBuiltIn context.now }
    requires shortest { HasSentences usize.MAX context.now }
    requires conflict { IsConflictIn StorageT.index context.now conflict.now }
    requires front { IsFrontIn StorageT.index context.now conflict.now front.now }
    ensures example { IfOk result (λ found. FindsExample StorageT.index context.now conflict.now bound found.0) }
    ensures searched { IfOk result (FindsFor StorageT.index conflict.now bound) }
{
    let mut search = Search::new(alloc, context, conflict)?;
    let found = run(alloc, context, front, conflict, bound, &mut search)?;
    Ok((found, search))
}

// Takes turns of a new search, until one finds a unifying counterexample.
fn run<StorageT: StorageIndex>(
    alloc: Global,
    context: &Context<'_, StorageT>,
    front: &Front<StorageT>,
    conflict: &Conflict<StorageT>,
    bound: usize,
    search: &mut Search<StorageT>,
) -> Result<Option<Example<StorageT>>, AllocError>
    requires built { IsBuiltIn context.now }
    requires shortest { HasSentences usize.MAX context.now }
    requires conflict { IsConflictIn StorageT.index context.now conflict.now }
    requires front { IsFrontIn StorageT.index context.now conflict.now front.now }
    requires new { IsNewSearch StorageT.index conflict.now.state search.old }
    ensures example { IfOk result (FindsExample StorageT.index context.now conflict.now bound) }
    ensures searched { IfOk result (λ found. FindsFor StorageT.index conflict.now bound (found, search.new)) }
{
    for _ in 0..bound {
        match search.turn(context, conflict)? {
            Turn::Found(number) => {
                let configurations = &search.configurations;
                if let Some(example) = example_at(
                    alloc,
                    context,
                    front,
                    conflict,
                    configurations,
                    number,
                    bound,
                )? {
                    return Ok(Some(example));
                }
            }
            Turn::Further => {}
            Turn::Over => return Ok(None),
        }
    }
    Ok(None)
}

// The counterexample of the configuration, if its derivations are valid.
fn example_at<StorageT: StorageIndex>(
    alloc: Global,
    context: &Context<'_, StorageT>,
    front: &Front<StorageT>,
    conflict: &Conflict<StorageT>,
    configurations: &Configurations<StorageT>,
    number: usize,
    bound: usize,
) -> Result<Option<Example<StorageT>>, AllocError>
    requires built { IsBuiltIn context.now }
    requires shortest { HasSentences usize.MAX context.now }
    requires conflict { IsConflictIn StorageT.index context.now conflict.now }
    requires front { IsFrontIn StorageT.index context.now conflict.now front.now }
    ensures example { IfOk result (FindsExample StorageT.index context.now conflict.now bound) }
    ensures unifying { IfOk result IfUnifying }
{
    let mut text = Unifying {
        steps: Vec::new(alloc),
        first: Vec::new(alloc),
        second: Vec::new(alloc),
    };
    push_all(alloc, context, conflict, configurations, number, &mut text)?;
    validated(alloc, context, front, conflict, &text, bound)
}

// Appends the access path and the derivations of the configuration.
fn push_all<StorageT: StorageIndex>(
    alloc: Global,
    context: &Context<'_, StorageT>,
    conflict: &Conflict<StorageT>,
    configurations: &Configurations<StorageT>,
    number: usize,
    text: &mut Unifying<StorageT>,
) -> Result<(), AllocError>
    requires { HasSentences usize.MAX context.now }
{
    push_reduce(&mut text.first, conflict.one)?;
    push_reduce(&mut text.second, conflict.other)?;
    let origins = origins_of(alloc, configurations, number)?;
    push_origins(alloc, context, &configurations.stacks, &origins, text)?;
    let top = configurations.top(number);
    finish(alloc, context, &configurations.stacks, top, text)
}

// How the configuration came about, from the access path on.
fn origins_of<StorageT: StorageIndex>(
    alloc: Global,
    configurations: &Configurations<StorageT>,
    number: usize,
) -> Result<Vec<Origin<StorageT>>, AllocError> {
    let mut origins = Vec::new(alloc);
    let mut number = number;
    for _ in 0..configurations.len() {
        if let Some(configuration) = configurations.get(number) {
            origins.push(configuration.origin)?;
            number = configuration.parent;
        }
    }
    origins.reverse();
    Ok(origins)
}

// Appends the move, if it is a reduction.
fn push_reduce<StorageT: StorageIndex>(
    out: &mut Vec<Move<StorageT>>,
    next: Move<StorageT>,
) -> Result<(), AllocError> {
    if let Move::Make(_) = next {
        out.push(next)?;
    }
    Ok(())
}

// Appends the moves by which a configuration came about.
fn push_origins<StorageT: StorageIndex>(
    alloc: Global,
    context: &Context<'_, StorageT>,
    stacks: &Stacks<StorageT>,
    origins: &[Origin<StorageT>],
    text: &mut Unifying<StorageT>,
) -> Result<(), AllocError>
    requires { HasSentences usize.MAX context.now }
{
    for origin in origins {
        match *origin {
            Origin::Start(level) => push_steps(stacks, level, &mut text.steps)?,
            Origin::Reduced(Side::First, prod) => text.first.push(Move::Make(prod))?,
            Origin::Reduced(Side::Second, prod) => text.second.push(Move::Make(prod))?,
            Origin::Both(symbol) => push_symbol(alloc, context, symbol, text)?,
        }
    }
    Ok(())
}

// Appends the steps from the bottom to the level.
fn push_steps<StorageT: StorageIndex>(
    stacks: &Stacks<StorageT>,
    level: usize,
    steps: &mut Vec<Step<StorageT>>,
) -> Result<(), AllocError> {
    let mut level = level;
    for _ in 0..stacks.len() {
        if let Some((step, below)) = step_to(stacks, level) {
            steps.push(step)?;
            level = below;
        }
    }
    steps.reverse();
    Ok(())
}

// The step to the level, and the level that it goes from, if there is one.
fn step_to<StorageT: StorageIndex>(
    stacks: &Stacks<StorageT>,
    level: usize,
) -> Option<(Step<StorageT>, usize)> {
    let own = stacks.get(level)?;
    let below = stacks.get(own.below)?;
    let step = Step {
        from: below.state,
        symbol: own.symbol,
    };
    Some((step, own.below))
}

// Appends a minimal sentence of the symbol to both derivations.
fn push_symbol<StorageT: StorageIndex>(
    alloc: Global,
    context: &Context<'_, StorageT>,
    symbol: Symbol<StorageT>,
    text: &mut Unifying<StorageT>,
) -> Result<(), AllocError>
    requires { HasSentences usize.MAX context.now }
{
    push_sentence(
        alloc,
        context.grm,
        context.shortest,
        symbol,
        &mut text.first,
    )?;
    push_sentence(
        alloc,
        context.grm,
        context.shortest,
        symbol,
        &mut text.second,
    )
}

// Appends minimal sentences of the symbols to both derivations.
fn push_both<StorageT: StorageIndex>(
    alloc: Global,
    context: &Context<'_, StorageT>,
    symbols: &[Symbol<StorageT>],
    text: &mut Unifying<StorageT>,
) -> Result<(), AllocError>
    requires { HasSentences usize.MAX context.now }
{
    let _first = push_sentences(
        alloc,
        context.grm,
        context.shortest,
        symbols,
        &mut text.first,
    )?;
    let _second = push_sentences(
        alloc,
        context.grm,
        context.shortest,
        symbols,
        &mut text.second,
    )?;
    Ok(())
}

// Appends moves that complete both derivations from their common level, by the shortest text.
fn finish<StorageT: StorageIndex>(
    alloc: Global,
    context: &Context<'_, StorageT>,
    stacks: &Stacks<StorageT>,
    level: usize,
    text: &mut Unifying<StorageT>,
) -> Result<(), AllocError>
    requires { HasSentences usize.MAX context.now }
{
    let mut next = least_core(context, stacks, level);
    for _ in 0..stacks.len().saturating_mul(context.table.rules_len()) {
        let Some((level, core)) = next else {
            return Ok(());
        };
        push_rest(alloc, context, core, text)?;
        next = waiting_core(context, stacks, level, core.0);
    }
    Ok(())
}

// The core of the level's state from which the fewest tokens complete a text, if there is one, and the level before its symbols.
fn least_core<StorageT: StorageIndex>(
    context: &Context<'_, StorageT>,
    stacks: &Stacks<StorageT>,
    level: usize,
) -> Option<(usize, Core<StorageT>)> {
    let top = stacks.get(level)?;
    for core in context.begun_cores(top.state) {
        if stacks.rest_of(context, level, *core) == top.rest {
            return Some((stacks.below(level, core.1), *core));
        }
    }
    None
}

// The core that waits on top of the level for the production's rule, with its dot after that, if there is one, and the level before its
// symbols.
fn waiting_core<StorageT: StorageIndex>(
    context: &Context<'_, StorageT>,
    stacks: &Stacks<StorageT>,
    level: usize,
    prod: PIdx<StorageT>,
) -> Option<(usize, Core<StorageT>)> {
    if context.is_start(prod) {
        return None;
    }
    let waiting = stacks.waiting(level, context.rule_of(prod)?)?;
    let dot = waiting.dot.saturating_add(1);
    Some((stacks.below(level, waiting.dot), (waiting.prod, dot)))
}

// Appends minimal sentences of the symbols after the core's dot to both derivations, and the reduction of its production, unless that is the
// start production.
fn push_rest<StorageT: StorageIndex>(
    alloc: Global,
    context: &Context<'_, StorageT>,
    core: Core<StorageT>,
    text: &mut Unifying<StorageT>,
) -> Result<(), AllocError>
    requires { HasSentences usize.MAX context.now }
{
    push_both(alloc, context, context.rest(core), text)?;
    if context.is_start(core.0) {
        return Ok(());
    }
    text.first.push(Move::Make(core.0))?;
    text.second.push(Move::Make(core.0))?;
    Ok(())
}
