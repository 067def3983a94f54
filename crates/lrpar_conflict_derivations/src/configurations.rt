//! Configurations of two derivations with a common text, and what comes of them by one move.

use crate::context::Context;
use crate::priority_queue::{NONE, head};
use crate::stacks::Stacks;
use lrpar_grammar::span::{PIdx, StIdx, StorageIndex, Symbol, TIdx};
use lrpar_table_rows::table::{Action, Core};
use lrpar_table_sentences::moves::Move;
use std::alloc::{AllocError, Global};

/// A conflict: the state, the token, and the moves by which the two derivations go on.
#[derive(Clone, Copy)]
pub(crate) struct Conflict<StorageT> {
    pub(crate) state: StIdx<StorageT>,
    pub(crate) token: TIdx<StorageT>,
    pub(crate) one: Move<StorageT>,
    pub(crate) other: Move<StorageT>,
}

/// One of the two derivations.
#[derive(Clone, Copy)]
pub(crate) enum Side {
    First,
    Second,
}

/// How a configuration came about: it starts at the end of the access path to this level; one derivation reduced, or the other; or both got
/// the same symbol.
#[derive(Clone, Copy)]
pub(crate) enum Origin<StorageT> {
    Start(usize),
    Reduced(Side, PIdx<StorageT>),
    Both(Symbol<StorageT>),
}

/// Two derivations with the same text so far: the levels at the tops of their stacks; whether the second has reduced since both got a
/// symbol, after which the first may not; whether the conflict's token was shifted; how many tokens there are, and how many reductions of
/// empty productions; the configuration that this one came from, and how; and the next one with the same level of the first stack.
#[derive(Clone, Copy)]
pub(crate) struct Configuration<StorageT> {
    one: usize,
    other: usize,
    second_reduced: bool,
    past_conflict: bool,
    len: usize,
    empty: usize,
    pub(crate) parent: usize,
    pub(crate) origin: Origin<StorageT>,
    same: usize,
}

impl<StorageT: StorageIndex> Configuration<StorageT> {
    // The level at the top of the side's stack.
    fn level_of(&self, side: Side) -> usize {
        match side {
            Side::First => self.one,
            Side::Second => self.other,
        }
    }

    // The configuration after a reduction of the production, which leaves this level at the top of the side's stack.
    fn with_reduction(&self, side: Side, level: usize, prod: PIdx<StorageT>) -> Self {
        let origin = Origin::Reduced(side, prod);
        match side {
            Side::First => Configuration {
                one: level,
                origin,
                ..*self
            },
            Side::Second => Configuration {
                other: level,
                second_reduced: true,
                origin,
                ..*self
            },
        }
    }
}

/// The configurations that the search came to, in order, and the stacks of their derivations: for each level the last configuration with it
/// at the top of the first stack, how many access paths were begun, and how many tokens follow the first one at least.
pub(crate) struct Configurations<StorageT: StorageIndex> {
    pub(crate) stacks: Stacks<StorageT>,
    found: Vec<Configuration<StorageT>>,
    seen: Vec<usize>,
    begun: usize,
    pub(crate) ahead: usize,
}

// A drop of its own, so that code that drops one elsewhere proves one call.
impl<StorageT: StorageIndex> Drop for Configurations<StorageT> {
    fn drop(self) {
        let Configurations {
            stacks,
            found,
            seen,
            begun: _,
            ahead: _,
        } = self;
        drop(stacks);
        drop(found);
        drop(seen);
    }
}

impl<StorageT: StorageIndex> Configurations<StorageT> {
    /// None, and the bottom of all stacks.
    pub(crate) fn new(alloc: Global, context: &Context<'_, StorageT>) -> Result<Self, AllocError> {
        Ok(Configurations {
            stacks: Stacks::new(alloc, context)?,
            found: Vec::new(alloc),
            seen: Vec::new(alloc),
            begun: 0,
            ahead: 0,
        })
    }

    /// How many there are.
    pub(crate) fn len(&self) -> usize {
        self.found.len()
    }

    /// The configuration with this number, if there is one.
    pub(crate) fn get(&self, number: usize) -> Option<Configuration<StorageT>> {
        if number < self.found.len() {
            Some(self.found[number])
        } else {
            None
        }
    }

    /// The level at the top of the first derivation's stack.
    pub(crate) fn top(&self, number: usize) -> usize {
        match self.get(number) {
            Some(configuration) => configuration.one,
            None => NONE,
        }
    }

    /// The least length of a text that the configuration can become. A reduction of an empty production counts as a token.
    pub(crate) fn key(&self, number: usize) -> usize {
        match self.get(number) {
            Some(configuration) => configuration
                .len
                .saturating_add(configuration.empty)
                .saturating_add(self.rest_of(&configuration)),
            None => NONE,
        }
    }

    /// Starts a configuration on the access path to the level.
    pub(crate) fn start(
        &mut self,
        context: &Context<'_, StorageT>,
        conflict: &Conflict<StorageT>,
        level: usize,
        len: usize,
    ) -> Result<(), AllocError> {
        self.begun = self.begun.saturating_add(1);
        let one = self.apply_move(context, level, conflict.one)?;
        let other = self.apply_move(context, level, conflict.other)?;
        self.add(Configuration {
            one,
            other,
            second_reduced: false,
            past_conflict: false,
            len,
            empty: 0,
            parent: NONE,
            origin: Origin::Start(level),
            same: NONE,
        })
    }

    /// Adds what comes of the configuration by one move, unless it is a unifying counterexample; whether it is one.
    pub(crate) fn extend(
        &mut self,
        context: &Context<'_, StorageT>,
        conflict: &Conflict<StorageT>,
        number: usize,
    ) -> Result<bool, AllocError> {
        let Some(configuration) = self.get(number) else {
            return Ok(false);
        };
        if configuration.one == configuration.other
            && (configuration.past_conflict || self.is_end(context, conflict, &configuration))
        {
            return Ok(true);
        }
        if !configuration.second_reduced {
            self.reduce(context, conflict, number, &configuration, Side::First)?;
        }
        if configuration.past_conflict || matches!(conflict.other, Move::Make(_)) {
            self.reduce(context, conflict, number, &configuration, Side::Second)?;
        }
        self.shift_tokens(context, conflict, number, &configuration)?;
        if configuration.past_conflict {
            self.shift_rules(context, number, &configuration)?;
        }
        Ok(false)
    }

    // The least number of tokens that complete both derivations, or `NONE` if one can't be completed.
    fn rest_of(&self, configuration: &Configuration<StorageT>) -> usize {
        let one = self.stacks.rest(configuration.one);
        one.max(self.stacks.rest(configuration.other))
    }

    // The level after a reduction; a shift comes later, and leaves the level.
    fn apply_move(
        &mut self,
        context: &Context<'_, StorageT>,
        level: usize,
        next: Move<StorageT>,
    ) -> Result<usize, AllocError> {
        match next {
            Move::Make(prod) => self.stacks.reduce(context, level, prod),
            Move::Take(_) => Ok(level),
        }
    }

    // Adds a configuration, if both derivations can be completed and it is new.
    fn add(&mut self, configuration: Configuration<StorageT>) -> Result<(), AllocError> {
        let rest = self.rest_of(&configuration);
        if rest == NONE || self.is_there(&configuration) {
            return Ok(());
        }
        self.note_ahead(&configuration, rest);
        self.keep(configuration)
    }

    // Keeps how many tokens follow the first access path at least, also once the conflict's token was shifted on it.
    fn note_ahead(&mut self, configuration: &Configuration<StorageT>, rest: usize) {
        if self.begun > 1 {
            return;
        }
        if !configuration.past_conflict {
            self.ahead = rest;
            return;
        }
        if let Some(parent) = self.get(configuration.parent) {
            if !parent.past_conflict {
                self.ahead = rest.saturating_add(1);
            }
        }
    }

    // Whether there is such a configuration.
    fn is_there(&self, configuration: &Configuration<StorageT>) -> bool {
        let mut number = head(&self.seen, configuration.one);
        for _ in 0..self.found.len() {
            match self.get(number) {
                Some(own) if is_same(&own, configuration) => return true,
                Some(own) => number = own.same,
                None => return false,
            }
        }
        false
    }

    // Keeps the configuration.
    fn keep(&mut self, configuration: Configuration<StorageT>) -> Result<(), AllocError> {
        for _ in self.seen.len()..self.stacks.len() {
            self.seen.push(NONE)?;
        }
        let same = head(&self.seen, configuration.one);
        if configuration.one < self.seen.len() {
            self.seen[configuration.one] = self.found.len();
        }
        self.found.push(Configuration {
            same,
            ..configuration
        })?;
        Ok(())
    }

    // Whether the conflict's token is the end token, and the first derivation accepts.
    fn is_end(
        &self,
        context: &Context<'_, StorageT>,
        conflict: &Conflict<StorageT>,
        configuration: &Configuration<StorageT>,
    ) -> bool {
        match self.stacks.get(configuration.one) {
            Some(top) => matches!(context.action(top.state, conflict.token), Action::Accept),
            None => false,
        }
    }

    // Adds the configurations in which the derivation of this side makes one more reduction.
    fn reduce(
        &mut self,
        context: &Context<'_, StorageT>,
        conflict: &Conflict<StorageT>,
        parent: usize,
        configuration: &Configuration<StorageT>,
        side: Side,
    ) -> Result<(), AllocError> {
        let Some(top) = self.stacks.get(configuration.level_of(side)) else {
            return Ok(());
        };
        for core in context.cores(top.state) {
            if can_reduce(context, conflict, configuration, top.state, *core) {
                self.add_reduction(context, parent, configuration, side, *core)?;
            }
        }
        Ok(())
    }

    // Adds the configuration in which the derivation of this side reduces the core's production.
    fn add_reduction(
        &mut self,
        context: &Context<'_, StorageT>,
        parent: usize,
        configuration: &Configuration<StorageT>,
        side: Side,
        core: Core<StorageT>,
    ) -> Result<(), AllocError> {
        let level = configuration.level_of(side);
        let reduced = self.stacks.reduce(context, level, core.0)?;
        self.add(Configuration {
            empty: configuration.empty.saturating_add(empty_of(core.1)),
            parent,
            ..configuration.with_reduction(side, reduced, core.0)
        })
    }

    // Adds the configurations that come by shifting a token: the conflict's one, if it wasn't shifted yet.
    fn shift_tokens(
        &mut self,
        context: &Context<'_, StorageT>,
        conflict: &Conflict<StorageT>,
        parent: usize,
        configuration: &Configuration<StorageT>,
    ) -> Result<(), AllocError> {
        if !configuration.past_conflict {
            let symbol = Symbol::Token(conflict.token);
            return self.shift(context, parent, configuration, symbol);
        }
        let Some(top) = self.stacks.get(configuration.one) else {
            return Ok(());
        };
        for token in context.tokens(top.state) {
            self.shift(context, parent, configuration, Symbol::Token(*token))?;
        }
        Ok(())
    }

    // Adds the configurations that come by a rule that has tokens, by its minimal sentence.
    fn shift_rules(
        &mut self,
        context: &Context<'_, StorageT>,
        parent: usize,
        configuration: &Configuration<StorageT>,
    ) -> Result<(), AllocError> {
        let Some(top) = self.stacks.get(configuration.one) else {
            return Ok(());
        };
        for rule in context.rules(top.state) {
            let symbol = Symbol::Rule(*rule);
            if context.len_of(symbol) > 0 {
                self.shift(context, parent, configuration, symbol)?;
            }
        }
        Ok(())
    }

    // Adds the configuration that comes by this symbol, if both derivations can get it.
    fn shift(
        &mut self,
        context: &Context<'_, StorageT>,
        parent: usize,
        configuration: &Configuration<StorageT>,
        symbol: Symbol<StorageT>,
    ) -> Result<(), AllocError> {
        let one = self.stacks.next(context, configuration.one, symbol);
        let other = self.stacks.next(context, configuration.other, symbol);
        let (Some(one), Some(other)) = (one, other) else {
            return Ok(());
        };
        let one = self.stacks.push(context, configuration.one, symbol, one)?;
        let other = self
            .stacks
            .push(context, configuration.other, symbol, other)?;
        self.add(Configuration {
            one,
            other,
            second_reduced: false,
            past_conflict: true,
            len: configuration.len.saturating_add(context.len_of(symbol)),
            empty: configuration.empty,
            parent,
            origin: Origin::Both(symbol),
            same: NONE,
        })
    }
}

// Whether both have the same levels, and the same moves are open to them.
fn is_same<StorageT>(one: &Configuration<StorageT>, other: &Configuration<StorageT>) -> bool {
    one.one == other.one
        && one.other == other.other
        && one.past_conflict == other.past_conflict
        && one.second_reduced == other.second_reduced
}

// How many reductions of empty productions a reduction of this number of symbols is.
fn empty_of(len: usize) -> usize {
    if len == 0 { 1 } else { 0 }
}

// Whether the core's production can be reduced in the state: until the conflict's token is shifted, with it as lookahead.
fn can_reduce<StorageT: StorageIndex>(
    context: &Context<'_, StorageT>,
    conflict: &Conflict<StorageT>,
    configuration: &Configuration<StorageT>,
    state: StIdx<StorageT>,
    core: Core<StorageT>,
) -> bool {
    context.is_complete(core)
        && (configuration.past_conflict
            || context
                .graph
                .has_item(state, core.0, core.1, conflict.token))
}
