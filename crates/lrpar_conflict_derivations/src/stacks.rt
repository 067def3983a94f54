//! Stacks of states that share their lower parts, and the least number of tokens that complete a text from each.

use crate::context::{Context, next_by};
use crate::priority_queue::NONE;
use lrpar_grammar::span::{PIdx, RIdx, StIdx, StorageIndex, Symbol};
use lrpar_table_rows::table::Core;
use std::alloc::{AllocError, Global};

/// A level of a stack: the level below it, the state, the symbol by which it was reached, the least number of tokens that complete a text
/// from here, and the numbers of its row, of a level on top of it, and of another one on the same level below.
#[derive(Clone, Copy)]
pub(crate) struct Level<StorageT> {
    pub(crate) below: usize,
    pub(crate) state: StIdx<StorageT>,
    pub(crate) symbol: Symbol<StorageT>,
    pub(crate) rest: usize,
    row: usize,
    child: usize,
    sibling: usize,
}

/// The item that waits for a rule on top of a level: a production and its dot, and the least number of tokens that complete a text after
/// the rule.
#[derive(Clone, Copy)]
pub(crate) struct Waiting<StorageT> {
    pub(crate) prod: PIdx<StorageT>,
    pub(crate) dot: usize,
    pub(crate) rest: usize,
}

/// The levels, the first of which is the bottom of each stack, and rows with the item that waits for each rule.
pub(crate) struct Stacks<StorageT: StorageIndex> {
    levels: Vec<Level<StorageT>>,
    rows: Vec<Waiting<StorageT>>,
}

// A drop of its own, so that code that drops one elsewhere proves one call.
impl<StorageT: StorageIndex> Drop for Stacks<StorageT> {
    fn drop(self) {
        let Stacks { levels, rows } = self;
        drop(levels);
        drop(rows);
    }
}

impl<StorageT: StorageIndex> Stacks<StorageT> {
    /// The bottom alone.
    pub(crate) fn new(alloc: Global, context: &Context<'_, StorageT>) -> Result<Self, AllocError> {
        let bottom = Level {
            below: NONE,
            state: context.table.start_state(),
            symbol: Symbol::Rule(context.grm.start_rule_idx()),
            rest: NONE,
            row: NONE,
            child: NONE,
            sibling: NONE,
        };
        let mut levels = Vec::new(alloc);
        levels.push(bottom)?;
        Ok(Stacks {
            levels,
            rows: Vec::new(alloc),
        })
    }

    /// The level with this number, if there is one.
    pub(crate) fn get(&self, level: usize) -> Option<Level<StorageT>> {
        if level < self.levels.len() {
            Some(self.levels[level])
        } else {
            None
        }
    }

    /// The least number of tokens that complete a text from the level, or `NONE` if there is no such level.
    pub(crate) fn rest(&self, level: usize) -> usize {
        match self.get(level) {
            Some(own) => own.rest,
            None => NONE,
        }
    }

    /// How many levels there are.
    pub(crate) fn len(&self) -> usize {
        self.levels.len()
    }

    /// The level that is this number of levels below.
    pub(crate) fn below(&self, level: usize, count: usize) -> usize {
        let mut level = level;
        for _ in 0..count {
            match self.get(level) {
                Some(own) => level = own.below,
                None => return NONE,
            }
        }
        level
    }

    /// The state that the symbol leads to from the level, if it leads to one.
    pub(crate) fn next(
        &self,
        context: &Context<'_, StorageT>,
        level: usize,
        symbol: Symbol<StorageT>,
    ) -> Option<StIdx<StorageT>> {
        next_by(context.table, self.get(level)?.state, symbol)
    }

    /// The item that waits for the rule on top of the level, if there is one.
    pub(crate) fn waiting(&self, level: usize, rule: RIdx<StorageT>) -> Option<Waiting<StorageT>> {
        let place = self.get(level)?.row.saturating_add(usize::from(rule));
        if place < self.rows.len() && self.rows[place].rest != NONE {
            Some(self.rows[place])
        } else {
            None
        }
    }

    /// The least number of tokens that complete a text after the production, whose symbols before the core's dot are on top.
    fn after(&self, context: &Context<'_, StorageT>, level: usize, core: Core<StorageT>) -> usize {
        if context.is_start(core.0) {
            return 0;
        }
        match context.rule_of(core.0) {
            Some(rule) => match self.waiting(self.below(level, core.1), rule) {
                Some(waiting) => waiting.rest,
                None => NONE,
            },
            None => NONE,
        }
    }

    /// The least number of tokens that complete a text from the core on the level.
    pub(crate) fn rest_of(
        &self,
        context: &Context<'_, StorageT>,
        level: usize,
        core: Core<StorageT>,
    ) -> usize {
        let own = context.lengths.rest(usize::from(core.0), core.1);
        own.saturating_add(self.after(context, level, core))
    }

    /// The level with this state on top of another one.
    pub(crate) fn push(
        &mut self,
        context: &Context<'_, StorageT>,
        below: usize,
        symbol: Symbol<StorageT>,
        state: StIdx<StorageT>,
    ) -> Result<usize, AllocError> {
        let child = self.child_by(below, state);
        if child != NONE {
            return Ok(child);
        }
        self.fill(context, below)?;
        let level = self.levels.len();
        let sibling = self.first_child(below);
        self.levels.push(Level {
            below,
            state,
            symbol,
            rest: NONE,
            row: NONE,
            child: NONE,
            sibling,
        })?;
        if below < self.levels.len() {
            self.levels[below].child = level;
        }
        self.keep_rest(context, level, state);
        Ok(level)
    }

    /// The level after a reduction of the production, or `NONE` if it isn't possible.
    pub(crate) fn reduce(
        &mut self,
        context: &Context<'_, StorageT>,
        level: usize,
        prod: PIdx<StorageT>,
    ) -> Result<usize, AllocError> {
        let Some(rule) = context.rule_of(prod) else {
            return Ok(NONE);
        };
        let below = self.below(level, context.rest((prod, 0)).len());
        match self.next(context, below, Symbol::Rule(rule)) {
            Some(state) => self.push(context, below, Symbol::Rule(rule), state),
            None => Ok(NONE),
        }
    }

    // The first level on top of another one, if there is one.
    fn first_child(&self, below: usize) -> usize {
        match self.get(below) {
            Some(own) => own.child,
            None => NONE,
        }
    }

    // The level with this state on top of another one, if it is there.
    fn child_by(&self, below: usize, state: StIdx<StorageT>) -> usize {
        let mut number = self.first_child(below);
        for _ in 0..self.levels.len() {
            match self.get(number) {
                Some(child) if usize::from(child.state) == usize::from(state) => return number,
                Some(child) => number = child.sibling,
                None => return NONE,
            }
        }
        NONE
    }

    // Keeps the least number of tokens that complete a text from the level.
    fn keep_rest(&mut self, context: &Context<'_, StorageT>, level: usize, state: StIdx<StorageT>) {
        let mut rest = NONE;
        for core in context.begun_cores(state) {
            rest = rest.min(self.rest_of(context, level, *core));
        }
        if level < self.levels.len() {
            self.levels[level].rest = rest;
        }
    }

    // Makes the level's row, unless it has one.
    fn fill(&mut self, context: &Context<'_, StorageT>, level: usize) -> Result<(), AllocError> {
        let Some(own) = self.get(level) else {
            return Ok(());
        };
        if own.row != NONE {
            return Ok(());
        }
        let row = self.rows.len();
        let rules = context.table.rules_len();
        for _ in 0..rules {
            self.rows.push(Waiting {
                prod: context.grm.start_prod(),
                dot: 0,
                rest: NONE,
            })?;
        }
        if level < self.levels.len() {
            self.levels[level].row = row;
        }
        for _ in 0..rules {
            if !self.sweep(context, level, own.state) {
                return Ok(());
            }
        }
        Ok(())
    }

    // Lowers the least numbers of the level's row by each of the state's cores; whether one got lower.
    fn sweep(
        &mut self,
        context: &Context<'_, StorageT>,
        level: usize,
        state: StIdx<StorageT>,
    ) -> bool {
        let mut lower = false;
        for core in context.cores(state) {
            if self.lower(context, level, *core) {
                lower = true;
            }
        }
        lower
    }

    // Lowers the least number for the rule after the core's dot; whether it got lower.
    fn lower(
        &mut self,
        context: &Context<'_, StorageT>,
        level: usize,
        core: Core<StorageT>,
    ) -> bool {
        let Some(rule) = context.rule_after(core) else {
            return false;
        };
        let further = context
            .lengths
            .rest(usize::from(core.0), core.1.saturating_add(1));
        let rest = further.saturating_add(self.after(context, level, core));
        let Some(own) = self.get(level) else {
            return false;
        };
        let place = own.row.saturating_add(usize::from(rule));
        if place < self.rows.len() && rest < self.rows[place].rest {
            self.rows[place] = Waiting {
                prod: core.0,
                dot: core.1,
                rest,
            };
            return true;
        }
        false
    }
}
