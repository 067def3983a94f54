//! Short ways from the start of a table to its states.
ghost use Rattle.std.specs.Prelude.{◌<◌};
ghost use Rattle.lrpar_table_rows.specs.Table.{states_len};
ghost use Rattle.lrpar_table_sentences.specs.Choices.{AreShortest};

use lrpar_grammar::grammar::YaccGrammar;
use lrpar_grammar::span::{StIdx, StorageIndex, Symbol, TIdx};
use lrpar_table_check::check::ParserData;
use lrpar_table_rows::table::{Action, StateTable};
use lrpar_table_sentences::moves::Move;
use lrpar_table_sentences::shortest::Shortest;
use std::alloc::{AllocError, Global};

/// How a state is reached: from which one, by which symbol, and how many tokens that takes from the start.
#[derive(Clone, Copy)]
struct Way<StorageT> {
    len: usize,
    step: Option<(StIdx<StorageT>, Symbol<StorageT>)>,
}

/// For each state of a table a way to it with few tokens, if there is one.
pub(crate) struct Paths<StorageT: StorageIndex> {
    ways: Vec<Option<Way<StorageT>>>,
}

// Hand-written, so that code that drops one needs the proof of one call only.
impl<StorageT: StorageIndex> Drop for Paths<StorageT> {
    fn drop(self) {
        let Paths { ways } = self;
        drop(ways);
    }
}

impl<StorageT: StorageIndex> Paths<StorageT> {
    /// The ways to all states. A symbol counts as many tokens as its minimal sentence has.
    pub(crate) fn new(
        alloc: Global,
        stable: &StateTable<StorageT>,
        shortest: &Shortest<StorageT>,
    ) -> Result<Self, AllocError> {
        let states = stable.states_len();
        let mut ways = Vec::with_capacity(alloc, states)?;
        for _ in 0..states {
            ways.push(None)?;
        }
        let mut paths = Paths { ways };
        paths.set(
            usize::from(stable.start_state()),
            Way { len: 0, step: None },
        );
        // A way goes through each state at most once.
        for _ in 0..states {
            if !paths.shorten(stable, shortest) {
                break;
            }
        }
        Ok(paths)
    }

    /// How many tokens lead to the state, if any do.
    pub(crate) fn len_to(&self, state: StIdx<StorageT>) -> Option<usize> {
        Some(self.way_to(usize::from(state))?.len)
    }

    /// The symbols that lead to the state.
    pub(crate) fn symbols_to(
        &self,
        alloc: Global,
        state: StIdx<StorageT>,
    ) -> Result<Vec<Symbol<StorageT>>, AllocError> {
        let mut symbols = Vec::new(alloc);
        let mut above = state;
        for _ in 0..self.ways.len() {
            let Some(
                Way {
                    step: Some((below, symbol)),
                    len: _,
                },
            ) = self.way_to(usize::from(above))
            else {
                break;
            };
            symbols.push(symbol)?;
            above = below;
        }
        symbols.reverse();
        Ok(symbols)
    }

    // The way to the state with this number, if there is one.
    fn way_to(&self, state: usize) -> Option<Way<StorageT>> {
        match self.ways.get(state) {
            Some(way) => *way,
            None => None,
        }
    }

    // Sets the way to the state with this number.
    fn set(&mut self, state: usize, way: Way<StorageT>) {
        if let Some(slot) = self.ways.get_mut(state) {
            *slot = Some(way);
        }
    }

    // Makes ways shorter by one step from each state, and returns whether any got shorter.
    fn shorten(&mut self, stable: &StateTable<StorageT>, shortest: &Shortest<StorageT>) -> bool {
        let mut shorter = false;
        for number in 0..stable.states_len() {
            if let Some(way) = self.way_to(number) {
                let state = StIdx(StorageT::from_index(number).unwrap());
                if self.shorten_from(stable, shortest, state, way.len) {
                    shorter = true;
                }
            }
        }
        shorter
    }

    // Makes ways shorter by one step from the state, to which so many tokens lead.
    fn shorten_from(
        &mut self,
        stable: &StateTable<StorageT>,
        shortest: &Shortest<StorageT>,
        state: StIdx<StorageT>,
        len: usize,
    ) -> bool
        requires { StorageT.index state.0 < states_len stable.now }
    {
        let mut shorter = false;
        let (tokens, actions) = stable.actions_of(state);
        for (place, token) in tokens.iter().enumerate() {
            if let Action::Shift(next) = actions[place] {
                let step = (state, Symbol::Token(*token));
                if self.offer(next, step, len.saturating_add(1)) {
                    shorter = true;
                }
            }
        }
        let (rules, nexts) = stable.gotos_of(state);
        for (place, rule) in rules.iter().enumerate() {
            let symbol = Symbol::Rule(*rule);
            if let Some(more) = shortest.len_of(symbol) {
                if self.offer(nexts[place], (state, symbol), len.saturating_add(more)) {
                    shorter = true;
                }
            }
        }
        shorter
    }

    // Takes a way to a state if none is as short.
    fn offer(
        &mut self,
        state: StIdx<StorageT>,
        step: (StIdx<StorageT>, Symbol<StorageT>),
        len: usize,
    ) -> bool {
        let number = usize::from(state);
        if let Some(way) = self.way_to(number) {
            if way.len <= len {
                return false;
            }
        }
        self.set(
            number,
            Way {
                len,
                step: Some(step),
            },
        );
        true
    }
}

/// The tokens of minimal sentences of the symbols, if each has one.
pub(crate) fn tokens_of<StorageT: StorageIndex>(
    alloc: Global,
    data: &ParserData<StorageT>,
    shortest: &Shortest<StorageT>,
    symbols: &[Symbol<StorageT>],
) -> Result<Option<Vec<TIdx<StorageT>>>, AllocError>
    requires { AreShortest data.now.grammar usize.MAX shortest.now }
{
    let mut moves = Vec::new(alloc);
    for symbol in symbols {
        match shortest.len_of(*symbol) {
            Some(_) => shortest.push_moves(alloc, &mut moves, data.grm(), *symbol)?,
            None => return Ok(None),
        }
    }
    let mut tokens = Vec::new(alloc);
    for step in &moves {
        if let Move::Take(token) = *step {
            tokens.push(token)?;
        }
    }
    Ok(Some(tokens))
}
