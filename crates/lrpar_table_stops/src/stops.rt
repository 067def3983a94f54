//! The states in which a run can stop at an error.
ghost use Rattle.std.specs.Prelude.{◌≡◌, IfOk};
ghost use Rattle.lrpar_table_sentences.specs.Reachable.{is_marked};
ghost use Rattle.lrpar_table_stops.specs.Met.{AreClosed, AreRight, MarksStops};
ghost use Rattle.lrpar_table_stops.specs.ErrorStates.{AreStopsOf, DecidesStop};

use crate::met::{add_all, empty_sets, stops_in};
use lrpar_grammar::grammar::YaccGrammar;
use lrpar_grammar::span::{StIdx, StorageIndex};
use lrpar_grammar::token_set::TokenSet;
use lrpar_table_check::check::ParserData;
use lrpar_table_rows::table::StateTable;
use std::alloc::{AllocError, Global};
use std::marker::Model;

/// For each state of a table whether a run can stop in it at an error.
#[derive(Drop)]
pub struct ErrorStates {
    marks: Vec<bool>,
}

impl Model for ErrorStates {
    ghost use Rattle.std.specs.Prelude.{Bool, List};

    ghost Value = { List Bool };

    ghost view = { λ states. states.marks.items };
}

impl ErrorStates {
    /// The states of the table in which a run can stop at an error: with such a state on top of its stack, the run looks at a token at which the
    /// state has no action. It looks at any token where it begins, where it has just shifted one, and where it stopped, after a repair; under
    /// a token that it looks at, a reduction takes it to other states. Each way down from a state counts, as if each could be on a stack.
    ///
    /// It goes over productions and states until nothing new is found: few times in practice, and each time it takes for each production the
    /// time of a walk by its symbols from each state that has a goto by its rule. Memory grows with states times tokens. `Err`: out of memory.
    pub fn new<StorageT: StorageIndex>(
        alloc: Global,
        data: &ParserData<StorageT>,
    ) -> Result<Self, AllocError>
        ensures { IfOk result (AreStopsOf data.now) }
    {
        let (grm, stable) = (data.grm(), data.stable());
        // The proof needs that there are no actions and no gotos past the table's states and tokens.
        let _lemma = (stable.states_len(), stable.tokens_len());
        let sets = closed_sets(alloc, grm, stable)?;
        let marks = marks_of(alloc, stable, &sets)?;
        Ok(ErrorStates { marks })
    }

    /// Whether a run can stop in the state.
    pub fn contains<StorageT: StorageIndex>(&self, state: StIdx<StorageT>) -> bool
        ensures marked { result ≡ is_marked self.now (StorageT.index state.0) }
        ensures exact { DecidesStop self.now (StorageT.index state.0) result }
    {
        match self.marks.get(usize::from(state)) {
            Some(mark) => *mark,
            None => false,
        }
    }
}

// For each state the tokens at which a run can look there.
fn closed_sets<StorageT: StorageIndex>(
    alloc: Global,
    grm: &YaccGrammar<StorageT>,
    stable: &StateTable<StorageT>,
) -> Result<Vec<TokenSet>, AllocError>
    ensures right { IfOk result (λ sets. AreRight grm.now stable.now sets.items) }
    ensures closed { IfOk result (λ sets. AreClosed grm.now stable.now sets.items) }
{
    let mut sets = empty_sets(alloc, stable)?;
    'passes: while add_all(grm, stable, &mut sets) {}
    Ok(sets)
}

// For each state whether a run can stop there, by the tokens at which it looks.
fn marks_of<StorageT: StorageIndex>(
    alloc: Global,
    stable: &StateTable<StorageT>,
    sets: &[TokenSet],
) -> Result<Vec<bool>, AllocError>
    ensures { IfOk result (λ marks. MarksStops stable.now sets.now marks.items) }
{
    let mut marks = Vec::with_capacity(alloc, stable.states_len())?;
    for number in 0..stable.states_len() {
        let state = StIdx(StorageT::from_index(number).unwrap());
        marks.push(stops_in(stable, sets, state))?;
    }
    Ok(marks)
}
