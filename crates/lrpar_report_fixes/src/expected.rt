//! What may come after the lexemes before an error.
ghost use Rattle.lrpar_table_check.specs.CheckedStacks.{FormStack};

use crate::wording::Wording;
use lrpar_grammar::span::{RIdx, StIdx, StorageIndex, TIdx};
use lrpar_names::{Choices, candidate_rules};
use lrpar_table::check::ParserData;
use lrpar_table_stacks::overlay::Overlay;
use lrpar_table_stops::stack_after;
use std::alloc::{AllocError, Global};

/// Few names for what may come after these tokens; none, if they can't be fed.
pub(crate) fn choices_after<StorageT: StorageIndex>(
    alloc: Global,
    data: &ParserData<StorageT>,
    wording: &Wording<StorageT>,
    before: &[TIdx<StorageT>],
) -> Result<Choices<StorageT>, AllocError> {
    let Ok(stack) = stack_after(alloc, data, before)? else {
        return Ok(no_choices(alloc));
    };
    let expected = data.expected(alloc, &stack)?;
    let rules = rules_at(alloc, data, &stack, &expected)?;
    let mut named = Vec::with_capacity(alloc, expected.len())?;
    for token in &expected {
        if !wording.is_hidden(*token) {
            named.push(*token)?;
        }
    }
    wording.choices(alloc, &rules, &named)
}

/// No names.
pub(crate) fn no_choices<StorageT: StorageIndex>(alloc: Global) -> Choices<StorageT> {
    Choices {
        rules: Vec::new(alloc),
        tokens: Vec::new(alloc),
    }
}

// The rules with which items go on where one of the tokens comes at the stack: in the state that takes it, after all reductions.
fn rules_at<StorageT: StorageIndex>(
    alloc: Global,
    data: &ParserData<StorageT>,
    stack: &[StIdx<StorageT>],
    tokens: &[TIdx<StorageT>],
) -> Result<Vec<RIdx<StorageT>>, AllocError>
    requires { FormStack StorageT.index data.now stack.now }
{
    let mut states = Vec::new(alloc);
    let mut rules = Vec::new(alloc);
    for token in tokens {
        let state = state_at(alloc, data, stack, *token)?;
        if !states.contains(&state) {
            states.push(state)?;
            add_rules(alloc, data, state, &mut rules)?;
        }
    }
    Ok(rules)
}

// The state on top after all reductions of the stack at a token.
fn state_at<StorageT: StorageIndex>(
    alloc: Global,
    data: &ParserData<StorageT>,
    stack: &[StIdx<StorageT>],
    token: TIdx<StorageT>,
) -> Result<StIdx<StorageT>, AllocError>
    requires { FormStack StorageT.index data.now stack.now }
{
    let mut overlay = Overlay::new(alloc, stack);
    if usize::from(token) < data.stable().tokens_len() {
        let _reductions = data.settle_over(&mut overlay, token)?;
    }
    Ok(overlay.top())
}

// Adds the rules with which an item of a state goes on, but for those that are there.
fn add_rules<StorageT: StorageIndex>(
    alloc: Global,
    data: &ParserData<StorageT>,
    state: StIdx<StorageT>,
    rules: &mut Vec<RIdx<StorageT>>,
) -> Result<(), AllocError> {
    for rule in candidate_rules(alloc, data.grm(), data.sgraph(), state)? {
        if !rules.contains(&rule) {
            rules.push(rule)?;
        }
    }
    Ok(())
}
