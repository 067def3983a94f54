//! Short sentences that end in an error.
ghost use Rattle.lrpar_table_check.specs.CheckedStacks.{FormStack};

use crate::groups::have_same_kernel;
use crate::paths::{Paths, tokens_of};
use lrpar_grammar::grammar::YaccGrammar;
use lrpar_grammar::span::{RIdx, StIdx, StorageIndex, Symbol, TIdx};
use lrpar_table_check::check::ParserData;
use lrpar_table_sentences::shortest::Shortest;
use lrpar_table_stops::{stack_after, stop_at};
use std::alloc::{AllocError, Global};

/// The word before symbols that lead to a state.
pub(crate) const AFTER: &str = "%after";

/// How a run comes to stop in a state of a group.
pub struct ErrorExample<StorageT: StorageIndex> {
    /// The first state of the group.
    pub state: StIdx<StorageT>,
    /// Tokens over which a run from the start stops in a state of the group: at the last one, and not before. `None` if none were found;
    /// perhaps only a run after a repair stops there.
    pub sentence: Option<Vec<TIdx<StorageT>>>,
    /// Symbols that lead from the start to the first state of the group. None, if an unproductive rule is on each way there.
    pub symbols: Vec<Symbol<StorageT>>,
    /// The tokens that may come in place of the last one of the sentence, ascending.
    pub expected: Vec<TIdx<StorageT>>,
    /// The tokens at which other runs go on in states of the group, ascending.
    pub elsewhere: Vec<TIdx<StorageT>>,
}

// Hand-written, so that code that drops one needs the proof of one call only.
impl<StorageT: StorageIndex> Drop for ErrorExample<StorageT> {
    fn drop(self) {
        let ErrorExample {
            state: _,
            sentence,
            symbols,
            expected,
            elsewhere,
        } = self;
        drop(sentence);
        drop(symbols);
        drop(expected);
        drop(elsewhere);
    }
}

/// For each of these states, the first ones of their groups, how a run comes to stop in that group.
///
/// The sentences are looked for over the shortest ways to each state: after the tokens of such a way, each token is tried that the state
/// may not be able to take, the end of the text first. The shortest one that is found is given. Takes for each state the time of a run
/// over the tokens of its way, and of a reduction for each token. `Err`: out of memory.
pub fn error_examples<StorageT: StorageIndex>(
    alloc: Global,
    data: &ParserData<StorageT>,
    groups: &[StIdx<StorageT>],
) -> Result<Vec<ErrorExample<StorageT>>, AllocError> {
    let shortest = Shortest::new(alloc, data.grm())?;
    let paths = Paths::new(alloc, data.stable(), &shortest)?;
    let mut examples = Vec::new(alloc);
    for state in groups {
        examples.push(ErrorExample {
            state: *state,
            sentence: None,
            symbols: paths.symbols_to(alloc, *state)?,
            expected: Vec::new(alloc),
            elsewhere: Vec::new(alloc),
        })?;
    }
    for state in states_by_length(alloc, data, &paths)? {
        let symbols = paths.symbols_to(alloc, state)?;
        if let Some(tokens) = tokens_of(alloc, data, &shortest, &symbols)? {
            try_tokens(alloc, data, &mut examples, &tokens)?;
        }
    }
    for place in 0..examples.len() {
        if let Some(example) = examples.get_mut(place) {
            example.elsewhere = tokens_elsewhere(alloc, data, example.state, &example.expected)?;
        }
    }
    Ok(examples)
}

// The states to which a way leads, those with fewer tokens first.
fn states_by_length<StorageT: StorageIndex>(
    alloc: Global,
    data: &ParserData<StorageT>,
    paths: &Paths<StorageT>,
) -> Result<Vec<StIdx<StorageT>>, AllocError> {
    let mut found = Vec::new(alloc);
    for number in 0..data.stable().states_len() {
        let state = StIdx(StorageT::from_index(number).unwrap());
        if let Some(len) = paths.len_to(state) {
            found.push((len, number, state))?;
        }
    }
    found.sort_by_key(|entry| (entry.0, entry.1))?;
    let mut states = Vec::with_capacity(alloc, found.len())?;
    for entry in &found {
        states.push(entry.2)?;
    }
    Ok(states)
}

// Tries each token after these, the end token first, and keeps the sentences that stop in groups without one.
fn try_tokens<StorageT: StorageIndex>(
    alloc: Global,
    data: &ParserData<StorageT>,
    examples: &mut Vec<ErrorExample<StorageT>>,
    tokens: &[TIdx<StorageT>],
) -> Result<(), AllocError> {
    let Ok(stack) = stack_after(alloc, data, tokens)? else {
        return Ok(());
    };
    let end = usize::from(data.grm().eof_token_idx());
    for number in 0..data.grm().tokens_len() {
        // The end token is the last one.
        let token = TIdx(StorageT::from_index(end.saturating_sub(number)).unwrap());
        if let Some(state) = stop_at(alloc, data, &stack, token)? {
            keep_sentence(alloc, data, examples, &stack, tokens, token, state)?;
        }
    }
    Ok(())
}

// Keeps the sentence for the group of the state in which it stops, if that has none.
fn keep_sentence<StorageT: StorageIndex>(
    alloc: Global,
    data: &ParserData<StorageT>,
    examples: &mut Vec<ErrorExample<StorageT>>,
    stack: &[StIdx<StorageT>],
    tokens: &[TIdx<StorageT>],
    token: TIdx<StorageT>,
    state: StIdx<StorageT>,
) -> Result<(), AllocError>
    requires { FormStack StorageT.index data.now stack.now }
{
    for place in 0..examples.len() {
        if examples[place].sentence.is_none()
            && have_same_kernel(data.sgraph(), examples[place].state, state)
        {
            let mut sentence = Vec::from_slice(alloc, tokens)?;
            sentence.push(token)?;
            examples[place].sentence = Some(sentence);
            examples[place].expected = data.expected(alloc, stack)?;
        }
    }
    Ok(())
}

// The tokens at which the states of a group have actions, but for these.
fn tokens_elsewhere<StorageT: StorageIndex>(
    alloc: Global,
    data: &ParserData<StorageT>,
    first: StIdx<StorageT>,
    expected: &[TIdx<StorageT>],
) -> Result<Vec<TIdx<StorageT>>, AllocError> {
    let mut tokens = Vec::new(alloc);
    for number in 0..data.stable().states_len() {
        let state = StIdx(StorageT::from_index(number).unwrap());
        if have_same_kernel(data.sgraph(), first, state) {
            let (own, _) = data.stable().actions_of(state);
            for token in own {
                if !expected.contains(token) && !tokens.contains(token) {
                    tokens.push(*token)?;
                }
            }
        }
    }
    tokens.sort_by_key(|token| usize::from(*token))?;
    Ok(tokens)
}

/// Adds the line of a catalogue that shows the error: its tokens in quotes, the end of the input as `$`; or, if no sentence shows it, symbols
/// that lead to its state, after `%after`. Takes time linear in the line. After an `Err`, which is out of memory, a part may have been added.
pub fn push_example<StorageT: StorageIndex>(
    out: &mut String,
    grm: &YaccGrammar<StorageT>,
    example: &ErrorExample<StorageT>,
) -> Result<(), AllocError> {
    match &example.sentence {
        Some(tokens) => {
            for (place, token) in tokens.iter().enumerate() {
                if place > 0 {
                    out.push(' ')?;
                }
                push_token(out, grm, *token)?;
            }
        }
        None => {
            out.push_str(AFTER)?;
            for symbol in &example.symbols {
                out.push(' ')?;
                match *symbol {
                    Symbol::Token(token) => push_token(out, grm, token)?,
                    Symbol::Rule(rule) => out.push_str(rule_name(grm, rule))?,
                }
            }
        }
    }
    Ok(())
}

// Adds a token: its name in quotes, or `$`.
fn push_token<StorageT: StorageIndex>(
    out: &mut String,
    grm: &YaccGrammar<StorageT>,
    token: TIdx<StorageT>,
) -> Result<(), AllocError> {
    if usize::from(token) >= grm.tokens_len() {
        return out.push('$');
    }
    let Some(name) = grm.token_name(token) else {
        return out.push('$');
    };
    let quote = if name.contains('\'') { '"' } else { '\'' };
    out.push(quote)?;
    out.push_str(name)?;
    out.push(quote)
}

// The name of a rule.
fn rule_name<StorageT: StorageIndex>(grm: &YaccGrammar<StorageT>, rule: RIdx<StorageT>) -> &str {
    if usize::from(rule) < grm.rules_len() {
        grm.rule_name_str(rule)
    } else {
        ""
    }
}
