//! Stacks: what tokens do at a list of states, and over one.
use crate::rows::push_agreed;
use crate::stack::states_of;
use crate::subject::Subject;
use lrpar_grammar::span::{StIdx, TIdx};
use lrpar_table::check::{Overlay, ParserData};
use std::alloc::{AllocError, Global};
use test_case_lines::cases::Case;
use test_case_lines::fault::Fault;
use test_case_lines::names::token_of;
use test_case_lines::printed::Printed;

/// The keys that say what is done.
pub const INPUTS: &[&str] = &["states", "tokens"];

/// Whether the states are a stack; or what each of the tokens does at it, settled and fed.
pub fn outcome(
    out: &mut Printed,
    alloc: Global,
    subject: Subject<'_, '_, '_>,
    case: Case<'_, '_>,
) -> Result<(), Fault> {
    let states = states_of(alloc, case)?;
    let (mut by_rows, mut by_entries) = (Printed::new(alloc), Printed::new(alloc));
    push_by(&mut by_rows, alloc, case, &subject.tables.by_rows, &states)?;
    push_by(
        &mut by_entries,
        alloc,
        case,
        &subject.tables.by_entries,
        &states,
    )?;
    push_agreed(out, &by_rows, &by_entries);
    Ok(())
}

// What comes by one table.
fn push_by(
    out: &mut Printed,
    alloc: Global,
    case: Case<'_, '_>,
    data: &ParserData<u32>,
    states: &[StIdx<u32>],
) -> Result<(), Fault> {
    match (case.value("tokens"), data.is_stack(states)) {
        (None, true) => out.text("stack yes\n"),
        (Some((tokens, _)), true) => push_tokens(out, alloc, case, data, states, tokens)?,
        (_, false) => out.text("stack no\n"),
    }
    Ok(())
}

// What each of the tokens does at a stack: by a list of its own, and over the stack, after what the call before did is undone.
fn push_tokens(
    out: &mut Printed,
    alloc: Global,
    case: Case<'_, '_>,
    data: &ParserData<u32>,
    states: &[StIdx<u32>],
    tokens: &str,
) -> Result<(), Fault> {
    if states.is_empty() {
        return Ok(());
    }
    let mut over = Overlay::new(alloc, states);
    for word in tokens.split(' ') {
        let token = token_of(data.grm(), word, case.number)?;
        out.texts("settles ", word);
        push_call(out, alloc, data, states, &mut over, Call::Settle(token))?;
        out.texts("feeds ", word);
        push_call(out, alloc, data, states, &mut over, Call::Feed(token))?;
    }
    Ok(())
}

// What is called.
#[derive(Clone, Copy)]
enum Call {
    Settle(TIdx<u32>),
    Feed(TIdx<u32>),
}

// What a call returns: how many reductions it made, or whether it shifted.
#[derive(Clone, Copy)]
enum Answer {
    Settled(u128),
    Fed(bool),
    // There is no stack, or no such token.
    Nothing,
}

// What the call returns and leaves at a list, and how many states of the base it keeps; and what it returns and leaves over the
// base, if that is something else.
fn push_call(
    out: &mut Printed,
    alloc: Global,
    data: &ParserData<u32>,
    states: &[StIdx<u32>],
    over: &mut Overlay<'_, u32>,
    call: Call,
) -> Result<(), Fault> {
    over.set_back();
    let (mut by_list, mut by_overlay) = (Printed::new(alloc), Printed::new(alloc));
    push_by_list(&mut by_list, alloc, data, states, call)?;
    push_by_overlay(&mut by_overlay, data, over, call)?;
    out.append(&by_list);
    out.line(", keeps ", &over.kept());
    if !out.agree(&by_list, &by_overlay) {
        out.text("over");
        out.append(&by_overlay);
        out.text("\n");
    }
    Ok(())
}

// What the call returns and leaves at a list of these states.
fn push_by_list(
    out: &mut Printed,
    alloc: Global,
    data: &ParserData<u32>,
    states: &[StIdx<u32>],
    call: Call,
) -> Result<(), AllocError> {
    let mut stack = Vec::from_slice(alloc, states)?;
    push_answer(out, call_at(data, &mut stack, call)?);
    push_states(out, &stack);
    Ok(())
}

// What the call returns at the list.
fn call_at(
    data: &ParserData<u32>,
    stack: &mut Vec<StIdx<u32>>,
    call: Call,
) -> Result<Answer, AllocError> {
    let tokens = data.stable().tokens_len();
    if !data.is_stack(stack) {
        return Ok(Answer::Nothing);
    }
    match call {
        Call::Settle(token) if usize::from(token) < tokens => {
            Ok(Answer::Settled(data.settle(stack, token)?))
        }
        Call::Feed(token) if usize::from(token) < tokens => {
            Ok(Answer::Fed(data.feed(stack, token)?))
        }
        _ => Ok(Answer::Nothing),
    }
}

// What the call returns and leaves at the overlay.
fn push_by_overlay(
    out: &mut Printed,
    data: &ParserData<u32>,
    over: &mut Overlay<'_, u32>,
    call: Call,
) -> Result<(), AllocError> {
    push_answer(out, call_over(data, over, call)?);
    push_states(out, &over.to_vec()?);
    Ok(())
}

// What the call returns at the overlay.
fn call_over(
    data: &ParserData<u32>,
    over: &mut Overlay<'_, u32>,
    call: Call,
) -> Result<Answer, AllocError> {
    let tokens = data.stable().tokens_len();
    let states = over.to_vec()?;
    if !data.is_stack(&states) {
        return Ok(Answer::Nothing);
    }
    match call {
        Call::Settle(token) if usize::from(token) < tokens => {
            Ok(Answer::Settled(data.settle_over(over, token)?))
        }
        Call::Feed(token) if usize::from(token) < tokens => {
            Ok(Answer::Fed(data.feed_over(over, token)?))
        }
        _ => Ok(Answer::Nothing),
    }
}

// The answer.
fn push_answer(out: &mut Printed, answer: Answer) {
    match answer {
        Answer::Settled(count) => {
            out.text(" ");
            out.show(&count);
            out.text(", gives");
        }
        Answer::Fed(true) => out.text(" yes, gives"),
        Answer::Fed(false) => out.text(" no, gives"),
        Answer::Nothing => out.text(" nothing of"),
    }
}

// The states.
fn push_states(out: &mut Printed, states: &[StIdx<u32>]) {
    for state in states {
        out.number(" ", usize::from(*state));
    }
}
