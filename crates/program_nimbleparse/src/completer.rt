//! The completion of inputs, which is made when an error first needs it.
use crate::plan::{Plan, Recovery};
use crate::show::write_messages;
use crate::shown::shown_grammar;
use crate::states::push_symbol;
use lrpar_grammar::grammar::YaccGrammar;
use lrpar_grammar::span::{StIdx, Symbol};
use lrpar_parse_completion::TableCompletion;
use lrpar_report::{Level, Report};
use lrpar_table::check::ParserData;
use lrpar_table_pops::check_completable::Incompletable;
use program_files::fault::Fault;
use std::alloc::{AllocError, Global};
use std::io::Write;

/// How many stacks of a table are told apart at most, before it counts as too large for a completion.
const MAX_STACKS: usize = 20_000;

/// What inputs are completed by, where the searches find nothing.
#[derive(Drop)]
pub(crate) enum Completer<'a> {
    /// Nothing: no completion is asked for, or the table is refused.
    Never,
    /// A completion, which wasn't needed yet.
    Unmade,
    /// This completion.
    Made(TableCompletion<'a, u32>),
}

impl<'a> Completer<'a> {
    /// What is asked for.
    pub(crate) fn new(recovery: Recovery) -> Self {
        match recovery {
            Recovery::Complete { .. } => Completer::Unmade,
            Recovery::Nothing | Recovery::Cheapest { .. } => Completer::Never,
        }
    }

    /// Makes the completion, if there is one and it isn't made yet, and returns it. If the table is refused, a note says why, unless the program
    /// is to be quiet.
    pub(crate) fn make_completion<O: Write, E: Write>(
        &mut self,
        alloc: Global,
        plan: &Plan<'a>,
        out: &mut O,
        err: &mut E,
    ) -> Result<Option<&TableCompletion<'a, u32>>, Fault> {
        if let Completer::Unmade = self {
            *self = make(alloc, plan, out, err)?;
        }
        match self {
            Completer::Made(completion) => Ok(Some(completion)),
            Completer::Never | Completer::Unmade => Ok(None),
        }
    }
}

// Makes the completion, if the table is fit for it. Otherwise a note says why it isn't, unless the program is to be quiet.
fn make<'a, O: Write, E: Write>(
    alloc: Global,
    plan: &Plan<'a>,
    out: &mut O,
    err: &mut E,
) -> Result<Completer<'a>, Fault> {
    match TableCompletion::with_max_stacks(alloc, plan.data(), MAX_STACKS) {
        Ok(completion) => Ok(Completer::Made(completion)),
        Err(Incompletable::Memory) => Err(Fault::Memory),
        Err(refusal) => {
            if !plan.is_quiet {
                let text = refusal_note(alloc, plan, &refusal)?;
                write_messages(out, err, text.as_str())?;
            }
            Ok(Completer::Never)
        }
    }
}

// The note that an error may have no repair, and why.
fn refusal_note(
    alloc: Global,
    plan: &Plan<'_>,
    refusal: &Incompletable<u32>,
) -> Result<String, AllocError> {
    let mut why = String::from_str(alloc, "an error may have no repair: ")?;
    match refusal {
        Incompletable::Stuck(states) => {
            let shown = shown_grammar(alloc, plan.data().grm(), plan.files)?;
            push_stack(&mut why, plan.data(), &shown, states)?;
        }
        Incompletable::TooMany => write!(
            &mut why,
            "there are more than {MAX_STACKS} stacks of the table to tell apart"
        )?,
        Incompletable::Memory => {}
    }
    let mut text = String::new(alloc);
    let printer = plan.grammar.printer(alloc)?;
    let report = Report::new(alloc, Level::Note, why.as_str())?;
    printer.push(&mut text, alloc, &report)?;
    Ok(text)
}

// Adds that nothing completes the stack: its symbols, with the names that this grammar has for them, and the state on top.
fn push_stack(
    out: &mut String,
    data: &ParserData<u32>,
    shown: &YaccGrammar<u32>,
    states: &[StIdx<u32>],
) -> Result<(), AllocError> {
    out.push_str("no tokens complete")?;
    for state in states {
        if let Some(symbol) = symbol_before(data, *state) {
            out.push(' ')?;
            push_symbol(out, shown, symbol)?;
        }
    }
    match states.last() {
        Some(top) => {
            let number = usize::from(*top);
            write!(out, ", in state {number}")
        }
        None => Ok(()),
    }
}

// The symbol by which stacks go to the state: the one before the dot of each of its kernel items.
fn symbol_before(data: &ParserData<u32>, state: StIdx<u32>) -> Option<Symbol<u32>> {
    if usize::from(state) >= data.sgraph().states_len() {
        return None;
    }
    let (prod, dot) = *data.sgraph().begun_cores(state).first()?;
    if usize::from(prod) >= data.grm().prods_len() {
        return None;
    }
    data.grm().prod(prod).get(dot.checked_sub(1)?).copied()
}
