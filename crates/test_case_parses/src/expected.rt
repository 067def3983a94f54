//! What may come next: at a list of states, after tokens are fed over it, or after lexemes.
use crate::calls::Parser;
use crate::lexemes::{Given, ListLexer, given_of};
use crate::recoverer::no_recoverer;
use lrpar_grammar::grammar::YaccGrammar;
use lrpar_grammar::span::{StIdx, TIdx};
use lrpar_lexer::NoToken;
use lrpar_parse::RTParserBuilder;
use lrpar_parse::parser::{Expected, ParseFault};
use lrpar_parse_lexemes::lex_api::LexError;
use lrpar_table::check::{Overlay, ParserData};
use std::alloc::Global;
use test_case_lines::cases::Case;
use test_case_lines::fault::Fault;
use test_case_lines::names::{token_name, token_of};
use test_case_lines::printed::Printed;
use test_case_tables::rows::push_agreed;
use test_case_tables::stack::states_of;
use test_case_tables::subject::Subject;

/// The keys that say what is done.
pub const INPUTS: &[&str] = &["states", "feed", "lexemes"];

/// What may come next at the states, after the tokens are fed; or after the lexemes.
pub fn outcome(
    out: &mut Printed,
    alloc: Global,
    subject: Subject<'_, '_, '_>,
    case: Case<'_, '_>,
) -> Result<(), Fault> {
    let Subject { case: _, tables } = subject;
    let (mut by_rows, mut by_entries) = (Printed::new(alloc), Printed::new(alloc));
    push_expected_by(&mut by_rows, alloc, case, &tables.by_rows)?;
    push_expected_by(&mut by_entries, alloc, case, &tables.by_entries)?;
    push_agreed(out, &by_rows, &by_entries);
    Ok(())
}

// Adds what is expected by this table.
fn push_expected_by(
    out: &mut Printed,
    alloc: Global,
    case: Case<'_, '_>,
    data: &ParserData<u32>,
) -> Result<(), Fault> {
    if case.value("lexemes").is_none() {
        let states = states_of(alloc, case)?;
        return over_states(out, alloc, case, data, &states);
    }
    let given = given_of(alloc, data.grm(), case)?;
    after_lexemes(out, alloc, data, &given);
    Ok(())
}

// What may come next at these states, bottom first, after the tokens of the case are fed over them.
fn over_states(
    out: &mut Printed,
    alloc: Global,
    case: Case<'_, '_>,
    data: &ParserData<u32>,
    states: &[StIdx<u32>],
) -> Result<(), Fault> {
    if states.is_empty() || !data.is_stack(states) {
        return Err(Fault::Line(case.number, "a stack is wanted"));
    }
    let mut over = Overlay::new(alloc, states);
    feed_tokens(case, data, &mut over)?;
    at_overlay(out, alloc, data, &over)
}

// Feeds the tokens of the case.
fn feed_tokens(
    case: Case<'_, '_>,
    data: &ParserData<u32>,
    over: &mut Overlay<'_, u32>,
) -> Result<(), Fault> {
    for word in case.value_or_nothing("feed").split(' ') {
        if !word.is_empty() && !is_fed(data, over, token_of(data.grm(), word, case.number)?)? {
            return Err(Fault::Line(case.number, "a token that can be fed is wanted"));
        }
    }
    Ok(())
}

// Feeds the token, if there is such a one. Returns whether it was fed.
fn is_fed(
    data: &ParserData<u32>,
    over: &mut Overlay<'_, u32>,
    token: TIdx<u32>,
) -> Result<bool, Fault> {
    let states = over.to_vec()?;
    if usize::from(token) >= data.stable().tokens_len() || !data.is_stack(&states) {
        return Ok(false);
    }
    Ok(data.feed_over(over, token)?)
}

// What may come next at a list of the overlay's states, and at the overlay if that is something else.
fn at_overlay(
    out: &mut Printed,
    alloc: Global,
    data: &ParserData<u32>,
    over: &Overlay<'_, u32>,
) -> Result<(), Fault> {
    let states = over.to_vec()?;
    if !data.is_stack(&states) {
        return Err(Fault::Line(0, "a stack is wanted"));
    }
    let by_list = data.expected(alloc, &states)?;
    let by_overlay = data.expected_over(alloc, over)?;
    push_tokens(out, data.grm(), "expected", &by_list);
    if by_overlay != by_list {
        push_tokens(out, data.grm(), "over", &by_overlay);
    }
    Ok(())
}

// What may come next after the lexemes.
fn after_lexemes(out: &mut Printed, alloc: Global, data: &ParserData<u32>, given: &[Given]) {
    let Ok(lexer) = ListLexer::new(alloc, given, "") else {
        return out.lack_memory();
    };
    let parser: Parser<'_> = RTParserBuilder::new(data).recoverer(no_recoverer(alloc));
    match parser.expected(alloc, &lexer) {
        Err(ParseFault::Memory) => out.lack_memory(),
        Err(fault) => out.line("fault ", &fault),
        Ok(expected) => push_expected(out, data.grm(), &expected),
    }
}

// How many lexemes were fed, what may come next, and the lexing error.
fn push_expected(out: &mut Printed, grm: &YaccGrammar<u32>, expected: &Expected<u32, NoToken>) {
    out.line("place ", &expected.place);
    push_tokens(out, grm, "expected", &expected.tokens);
    if let Some(error) = &expected.lexing_error {
        out.span_line("lexing error ", error.span());
    }
}

/// Adds a line of tokens.
pub(crate) fn push_tokens(
    out: &mut Printed,
    grm: &YaccGrammar<u32>,
    key: &str,
    tokens: &[TIdx<u32>],
) {
    out.text(key);
    for token in tokens {
        out.texts(" ", token_name(grm, *token));
    }
    out.text("\n");
}
