//! Rules of `.l` files: why there are none, or the lexemes and errors that they give for an input.
use lrpar_grammar::grammar::{GrammarFault, YaccGrammar};
use lrpar_grammar::span::{Span, TIdx};
use lrpar_lexer::{NoToken, Token};
use lrpar_lexer_lrlex::{LrlexFault, LrlexRules, StateLexer, rules_of_lrlex};
use lrpar_parse_lexemes::{LexError, Lexeme, Lexer};
use std::alloc::Global;
use test_case_lines::cases::Case;
use test_case_lines::fault::Fault;
use test_case_lines::names::token_name;
use test_case_lines::printed::Printed;

/// The keys that say what is done.
pub const INPUTS: &[&str] = &["grammar", "rules", "input", "unmatched"];

/// The lexemes and errors of the input, or the fault of the rules.
pub fn outcome(out: &mut Printed, alloc: Global, case: Case<'_, '_>) -> Result<(), Fault> {
    let grm = grammar_of(alloc, case)?;
    let text = case.text(alloc, "rules")?;
    match rules_of_lrlex(alloc, &grm, text.as_str()) {
        Ok(rules) => push_lexed(out, alloc, case, &grm, &rules)?,
        Err(fault) => push_fault(out, &fault),
    }
    Ok(())
}

/// What comes of each beginning of the rules: `rules`, or the fault. Beginnings of which the same comes share a line.
pub fn outcome_of_cuts(out: &mut Printed, alloc: Global, case: Case<'_, '_>) -> Result<(), Fault> {
    let grm = grammar_of(alloc, case)?;
    let text = case.text(alloc, "rules")?;
    let mut first = 0;
    let mut last = 0;
    let mut same = Printed::new(alloc);
    for (len, _) in text.as_str().char_indices() {
        let said = said_of(alloc, &grm, text.as_str().get(..len).unwrap_or(""));
        if len > 0 && !out.agree(&said, &same) {
            push_cuts(out, first, last, &same);
            first = len;
        }
        last = len;
        same = said;
    }
    push_cuts(out, first, last, &same);
    Ok(())
}

// The grammar of the case.
fn grammar_of(alloc: Global, case: Case<'_, '_>) -> Result<YaccGrammar<u8>, Fault> {
    let text = case.text(alloc, "grammar")?;
    match YaccGrammar::new_with_storaget(alloc, text.as_str()) {
        Ok(grm) => Ok(grm),
        Err(GrammarFault::Memory) => Err(Fault::Memory),
        Err(_) => Err(Fault::Line(case.number, "a grammar is wanted")),
    }
}

// Adds the lexemes and errors that the rules give for the input. `lexed` has to give the same.
fn push_lexed(
    out: &mut Printed,
    alloc: Global,
    case: Case<'_, '_>,
    grm: &YaccGrammar<u8>,
    rules: &LrlexRules<u8>,
) -> Result<(), Fault> {
    let input = case.text(alloc, "input")?;
    let lexer = lexer_of(alloc, case, grm, rules, input.as_str())?;
    let mut first = Printed::new(alloc);
    let mut second = Printed::new(alloc);
    push_answers(&mut first, grm, &lexer.iter(alloc)?);
    push_answers(&mut second, grm, &lexer.lexed(alloc)?.iter(alloc)?);
    out.append(&first);
    if !out.agree(&first, &second) {
        out.text("lexed differs\n");
    }
    Ok(())
}

// The lexer of the input, with the token for unmatched characters that the case names.
fn lexer_of<'r, 'i>(
    alloc: Global,
    case: Case<'_, '_>,
    grm: &YaccGrammar<u8>,
    rules: &'r LrlexRules<u8>,
    input: &'i str,
) -> Result<StateLexer<'r, 'i, u8>, Fault> {
    let lexer = StateLexer::new(alloc, rules, input)?;
    let Some((name, number)) = case.value("unmatched") else {
        return Ok(lexer);
    };
    match grm.token_idx(name) {
        Some(token) => Ok(lexer.with_unmatched(token)),
        None => Err(Fault::Line(number, "a token is wanted")),
    }
}

// Adds a line for each lexeme and each error.
fn push_answers(out: &mut Printed, grm: &YaccGrammar<u8>, answers: &[Result<Token<u8>, NoToken>]) {
    for answer in answers {
        match answer {
            Ok(lexeme) => push_placed(out, token_name(grm, TIdx(lexeme.tok_id())), lexeme.span()),
            Err(error) => push_placed(out, "no token", error.span()),
        }
    }
}

// Adds a line: the name of a lexeme's token, and its place.
fn push_placed(out: &mut Printed, name: &str, span: Span) {
    out.texts("lexeme ", name);
    out.span_line(" ", span);
}

// Adds the fault, and its place, if it has one.
fn push_fault(out: &mut Printed, fault: &LrlexFault) {
    if *fault == LrlexFault::Memory {
        out.lack_memory();
    }
    out.line("fault ", fault);
    if let Some(span) = fault.span() {
        out.span_line("place ", span);
    }
}

// What comes of a text of rules.
fn said_of(alloc: Global, grm: &YaccGrammar<u8>, text: &str) -> Printed {
    let mut said = Printed::new(alloc);
    let fault = rules_of_lrlex(alloc, grm, text).err();
    match &fault {
        None => said.text("rules"),
        Some(LrlexFault::Memory) => said.lack_memory(),
        Some(fault) => said.show(fault),
    }
    said
}

// Adds a line: what comes of the beginnings of these lengths.
fn push_cuts(out: &mut Printed, first: usize, last: usize, said: &Printed) {
    out.number("cuts ", first);
    out.number("..", last);
    out.text(": ");
    out.append(said);
    out.text("\n");
}
