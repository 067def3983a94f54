//! Lists of productions by their texts.
use lrpar_grammar::grammar::{GrammarFault, Spelled, SpelledFault, SpelledParts, YaccGrammar};
use lrpar_grammar::span::PIdx;
use std::alloc::{AllocError, Global};
use test_case_lines::cases::Case;
use test_case_lines::fault::Fault;
use test_case_lines::line::{Content, Line};
use test_case_lines::printed::Printed;
use test_case_lines::text::unescaped;

/// The keys that say what is done.
pub const INPUTS: &[&str] = &["text", "part", "listed", "show"];

// Where the productions are: in a list, or in the parts of one.
#[derive(Drop)]
enum Places {
    List(Spelled<u8>),
    Parts(SpelledParts<u8>),
}

/// The places of a grammar's productions in the list of the texts `listed`, or why these aren't a list of them. If there are lines
/// `part`, each begins a part of the list, and the places are in the parts. With a `show`, the text of each production.
pub fn outcome(out: &mut Printed, alloc: Global, case: Case<'_, '_>) -> Result<(), Fault> {
    let text = case.text(alloc, "text")?;
    let made = YaccGrammar::new_with_storaget(alloc, text.as_str());
    match made {
        Ok(grm) => push_outcome(out, alloc, case, &grm),
        Err(GrammarFault::Memory) => Err(Fault::Memory),
        Err(_) => Err(Fault::Line(case.number, "a grammar is wanted")),
    }
}

// What comes of the case for its grammar.
fn push_outcome(
    out: &mut Printed,
    alloc: Global,
    case: Case<'_, '_>,
    grm: &YaccGrammar<u8>,
) -> Result<(), Fault> {
    match case.value("show") {
        Some(_) => push_texts(out, alloc, grm),
        None => {
            let listed = listed_texts(alloc, case.lines)?;
            let starts = part_starts(alloc, case.lines)?;
            push_list(out, alloc, grm, &listed, &starts)?;
        }
    }
    Ok(())
}

// A line for each production: its number and its text.
fn push_texts(out: &mut Printed, alloc: Global, grm: &YaccGrammar<u8>) {
    for prod in grm.iter_pidxs() {
        if usize::from(prod) < grm.prods_len() {
            match grm.prod_text(alloc, prod) {
                Ok(text) => {
                    out.number("spelling ", usize::from(prod));
                    out.line(" ", &text);
                }
                Err(_) => out.lack_memory(),
            }
        }
    }
}

// The texts of the list.
fn listed_texts(alloc: Global, lines: &[Line<'_>]) -> Result<Vec<String>, Fault> {
    let mut texts = Vec::new(alloc);
    for line in lines {
        if let Content::Field {
            key: "listed",
            value,
        } = line.content
        {
            texts.push(text_of(alloc, value, line.number)?)?;
        }
    }
    Ok(texts)
}

// The text that a value with escapes spells.
fn text_of(alloc: Global, value: &str, number: usize) -> Result<String, Fault> {
    match String::from_utf8(unescaped(alloc, value, number)?) {
        Ok(text) => Ok(text),
        Err(_) => Err(Fault::Line(number, "a text that isn't UTF-8")),
    }
}

// For each part how many texts there are before it.
fn part_starts(alloc: Global, lines: &[Line<'_>]) -> Result<Vec<usize>, AllocError> {
    let mut starts = Vec::new(alloc);
    let mut count = 0usize;
    for line in lines {
        match line.content {
            Content::Field {
                key: "part",
                value: _,
            } => starts.push(count)?,
            Content::Field {
                key: "listed",
                value: _,
            } => count = count.saturating_add(1),
            _ => {}
        }
    }
    Ok(starts)
}

// The places of the productions in the list or its parts, or why it is none.
fn push_list(
    out: &mut Printed,
    alloc: Global,
    grm: &YaccGrammar<u8>,
    listed: &[String],
    starts: &[usize],
) -> Result<(), Fault> {
    let mut texts = Vec::new(alloc);
    for text in listed {
        texts.push(text.as_str())?;
    }
    let places = places_of(alloc, grm, &texts, starts);
    match &places {
        Ok(places) => push_places(out, grm, places),
        Err(SpelledFault::Memory) => out.lack_memory(),
        Err(fault) => out.line("fault ", fault),
    }
    Ok(())
}

// Finds the places of the productions: in the list, if it has no parts.
fn places_of(
    alloc: Global,
    grm: &YaccGrammar<u8>,
    texts: &[&str],
    starts: &[usize],
) -> Result<Places, SpelledFault> {
    if starts.is_empty() {
        return Ok(Places::List(grm.prods_spelled(alloc, texts)?));
    }
    let parts = parts_of(alloc, texts, starts)?;
    Ok(Places::Parts(grm.prods_spelled_in_parts(alloc, &parts)?))
}

// The texts in parts, each of which ends where the next one starts.
fn parts_of<'a>(
    alloc: Global,
    texts: &'a [&'a str],
    starts: &[usize],
) -> Result<Vec<&'a [&'a str]>, AllocError> {
    let mut parts = Vec::with_capacity(alloc, starts.len())?;
    for (number, start) in starts.iter().enumerate() {
        let end = starts.get(number.saturating_add(1)).copied();
        let part = texts.get(*start..end.unwrap_or(texts.len()));
        parts.push(part.unwrap_or(&[]))?;
    }
    Ok(parts)
}

// A line for each production, and for the number after the last one: its place.
fn push_places(out: &mut Printed, grm: &YaccGrammar<u8>, places: &Places) {
    for prod in grm.iter_pidxs() {
        push_place(out, prod, places);
    }
    if let Ok(past) = u8::try_from(grm.prods_len()) {
        push_place(out, PIdx(past), places);
    }
}

// A line for a production: its number; then its place in the list, or its part and its place there.
fn push_place(out: &mut Printed, prod: PIdx<u8>, places: &Places) {
    out.number("place ", usize::from(prod));
    match places {
        Places::List(spelled) => push_list_place(out, spelled.of(prod)),
        Places::Parts(spelled) => push_part_place(out, spelled.of(prod)),
    }
}

fn push_list_place(out: &mut Printed, place: Option<usize>) {
    match place {
        Some(place) => out.line(" ", &place),
        None => out.text(" none\n"),
    }
}

fn push_part_place(out: &mut Printed, place: Option<(usize, usize)>) {
    match place {
        Some((part, place)) => {
            out.number(" ", part);
            out.line(" ", &place);
        }
        None => out.text(" none\n"),
    }
}
