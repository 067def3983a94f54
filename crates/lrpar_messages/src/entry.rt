//! The state of an entry of a catalogue.
use crate::fault::MessageFaultKind;
use crate::lines::{Word, words_of};
use crate::sentences::AFTER;
use lrpar_grammar::grammar::YaccGrammar;
use lrpar_grammar::span::{RIdx, Span, StIdx, StorageIndex, Symbol, TIdx};
use lrpar_table_check::check::ParserData;
use lrpar_table_stops::{next_by, stack_after, stop_at};
use std::alloc::{AllocError, Global};

/// What is wrong with a line, and which bytes of it.
#[derive(Clone, Copy)]
pub(crate) struct LineFault {
    pub(crate) kind: MessageFaultKind,
    pub(crate) from: usize,
    pub(crate) to: usize,
}

impl LineFault {
    // What is wrong with a word.
    fn at(kind: MessageFaultKind, word: Word) -> LineFault {
        LineFault {
            kind,
            from: word.from,
            to: word.to,
        }
    }

    /// The place of the fault in the text, for the line at this place.
    pub(crate) fn span(self, line: Span) -> Span {
        let start = line.start().saturating_add(self.from);
        let end = line.start().saturating_add(self.to);
        Span::new(start, end.max(start))
    }
}

/// The state in which a run stops that the line shows: by tokens, the last of which is an error, or after `%after` by symbols that lead to the
/// state from the start.
pub(crate) fn state_of<StorageT: StorageIndex>(
    alloc: Global,
    data: &ParserData<StorageT>,
    line: &str,
) -> Result<Result<StIdx<StorageT>, LineFault>, AllocError> {
    let (words, unended) = words_of(alloc, line)?;
    if let Some(word) = unended {
        return Ok(Err(LineFault {
            kind: MessageFaultKind::OpenQuote,
            from: word.from.saturating_sub(1),
            to: word.to,
        }));
    }
    match words.split_first() {
        Some((first, symbols)) if is_after(line, *first) => Ok(state_after(data, line, symbols)),
        _ => state_of_sentence(alloc, data, line, &words),
    }
}

// The name of a word.
fn name_of(line: &str, word: Word) -> &str {
    match line.get(word.from..word.to) {
        Some(name) => name,
        None => line,
    }
}

// Whether the word is `%after`.
fn is_after(line: &str, word: Word) -> bool {
    !word.is_quoted && name_of(line, word) == AFTER
}

// The state to which the symbols lead from the start.
fn state_after<StorageT: StorageIndex>(
    data: &ParserData<StorageT>,
    line: &str,
    symbols: &[Word],
) -> Result<StIdx<StorageT>, LineFault> {
    let mut state = data.stable().start_state();
    for word in symbols {
        let Some(symbol) = symbol_named(data.grm(), line, *word) else {
            return Err(LineFault::at(MessageFaultKind::Unknown, *word));
        };
        match next_by(data.stable(), state, symbol) {
            Some(next) => state = next,
            None => return Err(LineFault::at(MessageFaultKind::NoPath, *word)),
        }
    }
    Ok(state)
}

// The state in which a run over the tokens stops at the last one.
fn state_of_sentence<StorageT: StorageIndex>(
    alloc: Global,
    data: &ParserData<StorageT>,
    line: &str,
    words: &[Word],
) -> Result<Result<StIdx<StorageT>, LineFault>, AllocError> {
    let mut tokens = Vec::new(alloc);
    for word in words {
        match token_named(data.grm(), line, *word) {
            Some(token) => tokens.push(token)?,
            None => return Ok(Err(LineFault::at(MessageFaultKind::Unknown, *word))),
        }
    }
    let (Some((last, before)), Some(end)) = (tokens.split_last(), words.last()) else {
        return Ok(Err(LineFault {
            kind: MessageFaultKind::NoTokens,
            from: 0,
            to: line.len(),
        }));
    };
    let stack = match stack_after(alloc, data, before)? {
        Ok(stack) => stack,
        Err(count) => {
            let word = words.get(count).unwrap_or(end);
            return Ok(Err(LineFault::at(MessageFaultKind::EarlyError, *word)));
        }
    };
    Ok(match stop_at(alloc, data, &stack, *last)? {
        Some(state) => Ok(state),
        None => Err(LineFault::at(MessageFaultKind::NoError, *end)),
    })
}

// The token that a word names: without quotes `$` is the end token.
fn token_named<StorageT: StorageIndex>(
    grm: &YaccGrammar<StorageT>,
    line: &str,
    word: Word,
) -> Option<TIdx<StorageT>> {
    let name = name_of(line, word);
    if !word.is_quoted && name == "$" {
        return Some(grm.eof_token_idx());
    }
    grm.token_idx(name)
}

// The symbol that a word names: a rule, if it isn't in quotes and one has this name, or else a token.
fn symbol_named<StorageT: StorageIndex>(
    grm: &YaccGrammar<StorageT>,
    line: &str,
    word: Word,
) -> Option<Symbol<StorageT>> {
    if !word.is_quoted {
        if let Some(rule) = rule_named(grm, name_of(line, word)) {
            return Some(Symbol::Rule(rule));
        }
    }
    Some(Symbol::Token(token_named(grm, line, word)?))
}

// The first rule with this name.
fn rule_named<StorageT: StorageIndex>(
    grm: &YaccGrammar<StorageT>,
    name: &str,
) -> Option<RIdx<StorageT>> {
    for number in 0..grm.rules_len() {
        let rule = RIdx(StorageT::from_index(number).unwrap());
        if grm.rule_name_str(rule) == name {
            return Some(rule);
        }
    }
    None
}
