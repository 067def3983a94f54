//! Fixes by repair sequences.
use crate::changes::Change;
use crate::spacing::{join_words, needs_blank};
use crate::subject::Subject;
use crate::words::push_words;
use lrpar_grammar::span::StorageIndex;
use lrpar_report::{Fix, part_of};
use std::alloc::{AllocError, Global};

/// The fix that makes these changes: `insert ';'`, `delete 'x'`, `replace 'esle' by 'else'`. What comes in place of lexemes that go is part of one
/// edit. A token is inserted right after the lexeme before it. Where two words would become one, or signs would look like one, a blank comes
/// between them. If a token that comes has no text of its own, such as a name, the fix says what to do, and has no edits.
pub(crate) fn fix_of<StorageT: StorageIndex>(
    alloc: Global,
    subject: Subject<'_, StorageT>,
    changes: &Vec<Change<StorageT>>,
) -> Result<Fix, AllocError> {
    let mut message = String::new(alloc);
    let mut joint = "";
    for change in changes {
        message.push_str(joint)?;
        push_words(&mut message, subject, change)?;
        joint = ", ";
    }
    let mut fix = Fix::new(alloc, message.as_str())?;
    if !have_texts(subject, changes) {
        return Ok(fix);
    }
    for change in changes {
        fix = with_edit(alloc, subject, change, fix)?;
    }
    Ok(fix)
}

// Whether each token that comes has a text.
fn have_texts<StorageT: StorageIndex>(
    subject: Subject<'_, StorageT>,
    changes: &Vec<Change<StorageT>>,
) -> bool {
    for change in changes {
        for token in &change.tokens {
            if subject.token_text(*token).is_none() {
                return false;
            }
        }
    }
    true
}

// The fix with the edit of a change.
fn with_edit<StorageT: StorageIndex>(
    alloc: Global,
    subject: Subject<'_, StorageT>,
    change: &Change<StorageT>,
    fix: Fix,
) -> Result<Fix, AllocError> {
    let span = part_of(subject.text, change.span());
    let front = subject.text.get(..span.start()).unwrap_or("");
    let rest = subject.text.get(span.end()..).unwrap_or("");
    let mut text = String::new(alloc);
    let mut last = front.chars().next_back();
    for token in &change.tokens {
        let word = subject.token_text(*token).unwrap_or("");
        push_blank(&mut text, last, word.chars().next())?;
        text.push_str(word)?;
        last = word.chars().next_back();
    }
    let next = rest.chars().next();
    if !change.tokens.is_empty() || are_joined(last, next) {
        push_blank(&mut text, last, next)?;
    }
    fix.edit(span, text.as_str())
}

// Whether two words become one, if nothing comes between these characters.
fn are_joined(before: Option<char>, after: Option<char>) -> bool {
    match (before, after) {
        (Some(before), Some(after)) => join_words(before, after),
        (None, _) | (_, None) => false,
    }
}

// Adds a blank, if one comes between these characters.
fn push_blank(
    text: &mut String,
    before: Option<char>,
    after: Option<char>,
) -> Result<(), AllocError> {
    match (before, after) {
        (Some(before), Some(after)) if needs_blank(before, after) => text.push(' '),
        (Some(_), Some(_)) | (None, _) | (_, None) => Ok(()),
    }
}
