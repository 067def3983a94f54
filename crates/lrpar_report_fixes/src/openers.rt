//! Brackets that are open where a closing one is missing.
use crate::scene::{Scene, are_brackets, is_closing};
use lrpar_grammar::span::{Span, StorageIndex, TIdx};

/// The place of the bracket that is open before a place, if the first of the tokens that has the text of a closing one closes it.
pub(crate) fn closed_bracket<StorageT: StorageIndex>(
    scene: &Scene<'_, StorageT>,
    place: usize,
    tokens: &[TIdx<StorageT>],
) -> Option<Span> {
    let closing = first_closing(scene, tokens)?;
    let span = scene.open_bracket(place)?;
    if are_brackets(scene.text_at(span), closing) {
        Some(span)
    } else {
        None
    }
}

// The text of the first of the tokens that is a closing bracket.
fn first_closing<'a, StorageT: StorageIndex>(
    scene: &Scene<'a, StorageT>,
    tokens: &[TIdx<StorageT>],
) -> Option<&'a str> {
    for token in tokens {
        match scene.subject.token_text(*token) {
            Some(text) if is_closing(text) => return Some(text),
            Some(_) | None => {}
        }
    }
    None
}
