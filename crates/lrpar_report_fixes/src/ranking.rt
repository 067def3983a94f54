//! Which changes are likely the ones that are meant. What counts is how far a parse goes on after a change, and then habits of people: what they
//! forget, double and misspell. The weights were chosen by a list of mistakes with the fixes that are wanted.
use crate::scene::{Scene, are_brackets, is_closing, is_opening, is_sign, is_word};
use crate::spellings::{are_near, mean_the_same};
use lrpar_grammar::span::{StorageIndex, TIdx};
use lrpar_parse_suggestions::{Change, Suggestion};
use std::alloc::{AllocError, Global};

/// How much less likely than the first a suggestion may be, in tenths of a lexeme.
const MARGIN: i64 = 30;

/// The suggestions that are about as likely as the most likely one, with that one first; of equally likely ones the first comes first.
pub(crate) fn rank<StorageT: StorageIndex>(
    alloc: Global,
    scene: &Scene<'_, StorageT>,
    suggestions: &[Suggestion<StorageT>],
) -> Result<Vec<Suggestion<StorageT>>, AllocError> {
    let mut order = Vec::with_capacity(alloc, suggestions.len())?;
    for (place, suggestion) in suggestions.iter().enumerate() {
        if is_plausible(scene, suggestion) {
            let score = score_of(scene, suggestion);
            order.push((1_000i64.saturating_sub(score), place))?;
        }
    }
    order.sort()?;
    let mut ranked = Vec::new(alloc);
    let most = match order.first() {
        Some((first, _)) => first.saturating_add(MARGIN),
        None => return Ok(ranked),
    };
    for (rank, place) in &order {
        match suggestions.get(*place) {
            Some(suggestion) if *rank <= most => ranked.push(*suggestion)?,
            Some(_) | None => {}
        }
    }
    Ok(ranked)
}

// Whether the change is one of the text, and inserts no token that must not come.
fn is_plausible<StorageT: StorageIndex>(
    scene: &Scene<'_, StorageT>,
    suggestion: &Suggestion<StorageT>,
) -> bool {
    match suggestion.change {
        Change::Delete => !scene.text(suggestion.place).is_empty(),
        Change::Insert(token) => !scene.subject.wording.is_never_inserted(token),
        Change::Replace(token) => {
            let old = scene.text(suggestion.place);
            let new = scene.subject.token_text(token);
            !(scene.subject.wording.is_never_inserted(token) || old.is_empty() || new == Some(old))
        }
    }
}

// How likely a suggestion is what is meant, in tenths of a lexeme.
fn score_of<StorageT: StorageIndex>(
    scene: &Scene<'_, StorageT>,
    suggestion: &Suggestion<StorageT>,
) -> i64 {
    let reach = i64::try_from(suggestion.reach.min(100)).unwrap_or(0);
    let back = scene.error.saturating_sub(suggestion.place).min(100);
    let back = i64::try_from(back).unwrap_or(0);
    let end = if suggestion.accepts { 60 } else { 0 };
    let habit = match suggestion.change {
        Change::Delete => deletion_score(scene, suggestion.place),
        Change::Insert(token) => insertion_score(scene, suggestion.place, token).saturating_sub(
            cost_of(scene, token),
        ),
        Change::Replace(token) => replacement_score(scene, suggestion.place, token).saturating_sub(
            cost_of(scene, token),
        ),
    };
    reach
        .saturating_mul(10)
        .saturating_add(end)
        .saturating_add(habit)
        .saturating_sub(back.saturating_mul(8))
}

// What speaks against a token that fixes are to avoid.
fn cost_of<StorageT: StorageIndex>(scene: &Scene<'_, StorageT>, token: TIdx<StorageT>) -> i64 {
    match scene.subject.wording.is_avoided(token) {
        true => 20,
        false => 0,
    }
}

// What speaks for deleting a lexeme: a separator before a closing bracket, the second of two equal signs, a bracket that closes nothing, or
// the first of two names.
fn deletion_score<StorageT: StorageIndex>(scene: &Scene<'_, StorageT>, place: usize) -> i64 {
    let old = scene.text(place);
    let before = scene.text_before(place);
    let next = scene.text(place.saturating_add(1));
    let closes_nothing = is_closing(old) && scene.open_bracket(place).is_none();
    let is_first_name = place < scene.error && is_word(old) && is_word(next);
    points(is_idle_separator(old, next), 60)
        .saturating_add(extra_sign_score(old, before, next))
        .saturating_add(points(closes_nothing, 40))
        .saturating_add(points(is_first_name && are_alike(scene, place), 12))
        .saturating_sub(10)
}

// The points, if they are due.
fn points(are_due: bool, points: i64) -> i64 {
    if are_due { points } else { 0 }
}

// What speaks for deleting a sign: that it is doubled, or that nothing comes before or after it that it could be for.
fn extra_sign_score(old: &str, before: &str, next: &str) -> i64 {
    if is_sign(old) && old == before {
        30
    } else if old == "," && is_sign(next) && !is_opening(next) {
        30
    } else if is_sign(old) && is_sign(before) && !is_closing(before) {
        15
    } else {
        0
    }
}

// Whether a separator separates nothing from what is before it.
fn is_idle_separator(old: &str, next: &str) -> bool {
    match old {
        "," => is_closing(next) || next.is_empty() || next == ";",
        ";" => is_closing(next) || next.is_empty(),
        _ => false,
    }
}

// Whether the lexeme at a place and the next one have the same token.
fn are_alike<StorageT: StorageIndex>(scene: &Scene<'_, StorageT>, place: usize) -> bool {
    scene.token(place) == scene.token(place.saturating_add(1))
}

// What speaks for another token in place of a lexeme: another spelling of it, a slip of the keyboard, or another sign of its kind.
fn replacement_score<StorageT: StorageIndex>(
    scene: &Scene<'_, StorageT>,
    place: usize,
    token: TIdx<StorageT>,
) -> i64 {
    let old = scene.text(place);
    let next = scene.text(place.saturating_add(1));
    let Some(new) = scene.subject.token_text(token) else {
        return -40;
    };
    if mean_the_same(old, new) {
        40
    } else if is_word(old) && is_word(new) {
        if are_near(old, new) { 30 } else { -50 }
    } else if is_sign(old) && is_sign(new) {
        sign_score(old, new, next).saturating_sub(20)
    } else {
        -40
    }
}

// What speaks for another sign in place of one.
fn sign_score(old: &str, new: &str, next: &str) -> i64 {
    if is_doubled(old, new) || is_doubled(new, old) {
        50
    } else if new.chars().any(|c| old.contains(c)) {
        30
    } else if matches!((old, new), (":", "=") | ("=", ":")) {
        30
    } else if is_separator(old) && is_separator(new) {
        if new == next { -20 } else { 20 }
    } else if is_opening(old) && is_opening(new) || is_closing(old) && is_closing(new) {
        30
    } else {
        -20
    }
}

// Whether the second text is the first one twice, and both are easily mixed up.
fn is_doubled(once: &str, twice: &str) -> bool {
    matches!((once, twice), ("=", "==") | ("&", "&&") | ("|", "||"))
}

// Whether the text is a sign between parts.
fn is_separator(text: &str) -> bool {
    matches!(text, "," | ";" | ":" | ".")
}

// What speaks for a token before a lexeme: that the text has it often, a `;` at the end of a line, or a bracket that closes the one that is open.
fn insertion_score<StorageT: StorageIndex>(
    scene: &Scene<'_, StorageT>,
    place: usize,
    token: TIdx<StorageT>,
) -> i64 {
    let count = scene.count(token);
    let usual = i64::try_from(count.min(4)).unwrap_or(0).saturating_mul(3);
    match scene.subject.token_text(token) {
        Some(new) => text_score(scene, place, new, count > 0).saturating_add(usual),
        None => usual.saturating_sub(8),
    }
}

// What speaks for a text before a lexeme.
fn text_score<StorageT: StorageIndex>(
    scene: &Scene<'_, StorageT>,
    place: usize,
    new: &str,
    is_used: bool,
) -> i64 {
    let habit = match new {
        ";" if !scene.is_at_line_end(place) => -10,
        ";" if is_used => 40,
        ";" => 10,
        "," => 15,
        _ if is_closing(new) => closing_score(scene, place, new),
        _ if is_opening(new) => -20,
        _ if is_used || is_separator(new) || new == "=" => 0,
        _ if is_word(new) => -15,
        _ => -5,
    };
    let is_before_another = matches!(scene.text(place), "," | ";" | ":");
    let doubles = is_before_another && (is_separator(new) || new == "=");
    points(doubles, -20).saturating_add(habit)
}

// What speaks for a closing bracket before a lexeme.
fn closing_score<StorageT: StorageIndex>(
    scene: &Scene<'_, StorageT>,
    place: usize,
    new: &str,
) -> i64 {
    match scene.open_bracket(place) {
        Some(span) if are_brackets(scene.text_at(span), new) => 30,
        Some(_) | None => -40,
    }
}
