//! The texts of counterexamples.
ghost use Rattle.std.specs.Prelude.{◌≡◌, ◌≤◌, IfOk, OnOk, drop, length};
ghost use Rattle.lrpar_table_sentences.specs.Moves.{move_of};
ghost use Rattle.lrpar_conflict_examples.specs.ExamplesFit.{DeriveFrom, ExampleFits, ExamplesFit, SecondFits};
ghost use Rattle.lrpar_conflict_examples.specs.Fits.{HasTokens, HaveTree, IsMoveOf};
ghost use Rattle.lrpar_conflict_examples.specs.Texts.{AddsBound, AddsCount, AddsDerivation, AddsOtherText, AddsText, AppendsExample, ShowsExamples, title_text};
ghost use Rattle.lrpar_grammar_places.specs.Strings.{Appends};
ghost use Rattle.lrpar_conflict_examples.specs.Words.{AddsLine};

use crate::conflict::ConflictExample;
use crate::pieces::push_tree;
use crate::words::{push_move, push_words, shown_name};
use lrpar_conflict_derivations::examples::{Example, tokens_of};
use lrpar_grammar::grammar::YaccGrammar;
use lrpar_grammar::span::{StorageIndex, TIdx};
use lrpar_table_sentences::moves::Move;
use std::alloc::{AllocError, Global};

/// The texts of the counterexamples, one after the other, each with an empty line after it. Rules and tokens are shown by their names, and
/// the end token by `$`.
///
/// ```text
/// 'e' in state 8: one text, two derivations
///   i i x . e x
///   reduce S: 'i' S
///     S[ i S[ i S[ x ] ] e S[ x ] ]
///   shift 'e'
///     S[ i S[ i S[ x ] e S[ x ] ] ]
/// ```
///
/// The first line has the conflict's token and state. Then comes the text of both derivations, with a dot at the conflict. If they have two
/// texts, the first line has the bound within which no common one was found, and each text comes before its own derivation. A derivation is
/// shown by its move after the dot, a production that is reduced or a token that is shifted, and by its tree.
///
/// The counterexamples have to fit the grammar, as those of `conflict_examples` do. Takes time and memory linear in the counterexamples and
/// in the resulting text, and no stack for a tree's levels. Fails only if an allocation does.
pub fn format_examples<StorageT: StorageIndex>(
    alloc: Global,
    grm: &YaccGrammar<StorageT>,
    examples: &[ConflictExample<StorageT>],
) -> Result<String, AllocError>
    requires fit { ExamplesFit grm.now examples.now }
    ensures { IfOk result (ShowsExamples grm.now examples.now) }
{
    let mut out = String::new(alloc);
    let mut rest = examples;
    while let Some((example, others)) = rest.split_first() {
        push_example(&mut out, alloc, grm, example)?;
        rest = others;
    }
    Ok(out)
}

// Adds the text of a counterexample.
fn push_example<StorageT: StorageIndex>(
    out: &mut String,
    alloc: Global,
    grm: &YaccGrammar<StorageT>,
    shown: &ConflictExample<StorageT>,
) -> Result<(), AllocError>
    requires { ExampleFits grm.now shown.now }
    ensures { OnOk result (AppendsExample grm.now shown.now out.old out.new) }
{
    let example = shown.example();
    push_title(out, grm, shown)?;
    push_text(out, alloc, grm, example.before(), example.first())?;
    push_derivation(out, alloc, grm, shown.first(), example.first())?;
    push_other_text(out, alloc, grm, example)?;
    push_derivation(out, alloc, grm, shown.second(), example.second())?;
    out.push('\n')
}

// Adds the first line of a counterexample.
fn push_title<StorageT: StorageIndex>(
    out: &mut String,
    grm: &YaccGrammar<StorageT>,
    shown: &ConflictExample<StorageT>,
) -> Result<(), AllocError>
    requires { ExampleFits grm.now shown.now }
    ensures { OnOk result (Appends out.old out.new (title_text grm.now shown.now)) }
{
    let name = shown_name(grm, shown.token());
    let state = usize::from(shown.state());
    write!(out, "'{name}' in state {state}: ")?;
    push_count(out, shown.example())?;
    out.push('\n')
}

// Adds how many texts the derivations have.
fn push_count<StorageT: StorageIndex>(
    out: &mut String,
    example: &Example<StorageT>,
) -> Result<(), AllocError>
    ensures { OnOk result (AddsCount example.now out.old out.new) }
{
    if !example.is_ambiguous() {
        let bound = example.bound();
        return push_bound(out, bound);
    }
    out.push_str("one text, two derivations")
}

// Adds that the derivations have two texts, and the bound of the search for one.
fn push_bound(out: &mut String, bound: usize) -> Result<(), AllocError>
    ensures { OnOk result (AddsBound bound out.old out.new) }
{
    write!(out, "two texts; one for both not found within {bound}")
}

// Adds the line of the second derivation's text, if it isn't that of the first one.
fn push_other_text<StorageT: StorageIndex>(
    out: &mut String,
    alloc: Global,
    grm: &YaccGrammar<StorageT>,
    example: &Example<StorageT>,
) -> Result<(), AllocError>
    requires { SecondFits grm.now example.now }
    ensures { OnOk result (AddsOtherText grm.now example.now out.old out.new) }
{
    if example.is_ambiguous() {
        return Ok(());
    }
    push_text(out, alloc, grm, example.before(), example.second())
}

// Adds the line of a derivation's text.
fn push_text<StorageT: StorageIndex>(
    out: &mut String,
    alloc: Global,
    grm: &YaccGrammar<StorageT>,
    before: &[TIdx<StorageT>],
    moves: &[Move<StorageT>],
) -> Result<(), AllocError>
    requires { DeriveFrom StorageT.index grm.now before.now moves.now }
    ensures { OnOk result (AddsText StorageT.index grm.now before.now moves.now out.old out.new) }
{
    // The proof needs that the grammar is well-formed.
    let _lemma = grm.start_prod();
    let text = tokens_of(alloc, moves)?;
    push_line(out, grm, before, rest_of(&text, before.len()))
}

// The tokens after the first `count`.
fn rest_of<StorageT>(tokens: &[TIdx<StorageT>], count: usize) -> &[TIdx<StorageT>]
    requires { count ≤ length tokens.now }
    ensures { result.now ≡ drop count tokens.now }
{
    &tokens[count..]
}

// Adds the line of a text, with a dot between its two parts.
fn push_line<StorageT: StorageIndex>(
    out: &mut String,
    grm: &YaccGrammar<StorageT>,
    before: &[TIdx<StorageT>],
    rest: &[TIdx<StorageT>],
) -> Result<(), AllocError>
    requires before { HasTokens StorageT.index grm.now before.now }
    requires rest { HasTokens StorageT.index grm.now rest.now }
    ensures { OnOk result (AddsLine StorageT.index grm.now before.now rest.now out.old out.new) }
{
    out.push(' ')?;
    push_words(out, grm, before)?;
    out.push_str(" .")?;
    push_words(out, grm, rest)?;
    out.push('\n')
}

// Adds the lines of a derivation: the move by which it goes on, and its tree.
fn push_derivation<StorageT: StorageIndex>(
    out: &mut String,
    alloc: Global,
    grm: &YaccGrammar<StorageT>,
    next: Move<StorageT>,
    moves: &[Move<StorageT>],
) -> Result<(), AllocError>
    requires next { IsMoveOf grm.now (move_of StorageT.index next) }
    requires tree { HaveTree StorageT.index grm.now moves.now }
    ensures { OnOk result (AddsDerivation StorageT.index grm.now next moves.now out.old out.new) }
{
    out.push_str("  ")?;
    push_move(out, grm, next)?;
    out.push_str("\n   ")?;
    push_tree(out, alloc, grm, moves)?;
    out.push('\n')
}
