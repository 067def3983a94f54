//! What may come next after lexemes: how many of them can be fed, and the tokens that can be fed then.
ghost use Rattle.std.specs.Prelude.{◌≡◌, ◌<◌, ◌++◌, IfOk, OnOk, take};
ghost use Rattle.lrpar_parse.specs.ExpectedAnswer.{AreStatesAbove, AreValid, FeedsFurthest, IsStackOf, MayComeAfter, MayFeed, MayFeedOver};

use lrpar_grammar::span::{StIdx, StorageIndex, TIdx};
use lrpar_parse_lexemes::lex_api::Lexeme;
use lrpar_table::check::ParserData;
use lrpar_table_stacks::overlay::Overlay;
use lrpar_table_stacks::state_stack::StateStack;
use std::alloc::{AllocError, Global};

/// What may come next after the lexemes of a lexer.
#[derive(Debug, Drop)]
pub struct Expected<StorageT: StorageIndex, LexErrorT> {
    /// How many of the lexemes before the first lexing error can be fed: all of them, or those before the first one that can't
    /// be.
    pub place: usize,
    /// The tokens that may come next there, in ascending order. The end token is among them if the parse would accept there.
    pub tokens: Vec<TIdx<StorageT>>,
    /// The first lexing error, if the lexer returned one.
    pub lexing_error: Option<LexErrorT>,
}

/// How many of these valid lexemes can be fed in turn from the start state, and the tokens that may come next there. `Err`: out of
/// memory.
pub(crate) fn expected_after<StorageT: StorageIndex, LexemeT: Lexeme<StorageT>>(
    alloc: Global,
    checked: &ParserData<StorageT>,
    lexemes: &[LexemeT],
) -> Result<(usize, Vec<TIdx<StorageT>>), AllocError>
    requires valid { AreValid StorageT.index LexemeT.parts checked.now lexemes.now }
    ensures { IfOk result (MayComeAfter StorageT.index LexemeT.parts checked.now lexemes.now) }
{
    // The contract of `stable` gives that the table is checked.
    let _lemma = checked.stable();
    let (place, stack) = feed_all(alloc, checked, lexemes)?;
    let tokens = checked.expected(alloc, &stack)?;
    Ok((place, tokens))
}

// Feeds the valid lexemes from the start state on, up to the first one that can't be fed. Returns how many were fed, and the stack
// after them, before any reduction at the token of that one.
fn feed_all<StorageT: StorageIndex, LexemeT: Lexeme<StorageT>>(
    alloc: Global,
    checked: &ParserData<StorageT>,
    lexemes: &[LexemeT],
) -> Result<(usize, Vec<StIdx<StorageT>>), AllocError>
    requires valid { AreValid StorageT.index LexemeT.parts checked.now lexemes.now }
    ensures furthest { IfOk result (FeedsFurthest StorageT.index LexemeT.parts checked.now lexemes.now) }
    ensures stack { IfOk result (λ fed. IsStackOf StorageT.index checked.now fed.1.items) }
{
    // A checked table has the grammar's tokens.
    let start = checked.stable().start_state();
    let mut stack = Vec::new(alloc);
    stack.push(start)?;
    let mut above = Vec::new(alloc);
    for (place, lexeme) in lexemes.iter().enumerate() {
        let token = TIdx(lexeme.tok_id());
        if !feed_if_expected(alloc, checked, &mut stack, token, &mut above)? {
            return Ok((place, stack));
        }
    }
    Ok((lexemes.len(), stack))
}

// Feeds the token, if it can be fed, and returns whether it could. Otherwise the stack stays. `above` is a buffer.
fn feed_if_expected<StorageT: StorageIndex>(
    alloc: Global,
    checked: &ParserData<StorageT>,
    stack: &mut Vec<StIdx<StorageT>>,
    token: TIdx<StorageT>,
    above: &mut Vec<StIdx<StorageT>>,
) -> Result<bool, AllocError>
    requires stack { IsStackOf StorageT.index checked.now stack.old.items }
    requires token { StorageT.index token.0 < checked.now.table.tokens }
    ensures { IfOk result (MayFeed StorageT.index checked.now token stack.old.items stack.new.items) }
{
    let Some(kept) = feed_above(alloc, checked, stack, token, above)? else {
        return Ok(false);
    };
    stack.truncate(kept);
    stack.extend_from_slice(above)?;
    Ok(true)
}

// How many states of the stack stay if the token is fed, and in `above` those that are put above them. `None`: it can't be fed.
fn feed_above<StorageT: StorageIndex>(
    alloc: Global,
    checked: &ParserData<StorageT>,
    stack: &[StIdx<StorageT>],
    token: TIdx<StorageT>,
    above: &mut Vec<StIdx<StorageT>>,
) -> Result<Option<usize>, AllocError>
    requires stack { IsStackOf StorageT.index checked.now stack.now }
    requires token { StorageT.index token.0 < checked.now.table.tokens }
    ensures { IfOk result (MayFeedOver StorageT.index checked.now token stack.now above.new.items) }
{
    let mut overlay = Overlay::new(alloc, stack);
    if !checked.feed_over(&mut overlay, token)? {
        return Ok(None);
    }
    copy_above(&overlay, above)?;
    Ok(Some(overlay.kept()))
}

// Copies the states that an overlay has above those of its base.
fn copy_above<StorageT: StorageIndex>(
    overlay: &Overlay<'_, StorageT>,
    above: &mut Vec<StIdx<StorageT>>,
) -> Result<(), AllocError>
    ensures { OnOk result (AreStatesAbove StorageT.index overlay.now above.new.items) }
{
    above.clear();
    for at in overlay.kept()..overlay.len() {
        above.push(overlay.state_at(at))?;
    }
    Ok(())
}
