//! Trees of symbols that begin with a token.
ghost use Rattle.std.specs.Prelude.{◌≡◌, ◌<◌, IfOk, Some, length, slice_set};
ghost use Rattle.std.specs.Bool.{OnFalse, OnTrue};
ghost use Rattle.lrpar_grammar.specs.Grammar.{prods_len};
ghost use Rattle.lrpar_table_sentences.specs.Choices.{RightSoFar};
ghost use Rattle.lrpar_table_sentences.specs.Starts.{AreAllStarts, AreRightStarts, CanStartBy, HasMoreStarts, IsStartFor, begins_with, begin_index_of_prod, begin_index_in};

use crate::kept::nothing_kept;
use crate::minimal_sentences::{Choice, len_of, sum_of_lens};
use lrpar_grammar::grammar::YaccGrammar;
use lrpar_grammar::span::{PIdx, StorageIndex, Symbol, TIdx};
use std::alloc::{AllocError, Global};

/// How a rule can begin with a token: by a production, at a place in it; the symbols before that place derive nothing.
#[derive(Clone, Copy, Debug, PartialEq, Eq)]
pub(crate) struct Start<StorageT> {
    pub(crate) prod: PIdx<StorageT>,
    pub(crate) place: usize,
}

/// How rules can begin with the token.
pub(crate) fn starts<StorageT: StorageIndex>(
    alloc: Global,
    grm: &YaccGrammar<StorageT>,
    choices: &[Option<Choice<StorageT>>],
    first: TIdx<StorageT>,
) -> Result<Vec<Option<Start<StorageT>>>, AllocError>
    requires { RightSoFar StorageT.index grm.now choices.now }
    ensures kept { IfOk result (λ starts. AreRightStarts StorageT.index grm.now choices.now first starts.items) }
    ensures closed { IfOk result (λ starts. AreAllStarts StorageT.index grm.now choices.now first starts.items) }
{
    let mut starts = nothing_kept(alloc, grm.rules_len())?;
    'passes: while grow_all(grm, choices, &mut starts, first) {}
    Ok(starts)
}

// Keeps how each production can begin with the token, if its rule couldn't yet, and returns whether any was new.
fn grow_all<StorageT: StorageIndex>(
    grm: &YaccGrammar<StorageT>,
    choices: &[Option<Choice<StorageT>>],
    starts: &mut [Option<Start<StorageT>>],
    first: TIdx<StorageT>,
) -> bool
    requires kept { AreRightStarts StorageT.index grm.now choices.now first starts.old }
    ensures kept { AreRightStarts StorageT.index grm.now choices.now first starts.new }
    ensures grown { OnTrue result (HasMoreStarts StorageT.index starts.old starts.new) }
    ensures closed { OnFalse result (AreAllStarts StorageT.index grm.now choices.now first starts.new) }
{
    let mut grown = false;
    for prod in 0..grm.prods_len() {
        let pidx = PIdx(StorageT::from_index(prod).unwrap());
        if grow(grm, choices, starts, first, pidx) {
            grown = true;
        }
    }
    grown
}

// Keeps how the production can begin with the token, if its rule couldn't yet, and returns whether it was new.
fn grow<StorageT: StorageIndex>(
    grm: &YaccGrammar<StorageT>,
    choices: &[Option<Choice<StorageT>>],
    starts: &mut [Option<Start<StorageT>>],
    first: TIdx<StorageT>,
    pidx: PIdx<StorageT>,
) -> bool
    requires prod { StorageT.index pidx.0 < prods_len grm.now }
    requires kept { AreRightStarts StorageT.index grm.now choices.now first starts.old }
    ensures kept { AreRightStarts StorageT.index grm.now choices.now first starts.new }
    ensures grown { OnTrue result (HasMoreStarts StorageT.index starts.old starts.new) }
    ensures same { OnFalse result (starts.new ≡ starts.old) }
    ensures closed { OnFalse result (CanStartBy StorageT.index grm.now choices.now first starts.new pidx) }
{
    let rule = grm.prod_to_rule(pidx);
    if begins_by(starts, Symbol::Rule(rule), first) {
        return false;
    }
    match start_position(grm, choices, starts, first, pidx) {
        Some(place) => {
            keep(starts, usize::from(rule), Start { prod: pidx, place });
            true
        }
        None => false,
    }
}

// Keeps how the rule can begin.
fn keep<StorageT: StorageIndex>(
    starts: &mut [Option<Start<StorageT>>],
    rule: usize,
    start: Start<StorageT>,
)
    requires { rule < length starts.old }
    ensures { starts.new ≡ slice_set starts.old rule (Some start) }
{
    starts[rule] = Some(start);
}

// The place at which the production can begin with the token, if its symbols are productive and there is one.
fn start_position<StorageT: StorageIndex>(
    grm: &YaccGrammar<StorageT>,
    choices: &[Option<Choice<StorageT>>],
    starts: &[Option<Start<StorageT>>],
    first: TIdx<StorageT>,
    pidx: PIdx<StorageT>,
) -> Option<usize>
    requires { StorageT.index pidx.0 < prods_len grm.now }
    ensures { result ≡ begin_index_of_prod StorageT.index grm.now choices.now starts.now first pidx }
{
    match sum_of_lens(choices, grm.prod(pidx)) {
        Some(_) => position_of(choices, starts, grm.prod(pidx), first),
        None => None,
    }
}

/// The first place in the symbols that can begin with the token by the starts, if the symbols before it are nullable.
pub(crate) fn position_of<StorageT: StorageIndex>(
    choices: &[Option<Choice<StorageT>>],
    starts: &[Option<Start<StorageT>>],
    symbols: &[Symbol<StorageT>],
    first: TIdx<StorageT>,
) -> Option<usize>
    ensures { result ≡ begin_index_in StorageT.index choices.now starts.now first symbols.now }
{
    for (place, symbol) in symbols.iter().enumerate() {
        if begins_by(starts, *symbol, first) {
            return Some(place);
        }
        if len_of(choices, *symbol) != Some(0) {
            return None;
        }
    }
    None
}

// Whether the symbol is the token, or a rule that can begin with it by the starts.
fn begins_by<StorageT: StorageIndex>(
    starts: &[Option<Start<StorageT>>],
    symbol: Symbol<StorageT>,
    first: TIdx<StorageT>,
) -> bool
    ensures { result ≡ begins_with StorageT.index starts.now first symbol }
{
    match symbol {
        Symbol::Token(token) => usize::from(token) == usize::from(first),
        Symbol::Rule(_) => start_of(starts, symbol).is_some(),
    }
}

/// What is kept of the symbol, if it is a rule.
pub(crate) fn start_of<StorageT: StorageIndex>(
    starts: &[Option<Start<StorageT>>],
    symbol: Symbol<StorageT>,
) -> Option<Start<StorageT>>
    ensures { IsStartFor StorageT.index starts.now symbol result }
{
    match symbol {
        Symbol::Token(_) => None,
        Symbol::Rule(rule) => match starts.get(usize::from(rule)) {
            Some(start) => *start,
            None => None,
        },
    }
}
