//! The minimal sentences of rules, fixed in the order of their lengths, as in Knuth, 'A Generalization of Dijkstra's
//! Algorithm'.
ghost use Rattle.std.specs.Prelude.{◌≡◌, ◌<◌, IfOk, length};
ghost use Rattle.lrpar_grammar.specs.Grammar.{prods_len, rules_len};
ghost use Rattle.lrpar_table_sentences.specs.Choices.{RightSoFar, AreShortestKept, IsChoiceFor, choices_of};
ghost use Rattle.lrpar_table_sentences.specs.Lens.{IsLeastOpen, LeavesFewerOpen, NoneIsBelow, lesser_of, open_prod_len, symbol_len, symbols_len};

use crate::kept::nothing_kept;
use lrpar_grammar::grammar::YaccGrammar;
use lrpar_grammar::span::{PIdx, RIdx, StorageIndex, Symbol};
use std::alloc::{AllocError, Global};

/// What is kept of a productive rule: the length of a minimal sentence, and the production that its tree begins with.
#[derive(Clone, Copy, Debug, PartialEq, Eq)]
pub(crate) struct Choice<StorageT> {
    pub(crate) len: usize,
    pub(crate) prod: PIdx<StorageT>,
}

/// What is kept of each rule.
pub(crate) fn find_minimal_sentences<StorageT: StorageIndex>(
    alloc: Global,
    grm: &YaccGrammar<StorageT>,
) -> Result<Vec<Option<Choice<StorageT>>>, AllocError>
    ensures { IfOk result (λ choices. AreShortestKept StorageT.index grm.now choices.items) }
{
    // The proof needs that the grammar is well-formed.
    let _lemma = grm.start_prod();
    let mut choices = nothing_kept(alloc, grm.rules_len())?;
    'levels: while let Some(len) = least_open(grm, &choices) {
        keep_least(grm, &mut choices, len);
    }
    Ok(choices)
}

// The least length of a production whose rule has nothing kept yet.
fn least_open<StorageT: StorageIndex>(
    grm: &YaccGrammar<StorageT>,
    choices: &[Option<Choice<StorageT>>],
) -> Option<usize>
    requires rules { length choices.now ≡ rules_len grm.now }
    ensures { IsLeastOpen StorageT.index grm.now choices.now result }
{
    let mut least = None;
    for prod in 0..grm.prods_len() {
        let pidx = PIdx(StorageT::from_index(prod).unwrap());
        least = lesser(least, open_len(grm, choices, pidx));
    }
    least
}

/// The lesser one of two numbers, as far as there are.
pub(crate) fn lesser(one: Option<usize>, other: Option<usize>) -> Option<usize>
    ensures { result ≡ lesser_of one other }
{
    match (one, other) {
        (Some(a), Some(b)) => { if b < a { Some(b) } else { Some(a) } }
        (Some(a), None) => Some(a),
        (None, b) => b,
    }
}

// The length of the production, if its rule has nothing kept yet.
fn open_len<StorageT: StorageIndex>(
    grm: &YaccGrammar<StorageT>,
    choices: &[Option<Choice<StorageT>>],
    pidx: PIdx<StorageT>,
) -> Option<usize>
    requires prod { StorageT.index pidx.0 < prods_len grm.now }
    requires rules { length choices.now ≡ rules_len grm.now }
    ensures { result ≡ open_prod_len StorageT.index grm.now choices.now pidx }
{
    let rule = usize::from(grm.prod_to_rule(pidx));
    match choices[rule] {
        Some(_) => None,
        None => sum_of_lens(choices, grm.prod(pidx)),
    }
}

// Keeps each open production that has the length, which is the least one.
fn keep_least<StorageT: StorageIndex>(
    grm: &YaccGrammar<StorageT>,
    choices: &mut [Option<Choice<StorageT>>],
    len: usize,
)
    requires right { RightSoFar StorageT.index grm.now choices.old }
    requires least { NoneIsBelow grm.now (choices_of StorageT.index choices.old) len }
    ensures right { RightSoFar StorageT.index grm.now choices.new }
    ensures fewer { LeavesFewerOpen StorageT.index grm.now choices.old choices.new len }
{
    for prod in 0..grm.prods_len() {
        let pidx = PIdx(StorageT::from_index(prod).unwrap());
        if open_len(grm, choices, pidx) == Some(len) {
            let rule = usize::from(grm.prod_to_rule(pidx));
            choices[rule] = Some(Choice { len, prod: pidx });
        }
    }
}

/// The length of a symbol: one for a token, and what is kept of a rule.
pub(crate) fn len_of<StorageT: StorageIndex>(
    choices: &[Option<Choice<StorageT>>],
    symbol: Symbol<StorageT>,
) -> Option<usize>
    ensures { result ≡ symbol_len StorageT.index choices.now symbol }
{
    match symbol {
        Symbol::Token(_) => Some(1),
        Symbol::Rule(rule) => match choice_of(choices, rule) {
            Some(choice) => Some(choice.len),
            None => None,
        },
    }
}

/// What is kept of the rule; out of range, nothing.
pub(crate) fn choice_of<StorageT: StorageIndex>(
    choices: &[Option<Choice<StorageT>>],
    rule: RIdx<StorageT>,
) -> Option<Choice<StorageT>>
    ensures { IsChoiceFor StorageT.index choices.now rule result }
{
    match choices.get(usize::from(rule)) {
        Some(choice) => *choice,
        None => None,
    }
}

/// The length of symbols.
pub(crate) fn sum_of_lens<StorageT: StorageIndex>(
    choices: &[Option<Choice<StorageT>>],
    symbols: &[Symbol<StorageT>],
) -> Option<usize>
    ensures { result ≡ symbols_len StorageT.index choices.now symbols.now }
{
    let mut len: usize = 0;
    for symbol in symbols {
        match len_of(choices, *symbol) {
            Some(more) => len = len.saturating_add(more),
            None => return None,
        }
    }
    Some(len)
}
