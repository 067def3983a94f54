//! The search for changes that help: each change at the error's place and at the two places before it is tried.
ghost use Rattle.std.specs.Prelude.{◌≡◌, ◌<◌, ◌+◌, [], IfOk, OnOk};
ghost use Rattle.lrpar_parse_suggestions.specs.PlainSuggestions.{AreInOrder, AreSuggestionsOf, HasSuggestionsOf};
ghost use Rattle.lrpar_table_shared_stacks.specs.SharedStacks.{Extends};

use crate::change::{Change, Suggestion};
use crate::trial::Trials;
use lrpar_grammar::span::{StorageIndex, TIdx};
use lrpar_table_check::check::ParserData;
use lrpar_table_shared_stacks::shared_stacks::SharedStacks;
use std::alloc::{AllocError, Global};

/// The changes of one lexeme that help, at the error's place and at the two places before it, and how far a run comes after each.
///
/// `tokens` are those of a text's lexemes, and `place` is where a run over them stops; the number of tokens is the end of the text. A
/// change helps if the text is then accepted, or if the run then comes past the error, and has fed a lexeme after the change. A run is
/// followed to the twelfth place past the error. The changes at the error's place come first, then those one place before it; at each
/// place first `Delete`, then `Insert` and then `Replace` by ascending tokens. A token that isn't one of the grammar can't be fed, and
/// a place past the end has no suggestions.
///
/// The tokens before the places are fed once. Then there are at most `3 * (2 * tokens + 1)` trials, of at most 14 lexemes, 'tokens' being
/// the number of the grammar's. Most trials end with a look at one entry of the table. Beside the suggestions it takes no more memory than
/// the stacks. `Err`: out of memory.
pub fn suggestions<StorageT: StorageIndex>(
    alloc: Global,
    data: &ParserData<StorageT>,
    tokens: &[TIdx<StorageT>],
    place: usize,
) -> Result<Vec<Suggestion<StorageT>>, AllocError>
    // Each entry is a change that helps, with its exact reach, and whether the text is then accepted.
    ensures each { IfOk result (AreSuggestionsOf StorageT.index data.now tokens.now place) }

    // No other change near the error helps.
    ensures all { IfOk result (HasSuggestionsOf StorageT.index data.now tokens.now place) }

    // They are in order, and each is there once.
    ensures order { IfOk result (AreInOrder StorageT.index data.now.grammar) }
{
    let mut suggestions = Vec::new(alloc);
    if place > tokens.len() {
        return Ok(suggestions);
    }
    let trials = Trials {
        data,
        tokens,
        place,
    };
    let mut stacks = trials.start_stacks(alloc)?;
    let numbers = trials.number_stacks(alloc, &mut stacks)?;
    trials.add_all(&mut stacks, &numbers, &mut suggestions)?;
    Ok(suggestions)
}

impl<'a, StorageT: StorageIndex> Trials<'a, StorageT> {
    ghost use Rattle.lrpar_parse_suggestions.specs.TrialView.{AreNumbersOf, HasNumber, HasTokensBefore, IsNearError, IsWithinText, ListsAhead, ListsFrom, changes_of, tokens_new};

    // Adds the suggestions at each place, the last place first, to the empty list.
    fn add_all(
        &self,
        stacks: &mut SharedStacks<StorageT>,
        numbers: &[usize],
        suggestions: &mut Vec<Suggestion<StorageT>>,
    ) -> Result<(), AllocError>
        requires within { IsWithinText self.now }
        requires numbers { AreNumbersOf StorageT.index self.now stacks.old numbers.now }
        requires empty { suggestions.old.items ≡ [] }
        ensures { OnOk result (ListsFrom StorageT.index self.now 0 suggestions.new.items) }
    {
        let first = self.first_place();
        let mut left = numbers.len();
        'places: while left > 0 {
            left -= 1;
            self.add_changes(stacks, numbers[left], first + left, suggestions)?;
        }
        Ok(())
    }

    // Adds the suggestions at the place. `from` is the number of the stack before it.
    fn add_changes(
        &self,
        stacks: &mut SharedStacks<StorageT>,
        from: usize,
        place: usize,
        suggestions: &mut Vec<Suggestion<StorageT>>,
    ) -> Result<(), AllocError>
        requires near { IsNearError self.now place }
        requires before { HasTokensBefore StorageT.index self.now stacks.old place from }
        requires listed { ListsFrom StorageT.index self.now (place + 1) suggestions.old.items }
        ensures listed { OnOk result (ListsFrom StorageT.index self.now place suggestions.new.items) }
        ensures extends { OnOk result (Extends stacks.old stacks.new) }
    {
        'changes: for number in 0..self.changes_len() {
            self.add_change(stacks, from, place, number, suggestions)?;
        }
        Ok(())
    }

    // Adds the suggestion of the change with this number, if it helps.
    fn add_change(
        &self,
        stacks: &mut SharedStacks<StorageT>,
        from: usize,
        place: usize,
        number: usize,
        suggestions: &mut Vec<Suggestion<StorageT>>,
    ) -> Result<(), AllocError>
        requires near { IsNearError self.now place }
        requires before { HasTokensBefore StorageT.index self.now stacks.old place from }
        requires number { number < changes_of self.now }
        requires listed { ListsAhead StorageT.index self.now place number suggestions.old.items }
        ensures listed { OnOk result (ListsAhead StorageT.index self.now place (number + 1) suggestions.new.items) }
        ensures extends { OnOk result (Extends stacks.old stacks.new) }
    {
        let change = self.change_at(number);
        match self.try_change(stacks, from, place, change)? {
            None => Ok(()),
            Some(suggestion) => {
                suggestions.push(suggestion)?;
                Ok(())
            }
        }
    }

    // How many changes are tried at a place.
    fn changes_len(&self) -> usize
        ensures { result ≡ changes_of self.now }
    {
        2 * self.new_tokens() + 1
    }

    // The change with this number: Delete, then the insertions by ascending token, then the replacements.
    fn change_at(&self, number: usize) -> Change<StorageT>
        requires { number < changes_of self.now }
        ensures { HasNumber StorageT.index self.now number result }
    {
        let tokens = self.new_tokens();
        if number == 0 {
            Change::Delete
        } else if number <= tokens {
            Change::Insert(self.new_token(number - 1))
        } else {
            Change::Replace(self.new_token(number - 1 - tokens))
        }
    }

    // How many tokens may come: those of the grammar, without the end token.
    fn new_tokens(&self) -> usize
        ensures is { result ≡ tokens_new self.now }
        ensures few { result < StorageT.limit }
    {
        self.data.grm().tokens_len() - 1
    }

    // The token with this number.
    fn new_token(&self, number: usize) -> TIdx<StorageT>
        requires { number < tokens_new self.now }
        ensures { StorageT.index result.0 ≡ number }
    {
        let _lemma = self.new_tokens();
        TIdx(StorageT::from_index(number).unwrap())
    }
}
