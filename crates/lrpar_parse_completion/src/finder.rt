//! Tokens that finish a stack of any table all of whose stacks can be completed.
ghost use Rattle.std.specs.Prelude.{◌≡◌, ◌<◌, ◌↔◌, [], IfOk, IfSome, IsTrue, OnOk, length};
ghost use Rattle.lrpar_table_rows.specs.PlainRows.{plain_action};
ghost use Rattle.lrpar_table_rows.specs.Table.{Accepts};

use crate::cheapest::cheapest_completion;
use crate::completer::Completer;
use lrpar_grammar::span::{StIdx, StorageIndex, TIdx};
use lrpar_table_check::check::ParserData;
use lrpar_table_rows::table::Action;
use lrpar_table_sentences::shortest::Shortest;
use std::alloc::{AllocError, Global};

/// Tokens, and the stack to which they lead.
pub(crate) struct Reached<StorageT: StorageIndex> {
    tokens: Vec<TIdx<StorageT>>,
    stack: Vec<StIdx<StorageT>>,
}

impl<StorageT: StorageIndex> Drop for Reached<StorageT> {
    fn drop(self) {
        let Reached { tokens, stack } = self;
        drop(tokens);
        drop(stack);
    }
}

/// A table all of whose stacks can be completed, and the minimal sentences of its grammar's rules.
#[derive(Drop)]
pub(crate) struct Finder<'a, StorageT: StorageIndex> {
    pub(crate) checked: &'a ParserData<StorageT>,
    pub(crate) shortest: &'a Shortest<StorageT>,
}

impl<'a, StorageT: StorageIndex> Finder<'a, StorageT> {
    ghost use Rattle.lrpar_parse_completion.specs.FinderView.{AcceptsStates, AddsNext, AddsNextAt, AllCanFinish, AreStacksOf, FindsAfter, FindsBy, FindsFinish, HasShortest, HasStackOf, HasStates, InsertsOne};

    /// Tokens that finish the stack, bottom first. They are those of its cheapest completion, or else those of the completion that the
    /// grammar's minimal sentences make, if these are right. If conflicts that were resolved lead both astray, stacks are searched that are
    /// reached by one token, by two, and so on, up to the first that accepts, or from which such a completion is right.
    pub(crate) fn find(
        &self,
        alloc: Global,
        stack: &[StIdx<StorageT>],
    ) -> Result<Vec<TIdx<StorageT>>, AllocError>
        requires shortest { HasShortest self.now }
        requires all { AllCanFinish self.now }
        requires stack { HasStates StorageT.index self.now stack.now }
        ensures { IfOk result (λ tokens. FindsFinish StorageT.index self.now stack.now tokens.items) }
    {
        // A checked table has the grammar's tokens.
        let _lemma = self.checked.stable().tokens_len();
        let first = begin(alloc, stack)?;
        let mut found = Vec::new(alloc);
        found.push(first)?;
        let mut place = 0;
        'stacks: while place < found.len() {
            if let Some(tokens) = self.finish(alloc, &found[place])? {
                return Ok(tokens);
            }
            self.add_next(alloc, &mut found, place)?;
            place += 1;
        }
        unreachable!()
    }

    // The tokens that lead to the stack, with those that finish it: none, if it accepts; or those of a completion of it that is right.
    fn finish(
        &self,
        alloc: Global,
        reached: &Reached<StorageT>,
    ) -> Result<Option<Vec<TIdx<StorageT>>>, AllocError>
        requires shortest { HasShortest self.now }
        requires stack { HasStackOf StorageT.index self.now reached.now }
        ensures { IfOk result (FindsAfter StorageT.index self.now reached.now) }
    {
        if self.accepts(alloc, &reached.stack)? {
            let tokens = Vec::from_slice(alloc, &reached.tokens)?;
            return Ok(Some(tokens));
        }
        if let Some(found) = self.finish_cheaply(alloc, reached)? {
            return Ok(Some(found));
        }
        let completer = Completer {
            data: self.checked,
            shortest: self.shortest,
        };
        match completer.completion(alloc, &reached.stack)? {
            Some(more) => self.finish_by(alloc, reached, &more),
            None => Ok(None),
        }
    }

    // The tokens that lead to the stack, with those of its cheapest completion, if that is right.
    fn finish_cheaply(
        &self,
        alloc: Global,
        reached: &Reached<StorageT>,
    ) -> Result<Option<Vec<TIdx<StorageT>>>, AllocError>
        requires shortest { HasShortest self.now }
        requires stack { HasStackOf StorageT.index self.now reached.now }
        ensures { IfOk result (λ found. IfSome found (FindsBy StorageT.index self.now reached.now)) }
    {
        match cheapest_completion(alloc, self, &reached.stack)? {
            Some(more) => self.finish_by(alloc, reached, &more),
            None => Ok(None),
        }
    }

    // The tokens that lead to the stack, with these, if these finish it.
    fn finish_by(
        &self,
        alloc: Global,
        reached: &Reached<StorageT>,
        more: &[TIdx<StorageT>],
    ) -> Result<Option<Vec<TIdx<StorageT>>>, AllocError>
        requires stack { HasStackOf StorageT.index self.now reached.now }
        ensures { IfOk result (λ found. IfSome found (FindsBy StorageT.index self.now reached.now)) }
    {
        let mut stack = Vec::from_slice(alloc, &reached.stack)?;
        let mut tokens = Vec::from_slice(alloc, &reached.tokens)?;
        'more: for token in more {
            if !self.feed(&mut stack, *token)? {
                return Ok(None);
            }
            tokens.push(*token)?;
        }
        if self.accepts(alloc, &stack)? {
            Ok(Some(tokens))
        } else {
            Ok(None)
        }
    }

    // Adds the stacks to which a token leads from the one at the place.
    fn add_next(
        &self,
        alloc: Global,
        found: &mut Vec<Reached<StorageT>>,
        place: usize,
    ) -> Result<(), AllocError>
        requires place { place < length found.old.items }
        requires stacks { AreStacksOf StorageT.index self.now found.old.items }
        ensures { OnOk result (AddsNext StorageT.index self.now place found.old found.new) }
    {
        for number in 0..self.checked.stable().tokens_len() {
            let token = TIdx(StorageT::from_index(number).unwrap());
            self.add_next_at(alloc, found, place, token)?;
        }
        Ok(())
    }

    // Adds the stack to which the token leads from the one at the place, if it does.
    fn add_next_at(
        &self,
        alloc: Global,
        found: &mut Vec<Reached<StorageT>>,
        place: usize,
        token: TIdx<StorageT>,
    ) -> Result<(), AllocError>
        requires place { place < length found.old.items }
        requires stacks { AreStacksOf StorageT.index self.now found.old.items }
        ensures { OnOk result (AddsNextAt StorageT.index self.now place token found.old found.new) }
    {
        let from = &found[place];
        let mut stack = Vec::from_slice(alloc, &from.stack)?;
        if !self.feed(&mut stack, token)? {
            return Ok(());
        }
        let mut tokens = Vec::from_slice(alloc, &from.tokens)?;
        tokens.push(token)?;
        found.push(Reached { tokens, stack })?;
        Ok(())
    }

    // Feeds the token, if it is one of the grammar other than the end token; returns whether it was fed.
    fn feed(
        &self,
        stack: &mut Vec<StIdx<StorageT>>,
        token: TIdx<StorageT>,
    ) -> Result<bool, AllocError>
        requires { HasStates StorageT.index self.now stack.old.items }
        ensures fed { IfOk result (InsertsOne StorageT.index self.now token stack.old stack.new) }
        ensures stack { HasStates StorageT.index self.now stack.new.items }
    {
        // A checked table has the grammar's tokens.
        let _lemma = self.checked.stable();
        if usize::from(token) >= usize::from(self.checked.grm().eof_token_idx()) {
            return Ok(false);
        }
        self.checked.feed(stack, token)
    }

    // Whether the stack accepts at the end token.
    fn accepts(&self, alloc: Global, stack: &[StIdx<StorageT>]) -> Result<bool, AllocError>
        requires { HasStates StorageT.index self.now stack.now }
        ensures { IfOk result (λ accepts. IsTrue accepts ↔ AcceptsStates StorageT.index self.now stack.now) }
    {
        // A checked table has the grammar's end token.
        let _lemma = self.checked.stable();
        let end = self.checked.grm().eof_token_idx();
        let mut copy = Vec::from_slice(alloc, stack)?;
        let settled = self.checked.settle_on(&mut copy, end)?;
        Ok(is_accept(settled.action))
    }
}

// Whether the action is to accept.
fn is_accept<StorageT: StorageIndex>(action: Action<StorageT>) -> bool
    ensures { IsTrue result ↔ (plain_action StorageT.index action ≡ Accepts) }
{
    match action {
        Action::Accept => true,
        Action::Shift(_) | Action::Reduce(_) | Action::Error => false,
    }
}

// The stack, to which no tokens lead.
fn begin<StorageT: StorageIndex>(
    alloc: Global,
    stack: &[StIdx<StorageT>],
) -> Result<Reached<StorageT>, AllocError>
    ensures { IfOk result (λ reached. (reached.tokens.items ≡ []) × (reached.stack.items ≡ stack.now)) }
{
    let stack = Vec::from_slice(alloc, stack)?;
    Ok(Reached {
        tokens: Vec::new(alloc),
        stack,
    })
}
