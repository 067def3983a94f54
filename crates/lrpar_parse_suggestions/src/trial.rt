//! The trial of a change: a run over the changed tokens, from the stack before the change on.
ghost use Rattle.std.specs.Prelude.{◌≡◌, ◌↔◌, IfOk, IsTrue, OnOk};
ghost use Rattle.lrpar_table_rows.specs.PlainRows.{plain_action};
ghost use Rattle.lrpar_table_rows.specs.Table.{Accepts};
ghost use Rattle.lrpar_table_shared_stacks.specs.SharedStacks.{Extends};

use crate::change::{Change, Suggestion};
use lrpar_grammar::span::{StorageIndex, TIdx};
use lrpar_table_check::check::ParserData;
use lrpar_table_rows::table::Action;
use lrpar_table_shared_stacks::shared_stacks::SharedStacks;
use std::alloc::AllocError;

/// How many places past the error a run is followed.
const MOST_REACH: usize = 12;

/// The tokens of a text, and the place of its error. The stacks are those of one `SharedStacks`, which goes from stack to stack.
#[derive(Drop)]
pub(crate) struct Trials<'a, StorageT: StorageIndex> {
    pub(crate) data: &'a ParserData<StorageT>,
    pub(crate) tokens: &'a [TIdx<StorageT>],
    pub(crate) place: usize,
}

impl<'a, StorageT: StorageIndex> Trials<'a, StorageT> {
    ghost use Rattle.lrpar_parse_suggestions.specs.TrialView.{CanChange, CanCome, ComesFar, FeedsNow, HasStack, HasTokensBefore, IsChangedFed, IsNearError, IsTried, PutsIn, TellsAccepts, TellsHelp, TellsWhetherAccepts, last_place_of, place_after};

    /// The suggestion to make the change at the place, if it helps. `from` is the number of the stack before the place.
    pub(crate) fn try_change(
        &self,
        stacks: &mut SharedStacks<StorageT>,
        from: usize,
        place: usize,
        change: Change<StorageT>,
    ) -> Result<Option<Suggestion<StorageT>>, AllocError>
        requires near { IsNearError self.now place }
        requires before { HasTokensBefore StorageT.index self.now stacks.old place from }
        ensures tried { IfOk result (IsTried StorageT.index self.now place change) }
        ensures extends { OnOk result (Extends stacks.old stacks.new) }
    {
        if !self.can_change(place, change) {
            return Ok(None);
        }
        stacks.go_to(from);
        if !self.put_in(stacks, change)? {
            return Ok(None);
        }
        let stop = self.feed_far(stacks, place, change)?;
        let accepts = self.accepts(stacks, stop)?;
        if !self.helps(place, change, stop, accepts) {
            return Ok(None);
        }
        Ok(Some(Suggestion {
            place,
            change,
            reach: stop.saturating_sub(self.place),
            accepts,
        }))
    }

    // Whether the change can be made at the place.
    fn can_change(&self, place: usize, change: Change<StorageT>) -> bool
        ensures { IsTrue result ↔ CanChange StorageT.index self.now place change }
    {
        match change {
            Change::Delete => place < self.tokens.len(),
            Change::Insert(token) => place <= self.tokens.len() && self.can_come(token),
            Change::Replace(token) => match self.tokens.get(place) {
                Some(old) => usize::from(*old) != usize::from(token) && self.can_come(token),
                None => false,
            },
        }
    }

    // Whether the token is one of the grammar other than the end token.
    fn can_come(&self, token: TIdx<StorageT>) -> bool
        ensures { IsTrue result ↔ CanCome StorageT.index self.now token }
    {
        usize::from(token) < usize::from(self.data.grm().eof_token_idx())
    }

    // Feeds the token that the change puts in, if there is one; returns whether it was fed.
    fn put_in(
        &self,
        stacks: &mut SharedStacks<StorageT>,
        change: Change<StorageT>,
    ) -> Result<bool, AllocError>
        requires stack { HasStack self.now stacks.old }
        ensures puts { IfOk result (PutsIn StorageT.index self.now change stacks.old stacks.new) }
        ensures stack { HasStack self.now stacks.new }
        ensures extends { OnOk result (Extends stacks.old stacks.new) }
    {
        match change {
            Change::Delete => Ok(true),
            Change::Insert(token) => self.feed(stacks, token),
            Change::Replace(token) => self.feed(stacks, token),
        }
    }

    // Feeds the tokens after the change, as far as they can be fed and a run is followed; returns the place to which that comes.
    fn feed_far(
        &self,
        stacks: &mut SharedStacks<StorageT>,
        place: usize,
        change: Change<StorageT>,
    ) -> Result<usize, AllocError>
        requires near { IsNearError self.now place }
        requires can { CanChange StorageT.index self.now place change }
        requires fed { IsChangedFed StorageT.index self.now place change stacks.old }
        ensures far { IfOk result (ComesFar StorageT.index self.now place change stacks.new) }
        ensures stack { HasStack self.now stacks.new }
        ensures extends { OnOk result (Extends stacks.old stacks.new) }
    {
        let last = self.last_place();
        let first = self.after(place, change);
        'feeding: for at in first..last {
            if !self.feed(stacks, self.tokens[at])? {
                return Ok(at);
            }
        }
        Ok(last)
    }

    // The place up to which a run is followed.
    fn last_place(&self) -> usize
        ensures { result ≡ last_place_of self.now }
    {
        let most = self.place.saturating_add(MOST_REACH);
        most.min(self.tokens.len())
    }

    // The place of the first lexeme after those that the change takes out.
    fn after(&self, place: usize, change: Change<StorageT>) -> usize
        requires can { CanChange StorageT.index self.now place change }
        ensures { result ≡ place_after StorageT.index place change }
    {
        match change {
            Change::Insert(_) => place,
            Change::Delete | Change::Replace(_) => place + 1,
        }
    }

    // Whether the change helps: the text is accepted; or a run comes past the error, and past the change.
    fn helps(&self, place: usize, change: Change<StorageT>, stop: usize, accepts: bool) -> bool
        requires can { CanChange StorageT.index self.now place change }
        ensures { IsTrue result ↔ TellsHelp StorageT.index self.now place change stop accepts }
    {
        accepts || (self.place < stop && self.after(place, change) < stop)
    }

    // Whether the place is the end of the text, and the stack then accepts.
    fn accepts(&self, stacks: &mut SharedStacks<StorageT>, stop: usize) -> Result<bool, AllocError>
        requires stack { HasStack self.now stacks.old }
        ensures accepts { IfOk result (TellsAccepts self.now stop stacks.old) }
        ensures extends { OnOk result (Extends stacks.old stacks.new) }
    {
        if stop == self.tokens.len() {
            self.try_accept(stacks)
        } else {
            Ok(false)
        }
    }

    // Makes all reductions at the end token; returns whether the stack then accepts.
    fn try_accept(&self, stacks: &mut SharedStacks<StorageT>) -> Result<bool, AllocError>
        requires stack { HasStack self.now stacks.old }
        ensures accepts { IfOk result (TellsWhetherAccepts self.now stacks.old) }
        ensures extends { OnOk result (Extends stacks.old stacks.new) }
    {
        // A checked table has the grammar's end token.
        let _lemma = self.data.stable();
        let end = self.data.grm().eof_token_idx();
        let settled = self.data.settle_on(stacks, end)?;
        Ok(is_accept(settled.action))
    }

    // Feeds the token, if it is one of the table; returns whether it was fed.
    pub(crate) fn feed(
        &self,
        stacks: &mut SharedStacks<StorageT>,
        token: TIdx<StorageT>,
    ) -> Result<bool, AllocError>
        requires stack { HasStack self.now stacks.old }
        ensures fed { IfOk result (FeedsNow StorageT.index self.now token stacks.old stacks.new) }
        ensures stack { HasStack self.now stacks.new }
        ensures extends { OnOk result (Extends stacks.old stacks.new) }
    {
        if usize::from(token) >= self.data.stable().tokens_len() {
            return Ok(false);
        }
        self.data.feed_on(stacks, token)
    }
}

// Whether the action is to accept.
fn is_accept<StorageT: StorageIndex>(action: Action<StorageT>) -> bool
    ensures { IsTrue result ↔ (plain_action StorageT.index action ≡ Accepts) }
{
    match action {
        Action::Accept => true,
        Action::Shift(_) | Action::Reduce(_) | Action::Error => false,
    }
}
